//! Each call that writes, for pixels of any size.

ghost use Rattle.std.specs.Prelude.{◌<◌};
ghost use Rattle.image_model.specs.Layout.{Fits};
ghost use Rattle.imgref.specs.Shape.{shaped};

use image_tiles::{BandsMut, TilesMut};
use imgref::{Img, ImgRefMut, Shape};

// The side of a tile and the height of a band.
const TILE: usize = 16;

// Every pixel becomes this one, by one loop over all.
pub(crate) fn pixels_mut<T: Copy>(cells: &mut [T], shape: Shape, value: T)
    requires fits { Fits (shaped cells.old shape) }
{
    let mut image = ImgRefMut::from_parts(cells, shape);
    for pixel in image.pixels_mut() {
        *pixel = value;
    }
}

// Every pixel becomes this one, tile by tile.
pub(crate) fn tiles<T: Copy>(cells: &mut [T], shape: Shape, value: T)
    requires fits { Fits (shaped cells.old shape) }
{
    let mut tiles = TilesMut::new(ImgRefMut::from_parts(cells, shape), TILE, TILE);
    for _ in 0..usize::MAX {
        match tiles.next_tile() {
            Some(mut tile) => {
                if tile.is_valid() {
                    tile.fill(value);
                }
            }
            None => break,
        }
    }
}

// Every pixel becomes this one, band by band.
pub(crate) fn bands<T: Copy>(cells: &mut [T], shape: Shape, value: T)
    requires fits { Fits (shaped cells.old shape) }
{
    for mut band in BandsMut::new(ImgRefMut::from_parts(cells, shape), TILE) {
        if band.is_valid() {
            band.fill(value);
        }
    }
}
