//! A mosaic that is made tile by tile, through `next_parts`.

ghost use Rattle.std.specs.Prelude.{◌≡◌, ◌<◌};
ghost use Rattle.image_model.specs.Layout.{Fits, SameOutside};
ghost use Rattle.image_model.specs.Grid.{grid_of};
ghost use Rattle.imgref.specs.Shape.{shaped, shape_width, shape_height};
ghost use Rattle.imgref.specs.Image.{buf_of, mut_layout};
ghost use Rattle.image_tiles.specs.Tiling.{windows_left};
ghost use Rattle.image_tiles.specs.Lending.{image_of, tiling_of};
ghost use Rattle.image_writes.specs.Mosaic.{mosaic};
ghost use Rattle.part_callers.specs.Flattening.{flat, all_flattened};

use image_tiles::TilesMut;
use imgref::{ImgRefMut, Shape};

// Every pixel becomes that of (0, 0).
fn flatten<T: Copy>(cells: &mut [T], shape: Shape)
    requires fits { Fits (shaped cells.old shape) }
    requires width_positive { 0 < shape_width shape }
    requires height_positive { 0 < shape_height shape }
    ensures grid { grid_of (shaped cells.new shape) ≡ flat (grid_of (shaped cells.old shape)) }
    ensures outside { SameOutside (shaped cells.old shape) (shaped cells.new shape) }
{
    let mut tile = ImgRefMut::from_parts(cells, shape);
    let pixel = tile[(0usize, 0usize)];
    tile.fill(pixel);
}

// The tiles that are left, one after the other.
fn flatten_rest<T: Copy>(tiles: &mut TilesMut<'_, T>)
    requires fits { Fits (mut_layout (image_of tiles.old)) }
    ensures same_reference { (buf_of (image_of tiles.new)).ghost_name
        ≡ (buf_of (image_of tiles.old)).ghost_name }
    ensures grid { grid_of (mut_layout (image_of tiles.new)) ≡ all_flattened
        (grid_of (mut_layout (image_of tiles.old))) (windows_left (tiling_of tiles.old)) }
    ensures outside { SameOutside (mut_layout (image_of tiles.old))
        (mut_layout (image_of tiles.new)) }
{
    while tiles.remaining() > 0 {
        let (cells, shape) = tiles.next_parts();
        flatten(cells, shape);
    }
}

// The image with its mosaic, handed back.
fn mosaic_of<'a, T: Copy>(
    img: ImgRefMut<'a, T>,
    tile_width: usize,
    tile_height: usize,
) -> ImgRefMut<'a, T>
    requires fits { Fits (mut_layout img) }
    requires tile_width { 0 < tile_width }
    requires tile_height { 0 < tile_height }
    ensures same_reference { (buf_of result).ghost_name ≡ (buf_of img.entry).ghost_name }
    ensures grid { grid_of (mut_layout result)
        ≡ mosaic tile_width tile_height (grid_of (mut_layout img.entry)) }
    ensures outside { SameOutside (mut_layout img.entry) (mut_layout result) }
{
    let mut tiles = TilesMut::new(img, tile_width, tile_height);
    flatten_rest(&mut tiles);
    tiles.into_img()
}

// The same lent cells, with the mosaic of what they show in a shape.
fn into_mosaic<T: Copy>(
    cells: &mut [T],
    shape: Shape,
    tile_width: usize,
    tile_height: usize,
) -> &mut [T]
    requires fits { Fits (shaped cells.old shape) }
    requires tile_width { 0 < tile_width }
    requires tile_height { 0 < tile_height }
    ensures same_reference { result.ghost_name ≡ cells.entry.ghost_name }
    ensures grid { grid_of (shaped result.now shape)
        ≡ mosaic tile_width tile_height (grid_of (shaped cells.old shape)) }
    ensures outside { SameOutside (shaped cells.old shape) (shaped result.now shape) }
{
    let image = ImgRefMut::from_parts(cells, shape);
    mosaic_of(image, tile_width, tile_height).into_buf()
}

/// Writes, at every place of `shape`, the old pixel at the corner of the place's tile, as
/// `mosaic_window` does. The padding stays.
///
/// # Requires
///
/// The cells fit the shape, and a tile has columns and rows.
pub fn mosaic_by_tiles<T: Copy>(
    cells: &mut [T],
    shape: Shape,
    tile_width: usize,
    tile_height: usize,
)
    requires fits { Fits (shaped cells.old shape) }
    requires tile_width { 0 < tile_width }
    requires tile_height { 0 < tile_height }
    ensures grid { grid_of (shaped cells.new shape)
        ≡ mosaic tile_width tile_height (grid_of (shaped cells.old shape)) }
    ensures outside { SameOutside (shaped cells.old shape) (shaped cells.new shape) }
{
    into_mosaic(cells, shape, tile_width, tile_height);
}
