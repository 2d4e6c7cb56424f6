//! Mosaics of means: each tile of a window shows the mean of its pixels.
//!
//! They are there for cells of one and of two bytes. A larger cell may be a whole pixel, and the mean
//! of such numbers means nothing.

ghost use Rattle.std.specs.Prelude.{◌≡◌, ◌*◌, ◌<◌, ◌^◌, length};
ghost use Rattle.imgref_c.specs.Words.{as_window, code, in_cells, means_of, means_by, pixel_mosaic_status, seen, tiled_status, ChangesPart, Writes};

use crate::images::ClaimedShape;
use crate::pixels::ClaimedPixels;
use crate::status::Status;
use image_means::{Sample, mean_window};
use image_shape::Window;

// Each tile of the window, from its corner on, gets the mean of its pixels.
fn mosaic_means<T: Sample>(
    cells: &mut [T],
    claimed: ClaimedPixels,
    window: Window,
    tile: (usize, usize),
) -> Status
    requires room { length cells.old < 2 ^ 63 }
    ensures status { result
        ≡ tiled_status claimed (length cells.old) (as_window window) tile.0 tile.1 }
    ensures writes { ChangesPart result claimed cells.old cells.new (as_window window)
        (means_by T.number T.sample claimed.channels tile.0 tile.1) }
{
    let (shape, part) = match claimed.part(cells.len(), window) {
        Ok(parts) => parts,
        Err(status) => return status,
    };
    if tile.0 == 0 || tile.1 == 0 {
        return Status::NoTile;
    }
    mean_window(cells, shape, part, claimed.channels, tile.0, tile.1);
    Status::Done
}

/// Each tile of the window, from its corner on, gets the mean of its pixels, rounded to the nearest
/// number: a half goes up. A pixel has 1 to 4 cells, next to one another in a row, and each cell is
/// the mean of such cells. Sizes, windows and tiles are counted in pixels, and the stride in cells.
#[unsafe(no_mangle)]
pub extern "C" fn imgref_u8_mosaic_means(
    cells: &mut [u8],
    width: usize,
    height: usize,
    stride: usize,
    channels: usize,
    window: Window,
    tile_width: usize,
    tile_height: usize,
) -> u32
    ensures status { result ≡ code (pixel_mosaic_status channels (length cells.old) width height
        stride (as_window window) tile_width tile_height) }
    ensures writes { Writes result (channels * width) height stride cells.old cells.new
        (channels * window.left) window.top (means_of channels tile_width tile_height
        (seen (channels * width) height stride cells.old (in_cells channels (as_window window)))) }
{
    let claimed = ClaimedShape::new(width, height, stride).of_pixels(channels);
    mosaic_means::<u8>(cells, claimed, window, (tile_width, tile_height)).code()
}

/// The same for cells of two bytes.
#[unsafe(no_mangle)]
pub extern "C" fn imgref_u16_mosaic_means(
    cells: &mut [u16],
    width: usize,
    height: usize,
    stride: usize,
    channels: usize,
    window: Window,
    tile_width: usize,
    tile_height: usize,
) -> u32
    ensures status { result ≡ code (pixel_mosaic_status channels (length cells.old) width height
        stride (as_window window) tile_width tile_height) }
    ensures writes { Writes result (channels * width) height stride cells.old cells.new
        (channels * window.left) window.top (means_of channels tile_width tile_height
        (seen (channels * width) height stride cells.old (in_cells channels (as_window window)))) }
{
    let claimed = ClaimedShape::new(width, height, stride).of_pixels(channels);
    mosaic_means::<u16>(cells, claimed, window, (tile_width, tile_height)).code()
}
