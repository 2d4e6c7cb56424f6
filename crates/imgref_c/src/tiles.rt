//! The tiles of a size, as numbers.

ghost use Rattle.std.specs.Prelude.{◌≡◌, ◌<◌, ◌^◌, length, Some, slice_get};
ghost use Rattle.imgref_c.specs.Words.{as_window, code, tile_status, tiles, tiles_status, Gives, Numbered};

use crate::status::Status;
use image_shape::{Shape, Window, tile_at, tiles_along};

// How many tiles a size has.
#[tactic(auto, using(crate::proofs::Numbering::count_fits, crate::proofs::Numbering::counted))]
fn count_of(width: usize, height: usize, tile_width: usize, tile_height: usize) -> usize
    requires width_bound { width < 2 ^ 32 }
    requires height_bound { height < 2 ^ 32 }
    requires tile_width { 0 < tile_width }
    requires tile_height { 0 < tile_height }
    ensures { result ≡ length (tiles width height tile_width tile_height) }
{
    tiles_along(height, tile_height) * tiles_along(width, tile_width)
}

// The number of tiles in a tile row of a size that has a tile with this number.
fn columns_of(
    width: usize,
    height: usize,
    tile_width: usize,
    tile_height: usize,
    number: usize,
) -> usize
    requires tile_width { 0 < tile_width }
    requires tile_height { 0 < tile_height }
    requires below { number < length (tiles width height tile_width tile_height) }
    ensures { Numbered width height tile_width tile_height number result }
{
    tiles_along(width, tile_width)
}

// The window of the tile with this number.
fn window_of(
    width: usize,
    height: usize,
    tile_width: usize,
    tile_height: usize,
    number: usize,
) -> Window
    requires tile_width { 0 < tile_width }
    requires tile_height { 0 < tile_height }
    requires below { number < length (tiles width height tile_width tile_height) }
    ensures { slice_get (tiles width height tile_width tile_height) number ≡ Some (as_window result) }
{
    let columns = columns_of(width, height, tile_width, tile_height, number);
    tile_at(
        width,
        height,
        tile_width,
        tile_height,
        number % columns,
        number / columns,
    )
}

// Whether this is the size of an image, and a tile has a pixel.
fn tested(width: usize, height: usize, tile_width: usize, tile_height: usize) -> Status
    ensures { result ≡ tiles_status width height tile_width tile_height }
{
    if Shape::checked(width, height, width.max(1)).is_none() {
        return Status::NotAnImage;
    }
    if tile_width == 0 || tile_height == 0 {
        return Status::NoTile;
    }
    Status::Done
}

/// Writes to `count` how many tiles of `tile_width` by `tile_height` pixels a size has.
#[unsafe(no_mangle)]
pub extern "C" fn imgref_tile_count(
    width: usize,
    height: usize,
    tile_width: usize,
    tile_height: usize,
    count: &mut usize,
) -> u32
    ensures status { result ≡ code (tiles_status width height tile_width tile_height) }
    ensures gives { Gives result count.old count.new
        (count.new ≡ length (tiles width height tile_width tile_height)) }
{
    let status = tested(width, height, tile_width, tile_height);
    if status == Status::Done {
        *count = count_of(width, height, tile_width, tile_height);
    }
    status.code()
}

/// Writes the window of the tile with this number to `window`. Tiles are counted row by row, from
/// left to right.
#[unsafe(no_mangle)]
pub extern "C" fn imgref_tile(
    width: usize,
    height: usize,
    tile_width: usize,
    tile_height: usize,
    number: usize,
    window: &mut Window,
) -> u32
    ensures status { result ≡ code (tile_status width height tile_width tile_height number) }
    ensures gives { Gives result window.old window.new
        (slice_get (tiles width height tile_width tile_height) number ≡ Some (as_window window.new)) }
{
    let status = tested(width, height, tile_width, tile_height);
    if status != Status::Done {
        return status.code();
    }
    if number >= count_of(width, height, tile_width, tile_height) {
        return Status::NoTile.code();
    }
    *window = window_of(width, height, tile_width, tile_height, number);
    Status::Done.code()
}
