//! Calls on a window of an image: it is filled, turned into a mosaic, or moved.

ghost use Rattle.std.specs.Prelude.{◌≡◌, length};
ghost use Rattle.imgref_c.specs.Words.{as_window, mosaic_of, mosaic_status_of, move_status_of, seen_in, uniform, window_status_of, WritesIn};

use crate::images::ClaimedShape;
use crate::status::Status;
use image_ops::mosaic_window;
use image_shape::Window;
use row_mover::move_pixels;

// Every pixel of the window becomes `value`.
pub(crate) fn fill_window<T: Copy>(
    cells: &mut [T],
    claimed: ClaimedShape,
    window: Window,
    value: T,
) -> Status
    ensures status { result ≡ window_status_of claimed (length cells.old) (as_window window) }
    ensures writes { WritesIn result claimed cells.old cells.new (as_window window)
        (uniform window.width window.height value) }
{
    if !claimed.is_image(cells.len()) {
        return Status::NotAnImage;
    }
    let shape = claimed.shape();
    if !shape.has_window(window) {
        return Status::WindowOutside;
    }
    image_ops::fill_window(cells, shape, window, value);
    Status::Done
}

// Each tile of the window, from its corner on, gets the pixel that was at the tile's corner.
pub(crate) fn mosaic<T: Copy>(
    cells: &mut [T],
    claimed: ClaimedShape,
    window: Window,
    tile_width: usize,
    tile_height: usize,
) -> Status
    ensures status { result ≡ mosaic_status_of claimed (length cells.old) (as_window window)
        tile_width tile_height }
    ensures writes { WritesIn result claimed cells.old cells.new (as_window window)
        (mosaic_of tile_width tile_height (seen_in claimed cells.old (as_window window))) }
{
    if !claimed.is_image(cells.len()) {
        return Status::NotAnImage;
    }
    let shape = claimed.shape();
    if !shape.has_window(window) {
        return Status::WindowOutside;
    }
    if tile_width == 0 || tile_height == 0 {
        return Status::NoTile;
    }
    mosaic_window(cells, shape, window, tile_width, tile_height);
    Status::Done
}

// The window `to` gets the pixels that the window `from` had, overlapping or not.
pub(crate) fn move_window<T: Copy>(
    cells: &mut [T],
    claimed: ClaimedShape,
    from: Window,
    to: Window,
) -> Status
    ensures status { result
        ≡ move_status_of claimed (length cells.old) (as_window from) (as_window to) }
    ensures writes { WritesIn result claimed cells.old cells.new (as_window to)
        (seen_in claimed cells.old (as_window from)) }
{
    if !claimed.is_image(cells.len()) {
        return Status::NotAnImage;
    }
    let shape = claimed.shape();
    if !shape.has_window(from) || !shape.has_window(to) {
        return Status::WindowOutside;
    }
    if from.width != to.width || from.height != to.height {
        return Status::SizesDiffer;
    }
    move_pixels(cells, shape, from, to);
    Status::Done
}
