//! Rows and columns that change places. A pixel has 1 to 4 cells, next to one another in a row.

ghost use Rattle.std.specs.Prelude.{◌≡◌, ◌*◌, length};
ghost use Rattle.imgref_c.specs.Words.{as_window, flipped, mirrored_by, part_status, rows_status, rows_swapped, shown_by, ChangesPart, WritesAll};

use crate::pixels::ClaimedPixels;
use crate::status::Status;
use image_shape::Window;
use image_turns::{flip_window_columns, flip_window_rows};

// The first row of the window changes places with its last, and so on.
pub(crate) fn flip_rows<T>(cells: &mut [T], claimed: ClaimedPixels, window: Window) -> Status
    ensures status { result ≡ part_status claimed (length cells.old) (as_window window) }
    ensures writes { ChangesPart result claimed cells.old cells.new (as_window window) flipped }
{
    let (shape, part) = match claimed.part(cells.len(), window) {
        Ok(parts) => parts,
        Err(status) => return status,
    };
    flip_window_rows(cells, shape, part);
    Status::Done
}

// In each row of the window the first pixel changes places with the last, and so on.
pub(crate) fn flip_columns<T: Copy>(
    cells: &mut [T],
    claimed: ClaimedPixels,
    window: Window,
) -> Status
    ensures status { result ≡ part_status claimed (length cells.old) (as_window window) }
    ensures writes { ChangesPart result claimed cells.old cells.new (as_window window)
        (mirrored_by claimed.channels) }
{
    let (shape, part) = match claimed.part(cells.len(), window) {
        Ok(parts) => parts,
        Err(status) => return status,
    };
    flip_window_columns(cells, shape, part, claimed.channels, window.width);
    Status::Done
}

// Rows `y` and `z` change places.
pub(crate) fn swap_rows<T>(cells: &mut [T], claimed: ClaimedPixels, y: usize, z: usize) -> Status
    ensures status { result ≡ rows_status claimed.channels (length cells.old) claimed.shape.width
        claimed.shape.height claimed.shape.stride y z }
    ensures writes { WritesAll result claimed cells.old cells.new
        (rows_swapped y z (shown_by claimed.channels claimed.shape cells.old)) }
{
    if !claimed.is_image(cells.len()) {
        return Status::NotAnImage;
    }
    if y >= claimed.shape.height || z >= claimed.shape.height {
        return Status::PlaceOutside;
    }
    image_turns::swap_rows(cells, claimed.cells(), y, z);
    Status::Done
}
