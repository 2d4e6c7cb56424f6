//! Counts of the pixels of a window that have a value. A pixel has 1 to 4 cells, next to one another in
//! a row.

ghost use Rattle.std.specs.Prelude.{◌≡◌, ◌*◌, length};
ghost use Rattle.imgref_c.specs.Words.{as_window, code, in_cells, pixel_window_status, seen, times_shown, Gives};

use crate::images::ClaimedShape;
use crate::status::Status;
use image_ops::count_value;
use image_shape::Window;
use image_writes::padded_part;

// How many pixels of the window have the value goes to `count`.
pub(crate) fn count<T: PartialEq>(
    cells: &[T],
    claimed: ClaimedShape,
    window: Window,
    value: &[T],
    count: &mut usize,
) -> Status
    ensures status { result ≡ pixel_window_status (length value.now) (length cells.now)
        claimed.width claimed.height claimed.stride (as_window window) }
    ensures gives { Gives (code result) count.old count.new (count.new ≡ times_shown T.eq value.now
        (seen (length value.now * claimed.width) claimed.height claimed.stride cells.now
        (in_cells (length value.now) (as_window window)))) }
{
    let claimed = claimed.of_pixels(value.len());
    let (shape, part) = match claimed.part(cells.len(), window) {
        Ok(parts) => parts,
        Err(status) => return status,
    };
    let (part, part_shape) = padded_part(cells, shape, part);
    *count = count_value(part, part_shape, value);
    Status::Done
}
