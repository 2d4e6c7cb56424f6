//! Calls on two images: one is copied into a window of the other, or they are compared.

ghost use Rattle.std.specs.Prelude.{◌≡◌, ◌==◌, ◌↔◌, IsTrue, length};
ghost use Rattle.imgref_c.specs.Words.{as_window, code, copy_status, grid_of, layout, pair_status, Agree, Gives, Writes};

use crate::images::ClaimedShape;
use crate::status::Status;
use image_ops::are_equal_fitting;
use image_shape::Window;

// The window gets the pixels of `source`, which has its size.
pub(crate) fn copy_window<T: Copy>(
    cells: &mut [T],
    claimed: ClaimedShape,
    source: &[T],
    claimed_source: ClaimedShape,
    window: Window,
) -> Status
    ensures status { result ≡ copy_status (length cells.old) claimed.width claimed.height
        claimed.stride (as_window window) (length source.now) claimed_source.width
        claimed_source.height claimed_source.stride }
    ensures writes { Writes (code result) claimed.width claimed.height
        claimed.stride cells.old cells.new window.left window.top (grid_of
        (layout source.now claimed_source.width claimed_source.height claimed_source.stride)) }
{
    if !claimed.is_image(cells.len()) || !claimed_source.is_image(source.len()) {
        return Status::NotAnImage;
    }
    let shape = claimed.shape();
    if !shape.has_window(window) {
        return Status::WindowOutside;
    }
    if window.width != claimed_source.width || window.height != claimed_source.height {
        return Status::SizesDiffer;
    }
    image_ops::copy_window(cells, shape, window, source, claimed_source.shape());
    Status::Done
}

// Whether two images have one size and equal pixels at every place goes to `equal`.
pub(crate) fn equal_images<T: PartialEq>(
    cells: &[T],
    claimed: ClaimedShape,
    other: &[T],
    claimed_other: ClaimedShape,
    equal: &mut bool,
) -> Status
    ensures status { result
        ≡ pair_status (length cells.now) claimed.width claimed.height claimed.stride
        (length other.now) claimed_other.width claimed_other.height claimed_other.stride }
    ensures gives { Gives (code result) equal.old equal.new (IsTrue equal.new ↔ Agree
        T.eq (grid_of (layout cells.now claimed.width claimed.height claimed.stride)) (grid_of
        (layout other.now claimed_other.width claimed_other.height claimed_other.stride))) }
{
    if !claimed.is_image(cells.len()) || !claimed_other.is_image(other.len()) {
        return Status::NotAnImage;
    }
    *equal = are_equal_fitting(cells, claimed.shape(), other, claimed_other.shape());
    Status::Done
}
