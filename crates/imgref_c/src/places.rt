//! One pixel by its place.

ghost use Rattle.std.specs.Prelude.{◌≡◌, length, Some};
ghost use Rattle.imgref_c.specs.Words.{code, grid_of, layout, place_status, uniform, Gives, Writes};

use crate::images::ClaimedShape;
use crate::status::Status;
use image_ops::fill_window;
use image_shape::Window;
use imgref::ImgRef;

// The pixel in column `x` of row `y` goes to `pixel`.
#[tactic(auto, unfolding(image_model::specs::Grid::grid_of))]
pub(crate) fn get<T: Copy>(
    cells: &[T],
    claimed: ClaimedShape,
    place: (usize, usize),
    pixel: &mut T,
) -> Status
    ensures status { result ≡ place_status (length cells.now) claimed.width claimed.height
        claimed.stride place.0 place.1 }
    ensures gives { Gives (code result) pixel.old pixel.new ((grid_of (layout cells.now
        claimed.width claimed.height claimed.stride)).pixel place.0 place.1 ≡ Some pixel.new) }
{
    if !claimed.is_image(cells.len()) {
        return Status::NotAnImage;
    }
    if place.0 >= claimed.width || place.1 >= claimed.height {
        return Status::PlaceOutside;
    }
    *pixel = ImgRef::from_parts(cells, claimed.shape())[place];
    Status::Done
}

// The pixel in column `x` of row `y` becomes `value`.
pub(crate) fn put<T: Copy>(
    cells: &mut [T],
    claimed: ClaimedShape,
    place: (usize, usize),
    value: T,
) -> Status
    ensures status { result ≡ place_status (length cells.old) claimed.width claimed.height
        claimed.stride place.0 place.1 }
    ensures writes { Writes (code result) claimed.width claimed.height claimed.stride cells.old
        cells.new place.0 place.1 (uniform 1 1 value) }
{
    if !claimed.is_image(cells.len()) {
        return Status::NotAnImage;
    }
    if place.0 >= claimed.width || place.1 >= claimed.height {
        return Status::PlaceOutside;
    }
    let pixel = Window::new(place.0, place.1, 1, 1);
    fill_window(cells, claimed.shape(), pixel, value);
    Status::Done
}
