//! Regions of connected places: they are filled, labelled, or framed by a box.

ghost use Rattle.std.specs.Prelude.{◌≡◌, ◌<◌, length};
ghost use Rattle.imgref_c.specs.Words.{as_window, code, flood_status, grid_of, image_status, labels_status, layout, Fills, Gives, IsBox, Labels, TellsApart};

use crate::images::ClaimedShape;
use crate::status::Status;
use image_regions::{bounding_box, components_into, flood_fill_in};
use image_shape::Window;
use imgref::ImgRef;

// A place and everything connected with it get a value.
pub(crate) fn flood_fill<T: Copy + PartialEq>(
    cells: &mut [T],
    claimed: ClaimedShape,
    place: (usize, usize),
    value: T,
    room: &mut [usize],
) -> Status
    requires tells { TellsApart T.eq }
    ensures status { result ≡ flood_status (length cells.old) claimed.width claimed.height
        claimed.stride place.0 place.1 (length room.old) }
    ensures fills { Fills (code result) (layout cells.old claimed.width claimed.height
        claimed.stride) (layout cells.new claimed.width claimed.height claimed.stride)
        place.0 place.1 value }
    ensures room { 0 < code result → room.new ≡ room.old }
{
    if !claimed.is_image(cells.len()) {
        return Status::NotAnImage;
    }
    if place.0 >= claimed.width || place.1 >= claimed.height {
        return Status::PlaceOutside;
    }
    let shape = claimed.shape();
    if room.len() < shape.pixel_count() {
        return Status::NoRoom;
    }
    flood_fill_in(cells, shape, room, place.0, place.1, value);
    Status::Done
}

// Each place gets the label of its component, and `count` the number of these.
pub(crate) fn components<T: Copy + PartialEq>(
    cells: &[T],
    claimed: ClaimedShape,
    labels: &mut [u64],
    claimed_labels: ClaimedShape,
    room: &mut [usize],
    count: &mut u64,
) -> Status
    requires tells { TellsApart T.eq }
    requires width { claimed_labels.width ≡ claimed.width }
    requires height { claimed_labels.height ≡ claimed.height }
    ensures status { result ≡ labels_status (length cells.now) claimed.width claimed.height
        claimed.stride (length labels.old) claimed_labels.stride (length room.old) }
    ensures labels { Labels (code result)
        (layout cells.now claimed.width claimed.height claimed.stride)
        (layout labels.old claimed.width claimed.height claimed_labels.stride)
        (layout labels.new claimed.width claimed.height claimed_labels.stride)
        count.old count.new }
    ensures room { 0 < code result → room.new ≡ room.old }
{
    if !claimed.is_image(cells.len()) || !claimed_labels.is_image(labels.len()) {
        return Status::NotAnImage;
    }
    let shape = claimed.shape();
    if room.len() < shape.pixel_count() {
        return Status::NoRoom;
    }
    let image = ImgRef::from_parts(cells, shape);
    *count = components_into(image, labels, claimed_labels.shape(), room);
    Status::Done
}

// The least window that has every place with a value goes to `around`: where no place has it, the
// window of no pixel at the corner.
pub(crate) fn box_around<T: Copy + PartialEq>(
    cells: &[T],
    claimed: ClaimedShape,
    value: T,
    around: &mut Window,
) -> Status
    requires tells { TellsApart T.eq }
    ensures status { result ≡ image_status (length cells.now) claimed.width claimed.height
        claimed.stride }
    ensures gives { Gives (code result) around.old around.new (IsBox
        (grid_of (layout cells.now claimed.width claimed.height claimed.stride)) value
        (as_window around.new)) }
{
    if !claimed.is_image(cells.len()) {
        return Status::NotAnImage;
    }
    let image = ImgRef::from_parts(cells, claimed.shape());
    *around = match bounding_box(image, value) {
        Some(window) => window,
        None => Window::new(0, 0, 0, 0),
    };
    Status::Done
}
