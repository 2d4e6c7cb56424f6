//! Images that are turned or transposed, into others or in place. A pixel has 1 to 4 cells, next to one
//! another in a row.

ghost use Rattle.std.specs.Prelude.{◌≡◌, length};
ghost use Rattle.image_turns.specs.Oriented.{oriented_width, oriented_height};
ghost use Rattle.imgref_c.specs.Words.{first, in_place_status, into_status, is_turn, oriented, shown_by, turn_by, NoTurn, WritesAll};

use crate::images::ClaimedShape;
use crate::pixels::ClaimedPixels;
use crate::status::Status;
use image_turns::{Orientation, orient_in_place, orient_pixels};

// Whether there is a turn by so many quarters.
fn is_turn(quarters: u32) -> bool
    ensures { result ≡ is_turn quarters }
{
    (1..=3).contains(&quarters)
}

// The turn by so many quarters, clockwise.
fn turn_by(quarters: u32) -> Orientation
    ensures { result ≡ turn_by quarters }
{
    match quarters {
        1 => Orientation::Right,
        2 => Orientation::Half,
        _ => Orientation::Left,
    }
}

// The width and the height that an image gets.
fn oriented_size(orientation: Orientation, width: usize, height: usize) -> (usize, usize)
    ensures width { result.0 ≡ oriented_width orientation width height }
    ensures height { result.1 ≡ oriented_height orientation width height }
{
    match orientation {
        Orientation::Half => (width, height),
        Orientation::Transposed | Orientation::Right | Orientation::Left => (height, width),
    }
}

// Every pixel becomes the pixel of the source that its place gets.
pub(crate) fn orient_into<T: Copy>(
    cells: &mut [T],
    claimed: ClaimedPixels,
    source: &[T],
    claimed_source: ClaimedShape,
    orientation: Orientation,
) -> Status
    ensures status { result ≡ into_status claimed orientation (length cells.old) claimed_source
        (length source.now) }
    ensures writes { WritesAll result claimed cells.old cells.new (oriented claimed.channels
        orientation (shown_by claimed.channels claimed_source source.now)) }
{
    let origin = ClaimedPixels {
        shape: claimed_source,
        ..claimed
    };
    if !claimed.is_image(cells.len()) || !origin.is_image(source.len()) {
        return Status::NotAnImage;
    }
    let columns = claimed_source.width;
    let (width, height) = oriented_size(orientation, columns, claimed_source.height);
    if claimed.shape.width != width || claimed.shape.height != height {
        return Status::SizesDiffer;
    }
    orient_pixels(
        cells,
        claimed.cells(),
        source,
        origin.cells(),
        claimed.channels,
        columns,
        orientation,
    );
    Status::Done
}

// Every pixel becomes that of the source turned by so many quarters.
pub(crate) fn turn_into<T: Copy>(
    cells: &mut [T],
    claimed: ClaimedPixels,
    source: &[T],
    claimed_source: ClaimedShape,
    quarters: u32,
) -> Status
    ensures status { result ≡ first (is_turn quarters) NoTurn (into_status claimed
        (turn_by quarters) (length cells.old) claimed_source (length source.now)) }
    ensures writes { WritesAll result claimed cells.old cells.new (oriented claimed.channels
        (turn_by quarters) (shown_by claimed.channels claimed_source source.now)) }
{
    if !is_turn(quarters) {
        return Status::NoTurn;
    }
    orient_into(cells, claimed, source, claimed_source, turn_by(quarters))
}

// Every pixel goes to its place in the same image, which has to be a square unless it is turned by a
// half.
pub(crate) fn orient<T: Copy>(
    cells: &mut [T],
    claimed: ClaimedPixels,
    orientation: Orientation,
) -> Status
    ensures status { result ≡ in_place_status claimed orientation (length cells.old) }
    ensures writes { WritesAll result claimed cells.old cells.new (oriented claimed.channels
        orientation (shown_by claimed.channels claimed.shape cells.old)) }
{
    if !claimed.is_image(cells.len()) {
        return Status::NotAnImage;
    }
    let columns = claimed.shape.width;
    let (width, _) = oriented_size(orientation, columns, claimed.shape.height);
    if columns != width {
        return Status::SizesDiffer;
    }
    orient_in_place(
        cells,
        claimed.cells(),
        claimed.channels,
        columns,
        orientation,
    );
    Status::Done
}

// The image is turned by so many quarters in place.
pub(crate) fn turn<T: Copy>(cells: &mut [T], claimed: ClaimedPixels, quarters: u32) -> Status
    ensures status { result ≡ first (is_turn quarters) NoTurn (in_place_status claimed
        (turn_by quarters) (length cells.old)) }
    ensures writes { WritesAll result claimed cells.old cells.new (oriented claimed.channels
        (turn_by quarters) (shown_by claimed.channels claimed.shape cells.old)) }
{
    if !is_turn(quarters) {
        return Status::NoTurn;
    }
    orient(cells, claimed, turn_by(quarters))
}
