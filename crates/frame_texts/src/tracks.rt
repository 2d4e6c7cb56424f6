//! The tracks that boxes are of, and the box around two.

ghost use Rattle.std.specs.Prelude.{◌≡◌, ◌<◌, ◌≤◌, ◌+◌, length, All, IsPermutation, IsOk, OnOk, max};
ghost use Rattle.frame_texts.specs.Boxes.{IsDecimal, IsBox, place_of, units_of};
ghost use Rattle.frame_texts.specs.Tracks.{track_of, missing, continues, goes_on_at, comes_at, first_start, both_extent, around, HasBoth, AreByTracks, KeepTies};

use crate::boxes::{Decimal, PIXEL, Tracked};
use std::alloc::AllocError;

// Where the number 0 is, in units after the least number of a field.
const ORIGIN: u128 = 429_496_729_600_000_000_000_000_000_000;

/// The track that a box is of, from 1, or 0 where it is of none.
pub fn track_of(tracked: &Tracked) -> u128
    ensures { result ≡ track_of tracked.now }
{
    if tracked.id.minus || tracked.id.part > 0 {
        return 0;
    }
    tracked.id.whole as u128 + 1
}

/// How many frames are between two boxes.
pub fn missing(first: &Tracked, next: &Tracked) -> usize
    ensures { result ≡ missing first.now next.now }
{
    next.frame.saturating_sub(first.frame).saturating_sub(1)
}

// Whether the second box goes on where the first ends.
fn continues(hold: usize, first: &Tracked, next: &Tracked) -> bool
    ensures { result ≡ continues hold first.now next.now }
{
    let track = track_of(first);
    track > 0 && track == track_of(next) && first.frame < next.frame && missing(first, next) <= hold
}

/// Whether the track of the box at this place goes on at the next one.
pub fn goes_on_at(hold: usize, boxes: &[Tracked], at: usize) -> bool
    requires { at < length boxes.now }
    ensures { result ≡ goes_on_at hold boxes.now at }
{
    boxes.len() - at > 1 && continues(hold, &boxes[at], &boxes[at + 1])
}

// Where a number is, in units after the least one.
fn place_of(number: Decimal) -> u128
    requires { IsDecimal 32 number }
    ensures place { result ≡ place_of number }
    ensures small { result < 858993459200000000000000000000 }
{
    let size = number.whole as u128 * PIXEL + number.part;
    if number.minus {
        ORIGIN - size
    } else {
        ORIGIN + size
    }
}

fn units_of(number: Decimal) -> u128
    requires { IsDecimal 32 number }
    ensures size { result ≡ units_of number }
    ensures small { result < 429496729600000000000000000000 }
{
    number.whole as u128 * PIXEL + number.part
}

// In one direction: where the first of two sides begins, and how far it is from there to the end of
// both.
fn both_sides(first: Decimal, long: Decimal, second: Decimal, wide: Decimal) -> (Decimal, Decimal)
    requires first { IsDecimal 32 first }
    requires long { IsDecimal 32 long }
    requires second { IsDecimal 32 second }
    requires wide { IsDecimal 32 wide }
    ensures start { result.0 ≡ first_start first second }
    ensures extent { result.1 ≡ both_extent first long second wide }
    ensures sound { IsDecimal 34 result.1 }
{
    let (from, other) = (place_of(first), place_of(second));
    let (start, begin) = if from <= other {
        (first, from)
    } else {
        (second, other)
    };
    let units = (from + units_of(long)).max(other + units_of(wide)) - begin;
    let extent = Decimal {
        minus: false,
        whole: (units / PIXEL) as usize,
        part: units % PIXEL,
    };
    (start, extent)
}

/// The smallest box around two.
pub fn around(first: &Tracked, next: &Tracked) -> Tracked
    requires first { IsBox 32 first.now }
    requires next { IsBox 32 next.now }
    ensures around { result ≡ around first.now next.now }
    ensures sound { IsBox 34 result }
    ensures both { HasBoth first.now next.now result }
{
    let (left, width) = both_sides(first.left, first.width, next.left, next.width);
    let (top, height) = both_sides(first.top, first.height, next.top, next.height);
    Tracked {
        frame: first.frame,
        id: first.id,
        left,
        top,
        width,
        height,
    }
}

/// Whether the box at this place goes on where that of the place before ends.
pub fn comes_at(hold: usize, boxes: &[Tracked], at: usize) -> bool
    requires { at < length boxes.now }
    ensures { result ≡ comes_at hold boxes.now at }
{
    at > 0 && goes_on_at(hold, boxes, at - 1)
}

/// Puts boxes in the order of their tracks, and those of a track in the order of their frames. Boxes
/// of one track and one frame stay in their order.
///
/// # Errors
///
/// No memory was found.
pub fn put_by_tracks(boxes: &mut Vec<Tracked>) -> Result<(), AllocError>
    ensures same { IsPermutation boxes.old.items boxes.new.items }
    ensures tracked { All (IsBox 32) boxes.old.items → All (IsBox 32) boxes.new.items }
    ensures by_tracks { OnOk result (AreByTracks boxes.new.items) }
    ensures ties { OnOk result (KeepTies boxes.old.items boxes.new.items) }
    ensures as_many { length boxes.new.items ≡ length boxes.old.items }
    ensures few { length boxes.old.items ≤ 20 → IsOk result }
{
    boxes.sort_by_key(|tracked| tracked.frame)?;
    boxes.sort_by_key(|tracked| track_of(tracked))?;
    Ok(())
}
