//! Thinning of shapes by two passes: one from the right and from below, one from the left and from
//! above. (The passes of Zhang and Suen.)

ghost use Rattle.std.specs.Prelude.{◌≡◌, ◌<◌, ◌≤◌, ◌^◌, if◌then◌else◌, IfOk};
ghost use Rattle.imgref.specs.Words.{Fits, height_of, ref_grid, ref_layout, vec_grid, vec_layout, width_of};
ghost use Rattle.imgref_examples.specs.Thinned.{begins, goes, ink, neighbours, north_west, rise, south_east, thinned, thinner};

use crate::scaling::at;
use imgref::{ImgExt, ImgRef, ImgVec};
use std::alloc::{AllocError, Global};

// 1 where the place one column before and one row above is set.
fn ink_at(image: ImgRef<'_, u8>, x: usize, y: usize) -> u8
    requires { Fits (ref_layout image) }
    ensures value { result ≡ ink (ref_grid image.entry) x y }
    ensures small { result ≤ 1 }
{
    if x == 0 {
        return 0;
    }
    if y == 0 {
        return 0;
    }
    at(image, x - 1, y - 1).min(1)
}

// 1 where the ink begins.
fn rise_of(before: u8, here: u8) -> u8
    requires { here ≤ 1 }
    ensures value { result ≡ rise before here }
    ensures small { result ≤ 1 }
{
    here - before.min(here)
}

// How many neighbours of a place are set.
fn count_around(image: ImgRef<'_, u8>, x: usize, y: usize) -> u8
    requires fits { Fits (ref_layout image) }
    requires column { x < 2 ^ 32 }
    requires row { y < 2 ^ 32 }
    ensures { result ≡ neighbours (ref_grid image.entry) x y }
{
    ink_at(image, x + 1, y)
        + ink_at(image, x + 2, y)
        + ink_at(image, x + 2, y + 1)
        + ink_at(image, x + 2, y + 2)
        + ink_at(image, x + 1, y + 2)
        + ink_at(image, x, y + 2)
        + ink_at(image, x, y + 1)
        + ink_at(image, x, y)
}

// How often the ink begins on the way round a place.
fn count_begins(image: ImgRef<'_, u8>, x: usize, y: usize) -> u8
    requires fits { Fits (ref_layout image) }
    requires column { x < 2 ^ 32 }
    requires row { y < 2 ^ 32 }
    ensures { result ≡ begins (ref_grid image.entry) x y }
{
    let (north, east) = (ink_at(image, x + 1, y), ink_at(image, x + 2, y + 1));
    let (south, west) = (ink_at(image, x + 1, y + 2), ink_at(image, x, y + 1));
    let (before, after) = (ink_at(image, x, y), ink_at(image, x + 2, y));
    let (right, left) = (ink_at(image, x + 2, y + 2), ink_at(image, x, y + 2));
    rise_of(north, after)
        + rise_of(after, east)
        + rise_of(east, right)
        + rise_of(right, south)
        + rise_of(south, left)
        + rise_of(left, west)
        + rise_of(west, before)
        + rise_of(before, north)
}

// 0 where a place is at an edge: on the right or below in the first pass, on the left or above in the
// second one.
fn is_inner(image: ImgRef<'_, u8>, x: usize, y: usize, is_first: bool) -> u8
    requires fits { Fits (ref_layout image) }
    requires column { x < 2 ^ 32 }
    requires row { y < 2 ^ 32 }
    ensures { result ≡ (if is_first then south_east (ref_grid image.entry) x y
        else north_west (ref_grid image.entry) x y) }
{
    let (right, left) = (ink_at(image, x + 2, y + 1), ink_at(image, x, y + 1));
    let (below, above) = (ink_at(image, x + 1, y + 2), ink_at(image, x + 1, y));
    let (first, second, edge) = if is_first {
        (above, left, right.min(below))
    } else {
        (right, below, left.min(above))
    };
    first.min(edge) + second.min(edge)
}

// Whether a place goes.
fn can_go(image: ImgRef<'_, u8>, x: usize, y: usize, side: u8) -> bool
    requires fits { Fits (ref_layout image) }
    requires column { x < 2 ^ 32 }
    requires row { y < 2 ^ 32 }
    ensures { result ≡ goes (ref_grid image.entry) x y side }
{
    let around = count_around(image, x, y);
    2 <= around && around <= 6 && count_begins(image, x, y) == 1 && side == 0
}

// What a place shows after a pass.
fn after_pass(image: ImgRef<'_, u8>, x: usize, y: usize, side: u8) -> u8
    requires fits { Fits (ref_layout image) }
    requires column { x < 2 ^ 32 }
    requires row { y < 2 ^ 32 }
    ensures { result ≡ thinner (ref_grid image.entry) x y side }
{
    if can_go(image, x, y, side) {
        return 0;
    }
    at(image, x, y)
}

/// The image with its shapes thinner by one place at most on each side. A shape is what isn't 0.
pub fn thin(alloc: Global, image: ImgRef<'_, u8>) -> Result<ImgVec<u8>, AllocError>
    requires fits { Fits (ref_layout image) }
    ensures grid { IfOk result (λ i. vec_grid i
        ≡ thinned (width_of image.entry) (height_of image.entry) (ref_grid image.entry)) }
    ensures fits { IfOk result (λ i. Fits (vec_layout i)) }
{
    let (width, height) = (image.width(), image.height());
    let first = ImgVec::from_places(
        alloc,
        width,
        height,
        |x, y| after_pass(image, x, y, is_inner(image, x, y, true)),
    )?;
    let first = first.as_ref();
    ImgVec::from_places(
        alloc,
        width,
        height,
        |x, y| after_pass(first, x, y, is_inner(first, x, y, false)),
    )
}
