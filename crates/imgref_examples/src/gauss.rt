//! A Gaussian blur by two passes: each row, and then each column of what that made.

ghost use Rattle.std.specs.Prelude.{◌≡◌, ◌<◌, ◌+◌, ◌-◌, ◌^◌, ℕ, IfOk, min};
ghost use Rattle.imgref.specs.Words.{Fits, from_places, height_of, ref_grid, ref_layout, shown, vec_grid, vec_layout, width_of};
ghost use Rattle.imgref_examples.specs.Gauss.{smooth, smoothed};

use crate::scaling::at;
use imgref::{ImgExt, ImgRef, ImgVec};
use std::alloc::{AllocError, Global};

// One part of a pixel's neighbour, two of the pixel, and one of its other neighbour.
fn weighed(before: u8, here: u8, after: u8) -> u8
    ensures { result ≡ smooth before here after }
{
    ((u16::from(before) + 2 * u16::from(here) + u16::from(after)) / 4) as u8
}

// A place of the first pass. Past an edge the pixel at the edge counts.
fn across(image: ImgRef<'_, u8>, x: usize, y: usize) -> u8
    requires fits { Fits (ref_layout image) }
    requires column { x < width_of image }
    ensures { result ≡ smooth (shown (ref_grid image.entry) (x - 1) y)
        (shown (ref_grid image.entry) x y)
        (shown (ref_grid image.entry) (min (x + 1) (width_of image.entry - 1)) y) }
{
    let right = (x + 1).min(image.width() - 1);
    weighed(
        at(image, x.saturating_sub(1), y),
        at(image, x, y),
        at(image, right, y),
    )
}

// A place of the second pass.
fn down(image: ImgRef<'_, u8>, x: usize, y: usize) -> u8
    requires fits { Fits (ref_layout image) }
    requires row { y < height_of image }
    ensures { result ≡ smooth (shown (ref_grid image.entry) x (y - 1))
        (shown (ref_grid image.entry) x y)
        (shown (ref_grid image.entry) x (min (y + 1) (height_of image.entry - 1))) }
{
    let below = (y + 1).min(image.height() - 1);
    weighed(
        at(image, x, y.saturating_sub(1)),
        at(image, x, y),
        at(image, x, below),
    )
}

/// The image blurred by the weights 1, 2, 1 across and down, rounded down after each pass. Past an
/// edge the pixel at the edge counts.
pub fn gaussian_3x3(alloc: Global, image: ImgRef<'_, u8>) -> Result<ImgVec<u8>, AllocError>
    requires fits { Fits (ref_layout image) }
    ensures grid { IfOk result (λ i. vec_grid i
        ≡ smoothed (width_of image.entry) (height_of image.entry) (ref_grid image.entry)) }
    ensures fits { IfOk result (λ i. Fits (vec_layout i)) }
{
    let rows = ImgVec::from_places(
        alloc,
        image.width(),
        image.height(),
        |x, y| across(image, x, y),
    )?;
    let rows = rows.as_ref();
    ImgVec::from_places(
        alloc,
        image.width(),
        image.height(),
        |x, y| down(rows, x, y),
    )
}
