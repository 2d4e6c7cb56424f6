//! Copies of cells, and of the rows without padding.

ghost use Rattle.std.specs.Prelude.{◌≡◌, ◌*◌, ◌↔◌, ◌<◌, ◌≤◌, IsOk, IfOk, OnOk, length};
ghost use Rattle.std.specs.Cow.{cow_slice_items, IsBorrowedSlice};
ghost use Rattle.image_model.specs.Layout.{Fits};
ghost use Rattle.image_model.specs.Rows.{joined_rows};
ghost use Rattle.image_shape.specs.Shape.{shape_width, shape_height, shape_stride, shaped};
ghost use Rattle.std.specs.List.{AllZip};
ghost use Rattle.std.specs.Vec.{vec_len, vec_capacity};
ghost use Rattle.image_ops.specs.Clones.{AreWhole, ClonesEqual};

use crate::appending::{ANY, FEW, ONES, SIXTEENS, SIXTY_FOURS, blocks_to_clone, push_clones};
use image_rows::row;
use image_shape::Shape;
use std::alloc::{AllocError, Global};
use std::borrow::CowSlice;
use std::vec::VecCloneMethods;

/// Clones of the cells in a buffer of their own, whose memory is allocated at once. Where there is
/// no cell, nothing is allocated.
pub fn cloned<T: Clone>(alloc: Global, cells: &[T]) -> Result<Vec<T>, AllocError>
    requires clones_equal { ClonesEqual T.is_clone cells.now }
    ensures cells { IfOk result (λ v. v.items ≡ cells.now) }
    ensures succeeds { length cells.now ≡ 0 → IsOk result }
{
    let mut buf: Vec<T> = Vec::with_capacity(alloc, cells.len())?;
    if cells.is_empty() {
        return Ok(buf);
    }
    buf.extend_from_slice(cells)?;
    Ok(buf)
}

// Appends the clones of the rows to a buffer without cells, which has room for them.
#[inline(always)]
fn push_rows<T: Clone, const HOW: usize>(
    pixels: &mut Vec<T>,
    cells: &[T],
    shape: Shape,
) -> Result<(), AllocError>
    requires fits { Fits (shaped cells.now shape) }
    requires whole { AreWhole HOW (shape_width shape) }
    requires none { vec_len pixels.old ≡ 0 }
    requires room { shape_width shape * shape_height shape ≤ vec_capacity pixels.old }
    ensures clones { OnOk result
        (AllZip T.is_clone (joined_rows (shaped cells.now shape)) pixels.new.items) }
    ensures succeeds { shape_width shape * shape_height shape ≡ 0 → IsOk result }
{
    for y in 0..shape.row_count() {
        push_clones::<T, HOW>(pixels, row(cells, shape, y))?;
    }
    Ok(())
}

// The same by the rows' width, which is looked at once.
#[inline(always)]
fn push_by_width<T: Clone>(pixels: &mut Vec<T>, cells: &[T], shape: Shape) -> Result<(), AllocError>
    requires fits { Fits (shaped cells.now shape) }
    requires some { 0 < length cells.now }
    requires none { vec_len pixels.old ≡ 0 }
    requires room { shape_width shape * shape_height shape ≤ vec_capacity pixels.old }
    ensures clones { OnOk result
        (AllZip T.is_clone (joined_rows (shaped cells.now shape)) pixels.new.items) }
    ensures succeeds { shape_width shape * shape_height shape ≡ 0 → IsOk result }
{
    match blocks_to_clone(cells, shape.width()) {
        SIXTY_FOURS => push_rows::<T, SIXTY_FOURS>(pixels, cells, shape),
        SIXTEENS => push_rows::<T, SIXTEENS>(pixels, cells, shape),
        FEW => push_rows::<T, FEW>(pixels, cells, shape),
        ANY => push_rows::<T, ANY>(pixels, cells, shape),
        _ => push_rows::<T, ONES>(pixels, cells, shape),
    }
}

/// Clones of the rows, one after the other in a buffer of their own, whose memory is allocated at
/// once. Where there is no pixel, nothing is allocated. The cells fit.
pub fn joined_clones<T: Clone>(
    alloc: Global,
    cells: &[T],
    shape: Shape,
) -> Result<Vec<T>, AllocError>
    requires fits { Fits (shaped cells.now shape) }
    requires clones_equal { ClonesEqual T.is_clone (joined_rows (shaped cells.now shape)) }
    ensures joined { IfOk result (λ v. v.items ≡ joined_rows (shaped cells.now shape)) }
    ensures succeeds { shape_width shape * shape_height shape ≡ 0 → IsOk result }
{
    let mut pixels: Vec<T> = Vec::with_capacity(alloc, shape.pixel_count())?;
    if shape.row_count() == 0 {
        return Ok(pixels);
    }
    push_by_width(&mut pixels, cells, shape)?;
    Ok(pixels)
}

/// The rows one after the other. The cells fit.
///
/// Where the width equals the stride, the rows are borrowed, as the first `width * height` cells,
/// and no memory is allocated. Otherwise they are cloned row by row; `AllocError` then means out of
/// memory, or that a pixel's own `clone` failed. It never happens where there is no pixel.
pub fn contiguous<'a, T: Clone>(
    alloc: Global,
    cells: &'a [T],
    shape: Shape,
) -> Result<CowSlice<'a, T>, AllocError>
    requires fits { Fits (shaped cells.now shape) }
    requires clones_equal { ClonesEqual T.is_clone (joined_rows (shaped cells.now shape)) }
    ensures joined { IfOk result
        (λ pixels. cow_slice_items pixels ≡ joined_rows (shaped cells.now shape)) }
    ensures borrowed { IfOk result
        (λ pixels. IsBorrowedSlice pixels ↔ (shape_width shape ≡ shape_stride shape)) }
    ensures succeeds { shape_width shape ≡ shape_stride shape → IsOk result }
    ensures no_pixel { shape_width shape * shape_height shape ≡ 0 → IsOk result }
{
    if shape.width() == shape.stride() {
        return Ok(CowSlice::Borrowed(&cells[..shape.pixel_count()]));
    }
    Ok(CowSlice::Owned(joined_clones(alloc, cells, shape)?))
}
