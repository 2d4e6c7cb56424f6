//! The pixels for writing.

ghost use Rattle.std.specs.Prelude.{◌≡◌, ◌+◌, ◌*◌, ◌^◌, ◌<◌, ◌≤◌, length, List, Some, IfSome};
ghost use Rattle.std.specs.Borrow.{GName, ftrue, sem};
ghost use Rattle.std.specs.Iterator.{YieldsFirstMut, item_count, MakesProgress, UpTo};
ghost use Rattle.std.specs.Iterator.SizeHint.{IsWithinCount};
ghost use Rattle.image_model.specs.Layout.{Fits};
ghost use Rattle.image_shape.specs.Shape.{shape_width, shape_height, shape_stride, shaped};
ghost use Rattle.image_pixels.specs.Loans.{lent};

use crate::counts::{Counts, pixels_left};
use image_shape::Shape;
use std::iter::{ExactSizeIterator, FusedIterator};
use std::marker::{Model, PhantomData};

/// The pixels of an image for writing, row by row and from left to right, without the padding.
///
/// It is a pointer and counts, as `PixelsRefIter` is. The cursor may be dropped at any point. Then
/// the pixels that it has returned keep what was written in them. All other cells are as they were.
pub struct PixelsIterMut<'a, T> {
    current: *mut T,
    remaining: usize,
    rows_left: usize,
    width: usize,
    pad: usize,
    marker: PhantomData<&'a mut [T]>,
    // The borrow of the cells from the pointer on, what lent them, and these cells.
    ghost name: { GName },
    ghost lender: { GName },
    ghost cells: { List T },
    ghost reaches: { remaining + rows_left * (pad + width) ≤ length cells },
    ghost wide: { 0 < rows_left → 0 < width },
    ghost small: { length cells < 2 ^ 64 },
}

impl<'a, T> Model for PixelsIterMut<'a, T> {
    ghost also_owns = { λ s. lent 'a T.row s.name s.cells s.current };

    ghost also_shares = { λ _ _ _. ftrue };
}

impl<'a, T> PixelsIterMut<'a, T> {
    ghost use Rattle.image_pixels.specs.Marks.{pick, marks, marks_of};
    ghost use Rattle.image_pixels.specs.Pixels.{muts_left, cells_left, marks_left, pixels_name, hands_on, ArePixels, Moves};

    // The first `remaining` cells, and then `rows_left` rows of `width` cells with `pad` before
    // each.
    fn from_counts(
        cells: &'a mut [T],
        remaining: usize,
        rows_left: usize,
        width: usize,
        pad: usize,
    ) -> PixelsIterMut<'a, T>
        requires reaches { remaining + rows_left * (pad + width) ≤ length cells.old }
        requires width_positive { 0 < rows_left → 0 < width }
        ensures name { pixels_name result ≡ cells.entry.ghost_name }
        ensures cells { cells_left result ≡ cells.old }
        ensures marks { marks_left result ≡ marks remaining rows_left width pad }
        ensures pixels { muts_left result ≡ pick (marks remaining rows_left width pad) cells.old }
    {
        PixelsIterMut {
            current: cells.as_mut_ptr(),
            remaining,
            rows_left,
            width,
            pad,
            marker: PhantomData,
        }
    }

    /// The pixels of `shape` in `cells` for writing: `width` times `height` of them, row by row and
    /// from left to right, without the padding. The cells must fit; `Shape::fits` tests it.
    ///
    /// The cursor holds the borrow of the cells: the final cells are those that it and its items
    /// leave.
    pub fn new(cells: &'a mut [T], shape: Shape) -> PixelsIterMut<'a, T>
        requires fits { Fits (shaped cells.old shape) }
        ensures name { pixels_name result ≡ cells.entry.ghost_name }
        ensures cells { cells_left result ≡ cells.old }
        ensures marks { marks_left result
            ≡ marks_of (shape_width shape) (shape_height shape) (shape_stride shape) }
        ensures whole { ArePixels (shaped cells.old shape) (muts_left result) }
    {
        let counts = Counts::of_shape(shape);
        PixelsIterMut::from_counts(
            cells,
            counts.remaining,
            counts.rows_left,
            counts.width,
            counts.pad,
        )
    }

    /// The next pixel, the same as from the trait's `next`, with the clause of the final cells.
    ///
    /// A `for` and the adapters use the trait's `next`.
    pub fn next(&mut self) -> Option<&'a mut T>
        ensures steps { YieldsFirstMut muts_left self.old result self.new }
        ensures goes { MakesProgress (λ _. Unit {0}) (item_count muts_left)
            self.old result self.new }
        ensures moves { Moves self.old result self.new }
        ensures* hands_on { sem 𝓛 (hands_on T.row self.old result self.new) }
    {
        if self.remaining == 0 {
            if self.rows_left == 0 {
                return None;
            }
            unsafe { self.current = self.current.add(self.pad) };
            self.rows_left -= 1;
            self.remaining = self.width;
        }
        let pixel = self.current;
        unsafe { self.current = pixel.add(1) };
        self.remaining -= 1;
        Some(unsafe { &mut *pixel })
    }
}

impl<'a, T> Iterator for PixelsIterMut<'a, T> {
    type Item = &'a mut T;

    ghost use Rattle.image_pixels.specs.Pixels.{muts_left};

    ghost next_gives = { YieldsFirstMut muts_left };

    ghost remaining = { item_count muts_left };

    fn next(&mut self) -> Option<&'a mut T> {
        PixelsIterMut::next(self)
    }

    fn size_hint(&self) -> (usize, Option<usize>)
        ensures lower { IsWithinCount result.0 (item_count muts_left self.now) }
        ensures upper { IfSome result.1 (UpTo (item_count muts_left self.now)) }
        ensures exact { (result.0 ≡ length (muts_left self.now))
            × (result.1 ≡ Some (length (muts_left self.now))) }
    {
        let items = pixels_left(self.remaining, self.rows_left, self.width);
        (items, Some(items))
    }
}

impl<T: Copy> ExactSizeIterator for PixelsIterMut<'_, T> {
    fn len(&self) -> usize {
        let (items, _) = self.size_hint();
        items
    }
}

impl<T> FusedIterator for PixelsIterMut<'_, T> {}

impl<T> Drop for PixelsIterMut<'_, T> {
    ghost use Rattle.image_pixels.specs.Pixels.{leaves_as};

    fn drop(self)
        ensures* { sem 𝓛 (leaves_as T.row self.entry) }
    {
        let PixelsIterMut {
            current: _,
            remaining: _,
            rows_left: _,
            width: _,
            pad: _,
            marker: _,
        } = self;
    }
}
