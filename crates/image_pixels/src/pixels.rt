//! The pixels for reading: as references and as copies.

#![tactic(auto, using(crate::proofs::Runs::copies_run), unfolding(crate::specs::Pixels::copies_left))]

ghost use Rattle.std.specs.Prelude.{◌≡◌, ◌+◌, ◌*◌, ◌<◌, ◌≤◌, length, List, ◌++◌, true, false, [], Some, IfSome};
ghost use Rattle.std.specs.Borrow.{Bor, ftrue};
ghost use Rattle.std.specs.Iterator.{YieldsFirst, YieldsFirstRef, item_count, UpTo, CallableInFold, FoldsItems, ActsAsOnTwo};
ghost use Rattle.std.specs.Iterator.SizeHint.{IsWithinCount};
ghost use Rattle.std.specs.Iterator.Runs.{YieldsInOrder, YieldsRefsInOrder};
ghost use Rattle.image_model.specs.Layout.{Fits};
ghost use Rattle.image_shape.specs.Shape.{shaped};

use crate::cells::Cells;
use crate::counts::{Counts, pixels_left};
use crate::folding::fold_one;
use image_shape::Shape;
use std::iter::{ExactSizeIterator, FusedIterator};

// The width from which on a row is worth a loop of its own.
const NARROW: usize = 8;

/// The pixels of an image for reading, row by row and from left to right, without the padding.
///
/// It is a pointer to the next cell, with the number of pixels left in the row and the number of
/// rows left. The pointer steps over the padding only when another row begins.
#[derive(Drop)]
pub struct PixelsRefIter<'a, T> {
    cells: Cells<'a, T>,
    remaining: usize,
    rows_left: usize,
    width: usize,
    pad: usize,
    ghost reaches: { remaining + rows_left * (pad + width) ≤ length cells.cells },
    ghost wide: { 0 < rows_left → 0 < width },
}

impl<'a, T> PixelsRefIter<'a, T> {
    ghost use Rattle.image_pixels.specs.Marks.{pick, marks};
    ghost use Rattle.image_pixels.specs.Pixels.{refs_left, ArePixels, TakesRow};

    /// The pixels of `shape` in `cells`: `width` times `height` of them, row by row and from left
    /// to right, without the padding. The cells must fit; `Shape::fits` tests it.
    pub fn new(cells: &'a [T], shape: Shape) -> PixelsRefIter<'a, T>
        requires fits { Fits (shaped cells.now shape) }
        ensures whole { ArePixels (shaped cells.now shape) (refs_left result) }
        ensures runs { YieldsRefsInOrder (YieldsFirstRef (refs_left {T = T})) refs_left }
    {
        PixelsRefIter::from_counts(Cells::new(cells), Counts::of_shape(shape))
    }

    // The pixels left in a row and the rows after it, as they lie in these cells.
    #[tactic(auto, unfolding(crate::specs::Pixels::refs_left))]
    fn from_counts(cells: Cells<'a, T>, counts: Counts) -> PixelsRefIter<'a, T>
        requires reaches { counts.remaining + counts.rows_left * (counts.pad + counts.width)
            ≤ length cells.cells }
        requires width_positive { 0 < counts.rows_left → 0 < counts.width }
        ensures pixels { refs_left result ≡ pick
            (marks counts.remaining counts.rows_left counts.width counts.pad) cells.entry.cells }
    {
        PixelsRefIter {
            cells,
            remaining: counts.remaining,
            rows_left: counts.rows_left,
            width: counts.width,
            pad: counts.pad,
        }
    }

    // How many pixels are left.
    fn count_left(&self) -> usize
        ensures { result ≡ length (refs_left self.now) }
    {
        pixels_left(self.remaining, self.rows_left, self.width)
    }

    // Goes on to the next row, past the padding before it.
    fn enter_row(&mut self)
        requires row_ended { self.old.remaining ≡ 0 }
        requires some { 0 < self.old.rows_left }
        ensures stays { refs_left self.new ≡ refs_left self.old }
        ensures remaining { 0 < self.new.remaining }
    {
        self.cells.take(self.pad);
        self.rows_left -= 1;
        self.remaining = self.width;
    }

    // Whether there is a pixel, going on to its row where none is left in this one.
    //
    // The count is tested after that too: so the compiler sees that a row has a pixel.
    fn find_row(&mut self) -> bool
        ensures stays { refs_left self.new ≡ refs_left self.old }
        ensures some { result ≡ true → 0 < self.new.remaining }
        ensures none { result ≡ false → refs_left self.old ≡ [] }
    {
        if self.remaining == 0 {
            if self.rows_left == 0 {
                return false;
            }
            self.enter_row();
        }
        self.remaining > 0
    }

    // The next `count` pixels of this row.
    fn take(&mut self, count: usize) -> &'a [T]
        requires { count ≤ self.old.remaining }
        ensures taken { refs_left self.old ≡ result.now ++ refs_left self.new }
        ensures count { length result.now ≡ count }
    {
        self.remaining -= count;
        self.cells.take(count)
    }

    // What is left of this row, or else the next row; none where there is no pixel.
    fn take_row(&mut self) -> Option<&'a [T]>
        ensures { TakesRow (refs_left self.old) result (refs_left self.new) }
    {
        if !self.find_row() {
            return None;
        }
        let count = self.remaining;
        Some(self.take(count))
    }
}

impl<'a, T> Iterator for PixelsRefIter<'a, T> {
    type Item = &'a T;

    ghost use Rattle.image_pixels.specs.Pixels.{refs_left};

    ghost next_gives = { YieldsFirstRef refs_left };

    ghost remaining = { item_count refs_left };

    fn next(&mut self) -> Option<&'a T> {
        if !self.find_row() {
            return None;
        }
        Some(&self.take(1)[0])
    }

    fn size_hint(&self) -> (usize, Option<usize>)
        ensures lower { IsWithinCount result.0 (item_count refs_left self.now) }
        ensures upper { IfSome result.1 (UpTo (item_count refs_left self.now)) }
        ensures exact { (result.0 ≡ length (refs_left self.now))
            × (result.1 ≡ Some (length (refs_left self.now))) }
    {
        (self.count_left(), Some(self.count_left()))
    }
}

impl<'a, T> PixelsRefIter<'a, T> {
    ghost use Rattle.std.specs.List.{fold};
    ghost use Rattle.std.specs.Iterator.Runs.{WholeRun};
    ghost use Rattle.image_pixels.specs.Pixels.{refs_left};

    /// What `f` makes of `init` and each pixel in order, the same as from the trait's `fold`.
    ///
    /// Where the rows aren't narrow, it has an inner loop for each row. On wide rows of small
    /// pixels it is faster than a `for`.
    pub fn fold<B, F: FnMut(B, &'a T) -> B>(mut self, init: B, mut f: F) -> B
        requires callable { CallableInFold (YieldsFirstRef refs_left) F.FnMut self f init }
        ensures ran { FoldsItems (YieldsFirstRef refs_left) F.FnMut self.entry f init result }
        ensures runs { WholeRun (YieldsFirstRef refs_left) self.entry
            (λ p. (h : B → Bor T → B) → ActsAsOnTwo F.FnMut f h → result ≡ fold h init p.items) }
    {
        if self.width < NARROW {
            return Iterator::fold(self, init, f);
        }
        let mut acc = init;
        while let Some(row) = self.take_row() {
            for pixel in row {
                acc = fold_one(&mut f, acc, pixel);
            }
        }
        acc
    }
}

impl<T: Copy> ExactSizeIterator for PixelsRefIter<'_, T> {
    fn len(&self) -> usize {
        self.count_left()
    }
}

impl<T> FusedIterator for PixelsRefIter<'_, T> {}

/// The pixels of an image as copies, row by row and from left to right, without the padding.
#[derive(Drop)]
pub struct PixelsIter<'a, T: Copy> {
    inner: PixelsRefIter<'a, T>,
}

impl<'a, T: Copy> PixelsIter<'a, T> {
    ghost use Rattle.image_pixels.specs.Pixels.{copies_left, ArePixels};

    /// Copies of the pixels of `shape` in `cells`: `width` times `height` of them, row by row and
    /// from left to right, without the padding. The cells must fit; `Shape::fits` tests it.
    pub fn new(cells: &'a [T], shape: Shape) -> PixelsIter<'a, T>
        requires fits { Fits (shaped cells.now shape) }
        ensures whole { ArePixels (shaped cells.now shape) (copies_left result) }
        ensures runs { YieldsInOrder (YieldsFirst (copies_left {T = T})) copies_left }
    {
        PixelsIter {
            inner: PixelsRefIter::new(cells, shape),
        }
    }
}

impl<T: Copy> Iterator for PixelsIter<'_, T> {
    type Item = T;

    ghost use Rattle.image_pixels.specs.Pixels.{copies_left};

    ghost next_gives = { YieldsFirst copies_left };

    ghost remaining = { item_count copies_left };

    fn next(&mut self) -> Option<T> {
        match self.inner.next() {
            Some(pixel) => Some(*pixel),
            None => None,
        }
    }

    fn size_hint(&self) -> (usize, Option<usize>)
        ensures lower { IsWithinCount result.0 (item_count copies_left self.now) }
        ensures upper { IfSome result.1 (UpTo (item_count copies_left self.now)) }
        ensures exact { (result.0 ≡ length (copies_left self.now))
            × (result.1 ≡ Some (length (copies_left self.now))) }
    {
        self.inner.size_hint()
    }
}

impl<T: Copy> PixelsIter<'_, T> {
    ghost use Rattle.std.specs.List.{fold};
    ghost use Rattle.std.specs.Iterator.Runs.{WholeRun};
    ghost use Rattle.image_pixels.specs.Pixels.{copies_left};

    /// What `f` makes of `init` and each pixel in order, the same as from the trait's `fold`.
    ///
    /// Where the rows aren't narrow, it has an inner loop for each row. On wide rows of small
    /// pixels it is faster than a `for`.
    pub fn fold<B, F: FnMut(B, T) -> B>(mut self, init: B, mut f: F) -> B
        requires callable { CallableInFold (YieldsFirst copies_left) F.FnMut self f init }
        ensures ran { FoldsItems (YieldsFirst copies_left) F.FnMut self.entry f init result }
        ensures runs { WholeRun (YieldsFirst copies_left) self.entry
            (λ p. (h : B → T → B) → ActsAsOnTwo F.FnMut f h → result ≡ fold h init p.items) }
    {
        if self.inner.width < NARROW {
            return Iterator::fold(self, init, f);
        }
        let mut acc = init;
        while let Some(row) = self.inner.take_row() {
            for pixel in row {
                acc = f(acc, *pixel);
            }
        }
        acc
    }
}

impl<T: Copy> ExactSizeIterator for PixelsIter<'_, T> {
    fn len(&self) -> usize {
        self.inner.len()
    }
}

impl<T: Copy> FusedIterator for PixelsIter<'_, T> {}
