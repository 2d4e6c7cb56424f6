//! Rows for reading.

ghost use Rattle.std.specs.Prelude.{◌≡◌, ◌<◌, ◌≤◌, length, Some, IfSome};
ghost use Rattle.std.specs.Iterator.{YieldsFirstRef, item_count, UpTo, YieldsLastRef};
ghost use Rattle.std.specs.Iterator.SizeHint.{IsWithinCount};
ghost use Rattle.image_model.specs.Layout.{Fits, layout};
ghost use Rattle.image_shape.specs.Shape.{shaped};

use image_shape::{Shape, Spacing, Stretch};
use std::iter::{ExactSizeIterator, FusedIterator};

/// The rows of an image for reading, from either end: each a slice of `width` cells, without the
/// padding. An image of width 0 has no row.
#[derive(Drop)]
pub struct RowsIter<'a, T> {
    cells: &'a [T],
    count: usize,
    width: usize,
    stride: usize,
    ghost some: { 0 < count → 0 < width },
    ghost holds_width: { width ≤ stride },
    ghost fits: { Fits (layout cells.now width count stride) },
}

impl<'a, T> RowsIter<'a, T> {
    ghost use Rattle.image_rows.specs.Rows.{refs_left, AreRows};

    /// The rows of cells in a shape that they fit.
    #[tactic(auto, unfolding(crate::specs::Rows::refs_left))]
    pub fn new(cells: &'a [T], shape: Shape) -> RowsIter<'a, T>
        requires fits { Fits (shaped cells.now shape) }
        ensures whole { AreRows (shaped cells.now shape) (refs_left result) }
    {
        let spacing = Spacing::whole(shape);
        RowsIter {
            cells,
            count: spacing.count,
            width: spacing.width,
            stride: spacing.stride,
        }
    }
}

impl<'a, T> Iterator for RowsIter<'a, T> {
    type Item = &'a [T];

    ghost use Rattle.image_rows.specs.Rows.{refs_left};

    ghost next_gives = { YieldsFirstRef refs_left };

    ghost remaining = { item_count refs_left };

    #[tactic(auto, using(crate::proofs::RowsLeft::ends), unfolding(crate::specs::Rows::refs_left))]
    fn next(&mut self) -> Option<&'a [T]> {
        if self.count == 0 {
            return None;
        }
        let cells = self.cells;
        self.count -= 1;
        if self.count > 0 {
            self.cells = &cells[self.stride..];
        }
        Some(&cells[..self.width])
    }

    #[tactic(auto, using(crate::proofs::RowsLeft::counting), unfolding(crate::specs::Rows::refs_left))]
    fn size_hint(&self) -> (usize, Option<usize>)
        ensures lower { IsWithinCount result.0 (item_count refs_left self.now) }
        ensures upper { IfSome result.1 (UpTo (item_count refs_left self.now)) }
        ensures exact { (result.0 ≡ length (refs_left self.now))
            × (result.1 ≡ Some (length (refs_left self.now))) }
    {
        (self.count, Some(self.count))
    }
}

impl<'a, T> DoubleEndedIterator for RowsIter<'a, T> {
    ghost use Rattle.image_rows.specs.Rows.{refs_left};

    ghost next_back_gives = { YieldsLastRef refs_left };

    #[tactic(auto, using(crate::proofs::RowsLeft::ends), unfolding(crate::specs::Rows::refs_left))]
    fn next_back(&mut self) -> Option<&'a [T]> {
        if self.count == 0 {
            return None;
        }
        self.count -= 1;
        let start = Shape::cells_of_rows(self.count, self.stride);
        let len = self.width;
        let last = Stretch { start, len };
        Some(&self.cells[last.range()])
    }
}

impl<T> ExactSizeIterator for RowsIter<'_, T> {
    fn len(&self) -> usize {
        self.size_hint().0
    }
}

impl<T> FusedIterator for RowsIter<'_, T> {}
