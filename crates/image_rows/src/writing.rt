//! Rows for writing.

ghost use Rattle.std.specs.Prelude.{◌≡◌, ◌+◌, ◌-◌, ◌*◌, ◌<◌, ◌≤◌, length, Some, IfSome};
ghost use Rattle.std.specs.Borrow.{sem};
ghost use Rattle.std.specs.Iterator.{YieldsFirstMut, YieldsLastMut, item_count, UpTo};
ghost use Rattle.std.specs.Iterator.SizeHint.{IsWithinCount};
ghost use Rattle.image_model.specs.Layout.{Fits};
ghost use Rattle.image_shape.specs.Shape.{shape_width, shape_height, shape_stride, shaped};
ghost use Rattle.image_shape.specs.Spacing.{whole_spacing};

use crate::parts::cut_out;
use image_shape::{End, Shape, Spacing};
use std::iter::{ExactSizeIterator, FusedIterator};

/// The rows of an image for writing, from either end: each a slice of `width` cells, without the
/// padding. An image of width 0 has no row. The iterator may be dropped at any point. Then the rows
/// that it has returned keep what was written in them. All other cells are as they were.
#[derive(Drop)]
pub struct RowsIterMut<'a, T> {
    cells: &'a mut [T],
    spacing: Spacing,
    ghost some: { 0 < spacing.count → 0 < spacing.width },
    ghost holds_width: { spacing.width ≤ spacing.stride },
    ghost fits: { 0 < spacing.count → spacing.skip
        + (spacing.stride * (spacing.count - 1) + spacing.width) ≤ length cells.now },
}

impl<'a, T> RowsIterMut<'a, T> {
    ghost use Rattle.image_rows.specs.Rows.{muts_left, cells_left, rows_name, spacing_left, AreRows, Yields, Moves, hands_on};

    /// The rows of cells in a shape that they fit, for writing.
    pub fn new(cells: &'a mut [T], shape: Shape) -> RowsIterMut<'a, T>
        requires fits { Fits (shaped cells.old shape) }
        ensures name { rows_name result ≡ cells.entry.ghost_name }
        ensures cells { cells_left result ≡ cells.old }
        ensures spacing { spacing_left result
            ≡ whole_spacing (shape_width shape) (shape_height shape) (shape_stride shape) }
        ensures whole { AreRows (shaped cells.old shape) (muts_left result) }
    {
        RowsIterMut {
            cells,
            spacing: Spacing::whole(shape),
        }
    }

    /// The row at that end, if there is one, and the rows that are left.
    ///
    /// `step` does the same in place. Both have the clause of the final cells.
    pub fn split_end(self, end: End) -> (Option<&'a mut [T]>, RowsIterMut<'a, T>)
        ensures* hands_on { sem 𝓛 (hands_on T.row end self.entry result.0 result.1) }
        ensures steps { Yields end self.entry result.0 result.1 }
        ensures moves { Moves end self.entry result.0 result.1 }
    {
        if self.spacing.count == 0 {
            return (None, self);
        }
        let cuts = self.spacing.cuts(end, 1);
        let (row, kept) = cut_out(self.cells, end, cuts.outer, cuts.inner);
        let left = RowsIterMut {
            cells: kept,
            spacing: cuts.rest,
        };
        (Some(row), left)
    }

    /// The row at that end, if there is one; the others are left. The trait's `next` and
    /// `next_back` are this step, without the clause of the final cells.
    pub fn step(&mut self, end: End) -> Option<&'a mut [T]>
        ensures* hands_on { sem 𝓛 (hands_on T.row end self.old result self.new) }
        ensures steps { Yields end self.old result self.new }
        ensures moves { Moves end self.old result self.new }
    {
        let (row, left) = self.take().split_end(end);
        *self = left;
        row
    }

    // The rows that are left, which leaves none.
    fn take(&mut self) -> RowsIterMut<'a, T>
        ensures { result ≡ self.old }
    {
        let spacing = Spacing {
            count: 0,
            ..self.spacing
        };
        let cells: &mut [T] = &mut [];
        std::mem::replace(self, RowsIterMut { cells, spacing })
    }
}

impl<'a, T> Iterator for RowsIterMut<'a, T> {
    type Item = &'a mut [T];

    ghost use Rattle.image_rows.specs.Rows.{muts_left};

    ghost next_gives = { YieldsFirstMut muts_left };

    ghost remaining = { item_count muts_left };

    fn next(&mut self) -> Option<&'a mut [T]> {
        self.step(End::First)
    }

    #[tactic(auto, using(crate::proofs::RowsLeft::counting), unfolding(crate::specs::Rows::muts_left))]
    fn size_hint(&self) -> (usize, Option<usize>)
        ensures lower { IsWithinCount result.0 (item_count muts_left self.now) }
        ensures upper { IfSome result.1 (UpTo (item_count muts_left self.now)) }
        ensures exact { (result.0 ≡ length (muts_left self.now))
            × (result.1 ≡ Some (length (muts_left self.now))) }
    {
        (self.spacing.count, Some(self.spacing.count))
    }
}

impl<'a, T> DoubleEndedIterator for RowsIterMut<'a, T> {
    ghost use Rattle.image_rows.specs.Rows.{muts_left};

    ghost next_back_gives = { YieldsLastMut muts_left };

    fn next_back(&mut self) -> Option<&'a mut [T]> {
        self.step(End::Last)
    }
}

impl<T> ExactSizeIterator for RowsIterMut<'_, T> {
    fn len(&self) -> usize {
        let (left, _) = self.size_hint();
        left
    }
}

impl<T> FusedIterator for RowsIterMut<'_, T> {}
