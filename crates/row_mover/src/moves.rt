//! The moves of whole windows: the rows of an image that are joined, and a window that moves.

ghost use Rattle.std.specs.Prelude.{◌≡◌, ◌+◌, ◌-◌, ◌*◌, ◌<◌, ◌≤◌, ◌++◌, length, drop};
ghost use Rattle.image_model.specs.Layout.{layout, Fits};
ghost use Rattle.image_model.specs.Rows.{joined_rows};
ghost use Rattle.image_model.specs.Shifts.{rows_compacted, rows_moved, MovesRows};
ghost use Rattle.row_mover.specs.State.{AreApart, AreJoined, AreMoved, CanMove, IsKnown};

use crate::mover::{ANY, BEFORE, BEHIND, FEW, NEXT, OVER, PREVIOUS, RowMover};
use image_writes::{is_word, part_of_row};
use std::mem;

impl<T: Copy> RowMover<'_, T> {
    /// Joins the rows of an image at the front of the list, in place: the first `width * height`
    /// cells become its `joined_rows`, and later cells stay. The size is in pixels, the stride in
    /// cells. Each row except the first takes one shift; rows that touch already take no shift
    /// (`rows_compacted`).
    #[tactic(auto, using(crate::proofs::Compacting::compacting))]
    pub fn compact_rows(&mut self, width: usize, height: usize, stride: usize)
        requires fits { Fits (layout self.old.cells width height stride) }
        requires stride_positive { 1 ≤ stride }
        requires holds_width { width ≤ stride }
        requires count { self.old.shifts + height ≤ u64.MAX }
        ensures cells { self.new.cells ≡ joined_rows (layout self.old.cells width height stride)
            ++ drop (width * height) self.old.cells }
        ensures length { length self.new.cells ≡ length self.old.cells }
        ensures shifts { self.new.shifts ≡ self.old.shifts + rows_compacted width height stride }
        ensures lender { self.new.lender ≡ self.old.lender }
    {
        if width == 0 || width == stride || height == 0 {
            return;
        }
        match part_of_row(self.cells(), width, FEW) {
            64 => self.join_each::<64>(width, height, stride),
            32 => self.join_each::<32>(width, height, stride),
            16 => self.join_each::<16>(width, height, stride),
            8 => self.join_each::<8>(width, height, stride),
            4 => self.join_each::<4>(width, height, stride),
            2 => self.join_each::<2>(width, height, stride),
            1 => self.join_each::<1>(width, height, stride),
            _ => self.join_long(width, height, stride),
        }
    }

    // The same of rows that have pixels, don't touch and aren't short. It isn't inlined: so the loops
    // of short rows have the registers for themselves. The mover is a value here: so its count and its
    // list are in registers, too.
    #[inline(never)]
    #[tactic(auto, using(crate::proofs::Compacting::compacting))]
    fn join_long(&mut self, width: usize, height: usize, stride: usize)
        requires rows { AreApart self.old.cells width height stride }
        requires count { self.old.shifts + height ≤ u64.MAX }
        ensures { AreJoined self.old self.new width height stride }
    {
        prove!(self.cells().len() <= usize::MAX);
        let mut mover = mem::replace(self, RowMover::new(&mut []));
        // The first rows overlap the places that they go to. All after the first one that doesn't are
        // apart from theirs.
        let mut y = 1;
        while y < height && y * (stride - width) < width {
            mover.shift_by::<0, OVER>(y * stride, width, y * width);
            y += 1;
        }
        for y in y..height {
            mover.shift_by::<0, BEFORE>(y * stride, width, y * width);
        }
        *self = mover;
    }

    // The loop of `compact_rows` for rows of `N` to `2 * N` pixels that don't touch.
    #[inline(always)]
    #[tactic(auto, using(crate::proofs::Compacting::compacting))]
    fn join_each<const N: usize>(&mut self, width: usize, height: usize, stride: usize)
        requires some { 0 < N }
        requires enough { N ≤ width }
        requires few { width ≤ 2 * N }
        requires rows { AreApart self.old.cells width height stride }
        requires count { self.old.shifts + height ≤ u64.MAX }
        ensures { AreJoined self.old self.new width height stride }
    {
        // No row ends past the list, and its length is a `usize`: so no cell's number overflows.
        prove!(self.cells().len() <= usize::MAX);
        for y in 1..height {
            self.shift_by::<N, ANY>(y * stride, width, y * width);
        }
    }

    /// Moves the rows of a window from the corner at cell `from` to the corner at cell `to`, in
    /// place. The two may overlap: each target row becomes the old source row, and every other cell
    /// stays (`MovesRows`). The size is in pixels, the stride in cells. Each row takes one shift
    /// (`rows_moved`). The corners of an empty window are ignored.
    #[tactic(auto, using(crate::proofs::Moving::moving))]
    pub fn move_rows(&mut self, stride: usize, from: usize, to: usize, width: usize, height: usize)
        requires stride_positive { 1 ≤ stride }
        requires holds_width { width ≤ stride }
        requires count { self.old.shifts + height ≤ u64.MAX }
        requires source { 0 < width → 0 < height
            → from + (stride * (height - 1) + width) ≤ length self.old.cells }
        requires target { 0 < width → 0 < height
            → to + (stride * (height - 1) + width) ≤ length self.old.cells }
        ensures cells { MovesRows self.old.cells self.new.cells stride from to width height }
        ensures shifts { self.new.shifts ≡ self.old.shifts + rows_moved width height }
        ensures lender { self.new.lender ≡ self.old.lender }
    {
        if width == 0 || height == 0 {
            return;
        }
        match part_of_row(self.cells(), width, FEW) {
            64 => self.move_each::<64, ANY>(stride, from, to, width, height),
            32 => self.move_each::<32, ANY>(stride, from, to, width, height),
            16 => self.move_each::<16, ANY>(stride, from, to, width, height),
            8 => self.move_each::<8, ANY>(stride, from, to, width, height),
            4 => self.move_each::<4, ANY>(stride, from, to, width, height),
            2 => self.move_each::<2, ANY>(stride, from, to, width, height),
            1 => self.move_each::<1, ANY>(stride, from, to, width, height),
            _ => self.move_long(stride, from, to, width, height),
        }
    }

    // The same of rows that have pixels and aren't short, by where they go. Not inlined, as above.
    #[inline(never)]
    fn move_long(&mut self, stride: usize, from: usize, to: usize, width: usize, height: usize)
        requires rows { CanMove (length self.old.cells) stride from to width height }
        requires count { self.old.shifts + height ≤ u64.MAX }
        ensures { AreMoved self.old self.new stride from to width height }
    {
        prove!(self.cells().len() <= usize::MAX);
        let are_words = is_word(&self.cells()[from]);
        let mut mover = mem::replace(self, RowMover::new(&mut []));
        if from + width <= to {
            mover.move_each::<0, BEHIND>(stride, from, to, width, height);
        } else if to + width <= from {
            mover.move_each::<0, BEFORE>(stride, from, to, width, height);
        } else if are_words && from + 1 == to {
            mover.move_each::<0, NEXT>(stride, from, to, width, height);
        } else if are_words && to + 1 == from {
            mover.move_each::<0, PREVIOUS>(stride, from, to, width, height);
        } else {
            mover.move_each::<0, OVER>(stride, from, to, width, height);
        }
        *self = mover;
    }

    // The loops of `move_rows`, where rows have pixels.
    #[inline(always)]
    #[tactic(auto, using(crate::proofs::Moving::moving))]
    fn move_each<const N: usize, const HOW: usize>(
        &mut self,
        stride: usize,
        from: usize,
        to: usize,
        width: usize,
        height: usize,
    )
        requires known { IsKnown N HOW from width to }
        requires rows { CanMove (length self.old.cells) stride from to width height }
        requires count { self.old.shifts + height ≤ u64.MAX }
        ensures { AreMoved self.old self.new stride from to width height }
    {
        // As above, no cell's number overflows.
        prove!(self.cells().len() <= usize::MAX);
        // A row is read before it is overwritten: towards the front from the first row on, and
        // towards the back from the last.
        if to <= from {
            for y in 0..height {
                self.shift_by::<N, HOW>(from + y * stride, width, to + y * stride);
            }
        } else {
            for y in (0..height).rev() {
                self.shift_by::<N, HOW>(from + y * stride, width, to + y * stride);
            }
        }
    }
}
