//! A borrowed list of cells, and the shifts in it that are counted.

ghost use Rattle.std.specs.Prelude.{◌≡◌, ◌+◌, ◌*◌, ◌<◌, ◌≤◌, IsTrue, length};
ghost use Rattle.image_model.specs.Shifts.{shifted};
ghost use Rattle.row_mover.specs.State.{IsKnown, IsShifted};

use crate::blocks::{copy_by_blocks, copy_ends_within, copy_few, copy_to_next, copy_to_previous};
use image_writes::copy_line;
use std::marker::Model;
use std::mem::size_of;

/// Shifts cells within one borrowed list, and counts the shifts.
///
/// Contracts see a mover as a `State`: the cells now, the shifts so far, and which list was
/// borrowed. Cells are numbered from 0. The conditions of a call on its numbers are in its
/// `requires`. Where they hold, it always succeeds and allocates no memory.
#[derive(Drop)]
pub struct RowMover<'a, T: Copy> {
    cells: &'a mut [T],
    shifts: u64,
}

impl<'a, T: Copy> Model for RowMover<'a, T> {
    ghost use Rattle.row_mover.specs.State.{State};

    ghost Value = { State T };

    ghost view = { λ m.
        record { cells = m.cells.now; shifts = m.shifts; lender = m.cells.ghost_name } };
}

impl<'a, T: Copy> RowMover<'a, T> {
    /// A mover over this list, with no shifts so far.
    pub fn new(cells: &'a mut [T]) -> Self
        ensures lender { result.lender ≡ cells.entry.ghost_name }
        ensures cells { result.cells ≡ cells.old }
        ensures shifts { result.shifts ≡ 0 }
    {
        RowMover { cells, shifts: 0 }
    }

    /// The cells as they are now.
    pub fn cells(&self) -> &[T]
        ensures { result.now ≡ self.now.cells }
    {
        self.cells
    }

    /// The number of shifts so far.
    pub fn shifts(&self) -> u64
        ensures { result ≡ self.now.shifts }
    {
        self.shifts
    }

    /// Returns the whole list that was passed to `new`, with the cells as they are now.
    pub fn into_cells(self) -> &'a mut [T]
        ensures lender { result.ghost_name ≡ self.entry.lender }
        ensures cells { result.now ≡ self.entry.cells }
    {
        let RowMover { cells, .. } = self;
        cells
    }

    /// Copies `len` cells, from cell `start` on, to the cells from `target` on, as one shift. The
    /// stretches may overlap, and every other cell stays (`shifted`).
    #[inline(always)]
    pub fn shift(&mut self, start: usize, len: usize, target: usize)
        requires source { start + len ≤ length self.old.cells }
        requires target { target + len ≤ length self.old.cells }
        requires count { self.old.shifts + 1 ≤ u64.MAX }
        ensures cells { self.new.cells ≡ shifted self.old.cells start len target }
        ensures length { length self.new.cells ≡ length self.old.cells }
        ensures shifts { self.new.shifts ≡ self.old.shifts + 1 }
        ensures lender { self.new.lender ≡ self.old.lender }
    {
        self.shift_by::<0, ANY>(start, len, target);
    }

    /// The same shift, where more is known of it: that `len` is from `N` to `2 * N`, where `N` isn't
    /// 0, or where the target is. So no test of that is left in a loop over rows.
    #[inline(always)]
    pub(crate) fn shift_by<const N: usize, const HOW: usize>(
        &mut self,
        start: usize,
        len: usize,
        target: usize,
    )
        requires known { IsKnown N HOW start len target }
        requires source { start + len ≤ length self.old.cells }
        requires target { target + len ≤ length self.old.cells }
        requires count { self.old.shifts + 1 ≤ u64.MAX }
        ensures { IsShifted self.old self.new start len target }
    {
        let RowMover { cells, shifts } = self;
        *shifts += 1;
        copy_by::<T, N, HOW>(cells, start, len, target);
    }
}

// What is known of where a stretch goes: nothing; to the next cell; to the cell before it; to a place
// after its end; to a place that ends before it; mostly over itself.
pub(crate) const ANY: usize = 0;

pub(crate) const NEXT: usize = 1;

pub(crate) const PREVIOUS: usize = 2;

pub(crate) const BEHIND: usize = 3;

pub(crate) const BEFORE: usize = 4;

pub(crate) const OVER: usize = 5;

/// The most cells and bytes of a row that goes by registers. The tests of longer ones, and a call of
/// `memmove`, would take longer than its copy.
pub(crate) const FEW: usize = 128;

// Whether a stretch is so short.
#[inline(always)]
fn is_short<T>(stretch: &[T]) -> bool
    ensures { IsTrue result → length stretch.now ≤ 128 }
{
    stretch.len() <= FEW && stretch.len() * size_of::<T>() <= FEW
}

// Copies a stretch to a place that it may overlap, by what is known of it.
#[inline(always)]
fn copy_by<T: Copy, const N: usize, const HOW: usize>(
    cells: &mut [T],
    start: usize,
    len: usize,
    target: usize,
)
    requires known { IsKnown N HOW start len target }
    requires source { start + len ≤ length cells.old }
    requires target { target + len ≤ length cells.old }
    ensures { cells.new ≡ shifted cells.old start len target }
{
    if N > 0 {
        copy_ends_within::<T, N>(cells, start, len, target);
    } else if HOW == NEXT {
        copy_to_next(cells, start, len);
    } else if HOW == PREVIOUS {
        copy_to_previous(cells, target, len);
    } else if HOW == BEHIND {
        copy_behind(cells, start, len, target);
    } else if HOW == BEFORE {
        copy_before(cells, start, len, target);
    } else if HOW == OVER {
        copy_by_blocks(cells, start, len, target);
    } else if is_short(&cells[start..start + len]) {
        copy_few(cells, start, len, target);
    } else {
        copy_long(cells, start, len, target);
    }
}

// The same of any length, where nothing is known of it.
#[inline(always)]
fn copy_long<T: Copy>(cells: &mut [T], start: usize, len: usize, target: usize)
    requires source { start + len ≤ length cells.old }
    requires target { target + len ≤ length cells.old }
    ensures { cells.new ≡ shifted cells.old start len target }
{
    if target + len <= start {
        copy_before(cells, start, len, target);
    } else if start + len <= target {
        copy_behind(cells, start, len, target);
    } else {
        copy_by_blocks(cells, start, len, target);
    }
}

// Copies a stretch to a place after its end.
#[inline(always)]
fn copy_behind<T: Copy>(cells: &mut [T], start: usize, len: usize, target: usize)
    requires apart { start + len ≤ target }
    requires target { target + len ≤ length cells.old }
    ensures { cells.new ≡ shifted cells.old start len target }
{
    let (front, back) = cells.split_at_mut(target);
    copy_line(&mut back[..len], &front[start..start + len]);
}

// Copies a stretch to a place that ends before it.
#[inline(always)]
fn copy_before<T: Copy>(cells: &mut [T], start: usize, len: usize, target: usize)
    requires apart { target + len ≤ start }
    requires source { start + len ≤ length cells.old }
    ensures { cells.new ≡ shifted cells.old start len target }
{
    let (front, back) = cells.split_at_mut(start);
    copy_line(&mut front[target..target + len], &back[..len]);
}
