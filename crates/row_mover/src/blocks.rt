//! Copies of stretches to a place that they overlap, by blocks that are read before they are
//! written.
//!
//! The library's `copy_within` goes cell by cell after its last whole vector. A block has a length
//! that the compiler knows, so it is read and written by vectors only. Two blocks that overlap copy
//! the rest.
#![tactic(auto, using(crate::proofs::Stretches::by_blocks))]

ghost use Rattle.std.specs.Prelude.{◌≡◌, ◌+◌, ◌-◌, ◌*◌, ◌<◌, ◌≤◌, length};
ghost use Rattle.image_model.specs.Shifts.{shifted};
ghost use Rattle.row_mover.specs.State.{block_at, GoesTo};

use image_writes::{is_word, read_part, write_part, write_words};

// Copies `N` cells: all are read before one is written.
fn copy_block_within<T: Copy, const N: usize>(cells: &mut [T], start: usize, target: usize)
    requires some { 0 < N }
    requires source { start + N ≤ length cells.old }
    requires target { target + N ≤ length cells.old }
    ensures { cells.new ≡ shifted cells.old start N target }
{
    let _count = cells.len();
    let block = read_part::<T, N>(&cells[start..start + N]);
    write_part(&mut cells[target..target + N], block);
}

/// Copies `N` to `2 * N` cells, as the first and the last `N`: all are read before one is written.
#[inline(always)]
pub(crate) fn copy_ends_within<T: Copy, const N: usize>(
    cells: &mut [T],
    start: usize,
    len: usize,
    target: usize,
)
    requires some { 0 < N }
    requires enough { N ≤ len }
    requires few { len ≤ 2 * N }
    requires source { start + len ≤ length cells.old }
    requires target { target + len ≤ length cells.old }
    ensures { cells.new ≡ shifted cells.old start len target }
{
    let _count = cells.len();
    let first = read_part::<T, N>(&cells[start..start + N]);
    let last = read_part::<T, N>(&cells[start + len - N..start + len]);
    if is_word(&cells[start]) {
        write_words(&mut cells[target..target + N], first);
        write_words(&mut cells[target + len - N..target + len], last);
    } else {
        write_part(&mut cells[target..target + N], first);
        write_part(&mut cells[target + len - N..target + len], last);
    }
}

// Copies one or two cells: both are read before one is written.
#[inline(always)]
fn copy_pair<T: Copy>(cells: &mut [T], start: usize, len: usize, target: usize)
    requires some { 1 ≤ len }
    requires few { len ≤ 2 }
    requires source { start + len ≤ length cells.old }
    requires target { target + len ≤ length cells.old }
    ensures { cells.new ≡ shifted cells.old start len target }
{
    let _count = cells.len();
    let first = cells[start];
    let last = cells[start + len - 1];
    cells[target] = first;
    cells[target + len - 1] = last;
}

/// Copies at most 128 cells.
#[inline(always)]
pub(crate) fn copy_few<T: Copy>(cells: &mut [T], start: usize, len: usize, target: usize)
    requires few { len ≤ 128 }
    requires source { start + len ≤ length cells.old }
    requires target { target + len ≤ length cells.old }
    ensures { cells.new ≡ shifted cells.old start len target }
{
    // After whole blocks often none is left.
    if len == 0 {
        return;
    }
    if len > 64 {
        copy_ends_within::<T, 64>(cells, start, len, target);
    } else if len > 32 {
        copy_ends_within::<T, 32>(cells, start, len, target);
    } else if len > 16 {
        copy_ends_within::<T, 16>(cells, start, len, target);
    } else if len > 8 {
        copy_ends_within::<T, 8>(cells, start, len, target);
    } else if len > 4 {
        copy_ends_within::<T, 4>(cells, start, len, target);
    } else if len > 2 {
        copy_ends_within::<T, 2>(cells, start, len, target);
    } else {
        copy_pair(cells, start, len, target);
    }
}

// Where a block of `n` cells begins in a stretch, of which `left` cells are copied after it: towards
// the back the first ones, else the last ones.
#[inline(always)]
fn block_at<const UP: bool>(len: usize, left: usize, n: usize) -> usize
    requires there { left + n ≤ len }
    ensures at { result ≡ block_at UP len left n }
    ensures inside { result + n ≤ len }
{
    if UP { left } else { len - n - left }
}

// Copies a stretch by blocks: towards the back from its end, else from its start.
fn copy_over<T: Copy, const UP: bool>(cells: &mut [T], start: usize, len: usize, target: usize)
    requires goes { GoesTo UP start len target (length cells.old) }
    ensures { cells.new ≡ shifted cells.old start len target }
{
    let _count = cells.len();
    let mut left = len;
    while left >= 32 {
        left -= 32;
        let at = block_at::<UP>(len, left, 32);
        copy_block_within::<T, 32>(cells, start + at, target + at);
    }
    let at = block_at::<UP>(len, 0, left);
    copy_few(cells, start + at, left, target + at);
}

/// Copies a stretch to a place that it may overlap. It isn't inlined, so that the loops over rows stay
/// small.
#[inline(never)]
pub(crate) fn copy_by_blocks<T: Copy>(cells: &mut [T], start: usize, len: usize, target: usize)
    requires source { start + len ≤ length cells.old }
    requires target { target + len ≤ length cells.old }
    ensures { cells.new ≡ shifted cells.old start len target }
{
    if start <= target {
        copy_over::<T, true>(cells, start, len, target);
    } else {
        copy_over::<T, false>(cells, start, len, target);
    }
}

// All cells but the last go one cell further. For words the compiler makes one call of `memmove` of
// this loop: it knows the distance, and that the list begins with the first cell.
#[inline(never)]
fn push_back<T: Copy>(cells: &mut [T])
    requires some { 1 ≤ length cells.old }
    ensures { cells.new ≡ shifted cells.old 0 (length cells.old - 1) 1 }
{
    let count = cells.len() - 1;
    for done in 0..count {
        let at = count - 1 - done;
        cells[at + 1] = cells[at];
    }
}

// All cells but the first go one cell back, for words by one call of `memmove` too.
#[inline(never)]
fn pull_front<T: Copy>(cells: &mut [T])
    requires some { 1 ≤ length cells.old }
    ensures { cells.new ≡ shifted cells.old 1 (length cells.old - 1) 0 }
{
    let count = cells.len() - 1;
    for done in 0..count {
        cells[done] = cells[done + 1];
    }
}

/// Copies a stretch one cell towards the back.
#[inline(always)]
pub(crate) fn copy_to_next<T: Copy>(cells: &mut [T], start: usize, len: usize)
    requires source { start + (len + 1) ≤ length cells.old }
    ensures { cells.new ≡ shifted cells.old start len (start + 1) }
{
    let _count = cells.len();
    push_back(&mut cells[start..start + (len + 1)]);
}

/// Copies a stretch to the cell `target`, one cell before it.
#[inline(always)]
pub(crate) fn copy_to_previous<T: Copy>(cells: &mut [T], target: usize, len: usize)
    requires source { target + (len + 1) ≤ length cells.old }
    ensures { cells.new ≡ shifted cells.old (target + 1) len target }
{
    let _count = cells.len();
    pull_front(&mut cells[target..target + (len + 1)]);
}
