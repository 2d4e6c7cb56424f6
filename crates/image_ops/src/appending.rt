//! Clones of cells, appended to a buffer that has room for them.
//!
//! All clones of a block are made before the first is appended. So where `clone` is a copy, the
//! compiler sees that no cell changes in between, and copies a block by vectors.

ghost use Rattle.std.specs.Prelude.{◌≡◌, ◌+◌, ◌*◌, ◌/◌, ◌<◌, ◌≤◌, ◌++◌, IfOk, OnOk, length};
ghost use Rattle.std.specs.List.{AllZip};
ghost use Rattle.std.specs.Vec.{vec_len, vec_capacity};
ghost use Rattle.image_ops.specs.Clones.{AreWhole, GetsClones};

use image_writes::is_word;
use std::alloc::AllocError;
use std::mem::size_of_val;
use std::vec::VecCloneMethods;

// The clones of four cells.
#[inline(always)]
fn four_clones<T: Clone>(cells: &[T]) -> Result<[T; 4], AllocError>
    requires four { length cells.now ≡ 4 }
    ensures { IfOk result (λ clones. AllZip T.is_clone cells.now clones) }
{
    let first = cells[0].clone()?;
    let second = cells[1].clone()?;
    let third = cells[2].clone()?;
    let fourth = cells[3].clone()?;
    Ok([first, second, third, fourth])
}

#[inline(always)]
fn push_four<T>(buf: &mut Vec<T>, cells: [T; 4])
    requires room { vec_len buf.old + 4 ≤ vec_capacity buf.old }
    ensures capacity { vec_capacity buf.new ≡ vec_capacity buf.old }
    ensures len { vec_len buf.new ≡ vec_len buf.old + 4 }
    ensures items { buf.new.items ≡ buf.old.items ++ cells }
{
    let [first, second, third, fourth] = cells;
    buf.push_reserved(first);
    buf.push_reserved(second);
    buf.push_reserved(third);
    buf.push_reserved(fourth);
}

// Appends the clones of sixteen cells.
#[inline(always)]
fn push_sixteen<T: Clone>(buf: &mut Vec<T>, cells: &[T]) -> Result<(), AllocError>
    requires sixteen { length cells.now ≡ 16 }
    requires room { vec_len buf.old + 16 ≤ vec_capacity buf.old }
    ensures { OnOk result (GetsClones T.is_clone buf.old buf.new cells.now) }
{
    let first = four_clones(&cells[..4])?;
    let second = four_clones(&cells[4..8])?;
    let third = four_clones(&cells[8..12])?;
    let fourth = four_clones(&cells[12..])?;
    push_four(buf, first);
    push_four(buf, second);
    push_four(buf, third);
    push_four(buf, fourth);
    Ok(())
}

// Appends the clones of thirty-two cells.
#[inline(always)]
fn push_thirty_two<T: Clone>(buf: &mut Vec<T>, cells: &[T]) -> Result<(), AllocError>
    requires thirty_two { length cells.now ≡ 32 }
    requires room { vec_len buf.old + 32 ≤ vec_capacity buf.old }
    ensures { OnOk result (GetsClones T.is_clone buf.old buf.new cells.now) }
{
    push_sixteen(buf, &cells[..16])?;
    push_sixteen(buf, &cells[16..])?;
    Ok(())
}

// Appends the clones of fewer than four cells.
#[inline(always)]
fn push_below_four<T: Clone>(buf: &mut Vec<T>, cells: &[T]) -> Result<(), AllocError>
    requires few { length cells.now < 4 }
    requires room { vec_len buf.old + length cells.now ≤ vec_capacity buf.old }
    ensures { OnOk result (GetsClones T.is_clone buf.old buf.new cells.now) }
{
    if cells.is_empty() {
        return Ok(());
    }
    let first = cells[0].clone()?;
    if cells.len() == 1 {
        buf.push_reserved(first);
        return Ok(());
    }
    let second = cells[1].clone()?;
    buf.push_reserved(first);
    buf.push_reserved(second);
    if cells.len() == 2 {
        return Ok(());
    }
    let third = cells[2].clone()?;
    buf.push_reserved(third);
    Ok(())
}

// Appends the clones of eight cells.
#[inline(always)]
fn push_eight<T: Clone>(buf: &mut Vec<T>, cells: &[T]) -> Result<(), AllocError>
    requires eight { length cells.now ≡ 8 }
    requires room { vec_len buf.old + 8 ≤ vec_capacity buf.old }
    ensures { OnOk result (GetsClones T.is_clone buf.old buf.new cells.now) }
{
    let first = four_clones(&cells[..4])?;
    let second = four_clones(&cells[4..])?;
    push_four(buf, first);
    push_four(buf, second);
    Ok(())
}

// Appends the clones of fewer than eight cells.
#[inline(always)]
fn push_below_eight<T: Clone>(buf: &mut Vec<T>, cells: &[T]) -> Result<(), AllocError>
    requires few { length cells.now < 8 }
    requires room { vec_len buf.old + length cells.now ≤ vec_capacity buf.old }
    ensures { OnOk result (GetsClones T.is_clone buf.old buf.new cells.now) }
{
    let mut done = 0;
    if cells.len() >= 4 {
        let clones = four_clones(&cells[..4])?;
        push_four(buf, clones);
        done = 4;
    }
    push_below_four(buf, &cells[done..])
}

// Appends the clones of fewer than sixteen cells: of eight, of four, and of those that are left. So
// there is no loop.
#[inline(always)]
fn push_below_sixteen<T: Clone>(buf: &mut Vec<T>, cells: &[T]) -> Result<(), AllocError>
    requires few { length cells.now < 16 }
    requires room { vec_len buf.old + length cells.now ≤ vec_capacity buf.old }
    ensures { OnOk result (GetsClones T.is_clone buf.old buf.new cells.now) }
{
    let mut done = 0;
    if cells.len() >= 8 {
        push_eight(buf, &cells[..8])?;
        done = 8;
    }
    push_below_eight(buf, &cells[done..])
}

// Appends the clones of fewer than thirty-two cells: of sixteen, and of those that are left.
#[inline(always)]
fn push_below_thirty_two<T: Clone>(buf: &mut Vec<T>, cells: &[T]) -> Result<(), AllocError>
    requires few { length cells.now < 32 }
    requires room { vec_len buf.old + length cells.now ≤ vec_capacity buf.old }
    ensures { OnOk result (GetsClones T.is_clone buf.old buf.new cells.now) }
{
    let mut done = 0;
    if cells.len() >= 16 {
        push_sixteen(buf, &cells[..16])?;
        done = 16;
    }
    push_below_sixteen(buf, &cells[done..])
}

// Appends the clones of any cells, by thirty-two at once.
#[inline(always)]
fn push_sixteens<T: Clone>(buf: &mut Vec<T>, cells: &[T]) -> Result<(), AllocError>
    requires room { vec_len buf.old + length cells.now ≤ vec_capacity buf.old }
    ensures { OnOk result (GetsClones T.is_clone buf.old buf.new cells.now) }
{
    let mut done = 0;
    while cells.len() - done >= 32 {
        push_thirty_two(buf, &cells[done..done + 32])?;
        done += 32;
    }
    push_below_thirty_two(buf, &cells[done..])
}

// Appends the clones of cells whose number is a multiple of 16. So there is no rest.
#[inline(always)]
fn push_whole<T: Clone>(buf: &mut Vec<T>, cells: &[T]) -> Result<(), AllocError>
    requires whole { length cells.now ≡ 16 * (length cells.now / 16) }
    requires room { vec_len buf.old + length cells.now ≤ vec_capacity buf.old }
    ensures { OnOk result (GetsClones T.is_clone buf.old buf.new cells.now) }
{
    let mut done = 0;
    while done < cells.len() {
        push_sixteen(buf, &cells[done..done + 16])?;
        done += 16;
    }
    Ok(())
}

// The same of a multiple of 64, by two times thirty-two at once.
#[inline(always)]
fn push_many<T: Clone>(buf: &mut Vec<T>, cells: &[T]) -> Result<(), AllocError>
    requires whole { length cells.now ≡ 64 * (length cells.now / 64) }
    requires room { vec_len buf.old + length cells.now ≤ vec_capacity buf.old }
    ensures { OnOk result (GetsClones T.is_clone buf.old buf.new cells.now) }
{
    let mut done = 0;
    while done < cells.len() {
        push_thirty_two(buf, &cells[done..done + 32])?;
        push_thirty_two(buf, &cells[done + 32..done + 64])?;
        done += 64;
    }
    Ok(())
}

/// How the clones of a row are appended: by blocks of so many cells, of which there is no rest.
pub(crate) const SIXTY_FOURS: usize = 64;

pub(crate) const SIXTEENS: usize = 16;

/// Any number of them; fewer than sixteen; one by one.
pub(crate) const ANY: usize = 0;

pub(crate) const FEW: usize = 4;

pub(crate) const ONES: usize = 1;

/// How rows of so many of these cells are appended. Only cells of 1, 2, 4 or 8 bytes go by one register,
/// and so by blocks. Blocks of 64 are for bytes. There is a cell: so the compiler knows its size, and
/// makes only the loops for it.
#[inline(always)]
pub(crate) fn blocks_to_clone<T>(cells: &[T], width: usize) -> usize
    requires some { 0 < length cells.now }
    ensures { AreWhole result width }
{
    let Some(cell) = cells.first() else {
        unreachable!()
    };
    if !is_word(cell) {
        ONES
    } else if width < 16 {
        FEW
    } else if size_of_val(cell) == 1 && width % 64 == 0 {
        SIXTY_FOURS
    } else if width % 16 == 0 {
        SIXTEENS
    } else {
        ANY
    }
}

/// Appends the clones of cells. There is room for them.
#[inline(always)]
pub(crate) fn push_clones<T: Clone, const HOW: usize>(
    buf: &mut Vec<T>,
    cells: &[T],
) -> Result<(), AllocError>
    requires whole { AreWhole HOW (length cells.now) }
    requires room { vec_len buf.old + length cells.now ≤ vec_capacity buf.old }
    ensures { OnOk result (GetsClones T.is_clone buf.old buf.new cells.now) }
{
    if HOW == SIXTY_FOURS {
        push_many(buf, cells)
    } else if HOW == SIXTEENS {
        push_whole(buf, cells)
    } else if HOW == FEW {
        push_below_sixteen(buf, cells)
    } else if HOW == ANY {
        push_sixteens(buf, cells)
    } else {
        buf.extend_from_slice(cells)
    }
}
