//! Rows of few bytes: their first and their last cells, which may overlap, are all of them.
//!
//! Both parts have a length that the compiler knows. So a row goes by registers, and there is no
//! call and no test in it. The length is chosen once for an image.

ghost use Rattle.std.specs.Prelude.{◌≡◌, ◌*◌, ◌<◌, ◌≤◌, length, IsTrue};
ghost use Rattle.std.specs.Cmp.Lexicographic.{pointwise};

use image_writes::{part_of_row, read_part, write_part};
use std::mem::size_of_val;

// The most cells and bytes of a short row that is copied, and of one that is compared.
const FEW_COPIED: usize = 128;

const FEW_COMPARED: usize = 64;

/// How many cells each part of a row of `width` cells has, where the row is copied and short. It is 0
/// where it isn't, and where there is no cell.
#[inline(always)]
pub(crate) fn part_to_copy<T>(cells: &[T], width: usize) -> usize
    ensures enough { result ≤ width }
    ensures few { 0 < result → width ≤ 2 * result }
{
    part_of_row(cells, width, FEW_COPIED)
}

/// The same of rows that are compared, of more than four cells of at most 8 bytes. Larger ones may
/// hold pointers to much that is compared, and few of them are compared faster one by one.
#[inline(always)]
pub(crate) fn part_to_compare<T>(cells: &[T], width: usize) -> usize
    ensures enough { result ≤ width }
    ensures few { 0 < result → width ≤ 2 * result }
{
    match cells.first() {
        Some(cell) if size_of_val(cell) <= 8 && width > 4 => {
            part_of_row(cells, width, FEW_COMPARED)
        }
        _ => 0,
    }
}

// Whether a row can be cut into blocks of so many cells, of which the last one overlaps at most a
// sixteenth of the row.
#[inline(always)]
fn has_blocks(width: usize, block: usize) -> bool
    requires some { 0 < block }
    ensures { IsTrue result → block ≤ width }
{
    let rest = width % block;
    width >= block && (rest == 0 || block - rest <= width / 16)
}

/// How many cells a block of a row of `width` cells has, for cells of at most 16 bytes. It is 0 for
/// larger cells, and in a row of more than four cells that is shorter than a block. Up to four cells
/// are one block. Each block ends with a test, so long ones are faster. Cells of 1, 2 and 4 bytes are
/// compared by 256 or 128 bytes where such blocks fit the row. Others go by 64 bytes.
#[inline(always)]
pub(crate) fn block_of_row<T>(cells: &[T], width: usize) -> usize
    ensures { result ≤ width }
{
    let Some(cell) = cells.first() else {
        return 0;
    };
    let (least, block) = match size_of_val(cell) {
        1 => (64, 256),
        2 => (32, 128),
        3 => (16, 16),
        4 => (16, 64),
        5..=8 => (8, 8),
        9..=16 => (12, 4),
        _ => return 0,
    };
    if width <= 4 {
        width
    } else if width < least {
        0
    } else if block > least && has_blocks(width, block) {
        block
    } else if block > least && has_blocks(width, block / 2) {
        block / 2
    } else {
        least.min(block)
    }
}

/// Copies a row of `N` to `2 * N` cells, as the first and the last `N`.
#[inline(always)]
pub(crate) fn copy_ends<T: Copy, const N: usize>(cells: &mut [T], source: &[T])
    requires some { 0 < N }
    requires as_many { length cells.old ≡ length source.now }
    requires enough { N ≤ length cells.old }
    requires few { length cells.old ≤ 2 * N }
    ensures len { length cells.new ≡ length cells.old }
    ensures after { cells.new ≡ source.now }
{
    let start = cells.len() - N;
    let first = read_part::<T, N>(&source[..N]);
    write_part(&mut cells[..N], first);
    let last = read_part::<T, N>(&source[start..start + N]);
    write_part(&mut cells[start..start + N], last);
}

// Whether `N` cells are equal one by one. No cell ends the loop, so it becomes vectors.
#[inline(always)]
fn are_all_equal<T: PartialEq, const N: usize>(first: &[T], second: &[T]) -> bool
    requires as_many { length first.now ≡ N }
    requires as_many_too { length second.now ≡ N }
    ensures { result ≡ pointwise T.eq first.now second.now }
{
    let mut same = true;
    for x in 0..N {
        same &= first[x] == second[x];
    }
    same
}

/// Whether two rows of `N` to `2 * N` cells are equal: the first and the last `N` are.
#[inline(always)]
pub(crate) fn have_equal_ends<T: PartialEq, const N: usize>(first: &[T], second: &[T]) -> bool
    requires as_many { length first.now ≡ length second.now }
    requires enough { N ≤ length first.now }
    requires few { length first.now ≤ 2 * N }
    ensures { result ≡ pointwise T.eq first.now second.now }
{
    let start = first.len() - N;
    let front = are_all_equal::<T, N>(&first[..N], &second[..N]);
    front & are_all_equal::<T, N>(&first[start..], &second[start..])
}

/// Whether two rows of at least `N` cells are equal, block by block, up to the first block that
/// differs. The last block may overlap the one before it.
#[inline(always)]
pub(crate) fn have_equal_blocks<T: PartialEq, const N: usize>(first: &[T], second: &[T]) -> bool
    requires some { 0 < N }
    requires as_many { length first.now ≡ length second.now }
    requires enough { N ≤ length first.now }
    ensures { result ≡ pointwise T.eq first.now second.now }
{
    let last = first.len() - N;
    let mut done = 0;
    while done < last {
        let end = done + N;
        if !are_all_equal::<T, N>(&first[done..end], &second[done..end]) {
            return false;
        }
        done = end;
    }
    are_all_equal::<T, N>(&first[last..], &second[last..])
}
