//! Parts of a row whose length the compiler knows: they are read and written by registers.
//!
//! `copy_from_slice` of the library tests whether the two stretches overlap. These calls don't.

ghost use Rattle.std.specs.Prelude.{◌≡◌, ◌*◌, ◌<◌, ◌≤◌, length};

use std::mem::size_of_val;

/// `N` cells as a value.
#[inline(always)]
pub fn read_part<T: Copy, const N: usize>(cells: &[T]) -> [T; N]
    requires { length cells.now ≡ N }
    ensures { result ≡ cells.now }
{
    let Some(part) = cells.as_array::<N>() else {
        unreachable!()
    };
    *part
}

/// All `N` cells become those of a value.
#[inline(always)]
pub fn write_part<T: Copy, const N: usize>(cells: &mut [T], part: [T; N])
    requires { length cells.old ≡ N }
    ensures { cells.new ≡ part }
{
    let Some(place) = cells.as_mut_array::<N>() else {
        unreachable!()
    };
    *place = part;
}

/// The same, two cells at a time. So the compiler keeps cells of 1, 2, 4 or 8 bytes in registers while
/// others are written. With `write_part` it would keep them on the stack.
#[inline(always)]
pub fn write_words<T: Copy, const N: usize>(cells: &mut [T], part: [T; N])
    requires { length cells.old ≡ N }
    ensures { cells.new ≡ part }
{
    let _count = cells.len();
    let mut x = 0;
    while N - x >= 2 {
        cells[x] = part[x];
        cells[x + 1] = part[x + 1];
        x += 2;
    }
    if x < N {
        cells[x] = part[x];
    }
}

/// The cells become those of another list. It isn't inlined, so that a loop over rows keeps its
/// numbers in registers: each row is one call, and ends in one of `memmove`.
#[inline(never)]
pub fn copy_line<T: Copy>(cells: &mut [T], source: &[T])
    requires { length cells.old ≡ length source.now }
    ensures len { length cells.new ≡ length cells.old }
    ensures after { cells.new ≡ source.now }
{
    cells.copy_from_slice(source);
}

/// How many cells each part of a row of `width` cells has. The parts are its first and its last cells,
/// and may overlap. The row has at most `most` cells and bytes. Cells of other sizes than 1, 2, 4, 8
/// and 16 bytes have at most three quarters of that. It is 0 for a longer row, and where there is no
/// cell.
#[inline(always)]
pub fn part_of_row<T>(cells: &[T], width: usize, most: usize) -> usize
    requires { most ≤ 128 }
    ensures enough { result ≤ width }
    ensures few { 0 < result → width ≤ 2 * result }
{
    let Some(cell) = cells.first() else {
        return 0;
    };
    let size = size_of_val(cell);
    // Other cells aren't read by whole registers: so fewer of them are as fast as a call.
    let most = if matches!(size, 1 | 2 | 4 | 8 | 16) {
        most
    } else {
        most / 4 * 3
    };
    if size > most || width > most || width * size > most {
        return 0;
    }
    if width > 64 {
        64
    } else if width > 32 {
        32
    } else if width > 16 {
        16
    } else if width > 8 {
        8
    } else if width > 4 {
        4
    } else if width > 2 {
        2
    } else {
        width.min(1)
    }
}

/// Whether a cell has 1, 2, 4 or 8 bytes, and so goes by one register.
#[inline(always)]
pub fn is_word<T>(cell: &T) -> bool {
    matches!(size_of_val(cell), 1 | 2 | 4 | 8)
}
