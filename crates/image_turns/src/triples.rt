//! Rows of pixels of three cells, whose pixels are put in the opposite order by blocks of 16.
//!
//! A block is read as one value, and its cells change places inside it. So the compiler keeps it in
//! registers of vectors and shuffles it there, though none has the size of a pixel.

ghost use Rattle.std.specs.Prelude.{IsTrue, ◌≡◌, ◌+◌, ◌*◌, ◌%◌, ◌<◌, ◌≤◌, length};
ghost use Rattle.image_turns.specs.Triples.{triple_back, mirrored_triple};
ghost use Rattle.image_writes.specs.Gathered.{AreGathered};

use image_shape::tiles_along;
use image_writes::{read_part, write_part};
use std::mem::size_of_val;

/// Whether pixels of three cells go by blocks. Wider cells than those of two bytes gain nothing by
/// them, and in a short row they take longer.
pub(crate) fn triples_pay<T>(row: &[T], count: usize) -> bool
    ensures { IsTrue result → 8 ≤ count }
{
    match row.first() {
        Some(cell) => size_of_val(cell) <= 2 && count >= 8,
        None => false,
    }
}

// Each pixel of three cells becomes one of the source, which is as long, from its last one on.
#[inline(always)]
fn copy_triples<T: Copy>(cells: &mut [T], source: &[T])
    requires as_many { length source.now ≡ length cells.old }
    requires pixels { length cells.old % 3 ≡ 0 }
    ensures as_many { length cells.new ≡ length cells.old }
    ensures taken { AreGathered (triple_back (length cells.old)) source.now cells.new }
{
    let len = cells.len();
    for k in 0..len / 3 {
        cells[3 * k] = source[len - 3 - 3 * k];
        cells[3 * k + 1] = source[len - 2 - 3 * k];
        cells[3 * k + 2] = source[len - 1 - 3 * k];
    }
}

// The pixels of three cells in the opposite order.
#[inline(always)]
fn reversed_part<T: Copy, const W: usize>(part: [T; W]) -> [T; W]
    requires pixels { W % 3 ≡ 0 }
    ensures as_many { length result ≡ W }
    ensures turned { AreGathered (triple_back W) part result }
{
    let mut reversed = part;
    copy_triples(reversed.as_mut_slice(), part.as_slice());
    reversed
}

// The pixels in the `W` cells after the first `done` change places with those before the last `done`,
// the first with the last. All are read before one is written: so the two blocks may overlap.
#[inline(always)]
fn cross_triples<T: Copy, const W: usize>(row: &mut [T], done: usize)
    requires some { 0 < W }
    requires whole { W % 3 ≡ 0 }
    requires pixels { length row.old % 3 ≡ 0 }
    requires begun { done % 3 ≡ 0 }
    requires inside { 2 * done + W ≤ length row.old }
    ensures as_many { length row.new ≡ length row.old }
    ensures crossed { AreGathered (mirrored_triple (length row.old) done (done + W)) row.old row.new }
{
    let last = row.len() - done - W;
    let front = reversed_part::<T, W>(read_part::<T, W>(&row[done..done + W]));
    let back = reversed_part::<T, W>(read_part::<T, W>(&row[last..last + W]));
    write_part::<T, W>(&mut row[done..done + W], back);
    write_part::<T, W>(&mut row[last..last + W], front);
}

// Of fewer than 32 pixels between the first `done` cells and the last `done` the first changes places
// with the last, and so on.
fn reverse_middle_triples<T: Copy>(row: &mut [T], done: usize)
    requires pixels { length row.old % 3 ≡ 0 }
    requires begun { done % 3 ≡ 0 }
    requires inside { 2 * done ≤ length row.old }
    requires few { length row.old < 2 * done + 96 }
    ensures as_many { length row.new ≡ length row.old }
    ensures crossed { AreGathered (mirrored_triple (length row.old) done (length row.old))
        row.old row.new }
{
    let left = row.len() - 2 * done;
    if left >= 48 {
        cross_triples::<T, 48>(row, done);
    } else if left >= 24 {
        cross_triples::<T, 24>(row, done);
    } else if left >= 12 {
        cross_triples::<T, 12>(row, done);
    } else if left >= 6 {
        cross_triples::<T, 6>(row, done);
    }
}

/// The pixels of a row, of three cells each, in the opposite order.
pub(crate) fn reverse_triples<T: Copy>(row: &mut [T])
    requires pixels { length row.old % 3 ≡ 0 }
    ensures as_many { length row.new ≡ length row.old }
    ensures turned { AreGathered (triple_back (length row.old)) row.old row.new }
{
    let blocks = row.len() / 96;
    for block in 0..blocks {
        cross_triples::<T, 48>(row, 48 * block);
    }
    reverse_middle_triples(row, 48 * blocks);
}

/// Each pixel of three cells becomes one of the source, which is as long, from its last one on.
pub(crate) fn copy_triples_back<T: Copy>(cells: &mut [T], source: &[T])
    requires as_many { length source.now ≡ length cells.old }
    requires pixels { length cells.old % 3 ≡ 0 }
    ensures as_many { length cells.new ≡ length cells.old }
    ensures taken { AreGathered (triple_back (length cells.old)) source.now cells.new }
{
    let len = cells.len();
    if len < 48 {
        copy_triples(cells, source);
        return;
    }
    // Where the last block would be cut off, it begins earlier: what is written twice is the same.
    for block in 0..tiles_along(len, 48) {
        let at = (48 * block).min(len - 48);
        let from = len - 48 - at;
        let part = reversed_part::<T, 48>(read_part::<T, 48>(&source[from..from + 48]));
        write_part::<T, 48>(&mut cells[at..at + 48], part);
    }
}
