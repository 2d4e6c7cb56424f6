//! Means of tiles by the sums of columns. A stretch of a row has a sum for each cell, to which each
//! line of the tiles is added. The compiler makes vector code of that. A tile then adds up some of the
//! sums, and divides once.

ghost use Rattle.std.specs.Prelude.{◌≡◌, ◌<◌, ◌≤◌, ◌+◌, ◌-◌, ◌*◌, ◌%◌, ◌^◌, ℕ, length};
ghost use Rattle.image_model.specs.Tiles.{tile_count};
ghost use Rattle.image_means.specs.Division.{factor_of};
ghost use Rattle.image_means.specs.LineSums.{pixels_sum, sums_cell, AddsNumbers, AreLineSums, HaveNarrowTiles, AreTileSums};
ghost use Rattle.image_means.specs.Means.{number_in, rounded_mean, AreLines, PutsCells, PutsMeans};
ghost use Rattle.image_shape.specs.declared.samples.SampleBytes.{SampleBytes};

use crate::division::{factor_of, mean_by};
use crate::lines::{Lines, Tile};
use crate::means::Sample;
use image_ops::fill_cells;
use image_shape::{Stretch, tiles_along};

/// A number in which samples are added up.
pub(crate) trait Tally: Copy {
    // The sum.
    ghost tally: { Self → ℕ };

    // The greatest sum that it can hold.
    ghost most: { ℕ };

    /// No sample.
    fn none() -> Self
        ensures { tally result ≡ 0 };

    /// One sample more.
    fn plus(self, value: u16) -> Self
        requires { tally self + value ≤ most }
        ensures { tally result ≡ tally self + value };

    /// The sum.
    fn sum(self) -> u64
        ensures { result ≡ tally self };
}

impl Tally for u16 {
    ghost tally = { λ n. n };

    ghost most = { 65535 };

    fn none() -> u16 {
        0
    }

    fn plus(self, value: u16) -> u16 {
        self + value
    }

    fn sum(self) -> u64 {
        u64::from(self)
    }
}

impl Tally for u32 {
    ghost tally = { λ n. n };

    ghost most = { 4294967295 };

    fn none() -> u32 {
        0
    }

    fn plus(self, value: u16) -> u32 {
        self + u32::from(value)
    }

    fn sum(self) -> u64 {
        u64::from(self)
    }
}

/// How many sums a stretch has room for. They are on the stack.
pub(crate) const ROOM: usize = 512;

// Each sum gets the number of the row's cell.
#[inline(always)]
fn add_line<T: Sample, C: Tally>(row: &[T], sums: &mut [C])
    requires same { length row.now ≡ length sums.old }
    requires room { (k : ℕ) → k < length sums.old
        → number_in C.tally sums.old k + T.greatest ≤ C.most }
    ensures { AddsNumbers T.number C.tally T.greatest row.now sums.old sums.new }
{
    let _count = row.len();
    for k in 0..sums.len() {
        sums[k] = sums[k].plus(row[k].number());
    }
}

// The sums get the numbers of these lines.
#[inline(always)]
fn add_lines<T: Sample, C: Tally>(cells: &[T], lines: Lines, sums: &mut [C])
    requires none { (k : ℕ) → k < length sums.old → number_in C.tally sums.old k ≡ 0 }
    requires width { length sums.old ≡ lines.first.len }
    requires fit { lines.count * T.greatest ≤ C.most }
    requires inside { AreLines lines (length cells.now) }
    ensures as_many { length sums.new ≡ length sums.old }
    ensures sums { AreLineSums T.number C.tally T.greatest cells.now
        lines.first.start lines.stride lines.count sums.new }
{
    for line in 0..lines.count {
        let from = lines.first.start + line * lines.stride;
        add_line(&cells[from..from + sums.len()], sums);
    }
}

// The mean of so many columns of pixels, by their sums from one on.
#[inline(always)]
fn mean_of_sums<T: Sample, C: Tally>(
    sums: &[C],
    x: usize,
    size: usize,
    columns: usize,
    lines: usize,
    factor: u64,
) -> u16
    requires there { (i : ℕ) → i < columns → x + i * size < length sums.now }
    requires within { (k : ℕ) → k < length sums.now
        → number_in C.tally sums.now k ≤ lines * T.greatest }
    requires some { 0 < columns }
    requires few { columns ≤ 512 }
    requires lines { 0 < lines }
    requires few_lines { lines < 2 ^ 16 }
    requires factor { factor ≡ factor_of (columns * lines) }
    ensures value { result
        ≡ rounded_mean (pixels_sum C.tally sums.now size columns x) (columns * lines) }
    ensures within { result ≤ T.greatest }
{
    let mut sum = 0;
    for i in 0..columns {
        sum += sums[x + i * size].sum();
    }
    mean_by(sum, (columns * lines) as u64, factor) as u16
}

// The first pixel of a tile becomes the mean of the tile, which has these sums.
#[inline(always)]
fn put_tile<T: Sample, C: Tally>(
    cells: &mut [T],
    start: usize,
    sums: &[C],
    lines: usize,
    tile: Tile,
    factor: u64,
)
    requires sums { AreTileSums C.tally T.greatest sums.now lines tile }
    requires whole { length sums.now ≡ tile.width * tile.size }
    requires pixel { tile.size ≤ length sums.now }
    requires factor { factor ≡ factor_of (tile.width * lines) }
    requires inside { start + length sums.now ≤ length cells.old }
    ensures { PutsCells (sums_cell C.tally T.sample tile.size tile.width lines sums.now)
        tile.size tile.width start (length sums.now) cells.old cells.new }
{
    for c in 0..tile.size {
        let mean = mean_of_sums::<T, C>(sums, c, tile.size, tile.width, lines, factor);
        cells[start + c] = T::sample(mean);
    }
}

// The same for a tile that the row's end cuts.
#[inline(always)]
fn put_cut_tile<T: Sample, C: Tally>(
    cells: &mut [T],
    start: usize,
    sums: &[C],
    lines: usize,
    tile: Tile,
)
    requires sums { AreTileSums C.tally T.greatest sums.now lines tile }
    requires one { length sums.now ≤ tile.width * tile.size }
    requires inside { start + length sums.now ≤ length cells.old }
    ensures { PutsCells (sums_cell C.tally T.sample tile.size tile.width lines sums.now)
        tile.size tile.width start (length sums.now) cells.old cells.new }
{
    for c in 0..tile.size.min(sums.len()) {
        let columns = tiles_along(sums.len() - c, tile.size);
        let factor = factor_of((columns * lines) as u64);
        let mean = mean_of_sums::<T, C>(sums, c, tile.size, columns, lines, factor);
        cells[start + c] = T::sample(mean);
    }
}

// The same for each tile of two columns of two lines, by vectors: each cell becomes the mean of a tile that begins
// with it, and those that begin no tile are free.
fn put_quads<T: Sample, C: Tally>(cells: &mut [T], start: usize, size: usize, sums: &[C])
    requires some { 0 < size }
    requires within { (k : ℕ) → k < length sums.now → number_in C.tally sums.now k ≤ 2 * T.greatest }
    requires inside { start + length sums.now ≤ length cells.old }
    ensures { PutsCells (sums_cell C.tally T.sample size 2 2 sums.now) size 2 start (length sums.now)
        cells.old cells.new }
{
    let pairs = sums.len().saturating_sub(size);
    for k in 0..pairs {
        cells[start + k] = T::sample(((sums[k].sum() + sums[k + size].sum() + 2) / 4) as u16);
    }
    for last in pairs..sums.len() {
        cells[start + last] = T::sample(((sums[last].sum() + 1) / 2) as u16);
    }
}

// The same for each tile of these lines. There are as many sums as a line has cells, and whole tiles have one
// factor.
#[inline(always)]
fn put_tiles<T: Sample, C: Tally>(cells: &mut [T], lines: Lines, tile: Tile, sums: &[C])
    requires lines { HaveNarrowTiles lines tile (length cells.old) }
    requires sums { length sums.now ≡ lines.first.len }
    requires within { (k : ℕ) → k < length sums.now
        → number_in C.tally sums.now k ≤ lines.count * T.greatest }
    ensures { PutsCells (sums_cell C.tally T.sample tile.size tile.width lines.count sums.now)
        tile.size tile.width lines.first.start (length sums.now) cells.old cells.new }
{
    if tile.width == 2 && lines.count == 2 {
        put_quads(cells, lines.first.start, tile.size, sums);
        return;
    }
    let across = tile.width * tile.size;
    let factor = factor_of((tile.width * lines.count) as u64);
    let mut at = 0;
    while sums.len() - at >= across {
        let start = lines.first.start + at;
        let part = &sums[at..at + across];
        put_tile::<T, C>(cells, start, part, lines.count, tile, factor);
        at += across;
    }
    if at < sums.len() {
        let start = lines.first.start + at;
        put_cut_tile::<T, C>(cells, start, &sums[at..sums.len()], lines.count, tile);
    }
}

// In the first of these lines, the first pixel of each tile becomes the mean of the tile's pixels in all
// of them. There are as many sums as a line has cells. What these were is lost.
#[inline(always)]
fn put_stretch<T: Sample, C: Tally>(cells: &mut [T], lines: Lines, tile: Tile, sums: &mut [C])
    requires lines { HaveNarrowTiles lines tile (length cells.old) }
    requires fit { lines.count * T.greatest ≤ C.most }
    requires sums { length sums.old ≡ lines.first.len }
    ensures as_many { length sums.new ≡ length sums.old }
    ensures put { PutsMeans SampleBytes.One T.number T.sample lines tile cells.old cells.new }
{
    fill_cells(sums, C::none());
    add_lines(cells, lines, sums);
    put_tiles::<T, C>(cells, lines, tile, sums);
}

// The most sums of a stretch that cuts no tile, where a tile has so many cells.
#[inline(always)]
#[tactic(auto, using(crate::proofs::SumsOfTiles::whole_multiple))]
fn whole_tiles(tile: usize) -> usize
    requires some { 0 < tile }
    requires room { tile ≤ 512 }
    ensures whole { result % tile ≡ 0 }
    ensures most { 512 < result + tile }
    ensures room { result ≤ 512 }
{
    ROOM / tile * tile
}

// The means of tiles, stretch by stretch. There are as many sums as there is room for.
#[inline(always)]
fn put_row<T: Sample, C: Tally>(cells: &mut [T], lines: Lines, tile: Tile, sums: &mut [C])
    requires lines { HaveNarrowTiles lines tile (length cells.old) }
    requires fit { lines.count * T.greatest ≤ C.most }
    requires sums { length sums.old ≡ 512 }
    ensures { PutsMeans SampleBytes.One T.number T.sample lines tile cells.old cells.new }
{
    let most = whole_tiles(tile.width * tile.size);
    let mut from = 0;
    while from < lines.first.len {
        let start = lines.first.start + from;
        let len = most.min(lines.first.len - from);
        let first = Stretch { start, len };
        put_stretch(cells, Lines { first, ..lines }, tile, &mut sums[..len]);
        from += len;
    }
}

// The same with a loop of its own for pixels of one, three and four cells, and for tiles of two columns of
// them: the compiler knows the sizes.
fn put_sized<T: Sample, C: Tally>(cells: &mut [T], lines: Lines, tile: Tile, sums: &mut [C])
    requires lines { HaveNarrowTiles lines tile (length cells.old) }
    requires fit { lines.count * T.greatest ≤ C.most }
    requires sums { length sums.old ≡ 512 }
    ensures { PutsMeans SampleBytes.One T.number T.sample lines tile cells.old cells.new }
{
    let of = |size, width| Tile {
        size,
        width,
        ..tile
    };
    match (tile.size, tile.width) {
        (1, 2) => put_row(cells, lines, of(1, 2), sums),
        (3, 2) => put_row(cells, lines, of(3, 2), sums),
        (4, 2) => put_row(cells, lines, of(4, 2), sums),
        (1, width) => put_row(cells, lines, of(1, width), sums),
        (3, width) => put_row(cells, lines, of(3, width), sums),
        (4, width) => put_row(cells, lines, of(4, width), sums),
        _ => put_row(cells, lines, tile, sums),
    }
}

/// In the first of these lines, the first pixel of each tile becomes the mean of the tile's pixels in
/// all of them. A tile has at most as many cells in a row as there is room for.
pub(crate) fn put_by_sums<T: Sample>(cells: &mut [T], lines: Lines, tile: Tile)
    requires { HaveNarrowTiles lines tile (length cells.old) }
    ensures { PutsMeans SampleBytes.One T.number T.sample lines tile cells.old cells.new }
{
    // A sum of 16 bits takes half as long. It holds 257 lines of bytes.
    if lines.count * usize::from(T::greatest()) < 65536 {
        let mut sums = [0u16; ROOM];
        put_sized(cells, lines, tile, sums.as_mut_slice());
    } else {
        let mut sums = [0u32; ROOM];
        put_sized(cells, lines, tile, sums.as_mut_slice());
    }
}
