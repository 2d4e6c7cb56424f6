//! A blur: each pixel becomes the mean of the box around it. The sums of columns run down, and the
//! sum of a box runs along the row. A mean is a product, since a division takes longer.

ghost use Rattle.std.specs.Prelude.{◌≡◌, ◌<◌, ◌≤◌, ◌+◌, ◌-◌, ◌*◌, ◌/◌, ◌%◌, ◌^◌, ℕ, length, min, slice_index_or};
ghost use Rattle.image_model.specs.Layout.{Fits, SameOutside};
ghost use Rattle.image_model.specs.Grid.{patch};
ghost use Rattle.image_model.specs.Windows.{window_view, IsInside};
ghost use Rattle.image_shape.specs.Window.{as_window};
ghost use Rattle.image_shape.specs.Shape.{shape_height, shape_stride, shape_width, shaped, shaped_grid};
ghost use Rattle.image_writes.specs.Written.{Becomes};
ghost use Rattle.image_means.specs.Blur.{blurred, column_upto, least_columns, pixels_upto, sum_at, AddsSamples, AddsRows, whole_count, AreFactors, AreSamples, AreSumsBefore, AreSumsFor, BlursRow, BlursSpan, CanBeBlurred, CanBlur, HaveRows, PutsSample};
ghost use Rattle.image_means.specs.Division.{factor_of};
ghost use Rattle.image_means.specs.Means.{sample_cells, sample_in, sample_number};

use crate::division::{factor_of, mean_by, quotient_by};
use crate::means::sample_from;
use image_ops::fill_cells;
use image_shape::{SampleBytes, Shape, Window};
use image_writes::exact_part;
use std::ops::Range;

// Each sum of a column gets the sample of this row.
#[inline(always)]
fn add_samples(bytes: SampleBytes, row: &[u8], sums: &mut [u32])
    requires row { AreSamples bytes row.now (length sums.old) }
    requires bounds { (k : ℕ) → k < length sums.old → sum_at sums.old k
        + sample_in bytes (λ n. n) row.now (k * sample_cells bytes) < 2 ^ 32 }
    ensures { AddsSamples bytes row.now sums.old sums.new }
{
    let cells = cells_of(bytes);
    for k in 0..sums.len() {
        sums[k] += u32::from(sample_from(bytes, row, k * cells));
    }
}

// The cells of a sample.
fn cells_of(bytes: SampleBytes) -> usize
    ensures { result ≡ sample_cells bytes }
{
    match bytes {
        SampleBytes::One => 1,
        SampleBytes::LowFirst | SampleBytes::HighFirst => 2,
    }
}

// Each sum of a column loses the sample of this row, which is one of its parts.
#[inline(always)]
fn take_samples(bytes: SampleBytes, row: &[u8], sums: &mut [u32])
    requires row { AreSamples bytes row.now (length sums.old) }
    requires parts { (k : ℕ) → k < length sums.old
        → sample_in bytes (λ n. n) row.now (k * sample_cells bytes) ≤ sum_at sums.old k }
    ensures { AddsSamples bytes row.now sums.new sums.old }
{
    let cells = cells_of(bytes);
    for k in 0..sums.len() {
        sums[k] -= u32::from(sample_from(bytes, row, k * cells));
    }
}

// Adds a row, with a loop of its own for each kind of sample: it goes by vectors.
fn add_row(bytes: SampleBytes, row: &[u8], sums: &mut [u32])
    requires row { AreSamples bytes row.now (length sums.old) }
    requires bounds { (k : ℕ) → k < length sums.old → sum_at sums.old k
        + sample_in bytes (λ n. n) row.now (k * sample_cells bytes) < 2 ^ 32 }
    ensures { AddsSamples bytes row.now sums.old sums.new }
{
    match bytes {
        SampleBytes::One => add_samples(SampleBytes::One, row, sums),
        SampleBytes::LowFirst => add_samples(SampleBytes::LowFirst, row, sums),
        SampleBytes::HighFirst => add_samples(SampleBytes::HighFirst, row, sums),
    }
}

// Takes a row away in the same way.
fn take_row(bytes: SampleBytes, row: &[u8], sums: &mut [u32])
    requires row { AreSamples bytes row.now (length sums.old) }
    requires parts { (k : ℕ) → k < length sums.old
        → sample_in bytes (λ n. n) row.now (k * sample_cells bytes) ≤ sum_at sums.old k }
    ensures { AddsSamples bytes row.now sums.new sums.old }
{
    match bytes {
        SampleBytes::One => take_samples(SampleBytes::One, row, sums),
        SampleBytes::LowFirst => take_samples(SampleBytes::LowFirst, row, sums),
        SampleBytes::HighFirst => take_samples(SampleBytes::HighFirst, row, sums),
    }
}

// The sum of the samples at one place of each pixel before this one.
#[inline(always)]
fn sum_before(sums: &[u32], per: usize, at: usize, end: usize) -> u64
    requires inside { (p : ℕ) → p < end → p * per + at < length sums.now }
    requires room { length sums.now < 2 ^ 32 }
    requires few { end < 2 ^ 32 }
    ensures { result ≡ pixels_upto sums.now per at end }
{
    let mut sum = 0;
    for p in 0..end {
        sum += u64::from(sums[p * per + at]);
    }
    sum
}

// The sum of the box around this pixel, by that of the box around the one before: it gets the pixel
// that comes in, and loses the one that goes out.
#[inline(always)]
fn next_box(sums: &[u32], per: usize, at: usize, across: usize, p: usize, before: u64) -> u64
    requires place { at < per }
    requires whole { length sums.now ≡ length sums.now / per * per }
    requires room { length sums.now < 2 ^ 32 }
    requires across { across < 2 ^ 15 }
    requires pixel { p < length sums.now / per }
    requires before { before + pixels_upto sums.now per at (p - (across + 1))
        ≡ pixels_upto sums.now per at (min (length sums.now / per) (p + across)) }
    ensures { result + pixels_upto sums.now per at (p - across)
        ≡ pixels_upto sums.now per at (min (length sums.now / per) (p + across + 1)) }
{
    let mut sum = before;
    if p + across < sums.len() / per {
        sum += u64::from(sums[(p + across) * per + at]);
    }
    if across < p {
        sum -= u64::from(sums[(p - across - 1) * per + at]);
    }
    sum
}

// Writes the cells of a sample.
fn put_sample(bytes: SampleBytes, cells: &mut [u8], sample: usize, value: u64)
    requires inside { (sample + 1) * sample_cells bytes ≤ length cells.old }
    requires room { length cells.old < 2 ^ 63 }
    requires value { value ≤ sample_number bytes 255 255 }
    ensures { PutsSample bytes (sample * sample_cells bytes) value cells.old cells.new }
{
    match bytes {
        SampleBytes::One => cells[sample] = value as u8,
        SampleBytes::LowFirst => {
            cells[sample * 2] = (value % 256) as u8;
            cells[sample * 2 + 1] = (value / 256) as u8;
        }
        SampleBytes::HighFirst => {
            cells[sample * 2] = (value / 256) as u8;
            cells[sample * 2 + 1] = (value % 256) as u8;
        }
    }
}

// A blur of pixels of `per` samples. The box around a pixel has `across` pixels on the left and on the
// right, and `down` above and below.
#[derive(Clone, Copy)]
struct Blur {
    bytes: SampleBytes,
    per: usize,
    across: usize,
    down: usize,
}

// For so many columns at most a factor is found once for all rows with boxes of as many lines.
const FACTORS: usize = 512;

// The factors of boxes of so many lines, by their columns, where they aren't those of as many lines.
// No box has fewer columns than `least`: the factors below it are left out.
fn find_factors(factors: &mut [u64], least: usize, known: usize, lines: usize)
    requires known { 0 < known → AreFactors factors.old least known }
    requires short { length factors.old ≤ 512 }
    requires some { 0 < lines }
    requires few { lines < 2 ^ 17 }
    ensures as_many { length factors.new ≡ length factors.old }
    ensures found { AreFactors factors.new least lines }
{
    if lines == known {
        return;
    }
    for columns in least.max(1)..factors.len() {
        factors[columns] = factor_of((columns * lines) as u64);
    }
}

// The factor of a box of so many columns and lines.
#[inline(always)]
fn factor_for(factors: &[u64], columns: usize, lines: usize) -> u64
    requires known { columns < length factors.now
        → slice_index_or factors.now columns 0 ≡ factor_of (columns * lines) }
    requires some { 0 < columns }
    requires some_lines { 0 < lines }
    requires room { columns * lines < 2 ^ 64 }
    ensures { result ≡ factor_of (columns * lines) }
{
    if columns < factors.len() {
        factors[columns]
    } else {
        factor_of((columns * lines) as u64)
    }
}

// The samples at some places of each pixel of a row, from `at` on. Their boxes have so many lines.
#[derive(Clone, Copy)]
struct Place {
    blur: Blur,
    at: usize,
    lines: usize,
}

// The sums of the box around a place before the first pixel: what of it is in the row.
#[inline(always)]
fn sums_before(place: Place, sums: &[u32], totals: &mut [u64])
    requires some { 0 < place.blur.per }
    requires places { place.at + length totals.old ≤ place.blur.per }
    requires whole { length sums.now ≡ length sums.now / place.blur.per * place.blur.per }
    requires room { length sums.now < 2 ^ 32 }
    requires across { place.blur.across < 2 ^ 15 }
    ensures as_many { length totals.new ≡ length totals.old }
    ensures sums { AreSumsBefore place sums.now 0 0 (length totals.old) totals.new }
{
    let Place { blur, at, .. } = place;
    let end = blur.across.min(sums.len() / blur.per);
    for i in 0..totals.len() {
        totals[i] = sum_before(sums, blur.per, at + i, end);
    }
}

// The samples of a pixel get the means of boxes that have these sums of columns. The sums of the boxes
// around the pixel before become those around this one.
#[inline(always)]
fn blur_pixel(
    place: Place,
    sums: &[u32],
    row: &mut [u8],
    factors: &[u64],
    p: usize,
    totals: &mut [u64],
)
    requires can { CanBlur place (length totals.old) sums.now (length row.old) }
    requires factors { AreFactors factors.now
        (least_columns (length sums.now / place.blur.per) place.blur.across) place.lines }
    requires pixel { p < length sums.now / place.blur.per }
    requires before { AreSumsBefore place sums.now p 0 (length totals.old) totals.old }
    ensures as_many { length totals.new ≡ length totals.old }
    ensures sums { AreSumsBefore place sums.now (p + 1) 0 (length totals.old) totals.new }
    ensures means { BlursSpan place (length totals.old) sums.now p (p + 1) row.old row.new }
{
    let Place { blur, at, lines } = place;
    let Blur { per, across, .. } = blur;
    let all = sums.len() / per;
    for i in 0..totals.len() {
        let k = at + i;
        let sum = next_box(sums, per, k, across, p, totals[i]);
        totals[i] = sum;
        let columns = all.min(p + across + 1) - p.saturating_sub(across);
        let factor = factor_for(factors, columns, lines);
        let mean = mean_by(sum, (columns * lines) as u64, factor);
        put_sample(blur.bytes, row, p * per + k, mean);
    }
}

// The samples of some pixels get the means of boxes that have these sums of columns.
#[inline(always)]
fn blur_span(
    place: Place,
    sums: &[u32],
    row: &mut [u8],
    factors: &[u64],
    pixels: Range<usize>,
    totals: &mut [u64],
)
    requires can { CanBlur place (length totals.old) sums.now (length row.old) }
    requires factors { AreFactors factors.now
        (least_columns (length sums.now / place.blur.per) place.blur.across) place.lines }
    requires order { pixels.start ≤ pixels.end }
    requires inside { pixels.end ≤ length sums.now / place.blur.per }
    requires before { AreSumsBefore place sums.now pixels.start 0 (length totals.old) totals.old }
    ensures as_many { length totals.new ≡ length totals.old }
    ensures sums { AreSumsBefore place sums.now pixels.end 0 (length totals.old) totals.new }
    ensures means { BlursSpan place (length totals.old) sums.now pixels.start pixels.end row.old row.new }
{
    for p in pixels.start..pixels.end {
        blur_pixel(place, sums, row, factors, p, totals);
    }
}

// The same of a pixel whose box the row's ends don't cut. The factor is that of the box. Each number is
// a sum with half the count, and has 32 bits.
#[inline(always)]
fn blur_whole_pixel(
    place: Place,
    sums: &[u32],
    row: &mut [u8],
    factor: u64,
    p: usize,
    numbers: &mut [u32],
)
    requires can { CanBlur place (length numbers.old) sums.now (length row.old) }
    requires factor { factor ≡ factor_of (whole_count place) }
    requires few { 0 < factor }
    requires first { place.blur.across < p }
    requires last { p + place.blur.across < length sums.now / place.blur.per }
    requires before { AreSumsBefore place sums.now p (whole_count place / 2) (length numbers.old)
        numbers.old }
    ensures as_many { length numbers.new ≡ length numbers.old }
    ensures sums { AreSumsBefore place sums.now (p + 1) (whole_count place / 2) (length numbers.old)
        numbers.new }
    ensures means { BlursSpan place (length numbers.old) sums.now p (p + 1) row.old row.new }
{
    let Place { blur, at, .. } = place;
    let Blur { per, across, .. } = blur;
    for i in 0..numbers.len() {
        let k = at + i;
        let lost = sums[(p - across - 1) * per + k];
        let gained = sums[(p + across) * per + k];
        let number = numbers[i] - lost + gained;
        numbers[i] = number;
        let mean = quotient_by(u64::from(number), factor);
        put_sample(blur.bytes, row, p * per + k, mean);
    }
}

// Numbers of 32 bits that are these with so much added.
#[inline(always)]
fn add_half(totals: &[u64], half: u64, numbers: &mut [u32])
    requires as_many { length numbers.old ≡ length totals.now }
    requires small { (i : ℕ) → i < length totals.now → sum_at totals.now i + half < 2 ^ 32 }
    ensures as_many { length numbers.new ≡ length numbers.old }
    ensures each { (i : ℕ) → i < length totals.now
        → sum_at numbers.new i ≡ sum_at totals.now i + half }
{
    for i in 0..totals.len() {
        numbers[i] = (totals[i] + half) as u32;
    }
}

// The sums without the half again.
#[inline(always)]
fn take_half(numbers: &[u32], half: u64, totals: &mut [u64])
    requires as_many { length totals.old ≡ length numbers.now }
    requires parts { (i : ℕ) → i < length numbers.now → half ≤ sum_at numbers.now i }
    ensures as_many { length totals.new ≡ length totals.old }
    ensures each { (i : ℕ) → i < length numbers.now
        → sum_at totals.new i + half ≡ sum_at numbers.now i }
{
    for i in 0..numbers.len() {
        totals[i] = u64::from(numbers[i]) - half;
    }
}

// The same of pixels whose boxes the row's ends don't cut.
#[inline(always)]
fn blur_whole<const N: usize>(
    place: Place,
    sums: &[u32],
    row: &mut [u8],
    factor: u64,
    pixels: Range<usize>,
    totals: &mut [u64],
)
    requires small { N ≤ 4 }
    requires can { CanBlur place N sums.now (length row.old) }
    requires as_many { length totals.old ≡ N }
    requires factor { factor ≡ factor_of (whole_count place) }
    requires few { 0 < factor }
    requires order { pixels.start ≤ pixels.end }
    requires first { place.blur.across < pixels.start }
    requires last { pixels.end + place.blur.across ≤ length sums.now / place.blur.per }
    requires before { AreSumsBefore place sums.now pixels.start 0 N totals.old }
    ensures as_many { length totals.new ≡ N }
    ensures sums { AreSumsBefore place sums.now pixels.end 0 N totals.new }
    ensures means { BlursSpan place N sums.now pixels.start pixels.end row.old row.new }
{
    let half = ((2 * place.blur.across + 1) * place.lines / 2) as u64;
    let mut numbers = [0u32; N];
    add_half(totals, half, &mut numbers);
    for p in pixels.start..pixels.end {
        blur_whole_pixel(place, sums, row, factor, p, &mut numbers);
    }
    take_half(&numbers, half, totals);
}

// The samples at `N` places of each pixel get the means of boxes that have these sums of columns over
// so many lines.
#[inline(always)]
fn blur_place<const N: usize>(place: Place, sums: &[u32], row: &mut [u8], factors: &[u64])
    requires few { N ≤ 4 }
    requires can { CanBlur place N sums.now (length row.old) }
    requires factors { AreFactors factors.now
        (least_columns (length sums.now / place.blur.per) place.blur.across) place.lines }
    ensures means { BlursSpan place N sums.now 0 (length sums.now / place.blur.per) row.old row.new }
{
    let Blur { per, across, .. } = place.blur;
    let all = sums.len() / per;
    let from = all.min(across + 1);
    let end = from.max(all.saturating_sub(across));
    let factor = factor_for(factors, 2 * across + 1, place.lines);
    let mut totals = [0u64; N];
    sums_before(place, sums, &mut totals);
    blur_span(place, sums, row, factors, 0..from, &mut totals);
    if factor > 0 && from < end {
        blur_whole::<N>(place, sums, row, factor, from..end, &mut totals);
    } else {
        blur_span(place, sums, row, factors, from..end, &mut totals);
    }
    blur_span(place, sums, row, factors, end..all, &mut totals);
}

// The row gets the means of boxes that have these sums of columns over so many lines. The numbers of a
// pixel go by `N`, since a loop over all of them takes less time than one for each.
#[inline(always)]
fn blur_places<const N: usize>(
    blur: Blur,
    sums: &[u32],
    row: &mut [u8],
    lines: usize,
    factors: &[u64],
)
    requires some { 0 < N }
    requires few { N ≤ 4 }
    requires whole { blur.per ≡ blur.per / N * N }
    requires across { blur.across < 2 ^ 15 }
    requires sums { AreSumsFor blur.bytes blur.per lines sums.now (length row.old) }
    requires factors { AreFactors factors.now
        (least_columns (length sums.now / blur.per) blur.across) lines }
    ensures means { BlursRow blur.bytes sums.now blur.per blur.across lines row.old row.new }
{
    for group in 0..blur.per / N {
        let at = group * N;
        blur_place::<N>(Place { blur, at, lines }, sums, row, factors);
    }
}

// The same with a loop of its own for pixels of one, three and four bytes: the compiler knows the sizes.
fn blur_row(blur: Blur, sums: &[u32], row: &mut [u8], lines: usize, factors: &[u64])
    requires across { blur.across < 2 ^ 15 }
    requires sums { AreSumsFor blur.bytes blur.per lines sums.now (length row.old) }
    requires factors { AreFactors factors.now
        (least_columns (length sums.now / blur.per) blur.across) lines }
    ensures means { BlursRow blur.bytes sums.now blur.per blur.across lines row.old row.new }
{
    let bytes = SampleBytes::One;
    let of = |per| Blur { bytes, per, ..blur };
    match (blur.bytes, blur.per) {
        (SampleBytes::One, 1) => blur_places::<1>(of(1), sums, row, lines, factors),
        (SampleBytes::One, 3) => blur_places::<3>(of(3), sums, row, lines, factors),
        (SampleBytes::One, 4) => blur_places::<4>(of(4), sums, row, lines, factors),
        _ => blur_places::<1>(blur, sums, row, lines, factors),
    }
}

// Each sum of a column gets the samples of the rows from one up to another.
fn add_rows(bytes: SampleBytes, cells: &[u8], shape: Shape, rows: Range<usize>, sums: &mut [u32])
    requires rows { HaveRows bytes cells.now shape rows.start rows.end (length sums.old) }
    requires bounds { (k n : ℕ) → k < length sums.old → rows.start ≤ n → n ≤ rows.end
        → sum_at sums.old k + column_upto bytes cells.now (shape_stride shape) k n
        < 2 ^ 32 + column_upto bytes cells.now (shape_stride shape) k rows.start }
    ensures { AddsRows bytes cells.now (shape_stride shape) rows.start rows.end
        sums.old sums.new }
{
    for y in rows.start..rows.end {
        add_row(bytes, &cells[shape.row(cells.len(), y).range()], sums);
    }
}

// Each sum of a column loses the samples of these rows, which are parts of it.
fn take_rows(bytes: SampleBytes, cells: &[u8], shape: Shape, rows: Range<usize>, sums: &mut [u32])
    requires rows { HaveRows bytes cells.now shape rows.start rows.end (length sums.old) }
    requires parts { (k : ℕ) → k < length sums.old
        → column_upto bytes cells.now (shape_stride shape) k rows.end
        ≤ sum_at sums.old k + column_upto bytes cells.now (shape_stride shape) k rows.start }
    ensures { AddsRows bytes cells.now (shape_stride shape) rows.start rows.end
        sums.new sums.old }
{
    for y in rows.start..rows.end {
        take_row(bytes, &cells[shape.row(cells.len(), y).range()], sums);
    }
}

// The image gets the means of boxes of another one, which has its shape.
fn blur_from(blur: Blur, source: &[u8], cells: &mut [u8], shape: Shape, sums: &mut [u32])
    requires source { Fits (shaped source.now shape) }
    requires source_room { length source.now < 2 ^ 63 }
    requires image { CanBeBlurred blur cells.old shape (length sums.old) }
    ensures { Becomes shape cells.old cells.new
        (blurred blur.bytes (blur.per * sample_cells blur.bytes) blur.across blur.down
        (shaped_grid source.now shape)) }
{
    let least = (sums.len() / blur.per).min(blur.across + 1);
    fill_cells(sums, 0);
    let mut table = [0u64; FACTORS];
    let factors = &mut table[..FACTORS.min(2 * blur.across + 2)];
    let rows = shape.row_count();
    let mut known = 0;
    let mut first = 0;
    let mut end = 0;
    for y in 0..rows {
        let next_first = y.saturating_sub(blur.down);
        let next_end = rows.min(y + blur.down + 1);
        add_rows(blur.bytes, source, shape, end..next_end, sums);
        take_rows(blur.bytes, source, shape, first..next_first, sums);
        first = next_first;
        end = next_end;
        let lines = end - first;
        find_factors(factors, least, known, lines);
        known = lines;
        let row = shape.row(cells.len(), y).range();
        blur_row(blur, sums, &mut cells[row], lines, factors);
    }
}

// The image gets the means of its own boxes, by a copy of its cells.
fn blur_cells(blur: Blur, cells: &mut [u8], shape: Shape, copy: &mut [u8], sums: &mut [u32])
    requires image { CanBeBlurred blur cells.old shape (length sums.old) }
    requires copy { length cells.old ≤ length copy.old }
    ensures { Becomes shape cells.old cells.new
        (blurred blur.bytes (blur.per * sample_cells blur.bytes) blur.across blur.down
        (shaped_grid cells.old shape)) }
{
    let source = &mut copy[..cells.len()];
    source.copy_from_slice(cells);
    blur_from(blur, source, cells, shape, sums);
}

/// Each sample of the window becomes the mean of the samples around it, rounded to the nearest
/// number: a half goes up. Every other cell stays. The box around a pixel has `across` pixels on the
/// left and on the right, and `down` above and below. What is outside the window doesn't count. Each
/// sample of a pixel of `size` bytes has its own mean, and each byte is that byte of the mean.
///
/// # Requires
///
/// The cells fit the shape. The window is inside the shape. A pixel, which has bytes, has whole
/// samples, and the window's rows have whole pixels. `across` and `down` are below 2^15. `copy` has
/// room for the cells, and `sums` a number for each sample of a row. What the two had is lost.
#[inline(never)]
pub fn blur_samples(
    bytes: SampleBytes,
    cells: &mut [u8],
    shape: Shape,
    window: Window,
    size: usize,
    across: usize,
    down: usize,
    copy: &mut [u8],
    sums: &mut [u32],
)
    requires fits { Fits (shaped cells.old shape) }
    requires inside { IsInside (shape_width shape) (shape_height shape) (as_window window) }
    requires size { 0 < size }
    requires pixels { size % sample_cells bytes ≡ 0 }
    requires whole { window.width % size ≡ 0 }
    requires across { across < 2 ^ 15 }
    requires down { down < 2 ^ 15 }
    requires copy { length cells.old ≤ length copy.old }
    requires sums { length sums.old * sample_cells bytes ≡ window.width }
    ensures grid { shaped_grid cells.new shape
        ≡ patch (shaped_grid cells.old shape) window.left window.top
        (blurred bytes size across down
        (window_view (shaped_grid cells.old shape) (as_window window))) }
    ensures outside { SameOutside (shaped cells.old shape) (shaped cells.new shape) }
{
    let (part, inner) = exact_part(cells.len(), shape, window);
    let per = size / cells_of(bytes);
    let blur = Blur {
        bytes,
        per,
        across,
        down,
    };
    blur_cells(blur, &mut cells[part], inner, copy, sums);
}
