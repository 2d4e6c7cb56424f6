//! How often each value occurs.

ghost use Rattle.std.specs.Prelude.{◌≡◌, ◌<◌, ◌≤◌, ◌+◌, ◌^◌, ℕ, IfOk, length, replicate, slice_index, sum, take};
ghost use Rattle.imgref.specs.Words.{Fits, grid_pixels, histogram_of, ref_grid, ref_layout};

use imgref::ImgRef;
use std::alloc::{AllocError, Global};

/// How many pixels have each value: item `v` of the result counts the pixels that are `v`.
///
/// # Requires
///
/// The image fits: `is_valid`.
#[tactic(auto, using(image_model::proofs::Counts::counting))]
pub fn histogram(image: ImgRef<'_, u8>) -> [u64; 256]
    requires { Fits (ref_layout image) }
    ensures { result ≡ histogram_of 256 (grid_pixels (ref_grid image.entry)) }
{
    let mut counts = [0u64; 256];
    for pixel in image.pixels() {
        counts[usize::from(pixel)] += 1;
    }
    counts
}

/// The sums of a histogram: item `v` of the result is how many pixels are at most `v`. They need
/// more than 64 bits where the counts are any numbers.
pub fn cumulative(counts: &[u64; 256]) -> [u128; 256]
    ensures sums { (v : ℕ) → v < 256 → slice_index result v ≡ sum (take (v + 1) counts.now) }
    ensures small { sum counts.now < 2 ^ 72 }
{
    sums_up_to(counts)
}

/// The same, with the last of them: no other is greater.
#[tactic(auto, using(crate::proofs::LevelTables::level_tables))]
pub(crate) fn sums_up_to(counts: &[u64; 256]) -> [u128; 256]
    ensures sums { (v : ℕ) → v < 256 → slice_index result v ≡ sum (take (v + 1) counts.now) }
    ensures whole { slice_index result 255 ≡ sum counts.now }
    ensures part { (v : ℕ) → v < 256 → slice_index result v ≤ slice_index result 255 }
    ensures small { sum counts.now < 2 ^ 72 }
{
    let mut sums = [0u128; 256];
    let mut sum = 0u128;
    for v in 0..256usize {
        sum += u128::from(counts[v]);
        sums[v] = sum;
    }
    sums
}

// The same of words, for so many values, in a table of zeros.
#[tactic(auto, using(image_model::proofs::Counts::counting))]
fn count_words(image: ImgRef<'_, u16>, counts: &mut [u64], values: usize)
    requires fits { Fits (ref_layout image) }
    requires all { 2 ^ 16 ≤ values }
    requires size { length counts.old ≡ values }
    requires zeros { counts.old ≡ replicate values 0 }
    ensures { counts.new ≡ histogram_of values (grid_pixels (ref_grid image.entry)) }
{
    for word in image.pixels() {
        counts[usize::from(word)] += 1;
    }
}

// The same, whatever the table had.
fn count_all_words(image: ImgRef<'_, u16>, counts: &mut [u64], values: usize)
    requires fits { Fits (ref_layout image) }
    requires all { 2 ^ 16 ≤ values }
    requires size { length counts.old ≡ values }
    ensures { counts.new ≡ histogram_of values (grid_pixels (ref_grid image.entry)) }
{
    counts.fill(0);
    count_words(image, counts, values);
}

/// How many pixels have each value of two bytes, in a table of the caller's. Its item `v` becomes
/// the number of pixels that are `v`.
///
/// # Requires
///
/// The image fits (`is_valid`), and the table has 65536 items: compare its length.
pub fn histogram_u16_into(image: ImgRef<'_, u16>, counts: &mut [u64])
    requires fits { Fits (ref_layout image) }
    requires size { length counts.old ≡ 2 ^ 16 }
    ensures { counts.new ≡ histogram_of (2 ^ 16) (grid_pixels (ref_grid image.entry)) }
{
    let values = counts.len();
    count_all_words(image, counts, values);
}

// The same in a table of its own.
fn table_of_words(
    alloc: Global,
    image: ImgRef<'_, u16>,
    values: usize,
) -> Result<Vec<u64>, AllocError>
    requires fits { Fits (ref_layout image) }
    requires all { 2 ^ 16 ≤ values }
    ensures { IfOk result
        (λ v. v.items ≡ histogram_of values (grid_pixels (ref_grid image.entry))) }
{
    let mut counts = vec![in alloc; 0u64; values]?;
    count_words(image, counts.as_mut_slice(), values);
    Ok(counts)
}

/// The same in a table of its own.
///
/// # Requires
///
/// The image fits: `is_valid`.
///
/// # Errors
///
/// Out of memory.
pub fn histogram_u16(alloc: Global, image: ImgRef<'_, u16>) -> Result<Vec<u64>, AllocError>
    requires { Fits (ref_layout image) }
    ensures { IfOk result
        (λ v. v.items ≡ histogram_of (2 ^ 16) (grid_pixels (ref_grid image.entry))) }
{
    table_of_words(alloc, image, 1 << 16)
}
