//! Histogram equalization, by the sums of the histogram.

ghost use Rattle.std.specs.Prelude.{◌≡◌, ◌<◌, ◌≤◌, ◌+◌, ◌*◌, ◌/◌, ◌^◌, ℕ, max, slice_index, sum, take};
ghost use Rattle.imgref.specs.Words.{Fits, SameOutside, vec_grid, vec_layout};
ghost use Rattle.image_regions.specs.Levels.{equalized, level};

use image_regions::{cumulative, histogram};
use imgref::{ImgExt, ImgVec};

// Which part of 255 this is.
#[tactic(auto, using(crate::proofs::Shares::share_small))]
fn share(part: u128, whole: u128) -> u8
    requires within { part ≤ whole }
    requires small { whole < 2 ^ 72 }
    ensures { result ≡ 255 * part / max whole 1 }
{
    (255 * part / whole.max(1)) as u8
}

// What a value becomes, by the sums of the counts.
fn spread(counts: &[u64; 256], sums: &[u128; 256], value: u8) -> u8
    requires sums { (v : ℕ) → v < 256 → slice_index sums.now v ≡ sum (take (v + 1) counts.now) }
    requires whole { slice_index sums.now 255 ≡ sum counts.now }
    requires part { (v : ℕ) → v < 256 → slice_index sums.now v ≤ slice_index sums.now 255 }
    requires small { sum counts.now < 2 ^ 72 }
    ensures { result ≡ level counts.now value }
{
    share(sums[usize::from(value)], sums[255])
}

// The sums of the counts, with the last of them: no other is greater.
fn sums_of(counts: &[u64; 256]) -> [u128; 256]
    ensures sums { (v : ℕ) → v < 256 → slice_index result v ≡ sum (take (v + 1) counts.now) }
    ensures whole { slice_index result 255 ≡ sum counts.now }
    ensures part { (v : ℕ) → v < 256 → slice_index result v ≤ slice_index result 255 }
    ensures small { sum counts.now < 2 ^ 72 }
{
    cumulative(counts)
}

/// Spreads the values of an image over all of 0 to 255, by the cumulative histogram.
pub fn equalize(image: &mut ImgVec<u8>)
    requires fits { Fits (vec_layout image.old) }
    ensures grid { vec_grid image.new ≡ equalized (vec_grid image.old) }
    ensures outside { SameOutside (vec_layout image.old) (vec_layout image.new) }
{
    let counts = histogram(image.as_ref());
    let sums = sums_of(&counts);
    image.map_pixels(|p| spread(&counts, &sums, p));
}
