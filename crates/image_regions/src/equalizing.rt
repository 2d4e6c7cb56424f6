//! Histogram equalization.

ghost use Rattle.std.specs.Prelude.{◌≡◌, ◌<◌, ◌≤◌, ◌*◌, ◌/◌, ◌^◌, ℕ, max, slice_index};
ghost use Rattle.imgref.specs.Words.{Fits, OnlyCellsChange, SameOutside, grid_by, layout_by};
ghost use Rattle.image_regions.specs.Levels.{equalized, level};

use crate::counting::{histogram, sums_up_to};
use imgref::{AsMutSlice, Img};

// Which part of 255 this is, by one that is no greater. It needs no division, which would be a call for 128 bits.
#[tactic(auto, using(crate::proofs::LevelTables::level_tables))]
fn share(from: u8, part: u128, total: u128) -> u8
    requires within { part ≤ total }
    requires small { total < 2 ^ 100 }
    requires from { from * max total 1 ≤ 255 * part }
    ensures value { result ≡ 255 * part / max total 1 }
    ensures reached { result * max total 1 ≤ 255 * part }
{
    let whole = total.max(1);
    let mut level = from;
    let mut next = (u128::from(from) + 1) * whole;
    while level < 255 && next <= 255 * part {
        level += 1;
        next += whole;
    }
    level
}

// What each value becomes.
#[tactic(auto, using(crate::proofs::LevelTables::level_tables))]
fn levels(counts: &[u64; 256]) -> [u8; 256]
    ensures { (v : ℕ) → v < 256 → slice_index result v ≡ level counts.now v }
{
    let sums = sums_up_to(counts);
    let mut table = [0u8; 256];
    let mut level = 0;
    for v in 0..256usize {
        level = share(level, sums[v], sums[255]);
        table[v] = level;
    }
    table
}

/// Spreads the values of an image over 0 to 255, by the cumulative histogram. A pixel becomes the
/// part of 255 that the pixels up to its value are of all pixels, rounded down. The greatest value
/// becomes 255; the padding stays. (OpenCV's `equalizeHist` makes the least value 0.)
///
/// # Requires
///
/// The image fits: `is_valid`.
pub fn equalize<C: AsMutSlice<Item = u8>>(image: &mut Img<C>)
    requires fits { Fits (layout_by C.cells image.old) }
    ensures grid { grid_by C.cells image.new ≡ equalized (grid_by C.cells image.old) }
    ensures outside { SameOutside (layout_by C.cells image.old) (layout_by C.cells image.new) }
    ensures fits { Fits (layout_by C.cells image.new) }
    ensures container { OnlyCellsChange C.cells C.with_cells image.old image.new }
{
    let table = levels(&histogram(image.as_ref()));
    image.map_pixels(|p| table[usize::from(p)]);
}
