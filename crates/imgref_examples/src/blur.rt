//! A mean of neighbours.

ghost use Rattle.std.specs.Prelude.{◌≡◌, ◌<◌, ◌≤◌, ◌+◌, ◌*◌};
ghost use Rattle.imgref.specs.Words.{Fits, SameOutside, width_of, height_of, ref_grid, ref_layout, vec_grid, vec_layout};
ghost use Rattle.imgref_examples.specs.Blur.{sum_of_three, mean_of_nine, blurred};

use imgref::{ImgRef, ImgVec};

// The sum of three pixels of row `y`, from column `x` on.
fn three_from(src: ImgRef<'_, u8>, x: usize, y: usize) -> u16
    requires fits { Fits (ref_layout src) }
    requires column { x + 2 < width_of src }
    requires row { y < height_of src }
    ensures value { result ≡ sum_of_three (ref_grid src.entry) x y }
    ensures small { result ≤ 3 * 255 }
{
    u16::from(src[(x, y)]) + u16::from(src[(x + 1, y)]) + u16::from(src[(x + 2, y)])
}

// The mean of the pixel at column `x` of row `y` and its eight neighbours, rounded down.
#[tactic(auto, using(crate::proofs::Blurred::mean_by_rows))]
fn mean_around(src: ImgRef<'_, u8>, x: usize, y: usize) -> u8
    requires fits { Fits (ref_layout src) }
    requires left { 0 < x }
    requires right { x + 1 < width_of src }
    requires above { 0 < y }
    requires below { y + 1 < height_of src }
    ensures { result ≡ mean_of_nine (ref_grid src.entry) x y }
{
    let above = three_from(src, x - 1, y - 1);
    let beside = three_from(src, x - 1, y);
    let below = three_from(src, x - 1, y + 1);
    ((above + beside + below) / 9) as u8
}

/// Writes the mean of each interior pixel's three by three neighbours to `dst`, rounded down. The
/// pixels on the edges of `dst` and its padding stay.
#[tactic(auto, using(crate::proofs::Blurred::blurs))]
pub fn box_blur_3x3(src: ImgRef<'_, u8>, dst: &mut ImgVec<u8>)
    requires src_fits { Fits (ref_layout src) }
    requires dst_fits { Fits (vec_layout dst.old) }
    requires same_width { width_of src ≡ width_of dst.old }
    requires same_height { height_of src ≡ height_of dst.old }
    ensures grid { vec_grid dst.new ≡ blurred (ref_grid src.entry) (vec_grid dst.old) }
    ensures outside { SameOutside (vec_layout dst.old) (vec_layout dst.new) }
    ensures fits { Fits (vec_layout dst.new) }
{
    for y in 1..src.height().saturating_sub(1) {
        for x in 1..src.width().saturating_sub(1) {
            dst.put(x, y, mean_around(src, x, y));
        }
    }
}
