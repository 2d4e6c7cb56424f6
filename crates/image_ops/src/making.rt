//! Pixels that a closure makes from the places of a size.

ghost use Rattle.std.specs.Prelude.{◌≡◌, ◌*◌, ◌+◌, ◌^◌, ◌≤◌, ◌<◌, IsOk, IfOk, length};
ghost use Rattle.std.specs.Vec.{vec_len, vec_capacity};
ghost use Rattle.image_model.specs.ByPlace.{TakesPlacesOf};
ghost use Rattle.image_ops.specs.Made.{AddsRow, AreMade};

use std::alloc::{AllocError, Global};

// Adds what `f` makes of the places of row `y`. There is room for it.
fn push_row<T, F: Fn(usize, usize) -> T>(pixels: &mut Vec<T>, width: usize, y: usize, f: &F)
    requires room { vec_len pixels.old + width ≤ vec_capacity pixels.old }
    requires callable { (x : _) → x < width → F.pre f.now x y }
    ensures capacity { vec_capacity pixels.new ≡ vec_capacity pixels.old }
    ensures len { vec_len pixels.new ≡ vec_len pixels.old + width }
    ensures added { AddsRow (λ x. F.post f.now x y) pixels.old.items pixels.new.items width }
{
    for x in 0..width {
        pixels.push_reserved(f(x, y));
    }
}

/// The results of `f` for each place of a size, row by row and from left to right. They are in a
/// buffer of their own, whose memory is allocated at once. Where there is no place, nothing is
/// allocated.
pub fn make_pixels<T, F: Fn(usize, usize) -> T>(
    alloc: Global,
    width: usize,
    height: usize,
    f: &F,
) -> Result<Vec<T>, AllocError>
    requires countable { width * height < 2 ^ 64 }
    requires callable { TakesPlacesOf (F.pre f.now) width height }
    ensures made { IfOk result (λ v. AreMade (F.post f.now) width height v.items) }
    ensures succeeds { width * height ≡ 0 → IsOk result }
{
    let mut pixels: Vec<T> = Vec::with_capacity(alloc, width * height)?;
    for y in 0..height {
        push_row(&mut pixels, width, y, f);
    }
    Ok(pixels)
}
