//! The pixel at one place after writes at others.

ghost use Rattle.std.specs.Prelude.{◌≡◌, ◌<◌, ◌+◌, Some};
ghost use Rattle.imgref.specs.Words.{Fits, SameOutside, patch, uniform, width_of, height_of, vec_grid, vec_layout};

use imgref::ImgVec;

/// Puts a pixel and fills the row below it. The result is the pixel as it was put.
#[tactic(auto, using(image_model::proofs::Laws::reads))]
pub fn put_above_fill(image: &mut ImgVec<u8>, x: usize, y: usize, value: u8) -> Option<u8>
    requires fits { Fits (vec_layout image.old) }
    requires column { x < width_of image.old }
    requires row { y + 1 < height_of image.old }
    ensures value { result ≡ Some value }
    ensures grid { vec_grid image.new ≡ patch (patch (vec_grid image.old) x y (uniform 1 1 value))
        0 (y + 1) (uniform (width_of image.old) 1 0) }
    ensures outside { SameOutside (vec_layout image.old) (vec_layout image.new) }
{
    image.put(x, y, value);
    image.fill_row(y + 1, 0);
    image.get(x, y)
}
