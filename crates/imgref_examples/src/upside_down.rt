//! An image turned upside down.

ghost use Rattle.std.specs.Prelude.{◌≡◌};
ghost use Rattle.imgref.specs.Words.{Fits, SameOutside, flipped, vec_grid, vec_layout};

use imgref::ImgVec;

/// The first row becomes the last one, and so on.
#[tactic(auto, using(image_model::proofs::Laws::loops))]
pub fn flip(image: &mut ImgVec<u8>)
    requires fits { Fits (vec_layout image.old) }
    ensures grid { vec_grid image.new ≡ flipped (vec_grid image.old) }
    ensures outside { SameOutside (vec_layout image.old) (vec_layout image.new) }
{
    let height = image.height();
    for y in 0..height / 2 {
        image.swap_rows(y, height - 1 - y);
    }
}
