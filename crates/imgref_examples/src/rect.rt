//! A rectangle that is cut at the image's edge.

ghost use Rattle.std.specs.Prelude.{◌≡◌};
ghost use Rattle.imgref.specs.Words.{Fits, SameOutside, patch, uniform, vec_grid, vec_layout};

use imgref::ImgVec;

/// Writes `value` at each place of the rectangle that is in the image.
#[tactic(auto, using(image_model::proofs::Laws::writes))]
pub fn draw_rect(image: &mut ImgVec<u8>, x: usize, y: usize, width: usize, height: usize, value: u8)
    requires { Fits (vec_layout image.old) }
    ensures grid { vec_grid image.new
        ≡ patch (vec_grid image.old) x y (uniform width height value) }
    ensures outside { SameOutside (vec_layout image.old) (vec_layout image.new) }
{
    if x >= image.width() || y >= image.height() {
        return;
    }
    let columns = width.min(image.width() - x);
    let rows = height.min(image.height() - y);
    image.fill_window(x, y, columns, rows, value);
}
