//! A smaller image pasted into a larger one, cut at its edges.

ghost use Rattle.std.specs.Prelude.{◌≡◌, ◌-◌};
ghost use Rattle.imgref.specs.Words.{Fits, SameOutside, patch, view, width_of, height_of, ref_grid, ref_layout, vec_grid, vec_layout};
ghost use Rattle.imgref_examples.specs.Signed.{start, skipped};

use imgref::{ImgRef, ImgVec};

/// Writes a sprite at a place of the image; its part past the right and the lower edge is cut.
#[tactic(auto, using(image_model::proofs::Laws::writes))]
pub fn paste_sprite(image: &mut ImgVec<u8>, sprite: ImgRef<'_, u8>, x: usize, y: usize)
    requires fits { Fits (vec_layout image.old) }
    requires sprite_fits { Fits (ref_layout sprite) }
    ensures grid { vec_grid image.new ≡ patch (vec_grid image.old) x y (ref_grid sprite.entry) }
    ensures outside { SameOutside (vec_layout image.old) (vec_layout image.new) }
{
    if x >= image.width() || y >= image.height() {
        return;
    }
    let columns = sprite.width().min(image.width() - x);
    let rows = sprite.height().min(image.height() - y);
    image.copy_window(x, y, sprite.sub_image(0, 0, columns, rows));
}

// Where what is seen starts, and how much is cut before it.
fn split(at: i32) -> (usize, usize)
    ensures start { result.0 ≡ start at }
    ensures skipped { result.1 ≡ skipped at }
{
    if at < 0 {
        (0, at.unsigned_abs() as usize)
    } else {
        (at as usize, 0)
    }
}

/// The same, at a position that may be to the left of the image or above it.
#[tactic(auto, using(image_model::proofs::Laws::writes))]
pub fn paste_at(image: &mut ImgVec<u8>, sprite: ImgRef<'_, u8>, x: i32, y: i32)
    requires fits { Fits (vec_layout image.old) }
    requires sprite_fits { Fits (ref_layout sprite) }
    ensures grid { vec_grid image.new
        ≡ patch (vec_grid image.old) (start x) (start y) (view (ref_grid sprite.entry) (skipped x)
        (skipped y) (width_of sprite.entry - skipped x) (height_of sprite.entry - skipped y)) }
    ensures outside { SameOutside (vec_layout image.old) (vec_layout image.new) }
{
    let (left, skip_x) = split(x);
    let (top, skip_y) = split(y);
    if skip_x >= sprite.width() || skip_y >= sprite.height() {
        return;
    }
    let (columns, rows) = (sprite.width() - skip_x, sprite.height() - skip_y);
    paste_sprite(
        image,
        sprite.sub_image(skip_x, skip_y, columns, rows),
        left,
        top,
    );
}
