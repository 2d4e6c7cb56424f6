//! Images of which every pixel is written, whatever it was: from another image, or from the places.

ghost use Rattle.std.specs.Prelude.{◌≡◌, ◌<◌, ◌+◌, ◌/◌, ◌%◌, ◌==◌, nat_lt, if◌then◌else◌};
ghost use Rattle.imgref.specs.Words.{Fits, SameOutside, from_places, height_of, mapped, ref_grid, ref_layout, vec_grid, vec_layout, width_of};

use imgref::{ImgRef, ImgVec};

/// Every pixel of `target` becomes 0 where that of `source` is below `limit`, and 255 elsewhere.
pub fn threshold_into(source: ImgRef<'_, u8>, target: &mut ImgVec<u8>, limit: u8)
    requires source_fits { Fits (ref_layout source) }
    requires target_fits { Fits (vec_layout target.old) }
    requires width { width_of source ≡ width_of target.old }
    requires height { height_of source ≡ height_of target.old }
    ensures grid { vec_grid target.new
        ≡ mapped (λ p. if nat_lt p limit then 0 else 255) (ref_grid source.entry) }
    ensures outside { SameOutside (vec_layout target.old) (vec_layout target.new) }
{
    target.map_from(source, |p| if p < limit { 0 } else { 255 });
}

/// Squares of `side` by `side` pixels, black and white in turn, from a black one at the corner on.
pub fn checkerboard(image: &mut ImgVec<u8>, side: usize)
    requires fits { Fits (vec_layout image.old) }
    requires some { 0 < side }
    ensures grid { vec_grid image.new ≡ from_places (width_of image.old) (height_of image.old)
        (λ x y. if (x / side + y / side) % 2 == 0 then 0 else 255) }
    ensures outside { SameOutside (vec_layout image.old) (vec_layout image.new) }
{
    // The sizes are below 2^32, which `width` and `height` say.
    let _columns = image.width();
    let _rows = image.height();
    image.fill_places(|x, y| if (x / side + y / side) % 2 == 0 {
        0
    } else {
        255
    });
}
