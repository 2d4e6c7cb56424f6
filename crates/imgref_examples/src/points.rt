//! Filters that change each pixel independently.

ghost use Rattle.std.specs.Prelude.{◌≡◌, ◌-◌, nat_lt, if◌then◌else◌};
ghost use Rattle.imgref.specs.Words.{Fits, SameOutside, mapped, vec_grid, vec_layout};

use imgref::ImgVec;

/// Every pixel `p` becomes `255 - p`.
pub fn invert(image: &mut ImgVec<u8>)
    requires fits { Fits (vec_layout image.old) }
    ensures grid { vec_grid image.new ≡ mapped (λ p. 255 - p) (vec_grid image.old) }
    ensures outside { SameOutside (vec_layout image.old) (vec_layout image.new) }
{
    image.map_pixels(|p| 255 - p);
}

/// Every pixel below `limit` becomes 0, and every other one 255.
pub fn threshold(image: &mut ImgVec<u8>, limit: u8)
    requires fits { Fits (vec_layout image.old) }
    ensures grid { vec_grid image.new
        ≡ mapped (λ p. if nat_lt p limit then 0 else 255) (vec_grid image.old) }
    ensures outside { SameOutside (vec_layout image.old) (vec_layout image.new) }
{
    image.map_pixels(|p| if p < limit { 0 } else { 255 });
}
