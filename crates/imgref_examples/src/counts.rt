//! Counts of the pixels.

ghost use Rattle.std.specs.Prelude.{◌≡◌, nat_lt};
ghost use Rattle.std.specs.List.{count_by};
ghost use Rattle.imgref.specs.Words.{Fits, grid_pixels, ref_grid, ref_layout};

use imgref::ImgRef;

/// How many pixels are above a limit.
pub fn count_above(image: ImgRef<'_, u8>, limit: u8) -> usize
    requires { Fits (ref_layout image) }
    ensures { result ≡ count_by (λ p. nat_lt limit p) (grid_pixels (ref_grid image.entry)) }
{
    image.count_where(|p| *p > limit)
}
