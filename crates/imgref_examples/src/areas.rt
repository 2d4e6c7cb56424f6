//! What a pixel of an integral image says.

ghost use Rattle.std.specs.Prelude.{◌≡◌, ◌<◌, ◌+◌, ◌*◌, ◌^◌, IfOk};
ghost use Rattle.imgref.specs.Words.{Fits, area_sum, height_of, ref_grid, ref_layout, width_of};

use image_regions::integral;
use imgref::ImgRef;
use std::alloc::{AllocError, Global};

/// The sum of the pixels up to a place: of the columns up to its own in the rows up to its own.
#[tactic(auto, using(image_model::proofs::Laws::reads, image_model::proofs::Sweeps::sweeps, image_model::proofs::Grids::at_place), unfolding(image_model::specs::Tables::table))]
pub fn sum_up_to(
    alloc: Global,
    image: ImgRef<'_, u8>,
    x: usize,
    y: usize,
) -> Result<u64, AllocError>
    requires fits { Fits (ref_layout image) }
    requires small { width_of image * height_of image < 2 ^ 56 }
    requires column { x < width_of image }
    requires row { y < height_of image }
    ensures { IfOk result (λ n. n ≡ area_sum (ref_grid image.entry) (x + 1) (y + 1)) }
{
    let areas = integral(alloc, image)?;
    Ok(areas.get(x, y).unwrap_or(0))
}
