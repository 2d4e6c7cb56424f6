//! Whether two places are connected, by the labels of their components.

ghost use Rattle.std.specs.Prelude.{◌↔◌, ◌<◌, IfOk, IsTrue};
ghost use Rattle.imgref.specs.Words.{AreRegions, Fits, IsConnected, height_of, ref_grid, ref_layout, vec_grid, vec_layout, width_of};

use image_regions::components;
use imgref::ImgRef;
use std::alloc::{AllocError, Global};

/// Whether a path leads from one place to the other over sides, and over equal pixels.
#[tactic(auto, using(image_model::proofs::Laws::reads))]
pub fn are_connected(
    alloc: Global,
    image: ImgRef<'_, u8>,
    place: (usize, usize),
    other: (usize, usize),
) -> Result<bool, AllocError>
    requires fits { Fits (ref_layout image) }
    requires column { place.0 < width_of image }
    requires row { place.1 < height_of image }
    requires other_column { other.0 < width_of image }
    requires other_row { other.1 < height_of image }
    ensures { IfOk result (λ is. IsTrue is
        ↔ IsConnected (ref_grid image.entry) place.0 place.1 other.0 other.1) }
{
    let regions = components(alloc, image)?;
    Ok(regions.labels[place] == regions.labels[other])
}
