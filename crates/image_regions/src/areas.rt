//! Integral images.

ghost use Rattle.std.specs.Prelude.{◌≡◌, ◌↔◌, ◌<◌, ◌+◌, ◌-◌, ◌*◌, ◌^◌, ◌==◌, if◌then◌else◌, IfOk, IsOk, IsTrue};
ghost use Rattle.image_model.specs.Compaction.{least_stride};
ghost use Rattle.imgref.specs.Words.{AreBelow, Fits, SameOutside, area_at, area_sum, grid_of, height_of, ref_grid, ref_layout, shape_height, shape_width, shaped, shown, stride_of, table, vec_grid, vec_layout, width_of};

use crate::pixels::{get, put};
use imgref::{ImgRef, ImgVec, Shape, bound_u8};
use std::alloc::{AllocError, Global};

/// Whether the sums of the pixels of an image of bytes are below 2^64, as `integral` requires: the
/// image has fewer than 2^56 pixels.
pub fn sums_fit(image: ImgRef<'_, u8>) -> bool
    ensures { IsTrue result ↔ (width_of image.entry * height_of image.entry < 2 ^ 56) }
{
    image.width() * image.height() < 1 << 56
}

// The sum above a place, or 0 in the first row.
fn above(areas: &[u64], shape: Shape, x: usize, y: usize) -> u64
    requires { Fits (shaped areas.now shape) }
    ensures { result ≡ (if y == 0 then 0 else shown (grid_of (shaped areas.now shape)) x (y - 1)) }
{
    if y == 0 {
        return 0;
    }
    get(areas, shape, x, y - 1).unwrap_or(0)
}

// Writes the sums of bytes to cells in a shape of the image's size.
#[tactic(auto, using(image_model::proofs::Sweeps::sweeps, image_model::proofs::Sums::areas))]
fn sum_areas(image: ImgRef<'_, u8>, cells: &mut [u64], shape: Shape)
    requires fits { Fits (ref_layout image) }
    requires cells_fit { Fits (shaped cells.old shape) }
    requires width { shape_width shape ≡ width_of image }
    requires height { shape_height shape ≡ height_of image }
    requires small { width_of image * height_of image < 2 ^ 56 }
    requires below { AreBelow 256 (ref_grid image) }
    ensures grid { grid_of (shaped cells.new shape)
        ≡ table (width_of image.entry) (height_of image.entry) (area_at (ref_grid image.entry)) }
    ensures outside { SameOutside (shaped cells.old shape) (shaped cells.new shape) }
{
    for y in 0..image.height() {
        let mut line = 0u64;
        for x in 0..image.width() {
            line += u64::from(image.get(x, y).unwrap_or(0));
            let sum = above(cells, shape, x, y) + line;
            put(cells, shape, x, y, sum);
        }
    }
}

/// Writes the integral image to cells in a shape of its size. Each pixel becomes the sum of the
/// image's pixels up to its column in the rows up to its own; the padding stays. (OpenCV's
/// `integral` has a row and a column of zeros before these.)
///
/// # Requires
///
/// The image fits (`is_valid`), and so do the cells (`Shape::fits`). The sizes are equal, and the
/// sums are below 2^64 (`sums_fit`).
pub fn integral_into(image: ImgRef<'_, u8>, cells: &mut [u64], shape: Shape)
    requires fits { Fits (ref_layout image) }
    requires cells_fit { Fits (shaped cells.old shape) }
    requires width { shape_width shape ≡ width_of image }
    requires height { shape_height shape ≡ height_of image }
    requires small { width_of image * height_of image < 2 ^ 56 }
    ensures grid { grid_of (shaped cells.new shape)
        ≡ table (width_of image.entry) (height_of image.entry) (area_at (ref_grid image.entry)) }
    ensures outside { SameOutside (shaped cells.old shape) (shaped cells.new shape) }
{
    bound_u8(image);
    sum_areas(image, cells, shape);
}

/// The integral image in an image of its own, as `integral_into` writes it. There is no padding: the
/// stride is the width, or 1 for width 0.
///
/// # Requires
///
/// The image fits (`is_valid`), and its sums do (`sums_fit`).
///
/// # Errors
///
/// Out of memory. This never happens where there is no pixel.
pub fn integral(alloc: Global, image: ImgRef<'_, u8>) -> Result<ImgVec<u64>, AllocError>
    requires fits { Fits (ref_layout image) }
    requires small { width_of image * height_of image < 2 ^ 56 }
    ensures grid { IfOk result (λ i. vec_grid i
        ≡ table (width_of image.entry) (height_of image.entry) (area_at (ref_grid image.entry))) }
    ensures stride { IfOk result (λ i. stride_of i ≡ least_stride (width_of image.entry)) }
    ensures fits { IfOk result (λ i. Fits (vec_layout i)) }
    ensures succeeds { width_of image.entry * height_of image.entry ≡ 0 → IsOk result }
{
    let areas = ImgVec::from_places(alloc, image.width(), image.height(), |_x, _y| 0u64)?;
    let (mut cells, shape) = areas.into_parts();
    integral_into(image, cells.as_mut_slice(), shape);
    Ok(ImgVec::from_parts(cells, shape))
}
