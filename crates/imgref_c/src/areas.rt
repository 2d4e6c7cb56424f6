//! Integral images.

ghost use Rattle.std.specs.Prelude.{◌≡◌, length};
ghost use Rattle.imgref_c.specs.Words.{area_at, code, grid_of, integral_status, layout, table, Writes};

use crate::images::ClaimedShape;
use crate::status::Status;
use image_regions::{integral_into, sums_fit};
use imgref::ImgRef;

// Each of the areas becomes the sum of the pixels up to its column in the rows up to its own.
fn sum_areas(
    cells: &[u8],
    claimed: ClaimedShape,
    areas: &mut [u64],
    claimed_areas: ClaimedShape,
) -> Status
    requires width { claimed_areas.width ≡ claimed.width }
    requires height { claimed_areas.height ≡ claimed.height }
    ensures status { result ≡ integral_status (length cells.now) claimed.width claimed.height
        claimed.stride (length areas.old) claimed_areas.stride }
    ensures writes { Writes (code result) claimed.width claimed.height claimed_areas.stride
        areas.old areas.new 0 0 (table claimed.width claimed.height (area_at (grid_of
        (layout cells.now claimed.width claimed.height claimed.stride)))) }
{
    if !claimed.is_image(cells.len()) || !claimed_areas.is_image(areas.len()) {
        return Status::NotAnImage;
    }
    let image = ImgRef::from_parts(cells, claimed.shape());
    if !sums_fit(image) {
        return Status::TooLarge;
    }
    integral_into(image, areas, claimed_areas.shape());
    Status::Done
}

/// Each of `areas` becomes the sum of the pixels up to its column in the rows up to its own. They are
/// an image of the size of `cells`, at a stride of their own.
#[unsafe(no_mangle)]
pub extern "C" fn imgref_u8_integral(
    cells: &[u8],
    width: usize,
    height: usize,
    stride: usize,
    areas: &mut [u64],
    areas_stride: usize,
) -> u32
    ensures status { result ≡ code (integral_status (length cells.now) width height stride
        (length areas.old) areas_stride) }
    ensures writes { Writes result width height areas_stride areas.old areas.new 0 0
        (table width height (area_at (grid_of (layout cells.now width height stride)))) }
{
    let claimed = ClaimedShape::new(width, height, stride);
    let claimed_areas = ClaimedShape::new(width, height, areas_stride);
    sum_areas(cells, claimed, areas, claimed_areas).code()
}
