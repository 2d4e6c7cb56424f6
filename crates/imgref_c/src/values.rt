//! Values of pixels: how often each occurs, and how they are spread.

ghost use Rattle.std.specs.Prelude.{◌≡◌, ◌^◌, length};
ghost use Rattle.image_model.specs.Layout.{Fits, SameOutside};
ghost use Rattle.image_shape.specs.Shape.{shaped};
ghost use Rattle.imgref_c.specs.Words.{code, equalized, grid_of, grid_pixels, histogram_of, image_status, layout, Gives, Writes};

use crate::images::ClaimedShape;
use crate::status::Status;
use image_regions::{equalize, histogram, histogram_u16_into};
use image_shape::Shape;
use imgref::{ImgRef, ImgRefMut};

/// How many pixels have each value goes to `counts`: number `v` of it counts the pixels that are `v`.
#[unsafe(no_mangle)]
pub extern "C" fn imgref_u8_histogram(
    cells: &[u8],
    width: usize,
    height: usize,
    stride: usize,
    counts: &mut [u64; 256],
) -> u32
    ensures status { result ≡ code (image_status (length cells.now) width height stride) }
    ensures gives { Gives result counts.old counts.new (counts.new
        ≡ histogram_of 256 (grid_pixels (grid_of (layout cells.now width height stride)))) }
{
    let claimed = ClaimedShape::new(width, height, stride);
    if !claimed.is_image(cells.len()) {
        return Status::NotAnImage.code();
    }
    *counts = histogram(ImgRef::from_parts(cells, claimed.shape()));
    Status::Done.code()
}

/// The same for cells of two bytes, with 65536 counts.
#[unsafe(no_mangle)]
pub extern "C" fn imgref_u16_histogram(
    cells: &[u16],
    width: usize,
    height: usize,
    stride: usize,
    counts: &mut [u64; 65536],
) -> u32
    ensures status { result ≡ code (image_status (length cells.now) width height stride) }
    ensures gives { Gives result counts.old counts.new (counts.new
        ≡ histogram_of (2 ^ 16) (grid_pixels (grid_of (layout cells.now width height stride)))) }
{
    let claimed = ClaimedShape::new(width, height, stride);
    if !claimed.is_image(cells.len()) {
        return Status::NotAnImage.code();
    }
    let image = ImgRef::from_parts(cells, claimed.shape());
    histogram_u16_into(image, counts.as_mut_slice());
    Status::Done.code()
}

// The values of cells in a shape are spread.
fn equalize_cells(cells: &mut [u8], shape: Shape)
    requires fits { Fits (shaped cells.old shape) }
    ensures grid { grid_of (shaped cells.new shape) ≡ equalized (grid_of (shaped cells.old shape)) }
    ensures outside { SameOutside (shaped cells.old shape) (shaped cells.new shape) }
{
    let mut image = ImgRefMut::from_parts(cells, shape);
    equalize(&mut image);
}

// The same where the cells are an image.
fn equalize_image(cells: &mut [u8], claimed: ClaimedShape) -> Status
    ensures status { result
        ≡ image_status (length cells.old) claimed.width claimed.height claimed.stride }
    ensures writes { Writes (code result) claimed.width claimed.height claimed.stride cells.old
        cells.new 0 0 (equalized (grid_of (layout cells.old claimed.width claimed.height
        claimed.stride))) }
{
    if !claimed.is_image(cells.len()) {
        return Status::NotAnImage;
    }
    equalize_cells(cells, claimed.shape());
    Status::Done
}

/// The values of the pixels are spread over 0 to 255. Each pixel becomes the part of 255 that the
/// pixels up to its value are of all, rounded down.
#[unsafe(no_mangle)]
pub extern "C" fn imgref_u8_equalize(
    cells: &mut [u8],
    width: usize,
    height: usize,
    stride: usize,
) -> u32
    ensures status { result ≡ code (image_status (length cells.old) width height stride) }
    ensures writes { Writes result width height stride cells.old cells.new 0 0
        (equalized (grid_of (layout cells.old width height stride))) }
{
    equalize_image(cells, ClaimedShape::new(width, height, stride)).code()
}
