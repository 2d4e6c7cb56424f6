//! Every pixel brighter: by a closure, by places, row by row, and in a copy by a table.

ghost use Rattle.std.specs.Prelude.{◌≡◌, ◌<◌, ℕ, IfOk, map, length, slice_index};
ghost use Rattle.imgref.specs.Words.{Fits, SameOutside, patch, one_row, row, width_of, height_of, ref_grid, ref_layout, vec_grid, vec_layout};
ghost use Rattle.imgref_examples.specs.Brightness.{brighter, brightened};

use image_regions::map_by;
use imgref::{ImgRef, ImgVec, bound_u8};
use std::alloc::{AllocError, Global};

/// Adds `by` to every pixel, up to 255; the padding stays.
pub fn brighten(image: &mut ImgVec<u8>, by: u8)
    requires { Fits (vec_layout image.old) }
    ensures grid { vec_grid image.new ≡ brightened by (vec_grid image.old) }
    ensures outside { SameOutside (vec_layout image.old) (vec_layout image.new) }
{
    image.map_pixels(|pixel| pixel.saturating_add(by));
}

/// The same, place by place: every pixel is brighter, and the padding stays.
#[tactic(auto, using(image_model::proofs::Laws::loops))]
pub fn brighten_places(image: &mut ImgVec<u8>, by: u8)
    requires { Fits (vec_layout image.old) }
    ensures grid { vec_grid image.new ≡ brightened by (vec_grid image.old) }
    ensures outside { SameOutside (vec_layout image.old) (vec_layout image.new) }
{
    for y in 0..image.height() {
        for x in 0..image.width() {
            let pixel = image[(x, y)];
            image.put(x, y, pixel.saturating_add(by));
        }
    }
}

// Adds `by` to every pixel of a row, up to 255.
fn brighten_row(row: &mut [u8], by: u8)
    ensures { row.new ≡ map (brighter by) row.old }
{
    for pixel in row.iter_mut() {
        *pixel = pixel.saturating_add(by);
    }
}

// The same of row `y` of an image.
fn brighten_line(image: &mut ImgVec<u8>, y: usize, by: u8)
    requires fits { Fits (vec_layout image.old) }
    requires row { y < height_of image.old }
    ensures grid { vec_grid image.new ≡ patch (vec_grid image.old) 0 y
        (one_row (map (brighter by) (row (vec_layout image.old) y))) }
    ensures outside { SameOutside (vec_layout image.old) (vec_layout image.new) }
    ensures fits { Fits (vec_layout image.new) }
    ensures long { length (row (vec_layout image.old) y) ≡ width_of image.old }
{
    brighten_row(image.row_mut(y), by);
}

/// The same, row by row: every pixel is brighter, and the padding stays.
#[tactic(auto, using(image_model::proofs::Laws::loops))]
pub fn brighten_rows(image: &mut ImgVec<u8>, by: u8)
    requires fits { Fits (vec_layout image.old) }
    ensures grid { vec_grid image.new ≡ brightened by (vec_grid image.old) }
    ensures outside { SameOutside (vec_layout image.old) (vec_layout image.new) }
{
    for y in 0..image.height() {
        brighten_line(image, y, by);
    }
}

// What each value becomes.
fn brighter_values(by: u8) -> [u8; 256]
    ensures { (v : ℕ) → v < 256 → slice_index result v ≡ brighter by v }
{
    let mut table = [0u8; 256];
    for v in 0..256usize {
        table[v] = (v as u8).saturating_add(by);
    }
    table
}

/// The same in a copy, by a table of the values.
pub fn brighten_copy(alloc: Global, image: ImgRef<'_, u8>, by: u8) -> Result<ImgVec<u8>, AllocError>
    requires { Fits (ref_layout image) }
    ensures grid { IfOk result (λ i. vec_grid i ≡ brightened by (ref_grid image.entry)) }
    ensures fits { IfOk result (λ i. Fits (vec_layout i)) }
{
    bound_u8(image);
    let made = map_by(alloc, image, &brighter_values(by))?;
    Ok(made)
}
