//! Calls by places, on two images at once, and turns.

ghost use Rattle.std.specs.Prelude.{◌≡◌, ◌<◌, ◌^◌, IfOk, if◌then◌else◌};
ghost use Rattle.imgref.specs.Words.{Fits, SameOutside, width_of, height_of, mapped_places, zipped, from_places, columns_swapped, mirrored, turned_right, ref_grid, ref_layout, vec_grid, vec_layout};
ghost use Rattle.imgref_examples.specs.Scenes.{mix_of, in_disc, ramp_at};

use imgref::{ImgRef, ImgVec, Turn};
use std::alloc::{AllocError, Global};

// `alpha` parts of 255 of `q`, and the rest of `p`.
pub(crate) fn mix(alpha: u8, p: u8, q: u8) -> u8
    ensures { result ≡ mix_of alpha p q }
{
    let sum = u32::from(q) * u32::from(alpha) + u32::from(p) * u32::from(255 - alpha);
    (sum / 255) as u8
}

/// Lays one image over another of its size, in place: `alpha` parts of 255 of `over` show.
pub fn blend(image: &mut ImgVec<u8>, over: ImgRef<'_, u8>, alpha: u8)
    requires fits { Fits (vec_layout image.old) }
    requires over_fits { Fits (ref_layout over) }
    requires width { width_of over ≡ width_of image.old }
    requires height { height_of over ≡ height_of image.old }
    ensures grid { vec_grid image.new
        ≡ zipped (mix_of alpha) (vec_grid image.old) (ref_grid over.entry) }
    ensures outside { SameOutside (vec_layout image.old) (vec_layout image.new) }
{
    image.zip_pixels(over, |p, q| mix(alpha, p, q));
}

// Whether a place is in a disc.
#[tactic(auto, unfolding(crate::specs::Scenes::in_disc))]
fn is_in_disc(left: u32, top: u32, radius: u32, x: usize, y: usize) -> bool
    requires column { x < 2 ^ 32 }
    requires row { y < 2 ^ 32 }
    ensures { result ≡ in_disc left top radius x y }
{
    let across = u128::from((x as u32).abs_diff(left));
    let down = u128::from((y as u32).abs_diff(top));
    across * across + down * down <= u128::from(radius) * u128::from(radius)
}

/// Writes `value` at each place of the image that lies in the disc.
pub fn fill_disc(image: &mut ImgVec<u8>, left: u32, top: u32, radius: u32, value: u8)
    requires fits { Fits (vec_layout image.old) }
    ensures grid { vec_grid image.new ≡ mapped_places
        (λ x y p. if in_disc left top radius x y then value else p) (vec_grid image.old) }
    ensures outside { SameOutside (vec_layout image.old) (vec_layout image.new) }
{
    // The sizes are below 2^32, which `width` and `height` say.
    let _columns = image.width();
    let _rows = image.height();
    image.map_places(|x, y, p| if is_in_disc(left, top, radius, x, y) {
        value
    } else {
        p
    });
}

/// A ramp of grey: each column is as bright as its distance from the first one.
pub fn ramp(alloc: Global, width: usize, height: usize) -> Result<ImgVec<u8>, AllocError>
    requires width_bound { width < 2 ^ 32 }
    requires height_bound { height < 2 ^ 32 }
    ensures grid { IfOk result
        (λ image. vec_grid image ≡ from_places width height (λ x y. ramp_at width x)) }
    ensures fits { IfOk result (λ image. Fits (vec_layout image)) }
{
    let image = ImgVec::from_places(alloc, width, height, |x, _y| (255 * x / width) as u8)?;
    Ok(image)
}

/// Writes the image turned clockwise to another one: its first row becomes the last column.
pub fn turn_right<T: Copy>(src: ImgRef<'_, T>, dst: &mut ImgVec<T>)
    requires src_fits { Fits (ref_layout src) }
    requires dst_fits { Fits (vec_layout dst.old) }
    requires width { width_of dst.old ≡ height_of src }
    requires height { height_of dst.old ≡ width_of src }
    ensures grid { vec_grid dst.new ≡ turned_right (ref_grid src.entry) }
    ensures outside { SameOutside (vec_layout dst.old) (vec_layout dst.new) }
{
    src.turn_into(dst, Turn::Right);
}

/// Two columns are exchanged, and then the image is mirrored.
pub fn exchange_and_mirror<T: Copy>(image: &mut ImgVec<T>, x: usize, z: usize)
    requires fits { Fits (vec_layout image.old) }
    requires first { x < width_of image.old }
    requires second { z < width_of image.old }
    ensures grid { vec_grid image.new ≡ mirrored (columns_swapped x z (vec_grid image.old)) }
    ensures outside { SameOutside (vec_layout image.old) (vec_layout image.new) }
{
    image.swap_columns(x, z);
    image.flip_columns();
}
