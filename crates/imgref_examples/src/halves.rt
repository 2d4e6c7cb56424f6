//! An image of half the size.

ghost use Rattle.std.specs.Prelude.{◌≡◌, ◌/◌, IfOk};
ghost use Rattle.imgref.specs.Words.{Fits, from_places, width_of, height_of, ref_grid, ref_layout, vec_grid, vec_layout};
ghost use Rattle.imgref_examples.specs.Scenes.{mean_of_four};

use crate::sums::window_sum;
use imgref::{ImgRef, ImgVec, Window};
use std::alloc::{AllocError, Global};

/// The image of half the width and half the height. Each of its pixels is the mean of two by two
/// pixels. All is rounded down.
pub fn halve(alloc: Global, image: ImgRef<'_, u8>) -> Result<ImgVec<u8>, AllocError>
    requires { Fits (ref_layout image) }
    ensures grid { IfOk result (λ half. vec_grid half
        ≡ from_places (width_of image.entry / 2) (height_of image.entry / 2)
        (mean_of_four (ref_grid image.entry))) }
    ensures fits { IfOk result (λ half. Fits (vec_layout half)) }
{
    let (width, height) = (image.width() / 2, image.height() / 2);
    let half = ImgVec::from_places(alloc, width, height, |x, y| {
        (window_sum(image, Window::new(2 * x, 2 * y, 2, 2)) / 4) as u8
    })?;
    Ok(half)
}
