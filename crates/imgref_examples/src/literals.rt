//! A first program with sizes written as numbers.

use crate::resize_nearest;
use imgref::ImgVec;
use std::alloc::{AllocError, Global};

/// A ramp of 500 by 700 pixels in half of its size.
pub fn half_ramp(alloc: Global) -> Result<ImgVec<u8>, AllocError> {
    let ramp = ImgVec::from_places(alloc, 500, 700, |x, _y| (x / 2) as u8)?;
    let mut half = ImgVec::from_places(alloc, 250, 350, |_x, _y| 0u8)?;
    resize_nearest(ramp.as_ref(), &mut half.as_mut());
    Ok(half)
}
