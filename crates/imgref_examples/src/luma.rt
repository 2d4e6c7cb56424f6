//! The plane of brightness in a raw frame.

ghost use Rattle.std.specs.Prelude.{◌≡◌, ◌↔◌, ◌≤◌, ◌<◌, ◌^◌, Some, IsOk, IfOk, IfErr};
ghost use Rattle.image_model.specs.Layout.{Fits, layout};
ghost use Rattle.imgref.specs.Image.{vec_layout};
ghost use Rattle.imgref_examples.specs.Frames.{frame_fault, fault_text};

use imgref::ImgVec;
use std::error::Error;
use std::fmt;

/// Why there is no luma plane.
#[derive(Clone, Copy, Debug, PartialEq, Eq)]
pub enum FrameError {
    /// A width or a height past `u32::MAX`.
    TooLarge,
    /// A stride of 0 or less than the width.
    BadStride,
    /// The buffer ends before the last pixel.
    TooShort,
}

impl fmt::Display for FrameError {
    ghost output = { λ fault. Some (fault_text fault) };

    fn fmt<W: fmt::Write>(&self, f: &mut fmt::Formatter<W>) -> fmt::Result {
        match self {
            FrameError::TooLarge => write!(f, "too wide or too high"),
            FrameError::BadStride => write!(f, "stride below the width"),
            FrameError::TooShort => write!(f, "buffer too short"),
        }
    }
}

impl Error for FrameError {}

/// The luma plane of a raw frame, or its first fault.
pub fn luma_plane(
    frame: Vec<u8>,
    width: usize,
    height: usize,
    stride: usize,
) -> Result<ImgVec<u8>, FrameError>
    ensures taken { IsOk result ↔ ((width < 2 ^ 32) × (height < 2 ^ 32) × (1 ≤ stride)
        × (width ≤ stride) × Fits (layout frame.items width height stride)) }
    ensures plane { IfOk result
        (λ plane. vec_layout plane ≡ layout frame.items width height stride) }
    ensures fault { IfErr result
        (λ fault. frame_fault frame.items width height stride ≡ Some fault) }
{
    if width > u32::MAX as usize || height > u32::MAX as usize {
        return Err(FrameError::TooLarge);
    }
    if stride == 0 || stride < width {
        return Err(FrameError::BadStride);
    }
    let plane = ImgVec::new_stride(frame, width, height, stride);
    if !plane.is_valid() {
        return Err(FrameError::TooShort);
    }
    Ok(plane)
}
