//! The change of the size of frames, as that of a plane of pixels.

ghost use Rattle.std.specs.Prelude.{◌≡◌};
ghost use Rattle.frame_formats.specs.Framings.{padded_size, resize_for};

use crate::steps::grey_of;
use frame_edits::Framing;
use frame_texts::Pixel;
use image_planes::Resize;

// How many pixels there are with those before and after.
fn padded_size(before: usize, pixels: usize, behind: usize) -> Option<usize>
    ensures { result ≡ padded_size before pixels behind }
{
    let size = before.checked_add(pixels)?.checked_add(behind)?;
    (size <= u32::MAX as usize).then_some(size)
}

/// The change of the size of a plane of pixels, for a frame of this size. `None` where its new size
/// is too large, or its pixels lack the value. A quarter turn needs rows that can be columns
/// (`upright`).
#[tactic(auto, unfolding(crate::specs::Framings::resize_for))]
pub(crate) fn resize_of(
    upright: bool,
    pixel: Pixel,
    width: usize,
    height: usize,
    framing: Framing,
) -> Option<Resize>
    ensures { result ≡ resize_for upright pixel width height framing }
{
    match framing {
        Framing::Crop(window) => Some(Resize::Crop(window)),
        Framing::Pad {
            left,
            top,
            right,
            bottom,
            value,
        } => Some(Resize::Pad {
            left,
            top,
            width: padded_size(left, width, right)?,
            height: padded_size(top, height, bottom)?,
            value: grey_of(pixel, value)?,
        }),
        Framing::Turn(quarter) => upright.then_some(Resize::Turn {
            quarter,
            width: height,
            height: width,
        }),
    }
}
