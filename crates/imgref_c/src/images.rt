//! What is an image, which windows are inside, and which cells a window has.

ghost use Rattle.std.specs.Prelude.{◌≡◌, ◌↔◌, ◌≤◌, ◌<◌, ◌^◌, IsTrue};
ghost use Rattle.imgref_c.specs.Words.{as_window, code, exact_stretch, passes, window_status, Finds, IsImage, IsInside};

use crate::pixels::ClaimedPixels;
use crate::status::Status;
use image_shape::{Shape, Window};

/// The width, the height and the stride that a caller in C claims for an image.
#[derive(Clone, Copy)]
pub(crate) struct ClaimedShape {
    pub(crate) width: usize,
    pub(crate) height: usize,
    stride: usize,
}

impl ClaimedShape {
    ghost use Rattle.image_shape.specs.Shape.{shape_width, shape_height, shape_stride};

    /// These three numbers, of which nothing is known.
    pub(crate) fn new(width: usize, height: usize, stride: usize) -> ClaimedShape
        ensures width { result.width ≡ width }
        ensures height { result.height ≡ height }
        ensures stride { result.stride ≡ stride }
    {
        ClaimedShape {
            width,
            height,
            stride,
        }
    }

    /// The same with another width.
    pub(crate) fn with_width(self, width: usize) -> ClaimedShape
        ensures width { result.width ≡ width }
        ensures height { result.height ≡ self.height }
        ensures stride { result.stride ≡ self.stride }
    {
        ClaimedShape { width, ..self }
    }

    /// The same, counted in pixels of so many cells.
    pub(crate) fn of_pixels(self, channels: usize) -> ClaimedPixels
        ensures width { result.shape.width ≡ self.width }
        ensures height { result.shape.height ≡ self.height }
        ensures stride { result.shape.stride ≡ self.stride }
        ensures channels { result.channels ≡ channels }
    {
        ClaimedPixels {
            shape: self,
            channels,
        }
    }

    /// Whether so many cells are an image of this size and stride.
    #[tactic(auto, using(crate::proofs::Tests::is_image_decides))]
    pub(crate) fn is_image(self, len: usize) -> bool
        ensures value { result ≡ passes len self.width self.height self.stride }
        ensures means { IsTrue result ↔ IsImage len self.width self.height self.stride }
    {
        match Shape::checked(self.width, self.height, self.stride) {
            Some(shape) => shape.fits(len),
            None => false,
        }
    }

    /// The same as a shape, where the numbers are valid (`is_image` tests them).
    pub(crate) fn shape(self) -> Shape
        requires stride_positive { 1 ≤ self.stride }
        requires holds_width { self.width ≤ self.stride }
        requires width_bound { self.width < 2 ^ 32 }
        requires height_bound { self.height < 2 ^ 32 }
        ensures width { shape_width result ≡ self.width }
        ensures height { shape_height result ≡ self.height }
        ensures stride { shape_stride result ≡ self.stride }
    {
        Shape::new(self.width, self.height, self.stride)
    }
}

/// Whether so many cells are an image of this size and stride. The stride has to be positive and at
/// least the width, and width and height below 2^32. The cells have to reach the last pixel, if
/// there is one.
#[unsafe(no_mangle)]
pub extern "C" fn imgref_is_image(len: usize, width: usize, height: usize, stride: usize) -> bool
    ensures { IsTrue result ↔ IsImage len width height stride }
{
    ClaimedShape::new(width, height, stride).is_image(len)
}

/// Whether a window is inside an image of this size. An empty one at the edge is.
#[unsafe(no_mangle)]
pub extern "C" fn imgref_has_window(width: usize, height: usize, window: Window) -> bool
    ensures { IsTrue result ↔ IsInside width height (as_window window) }
{
    window.is_inside(width, height)
}

/// Where a window's cells begin among those of the image, and how many there are up to its last
/// pixel. With the window's size and the image's stride these cells are an image.
#[unsafe(no_mangle)]
pub extern "C" fn imgref_window(
    len: usize,
    width: usize,
    height: usize,
    stride: usize,
    window: Window,
    start: &mut usize,
    count: &mut usize,
) -> u32
    ensures status { result ≡ code (window_status len width height stride (as_window window)) }
    ensures finds { Finds result start.old count.old start.new count.new len
        (exact_stretch stride (as_window window)) }
    ensures image { result ≡ 0 → IsImage count.new window.width window.height stride }
{
    let claimed = ClaimedShape::new(width, height, stride);
    if !claimed.is_image(len) {
        return Status::NotAnImage.code();
    }
    let shape = claimed.shape();
    if !shape.has_window(window) {
        return Status::WindowOutside.code();
    }
    let part = shape.stretch(false, len, window);
    *start = part.start;
    *count = part.len;
    Status::Done.code()
}
