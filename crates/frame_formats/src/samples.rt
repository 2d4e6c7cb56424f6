//! Numbers, windows and sizes of pixels as those of chroma samples.

ghost use Rattle.std.specs.Prelude.{◌≡◌, ◌<◌};
ghost use Rattle.frame_formats.specs.Sampling.{samples, ends_on_sample, window_under, exact_samples};
ghost use Rattle.frame_formats.specs.Framings.{resize_under};

use crate::steps::no_colour;
use frame_texts::Pixel;
use image_planes::{Resize, Window};

/// The number of samples for so many pixels, where it is a whole one.
pub(crate) fn whole_samples(step: usize, pixels: usize) -> Option<usize>
    requires { 0 < step }
    ensures { result ≡ exact_samples step pixels }
{
    if pixels % step == 0 {
        Some(pixels / step)
    } else {
        None
    }
}

pub(crate) fn count_samples(pixels: usize, step: usize) -> usize
    requires positive { 0 < step }
    ensures { result ≡ samples pixels step }
{
    if pixels % step == 0 {
        pixels / step
    } else {
        pixels / step + 1
    }
}

// Whether so many pixels from a whole sample on go by whole samples, or end where the frame ends.
fn ends_on_sample(step: usize, pixels: usize, start: usize, count: usize) -> bool
    requires { 0 < step }
    ensures { result ≡ ends_on_sample step pixels start count }
{
    count % step == 0 || (start <= pixels && pixels - start == count)
}

/// The window of samples under one of a frame of so many pixels.
#[tactic(auto, unfolding(crate::specs::Sampling::window_under))]
pub(crate) fn window_of_samples(
    x: usize,
    y: usize,
    width: usize,
    height: usize,
    window: Window,
) -> Option<Window>
    requires across { 0 < x }
    requires down { 0 < y }
    ensures { result ≡ window_under x y width height window }
{
    if window.left % x == 0
        && window.top % y == 0
        && ends_on_sample(x, width, window.left, window.width)
        && ends_on_sample(y, height, window.top, window.height)
    {
        let columns = count_samples(window.width, x);
        let rows = count_samples(window.height, y);
        Some(Window::new(window.left / x, window.top / y, columns, rows))
    } else {
        None
    }
}

// What becomes of a plane of chroma samples.
#[tactic(auto, unfolding(crate::specs::Framings::resize_under))]
pub(crate) fn resize_of_samples(
    pixel: Pixel,
    x: usize,
    y: usize,
    width: usize,
    height: usize,
    resize: Resize,
) -> Option<Resize>
    requires across { 0 < x }
    requires down { 0 < y }
    ensures { result ≡ resize_under pixel x y width height resize }
{
    match resize {
        Resize::Crop(window) => {
            let under = window_of_samples(x, y, width, height, window)?;
            Some(Resize::Crop(under))
        }
        Resize::Turn { quarter, .. } => {
            if x != y {
                return None;
            }
            Some(Resize::Turn {
                quarter,
                width: count_samples(resize.width(), x),
                height: count_samples(resize.height(), y),
            })
        }
        Resize::Pad { left, top, .. } => {
            let (wide, high) = (resize.width(), resize.height());
            let place = Window::new(left, top, width, height);
            let under = window_of_samples(x, y, wide, high, place)?;
            Some(Resize::Pad {
                left: under.left,
                top: under.top,
                width: count_samples(wide, x),
                height: count_samples(high, y),
                value: no_colour(pixel),
            })
        }
    }
}
