//! The bytes of pixels of a kind, by the values of their samples.

ghost use Rattle.std.specs.Prelude.{◌≡◌, ◌∷◌, ◌<◌, ◌%◌, ◌/◌, []};
ghost use Rattle.frame_formats.specs.Steps.{bytes_of, pixel_bytes, black, grey_of, colour_of, no_colour, opaque, value_in};

use frame_edits::Paint;
use frame_texts::Pixel;
use image_planes::{SampleBytes, Value};

// The low byte of a number, and the high one.
fn halves(value: u16) -> (u8, u8)
    ensures { result ≡ (value % 256, value / 256) }
{
    ((value % 256) as u8, (value / 256) as u8)
}

// A pixel with these samples. Where it has fewer, the others are ignored.
fn pixel_of(pixel: Pixel, first: u16, second: u16, third: u16, fourth: u16) -> Value
    ensures { result ≡ pixel_bytes pixel (first ∷ second ∷ third ∷ fourth ∷ []) }
{
    let (first, first_high) = halves(first);
    let (second, second_high) = halves(second);
    let (third, third_high) = halves(third);
    let (fourth, fourth_high) = halves(fourth);
    if pixel.greatest < 256 {
        [first, second, third, fourth, 0, 0, 0, 0]
    } else if pixel.high_first {
        [
            first_high,
            first,
            second_high,
            second,
            third_high,
            third,
            fourth_high,
            fourth,
        ]
    } else {
        [
            first,
            first_high,
            second,
            second_high,
            third,
            third_high,
            fourth,
            fourth_high,
        ]
    }
}

// The brightness of black.
fn black(pixel: Pixel) -> usize
    ensures { result ≡ black pixel }
{
    (pixel.greatest as usize + 1) / 16
}

/// An opaque pixel of this brightness, or `None` where its samples don't have the value.
pub(crate) fn grey_of(pixel: Pixel, value: usize) -> Option<Value>
    ensures { result ≡ grey_of pixel value }
{
    if value > pixel.greatest as usize {
        return None;
    }
    let value = value as u16;
    Some(if pixel.tuples.colour {
        pixel_of(pixel, value, value, value, pixel.greatest)
    } else {
        pixel_of(pixel, value, pixel.greatest, 0, 0)
    })
}

// An opaque pixel of this colour. `None` where it has one brightness, or its samples lack a value.
fn colour_of(pixel: Pixel, red: usize, green: usize, blue: usize) -> Option<Value>
    ensures { result ≡ colour_of pixel red green blue }
{
    let greatest = pixel.greatest as usize;
    if !pixel.tuples.colour || red > greatest || green > greatest || blue > greatest {
        return None;
    }
    let (red, green, blue) = (red as u16, green as u16, blue as u16);
    Some(pixel_of(pixel, red, green, blue, pixel.greatest))
}

/// A chroma sample of no colour.
pub(crate) fn no_colour(pixel: Pixel) -> Value
    ensures { result ≡ no_colour pixel }
{
    let middle = pixel.greatest / 2 + 1;
    pixel_of(pixel, middle, middle, middle, middle)
}

/// A sample of how opaque a pixel is, of one that is wholly.
pub(crate) fn opaque(pixel: Pixel) -> Value
    ensures { result ≡ opaque pixel }
{
    let greatest = pixel.greatest;
    pixel_of(pixel, greatest, greatest, greatest, greatest)
}

/// The bytes that such a pixel gets. `None` for a value that it lacks, and for a colour where there is
/// one brightness.
pub(crate) fn value_in(pixel: Pixel, paint: Paint) -> Option<Value>
    ensures { result ≡ value_in pixel paint }
{
    match paint {
        Paint::Grey(value)
        | Paint::Around {
            value: Some(value),
            ..
        } => grey_of(pixel, value),
        Paint::Black | Paint::Around { value: None, .. } => grey_of(pixel, black(pixel)),
        Paint::Colour { red, green, blue } => colour_of(pixel, red, green, blue),
    }
}

/// The bytes of a sample.
pub(crate) fn bytes_of(pixel: Pixel) -> SampleBytes
    ensures { result ≡ bytes_of pixel }
{
    if pixel.greatest < 256 {
        return SampleBytes::One;
    }
    if pixel.high_first {
        SampleBytes::HighFirst
    } else {
        SampleBytes::LowFirst
    }
}
