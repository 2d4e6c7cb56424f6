//! Sums of the pixels.

ghost use Rattle.std.specs.Prelude.{◌≡◌, ◌%◌, ◌*◌, ◌^◌, ◌<◌, ◌≤◌, ◌+◌, fold, max, sum};
ghost use Rattle.imgref.specs.Words.{Fits, IsInside, as_window, grid_pixels, window_view, width_of, height_of, ref_grid, ref_layout};

use imgref::{ImgRef, Window};

/// The sum of the pixels, modulo 2^64; the padding isn't counted.
pub fn checksum(image: ImgRef<'_, u8>) -> u64
    requires { Fits (ref_layout image) }
    ensures { result ≡ sum (grid_pixels (ref_grid image.entry)) % 2 ^ 64 }
{
    image
        .pixels()
        .fold(0u64, |sum, pixel| sum.wrapping_add(u64::from(pixel)))
}

// A sum so far with the pixels of a row.
fn with_row(before: u64, row: &[u8]) -> u64
    ensures { result ≡ (before + sum row.now) % 2 ^ 64 }
{
    let mut sum = before;
    for pixel in row {
        sum = sum.wrapping_add(u64::from(*pixel));
    }
    sum
}

/// The same sum, row by row. This is faster on wide rows, since a row is a slice.
pub fn checksum_by_rows(image: ImgRef<'_, u8>) -> u64
    requires { Fits (ref_layout image) }
    ensures { result ≡ sum (grid_pixels (ref_grid image.entry)) % 2 ^ 64 }
{
    let mut sum = 0u64;
    for row in image.rows() {
        sum = with_row(sum, row);
    }
    sum
}

/// The exact sum of the pixels, for an image that isn't too large.
pub fn exact_checksum(image: ImgRef<'_, u8>) -> u64
    requires fits { Fits (ref_layout image) }
    requires small { width_of image * height_of image < 2 ^ 56 }
    ensures { result ≡ sum (grid_pixels (ref_grid image.entry)) }
{
    let mut sum = 0;
    for pixel in image.pixels() {
        sum += u64::from(pixel);
    }
    sum
}

/// The greatest pixel, or 0 where there is none.
pub fn greatest(image: ImgRef<'_, u8>) -> u8
    requires { Fits (ref_layout image) }
    ensures { result ≡ fold max 0 (grid_pixels (ref_grid image.entry)) }
{
    image.pixels().fold(0, |most, pixel| most.max(pixel))
}

/// The sum of the pixels of a window.
pub fn window_sum(image: ImgRef<'_, u8>, window: Window) -> u64
    requires fits { Fits (ref_layout image) }
    requires inside { IsInside (width_of image) (height_of image) (as_window window) }
    requires small { window.width * window.height < 2 ^ 56 }
    ensures value { result ≡ sum (grid_pixels (window_view (ref_grid image.entry) (as_window window))) }
    ensures bound { result ≤ 255 * (window.width * window.height) }
{
    let mut total = 0;
    for pixel in image.window(window).pixels() {
        total += u64::from(pixel);
    }
    total
}
