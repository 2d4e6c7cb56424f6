//! Blurs: each pixel of a window becomes the mean of the box around it.
//!
//! They are there for cells of one byte. The caller lends work buffers for a copy and for sums.

ghost use Rattle.std.specs.Prelude.{◌≡◌, ◌*◌, ◌%◌, ◌<◌, ◌≤◌, ◌^◌, length};
ghost use Rattle.image_model.specs.Grid.{patch};
ghost use Rattle.image_model.specs.Layout.{Fits, SameOutside};
ghost use Rattle.image_model.specs.Windows.{exact_len, window_view};
ghost use Rattle.image_shape.specs.Shape.{shape_height, shape_stride, shape_width, shaped, shaped_grid};
ghost use Rattle.imgref_c.specs.Words.{as_window, blur_status, blur_status_of, boxes_of, code, copy_room, in_cells, part_status, pixel_window_status, seen, sums_room, ChangesPart, Gives, IsInside, KeepsRoom, Writes};

use crate::images::ClaimedShape;
use crate::pixels::ClaimedPixels;
use crate::status::Status;
use image_means::{SampleBytes, blur_samples};
use image_shape::{Shape, Window};
use image_writes::exact_part;

// The greatest number of pixels on each side of a box, and one more.
const REACH: usize = 1 << 15;

// The cells of the window get the means of their boxes. Only these cells are copied.
fn blur_part(
    cells: &mut [u8],
    shape: Shape,
    part: Window,
    channels: usize,
    reach: (usize, usize),
    copy: &mut [u8],
    sums: &mut [u32],
)
    requires fits { Fits (shaped cells.old shape) }
    requires inside { IsInside (shape_width shape) (shape_height shape) (as_window part) }
    requires some { 0 < channels }
    requires whole { part.width % channels ≡ 0 }
    requires across { reach.0 < 2 ^ 15 }
    requires down { reach.1 < 2 ^ 15 }
    requires copy { exact_len (shape_stride shape) (as_window part) ≤ length copy.old }
    requires sums { length sums.old ≡ part.width }
    ensures grid { shaped_grid cells.new shape ≡ patch (shaped_grid cells.old shape)
        part.left part.top (boxes_of channels reach.0 reach.1
        (window_view (shaped_grid cells.old shape) (as_window part))) }
    ensures outside { SameOutside (shaped cells.old shape) (shaped cells.new shape) }
{
    let (range, inner) = exact_part(cells.len(), shape, part);
    let all = Window::new(0, 0, part.width, part.height);
    let cells = &mut cells[range];
    let (across, down) = reach;
    blur_samples(
        SampleBytes::One,
        cells,
        inner,
        all,
        channels,
        across,
        down,
        copy,
        sums,
    );
}

// Each pixel of the window becomes the mean of the box around it.
fn blur(
    cells: &mut [u8],
    claimed: ClaimedPixels,
    window: Window,
    reach: (usize, usize),
    copy: &mut [u8],
    sums: &mut [u32],
) -> Status
    requires room { length cells.old < 2 ^ 63 }
    ensures status { result ≡ blur_status_of claimed (length cells.old) (as_window window)
        reach.0 reach.1 (length copy.old) (length sums.old) }
    ensures writes { ChangesPart result claimed cells.old cells.new (as_window window)
        (boxes_of claimed.channels reach.0 reach.1) }
    ensures room { KeepsRoom (code result) copy.old copy.new sums.old sums.new }
{
    let (shape, part) = match claimed.part(cells.len(), window) {
        Ok(parts) => parts,
        Err(status) => return status,
    };
    if reach.0 >= REACH || reach.1 >= REACH {
        return Status::TooLarge;
    }
    let stretch = shape.stretch(false, cells.len(), part);
    if copy.len() < stretch.len || sums.len() < part.width {
        return Status::NoRoom;
    }
    let sums = &mut sums[..part.width];
    blur_part(cells, shape, part, claimed.channels, reach, copy, sums);
    Status::Done
}

/// Writes how long the work buffers of `imgref_u8_blur` are for a window: so many bytes for the copy,
/// and so many sums. Sizes and the window are counted in pixels of 1 to 4 cells, and the stride in cells.
#[unsafe(no_mangle)]
pub extern "C" fn imgref_blur_room(
    len: usize,
    width: usize,
    height: usize,
    stride: usize,
    channels: usize,
    window: Window,
    copy_len: &mut usize,
    sums_len: &mut usize,
) -> u32
    ensures status { result
        ≡ code (pixel_window_status channels len width height stride (as_window window)) }
    ensures copy { Gives result copy_len.old copy_len.new
        (copy_len.new ≡ copy_room channels stride (as_window window)) }
    ensures sums { Gives result sums_len.old sums_len.new
        (sums_len.new ≡ sums_room channels (as_window window)) }
{
    let claimed = ClaimedShape::new(width, height, stride).of_pixels(channels);
    let (shape, part) = match claimed.part(len, window) {
        Ok(parts) => parts,
        Err(status) => return status.code(),
    };
    *copy_len = shape.stretch(false, len, part).len;
    *sums_len = part.width;
    Status::Done.code()
}

/// Each pixel of the window becomes the mean of the box around it, rounded to the nearest number: a
/// half goes up. A pixel has 1 to 4 cells, next to one another in a row, and each cell is the mean of
/// such cells. The box has `across` pixels on the left and on the right, and `down` above and below:
/// both are below 2^15. What is outside the window doesn't count. Sizes, the window and the box are
/// counted in pixels, and the stride in cells. `imgref_blur_room` says what it needs besides.
#[unsafe(no_mangle)]
pub extern "C" fn imgref_u8_blur(
    cells: &mut [u8],
    width: usize,
    height: usize,
    stride: usize,
    channels: usize,
    window: Window,
    across: usize,
    down: usize,
    copy: &mut [u8],
    sums: &mut [u32],
) -> u32
    ensures status { result ≡ code (blur_status channels (length cells.old) width height stride
        (as_window window) across down (length copy.old) (length sums.old)) }
    ensures writes { Writes result (channels * width) height stride cells.old cells.new
        (channels * window.left) window.top (boxes_of channels across down
        (seen (channels * width) height stride cells.old (in_cells channels (as_window window)))) }
    ensures room { KeepsRoom result copy.old copy.new sums.old sums.new }
{
    let claimed = ClaimedShape::new(width, height, stride).of_pixels(channels);
    blur(cells, claimed, window, (across, down), copy, sums).code()
}
