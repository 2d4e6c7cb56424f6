//! Changes of an image in place, over its bytes in a shape. A pixel is some bytes next to one
//! another in a row, so a window of pixels is a window of bytes.

ghost use Rattle.std.specs.Prelude.{◌≡◌, ◌<◌, ◌≤◌, ◌/◌, ◌*◌, ◌%◌, ◌^◌, length, IsTrue};
ghost use Rattle.image_model.specs.Grid.{grid_of, patch};
ghost use Rattle.image_model.specs.Windows.{IsInside, window_view};
ghost use Rattle.image_shape.specs.Shape.{shaped, shape_width, shape_height};
ghost use Rattle.image_shape.specs.Window.{as_window};
ghost use Rattle.image_means.specs.Blur.{blurred};
ghost use Rattle.image_means.specs.Means.{sample_cells};
ghost use Rattle.image_writes.specs.Written.{Becomes};
ghost use Rattle.image_planes.specs.Changes.{bytes_for, changed, flipped_by, in_bytes, is_change_of};
ghost use Rattle.image_planes.specs.Pixels.{HavePixels};
ghost use Rattle.image_commands.specs.Changes.{is_blur};
ghost use Rattle.image_planes.specs.Scratch.{has_room};

use image_commands::{Axes, Change};
use image_means::{blur_samples, mean_samples};
use image_ops::{mosaic_window_by, repeat_window};
use image_shape::{SampleBytes, Shape, Window};
use image_turns::{flip_rows, flip_window_columns};
use row_mover::move_pixels;

/// The bytes of a pixel. Where a pixel has fewer, the others are ignored.
pub type Value = [u8; 8];

/// A change, and the frames to which it is applied, by their numbers from 0.
#[derive(Clone, Copy, PartialEq, Eq)]
pub struct Step<V> {
    /// The first frame.
    pub first: u64,
    /// The first frame after them.
    pub end: u64,
    pub change: Change<V>,
}

// The window of bytes that a window of pixels is, where a pixel has so many bytes. It is inside the
// shape of the bytes where the window is inside that of the pixels.
pub(crate) fn in_bytes(shape: Shape, size: usize, window: Window) -> Window
    requires some { 0 < size }
    requires pixels { IsInside (shape_width shape / size) (shape_height shape) (as_window window) }
    ensures window { as_window result ≡ in_bytes size window }
    ensures inside { IsInside (shape_width shape) (shape_height shape) (as_window result) }
{
    let _width = shape.width();
    Window::new(
        size * window.left,
        window.top,
        size * window.width,
        window.height,
    )
}

// The bytes of a sample, of which a pixel of so many bytes has whole ones.
fn bytes_for(size: usize, bytes: SampleBytes) -> SampleBytes
    ensures bytes { result ≡ bytes_for size bytes }
    ensures whole { size % sample_cells result ≡ 0 }
{
    if size % 2 == 0 {
        bytes
    } else {
        SampleBytes::One
    }
}

/// Whether a change is a blur, which needs work buffers.
pub(crate) fn is_blur(change: Change<Value>) -> bool
    ensures { result ≡ is_blur change }
{
    matches!(change, Change::Blur { .. })
}

// The number of samples of so many bytes.
fn samples_across(bytes: SampleBytes, width: usize) -> usize
    requires whole { width % sample_cells bytes ≡ 0 }
    ensures samples { result * sample_cells bytes ≡ width }
    ensures within { result ≤ width }
{
    match bytes {
        SampleBytes::One => width,
        SampleBytes::LowFirst | SampleBytes::HighFirst => width / 2,
    }
}

// Every pixel of the window becomes the mean of the box around it. What the copy and the sums had is
// lost.
fn blur_cells(
    cells: &mut [u8],
    shape: Shape,
    size: usize,
    window: Window,
    across: usize,
    down: usize,
    bytes: SampleBytes,
    copy: &mut [u8],
    sums: &mut [u32],
)
    requires pixels { HavePixels cells.old shape size }
    requires inside { IsInside (shape_width shape / size) (shape_height shape) (as_window window) }
    requires across { across < 2 ^ 15 }
    requires down { down < 2 ^ 15 }
    requires copy { length cells.old ≤ length copy.old }
    requires sums { shape_width shape ≤ length sums.old }
    ensures { Becomes shape cells.old cells.new (patch (grid_of (shaped cells.old shape))
        (size * window.left) window.top (blurred (bytes_for size bytes) size across down
        (window_view (grid_of (shaped cells.old shape)) (in_bytes size window)))) }
{
    let part = in_bytes(shape, size, window);
    let bytes = bytes_for(size, bytes);
    let count = samples_across(bytes, part.width);
    let sums = &mut sums[..count];
    blur_samples(bytes, cells, shape, part, size, across, down, copy, sums);
}

// In each row the first pixel changes places with the last, and so on. A pixel has `size` bytes; the
// padding stays.
fn flip_columns(cells: &mut [u8], shape: Shape, size: usize)
    requires pixels { HavePixels cells.old shape size }
    ensures { Becomes shape cells.old cells.new
        (flipped_by size Axes.Columns (grid_of (shaped cells.old shape))) }
{
    let (width, height) = (shape.width(), shape.height());
    let window = Window::new(0, 0, width, height);
    flip_window_columns(cells, shape, window, size, width / size);
}

// The rows or the columns change places.
fn flip_cells(cells: &mut [u8], shape: Shape, size: usize, axes: Axes)
    requires pixels { HavePixels cells.old shape size }
    ensures { Becomes shape cells.old cells.new
        (flipped_by size axes (grid_of (shaped cells.old shape))) }
{
    match axes {
        Axes::Rows => flip_rows(cells, shape),
        Axes::Columns => flip_columns(cells, shape, size),
        Axes::Both => {
            flip_columns(cells, shape, size);
            flip_rows(cells, shape);
        }
    }
}

/// Applies the change of pixels of `size` bytes to the image that the bytes make in this shape; the
/// padding stays. What the copy and the sums had is lost.
pub(crate) fn change_cells(
    cells: &mut [u8],
    shape: Shape,
    size: usize,
    change: Change<Value>,
    copy: &mut [u8],
    sums: &mut [u32],
)
    requires pixels { HavePixels cells.old shape size }
    requires inside { IsTrue (is_change_of (shape_width shape / size) (shape_height shape) change) }
    requires room { IsTrue (has_room (length cells.old) (shape_width shape)
        (length copy.old) (length sums.old) change) }
    ensures { Becomes shape cells.old cells.new
        (changed size change (grid_of (shaped cells.old shape))) }
{
    match change {
        Change::Fill { window, value } => {
            repeat_window(cells, shape, in_bytes(shape, size, window), &value[..size]);
        }
        Change::Mosaic {
            window,
            tile_width,
            tile_height,
        } => {
            let part = in_bytes(shape, size, window);
            mosaic_window_by(cells, shape, part, size, tile_width, tile_height);
        }
        Change::Mean {
            window,
            tile_width,
            tile_height,
            bytes,
        } => {
            let part = in_bytes(shape, size, window);
            let bytes = bytes_for(size, bytes);
            mean_samples(bytes, cells, shape, part, size, tile_width, tile_height);
        }
        Change::Blur {
            window,
            across,
            down,
            bytes,
        } => blur_cells(cells, shape, size, window, across, down, bytes, copy, sums),
        Change::Move { window, left, top } => {
            let target = Window::new(left, top, window.width, window.height);
            let from = in_bytes(shape, size, window);
            move_pixels(cells, shape, from, in_bytes(shape, size, target));
        }
        Change::Flip(axes) => flip_cells(cells, shape, size, axes),
    }
}
