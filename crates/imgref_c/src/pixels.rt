//! Calls on pixels of several cells, next to one another in a row.
//!
//! Sizes and windows are counted in pixels, and strides in cells.

ghost use Rattle.std.specs.Prelude.{◌≡◌, ◌+◌, ◌*◌, ◌<◌, ◌≤◌, ◌↔◌, ◌^◌, IfErr, IfOk, IsTrue, length};
ghost use Rattle.image_shape.specs.Shape.{shape_width, shape_height};
ghost use Rattle.imgref_c.specs.Words.{as_window, code, in_cells, mosaic_by, part_status, pixel_window_status, repeated, tiled_status, ChangesPart, IsInside, Writes};

use crate::images::ClaimedShape;
use crate::status::Status;
use image_ops::{mosaic_window_by, repeat_window};
use image_shape::{Shape, Window};

/// What a caller in C claims for an image whose pixels have so many cells. The size is counted in
/// pixels, and the stride in cells.
#[derive(Clone, Copy)]
pub(crate) struct ClaimedPixels {
    pub(crate) shape: ClaimedShape,
    pub(crate) channels: usize,
}

impl ClaimedPixels {
    ghost use Rattle.image_shape.specs.Shape.{shape_stride};
    ghost use Rattle.imgref_c.specs.Words.{is_pixel_image, IsPart, IsPixelImage};

    /// Whether so many cells are an image of pixels of 1 to 4 cells.
    #[tactic(auto, using(crate::proofs::Tests::is_pixel_image_decides), unfolding(crate::specs::Status::is_pixel_image, crate::specs::Status::is_image))]
    pub(crate) fn is_image(self, len: usize) -> bool
        ensures value { result ≡ is_pixel_image self.channels len self.shape.width
            self.shape.height self.shape.stride }
        ensures means { IsTrue result ↔ IsPixelImage self.channels len self.shape.width
            self.shape.height self.shape.stride }
    {
        if self.channels == 0 || self.channels > 4 {
            return false;
        }
        match self.channels.checked_mul(self.shape.width) {
            Some(width) => self.shape.with_width(width).is_image(len),
            None => false,
        }
    }

    /// The same as a shape of cells, where they are such an image (`is_image` tests it).
    pub(crate) fn cells(self) -> Shape
        requires stride_positive { 1 ≤ self.shape.stride }
        requires holds_width { self.channels * self.shape.width ≤ self.shape.stride }
        requires width_bound { self.channels * self.shape.width < 2 ^ 32 }
        requires height_bound { self.shape.height < 2 ^ 32 }
        ensures width { shape_width result ≡ self.channels * self.shape.width }
        ensures height { shape_height result ≡ self.shape.height }
        ensures stride { shape_stride result ≡ self.shape.stride }
    {
        self.shape
            .with_width(self.channels * self.shape.width)
            .shape()
    }

    /// The shape of the cells and the window of cells, or the test of the image or of the window that
    /// fails.
    #[inline(always)]
    pub(crate) fn part(self, len: usize, window: Window) -> Result<(Shape, Window), Status>
        ensures done { IfOk result (λ _. part_status self len (as_window window) ≡ Status.Done) }
        ensures refused { IfErr result (λ status.
            status ≡ part_status self len (as_window window)) }
        ensures counted { IfErr result (λ status. 0 < code status) }
        ensures part { IfOk result (λ parts. IsPart self len (as_window window) parts.0
            (as_window parts.1)) }
    {
        if !self.is_image(len) {
            return Err(Status::NotAnImage);
        }
        if !window.is_inside(self.shape.width, self.shape.height) {
            return Err(Status::WindowOutside);
        }
        let shape = self.cells();
        Ok((shape, window_of_cells(shape, self.channels, window)))
    }
}

// The window of cells that a window of pixels is, inside the shape of the cells.
fn window_of_cells(shape: Shape, channels: usize, window: Window) -> Window
    requires pixels { channels * (window.left + window.width) ≤ shape_width shape }
    requires rows { window.top + window.height ≤ shape_height shape }
    ensures window { as_window result ≡ in_cells channels (as_window window) }
    ensures inside { IsInside (shape_width shape) (shape_height shape) (as_window result) }
{
    // (a width is below 2^32, so no product overflows)
    let _width = shape.width();
    Window::new(
        channels * window.left,
        window.top,
        channels * window.width,
        window.height,
    )
}

// Every pixel of the window becomes `pixel`.
pub(crate) fn fill_pixels<T: Copy>(
    cells: &mut [T],
    claimed: ClaimedShape,
    window: Window,
    pixel: &[T],
) -> Status
    ensures status { result ≡ pixel_window_status (length pixel.now) (length cells.old)
        claimed.width claimed.height claimed.stride (as_window window) }
    ensures writes { Writes (code result) (length pixel.now * claimed.width) claimed.height
        claimed.stride cells.old cells.new (length pixel.now * window.left) window.top
        (repeated (length pixel.now * window.width) window.height pixel.now) }
{
    let claimed = claimed.of_pixels(pixel.len());
    let (shape, part) = match claimed.part(cells.len(), window) {
        Ok(parts) => parts,
        Err(status) => return status,
    };
    repeat_window(cells, shape, part, pixel);
    Status::Done
}

// Each tile of the window, from its corner on, gets the pixel that was at the tile's corner.
pub(crate) fn mosaic_pixels<T: Copy>(
    cells: &mut [T],
    claimed: ClaimedPixels,
    window: Window,
    tile: (usize, usize),
) -> Status
    ensures status { result
        ≡ tiled_status claimed (length cells.old) (as_window window) tile.0 tile.1 }
    ensures writes { ChangesPart result claimed cells.old cells.new (as_window window)
        (mosaic_by claimed.channels tile.0 tile.1) }
{
    let (shape, part) = match claimed.part(cells.len(), window) {
        Ok(parts) => parts,
        Err(status) => return status,
    };
    if tile.0 == 0 || tile.1 == 0 {
        return Status::NoTile;
    }
    mosaic_window_by(cells, shape, part, claimed.channels, tile.0, tile.1);
    Status::Done
}
