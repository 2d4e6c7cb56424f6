//! Windows of an image: images over a part of its cells, for reading and for writing.

ghost use Rattle.std.specs.Prelude.{◌≡◌, ◌+◌, ◌^◌, ◌≤◌, ◌<◌, length};
ghost use Rattle.std.specs.Borrow.{sem, follows, Array};
ghost use Rattle.image_model.specs.Layout.{Fits};
ghost use Rattle.image_model.specs.Windows.{window, window_view, IsInside, IsWithin, padded_stretch, padded_window, window_layout, stretch_cells, with_stretch};
ghost use Rattle.image_shape.specs.Shape.{shape_width, shape_height, shaped_grid, shaped};
ghost use Rattle.image_shape.specs.Window.{as_stretch, as_window};
ghost use Rattle.imgref.specs.contracts.img.Img.{the_row};
ghost use Rattle.imgref.specs.Written.{WindowPatchesGrid, WindowKeepsOutside, WindowKeepsFit, WindowKeepsContainer};
ghost use Rattle.imgref.specs.Image.{buf_of, width_of, height_of, stride_of, grid_by, layout_by, with_all, with_window, ref_grid, ref_layout, mut_grid, mut_layout};

use crate::containers::{AsMutSlice, AsSlice};
use crate::img::{Img, ImgRef, ImgRefMut};
use image_shape::{Shape, Stretch, Window};
use image_writes::{padded_part, padded_stretch_mut};

impl<'s, T> Img<&'s [T]> {
    /// The image that is seen through a window: it has the same cells, at the same stride.
    ///
    /// Its buffer begins at its first pixel. It has `height` whole strides where the image's cells
    /// reach so far, and otherwise ends at its last pixel (`padded_window`). The buffer of an empty
    /// window is empty.
    ///
    /// # Requires
    ///
    /// The image fits (`is_valid`), and the window is inside it (`has_window`).
    pub fn window(&self, window: Window) -> ImgRef<'s, T>
        requires fits { Fits (ref_layout self.now) }
        requires inside { IsInside (width_of self.now) (height_of self.now) (as_window window) }
        ensures layout { ref_layout result ≡ padded_window (ref_layout self.now) (as_window window) }
        ensures fits { Fits (ref_layout result) }
        ensures view { ref_grid result ≡ window_view (ref_grid self.now) (as_window window) }
    {
        let (buf, shape) = padded_part(self.buf, self.shape(), window);
        Img::from_parts(buf, shape)
    }

    /// The same as `window`, for the window of `width` by `height` pixels with its corner at column
    /// `left` of row `top`.
    ///
    /// # Requires
    ///
    /// The image fits (`is_valid`), and the window is inside it (`has_window`).
    pub fn sub_image(&self, left: usize, top: usize, width: usize, height: usize) -> ImgRef<'s, T>
        requires fits { Fits (ref_layout self.now) }
        requires inside { IsInside (width_of self.now) (height_of self.now)
            (window left top width height) }
        ensures layout { ref_layout result
            ≡ padded_window (ref_layout self.now) (window left top width height) }
        ensures fits { Fits (ref_layout result) }
        ensures view { ref_grid result
            ≡ window_view (ref_grid self.now) (window left top width height) }
    {
        self.window(Window::new(left, top, width, height))
    }
}

// The number after the last cell of a stretch, which the proof by hand of `from_stretch` calls.
fn end_of(stretch: Stretch) -> usize
    requires counts { stretch.start + stretch.len < 2 ^ 64 }
    ensures { result ≡ stretch.start + stretch.len }
{
    stretch.range().end
}

impl<'s, T> Img<&'s mut [T]> {
    /// The image that a stretch of these cells makes in this shape. Once the borrow ends, the cells
    /// are as they were, except that the stretch is as the image left it. The image need not fit.
    /// (The original crate has no such call.)
    ///
    /// # Requires
    ///
    /// The stretch ends within the cells: compare the numbers.
    pub fn from_stretch(cells: &'s mut [T], stretch: Stretch, shape: Shape) -> ImgRefMut<'s, T>
        requires in_bounds { IsWithin (length cells.old) (as_stretch stretch) }
        ensures* hands_on { sem 𝓛 (follows (Array T.row 0) (Array T.row 0) cells.entry.ghost_name
            (buf_of result).ghost_name (with_stretch cells.old (as_stretch stretch))) }
        ensures layout { mut_layout result
            ≡ shaped (stretch_cells cells.old (as_stretch stretch)) shape }
    {
        let end = end_of(stretch);
        Img::from_parts(&mut cells[stretch.start..end], shape)
    }

    /// The image cut down to a window, for as long as its pixels are borrowed. The window has
    /// `width` by `height` pixels, and its corner is at column `left` of row `top`.
    ///
    /// Its buffer has whole strides where the image has them (`padded_window`). Once the borrow
    /// ends, the borrowed cells are as they were, except that this stretch is as the window left
    /// it.
    ///
    /// # Requires
    ///
    /// The image fits (`is_valid`), and the window is inside it (`has_window`).
    pub fn into_sub_image_mut(
        self,
        left: usize,
        top: usize,
        width: usize,
        height: usize,
    ) -> ImgRefMut<'s, T>
        requires fits { Fits (mut_layout self) }
        requires inside { IsInside (width_of self) (height_of self) (window left top width height) }
        ensures* hands_on { sem 𝓛 (follows (Array T.row 0) (Array T.row 0)
            (buf_of self.entry).ghost_name (buf_of result).ghost_name
            (with_stretch (buf_of self.entry).now (padded_stretch (length (buf_of self.entry).now)
            (stride_of self.entry) (window left top width height)))) }
        ensures layout { mut_layout result
            ≡ padded_window (mut_layout self.entry) (window left top width height) }
        ensures fits { Fits (mut_layout result) }
        ensures view { mut_grid result
            ≡ window_view (mut_grid self.entry) (window left top width height) }
    {
        let window = Window {
            left,
            top,
            width,
            height,
        };
        let (buf, shape) = self.into_parts();
        let (cells, stretch, shape) = padded_stretch_mut(buf, shape, window);
        Img::from_stretch(cells, stretch, shape)
    }
}

impl<C: AsMutSlice> Img<C> {
    /// The image that is seen through a window, as for `window` of an `ImgRef`: with whole strides
    /// where the image has them (`padded_window`).
    ///
    /// # Requires
    ///
    /// The image fits (`is_valid`), and the window is inside it (`has_window`).
    pub fn window(&self, window: Window) -> ImgRef<'_, C::Item>
        requires fits { Fits (layout_by C.cells self.now) }
        requires inside { IsInside (width_of self.now) (height_of self.now) (as_window window) }
        ensures layout { ref_layout result
            ≡ padded_window (layout_by C.cells self.now) (as_window window) }
        ensures fits { Fits (ref_layout result) }
        ensures view { ref_grid result ≡ window_view (grid_by C.cells self.now) (as_window window) }
    {
        let (buf, shape) = padded_part(self.buf.as_slice(), self.shape(), window);
        Img::from_parts(buf, shape)
    }

    /// The same as `window`, for the window of `width` by `height` pixels with its corner at column
    /// `left` of row `top`.
    ///
    /// # Requires
    ///
    /// The image fits (`is_valid`), and the window is inside it (`has_window`).
    pub fn sub_image(
        &self,
        left: usize,
        top: usize,
        width: usize,
        height: usize,
    ) -> ImgRef<'_, C::Item>
        requires fits { Fits (layout_by C.cells self.now) }
        requires inside { IsInside (width_of self.now) (height_of self.now)
            (window left top width height) }
        ensures layout { ref_layout result
            ≡ padded_window (layout_by C.cells self.now) (window left top width height) }
        ensures fits { Fits (ref_layout result) }
        ensures view { ref_grid result
            ≡ window_view (grid_by C.cells self.now) (window left top width height) }
    {
        self.window(Window::new(left, top, width, height))
    }

    /// The whole image for reading, with its whole buffer. It need not fit.
    pub fn as_ref(&self) -> ImgRef<'_, C::Item>
        ensures { ref_layout result ≡ layout_by C.cells self.now }
    {
        Img::from_parts(self.buf.as_slice(), self.shape())
    }

    /// The whole image for writing, with its whole buffer. It need not fit. Once the borrow ends,
    /// the image has the cells that were left there.
    pub fn as_mut(&mut self) -> Img<&mut [C::Item]>
        ensures* hands_on { sem 𝓛 (follows (the_row C.row) (Array C.Item.row 0)
            self.entry.ghost_name (buf_of result).ghost_name
            (with_all C.cells C.with_cells self.old)) }
        ensures layout { mut_layout result ≡ layout_by C.cells self.old }
    {
        let (cells, shape) = self.all_parts_mut();
        Img::from_parts(cells, shape)
    }

    /// The image that is seen through a window, for writing, at the same stride.
    ///
    /// Its buffer begins at its first pixel. For an `ImgVec` it always ends at the last pixel
    /// (`exact_window`). For an `ImgRefMut` it has `height` whole strides where the image's cells
    /// reach so far (`padded_window`). The buffer of an empty window is empty. Once the borrow
    /// ends, only this stretch of the image's cells has changed, to what the window left there.
    /// So column x of row y of the window is column left + x of row top + y of the image.
    ///
    /// # Requires
    ///
    /// The image fits (`is_valid`), and the window is inside it (`has_window`).
    pub fn window_mut(&mut self, window: Window) -> Img<&mut [C::Item]>
        requires fits { Fits (layout_by C.cells self.old) }
        requires inside { IsInside (width_of self.old) (height_of self.old) (as_window window) }
        ensures* hands_on { sem 𝓛 (follows (the_row C.row) (Array C.Item.row 0)
            self.entry.ghost_name (buf_of result).ghost_name
            (with_window C.cells C.with_cells C.padded_windows self.old (as_window window))) }
        ensures layout { mut_layout result
            ≡ window_layout C.padded_windows (layout_by C.cells self.old) (as_window window) }
        ensures fits { Fits (mut_layout result) }
        ensures view { mut_grid result ≡ window_view (grid_by C.cells self.old) (as_window window) }
        ensures grid { WindowPatchesGrid C.cells C.with_cells C.padded_windows self.old
            (as_window window) (mut_layout result) }
        ensures outside { WindowKeepsOutside C.cells C.with_cells C.padded_windows self.old
            (as_window window) (mut_layout result) }
        ensures still_fits { WindowKeepsFit C.cells C.with_cells C.padded_windows self.old
            (as_window window) (mut_layout result) }
        ensures container { WindowKeepsContainer C.cells C.with_cells C.padded_windows self.old
            (as_window window) (mut_layout result) }
    {
        let (buf, shape) = self.window_parts_mut(window);
        Img::from_parts(buf, shape)
    }

    /// The same as `window_mut`, for the window of `width` by `height` pixels with its corner at
    /// column `left` of row `top`.
    ///
    /// # Requires
    ///
    /// The image fits (`is_valid`), and the window is inside it (`has_window`).
    pub fn sub_image_mut(
        &mut self,
        left: usize,
        top: usize,
        width: usize,
        height: usize,
    ) -> Img<&mut [C::Item]>
        requires fits { Fits (layout_by C.cells self.old) }
        requires inside { IsInside (width_of self.old) (height_of self.old)
            (window left top width height) }
        ensures* hands_on { sem 𝓛 (follows (the_row C.row) (Array C.Item.row 0)
            self.entry.ghost_name (buf_of result).ghost_name (with_window C.cells C.with_cells
            C.padded_windows self.old (window left top width height))) }
        ensures layout { mut_layout result ≡ window_layout C.padded_windows
            (layout_by C.cells self.old) (window left top width height) }
        ensures fits { Fits (mut_layout result) }
        ensures view { mut_grid result
            ≡ window_view (grid_by C.cells self.old) (window left top width height) }
        ensures grid { WindowPatchesGrid C.cells C.with_cells C.padded_windows self.old
            (window left top width height) (mut_layout result) }
        ensures outside { WindowKeepsOutside C.cells C.with_cells C.padded_windows self.old
            (window left top width height) (mut_layout result) }
        ensures still_fits { WindowKeepsFit C.cells C.with_cells C.padded_windows self.old
            (window left top width height) (mut_layout result) }
        ensures container { WindowKeepsContainer C.cells C.with_cells C.padded_windows self.old
            (window left top width height) (mut_layout result) }
    {
        self.window_mut(Window::new(left, top, width, height))
    }

    /// The cells and the shape of the window that `window_mut` returns; `from_parts` makes the
    /// window from them.
    ///
    /// Use it where a proof has to know what is written through the window; otherwise use
    /// `window_mut`. Pass the cells to a function that makes the image from them. A generated proof
    /// follows the borrow of cells, and not the one of a returned image.
    ///
    /// # Requires
    ///
    /// The image fits (`is_valid`), and the window is inside it (`has_window`).
    pub fn window_parts_mut(&mut self, window: Window) -> (&mut [C::Item], Shape)
        requires fits { Fits (layout_by C.cells self.old) }
        requires inside { IsInside (width_of self.old) (height_of self.old) (as_window window) }
        ensures* hands_on { sem 𝓛 (follows (the_row C.row)
            (Array C.Item.row 0) self.entry.ghost_name result.0.ghost_name
            (with_window C.cells C.with_cells C.padded_windows self.old (as_window window))) }
        ensures layout { shaped result.0.now result.1
            ≡ window_layout C.padded_windows (layout_by C.cells self.old) (as_window window) }
        ensures fits { Fits (shaped result.0.now result.1) }
        ensures view { shaped_grid result.0.now result.1
            ≡ window_view (grid_by C.cells self.old) (as_window window) }
        ensures width { shape_width result.1 ≡ window.width }
        ensures height { shape_height result.1 ≡ window.height }
        ensures holds_width { width_of self.old ≤ stride_of self.old }
        ensures grid { WindowPatchesGrid C.cells C.with_cells C.padded_windows self.old
            (as_window window) (shaped result.0.now result.1) }
        ensures outside { WindowKeepsOutside C.cells C.with_cells C.padded_windows self.old
            (as_window window) (shaped result.0.now result.1) }
        ensures still_fits { WindowKeepsFit C.cells C.with_cells C.padded_windows self.old
            (as_window window) (shaped result.0.now result.1) }
        ensures container { WindowKeepsContainer C.cells C.with_cells C.padded_windows self.old
            (as_window window) (shaped result.0.now result.1) }
    {
        let len = self.buf.as_slice().len();
        let whole = self.shape();
        let part = whole.stretch(C::has_padded_windows(), len, window);
        let shape = whole.window(window);
        let cells = self.buf.stretch_mut(part.start, part.len);
        (cells, shape)
    }
}
