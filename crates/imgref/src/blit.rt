//! Calls that copy pixels: from another image, from one window of an image to another, and between
//! two rows.

ghost use Rattle.std.specs.Prelude.{◌≡◌, ◌<◌};
ghost use Rattle.image_model.specs.Layout.{Fits, SameOutside};
ghost use Rattle.image_model.specs.Grid.{view, patch};
ghost use Rattle.image_model.specs.Swaps.{rows_swapped};
ghost use Rattle.image_model.specs.Windows.{IsInside, window, window_view};
ghost use Rattle.image_shape.specs.Window.{as_window};
ghost use Rattle.imgref.specs.Image.{width_of, height_of, grid_by, layout_by, OnlyCellsChange, ref_grid, ref_layout};

use crate::containers::AsMutSlice;
use crate::img::{Img, ImgRef};
use image_ops::{copy_pixels, copy_window};
use image_shape::Window;
use image_turns::swap_rows;
use row_mover::move_pixels;

impl<C: AsMutSlice> Img<C> {
    /// Every pixel becomes the pixel of `source` at its place; the padding stays. The two strides
    /// may differ. (In the Rust crate this is the caller's loop over rows.)
    ///
    /// # Requires
    ///
    /// Both images fit (`is_valid`) and have the same size (`width`, `height`).
    pub fn copy_from<'a>(&'a mut self, source: ImgRef<'_, C::Item>)
    where
        C::Item: Copy + 'a,
        requires fits { Fits (layout_by C.cells self.old) }
        requires source_fits { Fits (ref_layout source) }
        requires same_width { width_of source ≡ width_of self.old }
        requires same_height { height_of source ≡ height_of self.old }
        ensures grid { grid_by C.cells self.new ≡ ref_grid source.entry }
        ensures outside { SameOutside (layout_by C.cells self.old) (layout_by C.cells self.new) }
        ensures fits { Fits (layout_by C.cells self.new) }
        ensures container { OnlyCellsChange C.cells C.with_cells self.old self.new }
    {
        let (cells, shape) = self.all_parts_mut();
        copy_pixels(cells, shape, source.buf, source.shape());
    }

    /// The window with its corner at column `left` of row `top` and the size of `source` gets the
    /// pixels of `source`; every other cell stays.
    ///
    /// # Requires
    ///
    /// Both images fit (`is_valid`), and the window is inside this one (`has_window`).
    pub fn copy_window<'a>(&'a mut self, left: usize, top: usize, source: ImgRef<'_, C::Item>)
    where
        C::Item: Copy + 'a,
        requires fits { Fits (layout_by C.cells self.old) }
        requires source_fits { Fits (ref_layout source) }
        requires inside { IsInside (width_of self.old) (height_of self.old)
            (window left top (width_of source) (height_of source)) }
        ensures grid { grid_by C.cells self.new
            ≡ patch (grid_by C.cells self.old) left top (ref_grid source.entry) }
        ensures outside { SameOutside (layout_by C.cells self.old) (layout_by C.cells self.new) }
        ensures fits { Fits (layout_by C.cells self.new) }
        ensures container { OnlyCellsChange C.cells C.with_cells self.old self.new }
    {
        let window = Window::new(left, top, source.width(), source.height());
        let (cells, shape) = self.all_parts_mut();
        copy_window(cells, shape, window, source.buf, source.shape());
    }

    /// The window with the size of `source` and its corner at column `left` of row `top` gets the
    /// old pixels of `source`. The two may overlap, and every other cell stays. No memory is
    /// allocated: the rows are moved within the buffer.
    ///
    /// # Requires
    ///
    /// The image fits (`is_valid`), and both windows are inside it (`has_window`).
    pub fn move_inside<'a>(&'a mut self, source: Window, left: usize, top: usize)
    where
        C::Item: Copy + 'a,
        requires fits { Fits (layout_by C.cells self.old) }
        requires source_inside { IsInside (width_of self.old)
            (height_of self.old) (as_window source) }
        requires target_inside { IsInside (width_of self.old) (height_of self.old)
            (window left top source.width source.height) }
        ensures grid { grid_by C.cells self.new ≡ patch (grid_by C.cells self.old) left top
            (window_view (grid_by C.cells self.old) (as_window source)) }
        ensures outside { SameOutside (layout_by C.cells self.old) (layout_by C.cells self.new) }
        ensures fits { Fits (layout_by C.cells self.new) }
        ensures container { OnlyCellsChange C.cells C.with_cells self.old self.new }
    {
        let target = Window::new(left, top, source.width, source.height);
        let (cells, shape) = self.all_parts_mut();
        move_pixels(cells, shape, source, target);
    }

    /// One window gets the old pixels of another. Both have `width` by `height` pixels. The corner
    /// of the one that is read is at column `from_left` of row `from_top`. That of the one that is
    /// written is at column `to_left` of row `to_top`. The two may overlap, and every other cell
    /// stays. No memory is allocated: the rows are moved within the buffer.
    ///
    /// # Requires
    ///
    /// The image fits (`is_valid`), and both windows are inside it (`has_window`).
    pub fn move_window<'a>(
        &'a mut self,
        from_left: usize,
        from_top: usize,
        to_left: usize,
        to_top: usize,
        width: usize,
        height: usize,
    )
    where
        C::Item: Copy + 'a,
        requires fits { Fits (layout_by C.cells self.old) }
        requires source_inside { IsInside (width_of self.old) (height_of self.old)
            (window from_left from_top width height) }
        requires target_inside { IsInside (width_of self.old) (height_of self.old)
            (window to_left to_top width height) }
        ensures grid { grid_by C.cells self.new ≡ patch (grid_by C.cells self.old) to_left to_top
            (view (grid_by C.cells self.old) from_left from_top width height) }
        ensures outside { SameOutside (layout_by C.cells self.old) (layout_by C.cells self.new) }
        ensures fits { Fits (layout_by C.cells self.new) }
        ensures container { OnlyCellsChange C.cells C.with_cells self.old self.new }
    {
        self.move_inside(
            Window::new(from_left, from_top, width, height),
            to_left,
            to_top,
        );
    }

    /// Rows `y` and `z` are exchanged, and the padding stays. No memory is allocated: pixels are
    /// swapped within the buffer. (In the Rust crate this is the caller's `split_at_mut`.)
    ///
    /// # Requires
    ///
    /// The image fits (`is_valid`), and both `y` and `z` are below `height()`.
    pub fn swap_rows(&mut self, y: usize, z: usize)
        requires fits { Fits (layout_by C.cells self.old) }
        requires first { y < height_of self.old }
        requires second { z < height_of self.old }
        ensures grid { grid_by C.cells self.new ≡ rows_swapped y z (grid_by C.cells self.old) }
        ensures outside { SameOutside (layout_by C.cells self.old) (layout_by C.cells self.new) }
        ensures fits { Fits (layout_by C.cells self.new) }
        ensures container { OnlyCellsChange C.cells C.with_cells self.old self.new }
    {
        let (cells, shape) = self.all_parts_mut();
        swap_rows(cells, shape, y, z);
    }
}
