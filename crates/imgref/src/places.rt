//! Pixels by their places. Calls read the pixel at a place, or write one value at a place, in a row
//! or in a window. One makes a mosaic of a window.

ghost use Rattle.std.specs.Prelude.{◌≡◌, ◌<◌, IsSome};
ghost use Rattle.image_model.specs.Layout.{Fits, SameOutside};
ghost use Rattle.image_model.specs.Grid.{grid_of, patch, uniform};
ghost use Rattle.image_model.specs.Windows.{IsInside, window, window_view};
ghost use Rattle.image_writes.specs.Mosaic.{mosaic};
ghost use Rattle.image_shape.specs.Window.{as_window};
ghost use Rattle.imgref.specs.Image.{width_of, height_of, grid_by, layout_by, OnlyCellsChange};

use crate::containers::{AsMutSlice, AsSlice};
use crate::img::Img;
use image_ops::{fill_window, mosaic_window};
use image_shape::Window;

impl<C: AsSlice> Img<C> {
    /// The pixel at column `x` of row `y`, or `None` where the image has no such place. Each call
    /// tests the place. In a loop compare the size once, and write `image[(x, y)]`, which tests
    /// nothing.
    ///
    /// # Requires
    ///
    /// The image fits: `is_valid`.
    #[tactic(auto, unfolding(image_model::specs::Grid::grid_of))]
    pub fn get(&self, x: usize, y: usize) -> Option<C::Item>
    where
        C::Item: Copy,
        requires fits { Fits (layout_by C.cells self.now) }
        ensures pixel { result ≡ (grid_by C.cells self.now).pixel x y }
        ensures inside { x < width_of self.now → y < height_of self.now → IsSome result }
    {
        if x < self.width() && y < self.height() {
            Some(self[(x, y)])
        } else {
            None
        }
    }
}

impl<C: AsMutSlice> Img<C> {
    /// The pixel at column `x` of row `y` becomes `value`; every other cell stays.
    ///
    /// # Requires
    ///
    /// The image fits (`is_valid`), `x` is below `width()` and `y` below `height()`.
    pub fn put<'a>(&'a mut self, x: usize, y: usize, value: C::Item)
    where
        C::Item: Copy + 'a,
        requires fits { Fits (layout_by C.cells self.old) }
        requires column { x < width_of self.old }
        requires row { y < height_of self.old }
        ensures grid { grid_by C.cells self.new
            ≡ patch (grid_by C.cells self.old) x y (uniform 1 1 value) }
        ensures outside { SameOutside (layout_by C.cells self.old) (layout_by C.cells self.new) }
        ensures fits { Fits (layout_by C.cells self.new) }
        ensures container { OnlyCellsChange C.cells C.with_cells self.old self.new }
    {
        self[(x, y)] = value;
    }

    /// Every pixel inside a window becomes `value`; every other cell stays.
    ///
    /// # Requires
    ///
    /// The image fits (`is_valid`), and the window is inside it (`has_window`).
    pub fn fill_inside<'a>(&'a mut self, window: Window, value: C::Item)
    where
        C::Item: Copy + 'a,
        requires fits { Fits (layout_by C.cells self.old) }
        requires inside { IsInside (width_of self.old) (height_of self.old) (as_window window) }
        ensures grid { grid_by C.cells self.new ≡ patch (grid_by C.cells self.old)
            window.left window.top (uniform window.width window.height value) }
        ensures outside { SameOutside (layout_by C.cells self.old) (layout_by C.cells self.new) }
        ensures fits { Fits (layout_by C.cells self.new) }
        ensures container { OnlyCellsChange C.cells C.with_cells self.old self.new }
    {
        let (cells, shape) = self.all_parts_mut();
        fill_window(cells, shape, window, value);
    }

    /// Writes, at every place of a window, the old pixel at the corner of the place's tile; every
    /// other cell stays. The tiles of `tile_width` by `tile_height` pixels are counted from the
    /// window's corner; at its right and lower edge they are cut off. No memory is allocated. (The
    /// Rust crate has no such call.)
    ///
    /// # Requires
    ///
    /// The image fits (`is_valid`), the window is inside it (`has_window`), and `tile_width` and
    /// `tile_height` are positive.
    pub fn mosaic_inside<'a>(&'a mut self, window: Window, tile_width: usize, tile_height: usize)
    where
        C::Item: Copy + 'a,
        requires fits { Fits (layout_by C.cells self.old) }
        requires inside { IsInside (width_of self.old) (height_of self.old) (as_window window) }
        requires tile_width { 0 < tile_width }
        requires tile_height { 0 < tile_height }
        ensures grid { grid_by C.cells self.new ≡ patch (grid_by C.cells self.old)
            window.left window.top (mosaic tile_width tile_height
            (window_view (grid_by C.cells self.old) (as_window window))) }
        ensures outside { SameOutside (layout_by C.cells self.old) (layout_by C.cells self.new) }
        ensures fits { Fits (layout_by C.cells self.new) }
        ensures container { OnlyCellsChange C.cells C.with_cells self.old self.new }
    {
        let (cells, shape) = self.all_parts_mut();
        mosaic_window(cells, shape, window, tile_width, tile_height);
    }

    /// Every pixel of the window of `width` by `height` pixels with its corner at column `left` of
    /// row `top` becomes `value`; every other cell stays.
    ///
    /// # Requires
    ///
    /// The image fits (`is_valid`), and the window is inside it (`has_window`).
    pub fn fill_window<'a>(
        &'a mut self,
        left: usize,
        top: usize,
        width: usize,
        height: usize,
        value: C::Item,
    )
    where
        C::Item: Copy + 'a,
        requires fits { Fits (layout_by C.cells self.old) }
        requires inside { IsInside (width_of self.old) (height_of self.old)
            (window left top width height) }
        ensures grid { grid_by C.cells self.new
            ≡ patch (grid_by C.cells self.old) left top (uniform width height value) }
        ensures outside { SameOutside (layout_by C.cells self.old) (layout_by C.cells self.new) }
        ensures fits { Fits (layout_by C.cells self.new) }
        ensures container { OnlyCellsChange C.cells C.with_cells self.old self.new }
    {
        self.fill_inside(Window::new(left, top, width, height), value);
    }

    /// Every pixel of row `y` becomes `value`; every other cell stays.
    ///
    /// # Requires
    ///
    /// The image fits (`is_valid`), and `y` is below `height()`.
    pub fn fill_row<'a>(&'a mut self, y: usize, value: C::Item)
    where
        C::Item: Copy + 'a,
        requires fits { Fits (layout_by C.cells self.old) }
        requires row { y < height_of self.old }
        ensures grid { grid_by C.cells self.new
            ≡ patch (grid_by C.cells self.old) 0 y (uniform (width_of self.old) 1 value) }
        ensures outside { SameOutside (layout_by C.cells self.old) (layout_by C.cells self.new) }
        ensures fits { Fits (layout_by C.cells self.new) }
        ensures container { OnlyCellsChange C.cells C.with_cells self.old self.new }
    {
        let width = self.width();
        self.fill_inside(Window::new(0, y, width, 1), value);
    }
}
