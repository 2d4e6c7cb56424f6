//! A width, a height and a stride.

ghost use Rattle.std.specs.Prelude.{◌≡◌, ◌+◌, ◌-◌, ◌*◌, ◌/◌, ◌^◌, ◌≤◌, ◌<◌, ◌↔◌, IsTrue, IfSome};
ghost use Rattle.std.specs.Option.{is_some};
ghost use Rattle.image_model.specs.Compaction.{least_stride};
ghost use Rattle.image_model.specs.Layout.{Reaches};
ghost use Rattle.image_model.specs.Rows.{row_count};
ghost use Rattle.image_model.specs.Windows.{IsInside, IsWithin, exact_stretch, window, window_start, window_stretch};
ghost use Rattle.image_shape.specs.Window.{as_window, as_stretch};

use crate::window::{Stretch, Window};

/// The width and the height of an image in pixels, and its stride. The stride is the number of
/// cells from the start of a row to the start of the next one.
///
/// The stride is at least 1 and at least the width, and the width and the height are at most
/// `u32::MAX`.
#[derive(Clone, Copy, PartialEq, Eq)]
pub struct Shape {
    width: u32,
    height: u32,
    stride: usize,
    ghost stride_positive: { 1 ≤ stride },
    ghost holds_width: { width ≤ stride },
}

impl Shape {
    // These name the type itself, whose ghost fields are declared above.
    ghost use Rattle.image_shape.specs.Shape.{shape_width, shape_height, shape_stride, is_shape};

    /// The shape of `width` by `height` pixels whose rows begin `stride` cells apart.
    ///
    /// # Requires
    ///
    /// There is such a shape: `checked` tests it.
    pub fn new(width: usize, height: usize, stride: usize) -> Shape
        requires stride_positive { 1 ≤ stride }
        requires holds_width { width ≤ stride }
        requires width_bound { width < 2 ^ 32 }
        requires height_bound { height < 2 ^ 32 }
        ensures width { shape_width result ≡ width }
        ensures height { shape_height result ≡ height }
        ensures stride { shape_stride result ≡ stride }
    {
        Shape {
            width: width as u32,
            height: height as u32,
            stride,
        }
    }

    /// The same shape where there is one. `None` where the stride is 0 or less than the width, or
    /// where the width or the height is greater than `u32::MAX`.
    pub fn checked(width: usize, height: usize, stride: usize) -> Option<Shape>
        ensures exists { is_some result ≡ is_shape width height stride }
        ensures width { IfSome result (λ shape. shape_width shape ≡ width) }
        ensures height { IfSome result (λ shape. shape_height shape ≡ height) }
        ensures stride { IfSome result (λ shape. shape_stride shape ≡ stride) }
    {
        let greatest = u32::MAX as usize;
        if stride == 0 || width > stride || width > greatest || height > greatest {
            return None;
        }
        Some(Shape::new(width, height, stride))
    }

    /// The number of pixels in a row.
    pub fn width(&self) -> usize
        ensures value { result ≡ shape_width self.now }
        ensures holds_width { shape_width self.now ≤ shape_stride self.now }
        ensures bound { shape_width self.now < 2 ^ 32 }
    {
        self.width as usize
    }

    /// The number of rows.
    pub fn height(&self) -> usize
        ensures value { result ≡ shape_height self.now }
        ensures bound { shape_height self.now < 2 ^ 32 }
    {
        self.height as usize
    }

    /// The number of cells from the start of a row to the start of the next one.
    pub fn stride(&self) -> usize
        ensures value { result ≡ shape_stride self.now }
        ensures positive { 1 ≤ shape_stride self.now }
        ensures holds_width { shape_width self.now ≤ shape_stride self.now }
        ensures bound { shape_stride self.now < 2 ^ 64 }
    {
        self.stride
    }

    /// The number of cells between the end of a row and the start of the next one.
    pub fn padding(&self) -> usize
        ensures value { result ≡ shape_stride self.now - shape_width self.now }
        ensures holds_width { shape_width self.now ≤ shape_stride self.now }
    {
        let stride = self.stride;
        stride - self.width as usize
    }

    /// The number of rows that have a pixel: 0 where there is no column.
    pub fn row_count(&self) -> usize
        ensures value { result ≡ row_count (shape_width self.now) (shape_height self.now) }
        ensures bound { row_count (shape_width self.now) (shape_height self.now) < 2 ^ 32 }
    {
        match self.width {
            0 => 0,
            _ => self.height as usize,
        }
    }

    /// The number of pixels.
    pub fn pixel_count(&self) -> usize
        ensures { result ≡ shape_width self.now * shape_height self.now }
    {
        self.width() * self.height()
    }

    /// The same size at the least stride, without padding between the rows.
    pub fn packed(&self) -> Shape
        ensures width { shape_width result ≡ shape_width self.now }
        ensures height { shape_height result ≡ shape_height self.now }
        ensures stride { shape_stride result ≡ least_stride (shape_width self.now) }
    {
        Shape {
            width: self.width,
            height: self.height,
            stride: (self.width as usize).max(1),
        }
    }

    /// How many cells so many whole rows take, with their padding. This is where the row below them
    /// begins.
    pub fn cells_of_rows(rows: usize, stride: usize) -> usize
        requires counts { rows * stride < 2 ^ 64 }
        ensures value { result ≡ rows * stride }
    {
        rows * stride
    }

    /// How many whole rows, with their padding, so many cells have.
    pub fn whole_rows(&self, cells: usize) -> usize
        ensures value { result ≡ cells / shape_stride self.now }
    {
        let stride = self.stride;
        cells / stride
    }

    /// The number of the cell in column `x` of row `y`. It may be padding, or below the last row.
    pub fn cell(&self, x: usize, y: usize) -> usize
        requires counts { y * shape_stride self.now + x < 2 ^ 64 }
        ensures value { result ≡ y * shape_stride self.now + x }
    {
        Shape::cells_of_rows(y, self.stride) + x
    }

    /// The number of cells from the first pixel to the last.
    pub fn reach(&self) -> usize
        requires some { 0 < shape_height self.now }
        requires counts { shape_stride self.now * (shape_height self.now - 1)
            + shape_width self.now < 2 ^ 64 }
        ensures value { result
            ≡ shape_stride self.now * (shape_height self.now - 1) + shape_width self.now }
    {
        Shape::cells_of_rows(self.height as usize - 1, self.stride) + self.width as usize
    }

    /// The cells of row `y`, of `cells` cells that fit. The row has a pixel, so the number of its
    /// first cell can't overflow.
    pub fn row(&self, cells: usize, y: usize) -> Stretch
        requires below { y < row_count (shape_width self.now) (shape_height self.now) }
        requires fits { Reaches cells (shape_width self.now) (shape_height self.now)
            (shape_stride self.now) }
        ensures start { result.start ≡ y * shape_stride self.now }
        ensures len { result.len ≡ shape_width self.now }
        ensures inside { y * shape_stride self.now + shape_width self.now ≤ cells }
        ensures holds_width { shape_width self.now ≤ shape_stride self.now }
    {
        let _cells = cells;
        Stretch {
            start: Shape::cells_of_rows(y, self.stride),
            len: self.width as usize,
        }
    }

    /// The row above this one, which isn't the first.
    pub fn row_above(&self, row: Stretch) -> Stretch
        requires later { shape_stride self.now ≤ row.start }
        ensures start { result.start ≡ row.start - shape_stride self.now }
        ensures len { result.len ≡ row.len }
    {
        let stride = self.stride;
        Stretch {
            start: row.start - stride,
            len: row.len,
        }
    }

    /// The cells of row `y`, of `cells` cells that fit. Without a column this is the empty stretch
    /// at the first cell, since the number where the row would begin could overflow.
    pub fn any_row(&self, cells: usize, y: usize) -> Stretch
        requires below { y < shape_height self.now }
        requires fits { Reaches cells (shape_width self.now) (shape_height self.now)
            (shape_stride self.now) }
        ensures start { result.start
            ≡ window_start (shape_stride self.now) (window 0 y (shape_width self.now) 1) }
        ensures len { result.len ≡ shape_width self.now }
        ensures inside { result.start + result.len ≤ cells }
    {
        match self.width {
            0 => Stretch { start: 0, len: 0 },
            _ => self.row(cells, y),
        }
    }

    /// Whether so many cells reach the last pixel, or there is no pixel at all.
    pub fn fits(&self, cells: usize) -> bool
        ensures { IsTrue result
            ↔ Reaches cells (shape_width self.now) (shape_height self.now) (shape_stride self.now) }
    {
        if self.width == 0 || self.height == 0 {
            return true;
        }
        match self.stride.checked_mul(self.height as usize - 1) {
            Some(last_row) => last_row <= cells && self.width as usize <= cells - last_row,
            None => false,
        }
    }

    /// Whether the window is inside. Empty windows at the right and the lower edge are.
    #[tactic(auto, using(image_model::proofs::Windows::is_inside_decides))]
    pub fn has_window(&self, window: Window) -> bool
        ensures { IsTrue result
            ↔ IsInside (shape_width self.now) (shape_height self.now) (as_window window) }
    {
        window.is_inside(self.width as usize, self.height as usize)
    }

    /// The shape of a window that is inside: its size at this stride.
    pub fn window(&self, window: Window) -> Shape
        requires inside { IsInside (shape_width self.now)
            (shape_height self.now) (as_window window) }
        ensures width { shape_width result ≡ window.width }
        ensures height { shape_height result ≡ window.height }
        ensures stride { shape_stride result ≡ shape_stride self.now }
    {
        let _width = self.width;
        let _height = self.height;
        Shape {
            width: window.width as u32,
            height: window.height as u32,
            stride: self.stride,
        }
    }

    /// The stretch of a window that is inside, of `cells` cells that fit. It has whole strides
    /// where `padded` asks for them and the cells have them, and otherwise ends at the window's
    /// last pixel. The stretch of an empty window is empty.
    pub fn stretch(&self, padded: bool, cells: usize, window: Window) -> Stretch
        requires fits { Reaches cells (shape_width self.now) (shape_height self.now)
            (shape_stride self.now) }
        requires inside { IsInside (shape_width self.now)
            (shape_height self.now) (as_window window) }
        ensures value { as_stretch result
            ≡ window_stretch padded cells (shape_stride self.now) (as_window window) }
        ensures inside { IsWithin cells (as_stretch result) }
        ensures holds_width { shape_width self.now ≤ shape_stride self.now }
    {
        self.stretch_within(padded, cells, window)
    }

    // That stretch. Its exact one lies within the cells.
    fn stretch_within(&self, padded: bool, cells: usize, window: Window) -> Stretch
        requires inside { IsInside (shape_width self.now)
            (shape_height self.now) (as_window window) }
        requires room { IsWithin cells (exact_stretch (shape_stride self.now) (as_window window)) }
        ensures value { as_stretch result
            ≡ window_stretch padded cells (shape_stride self.now) (as_window window) }
        ensures inside { IsWithin cells (as_stretch result) }
    {
        // No corner is computed of an empty window: the product might not fit.
        if window.width == 0 || window.height == 0 {
            return Stretch { start: 0, len: 0 };
        }
        let own = self.window(window);
        let start = self.cell(window.left, window.top);
        let exact = own.reach();
        let spare = self.stride - window.width;
        let len = if padded && cells - start - exact >= spare {
            exact + spare
        } else {
            exact
        };
        Stretch { start, len }
    }
}
