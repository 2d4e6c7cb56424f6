//! Windows and stretches, as values.

ghost use Rattle.std.specs.Prelude.{◌≡◌, ◌+◌, ◌^◌, ◌≤◌, ◌<◌};
ghost use Rattle.image_model.specs.Windows.{window, is_inside, IsWithin, stretch_within};

use std::ops::Range;

/// A window of an image or of another window: its corner and its size, in pixels. C sees it with
/// this layout.
#[repr(C)]
#[derive(Clone, Copy, PartialEq, Eq)]
pub struct Window {
    /// The column of its corner.
    pub left: usize,
    /// The row of its corner.
    pub top: usize,
    /// The number of its columns.
    pub width: usize,
    /// The number of its rows.
    pub height: usize,
}

/// Some cells of a list, one after the other.
#[derive(Clone, Copy, PartialEq, Eq)]
pub struct Stretch {
    /// The number of the first cell.
    pub start: usize,
    /// The number of cells.
    pub len: usize,
}

impl Window {
    ghost use Rattle.image_shape.specs.Window.{as_window};

    /// The window of `width` by `height` pixels with its corner at column `left` of row `top`.
    pub const fn new(left: usize, top: usize, width: usize, height: usize) -> Window
        ensures { as_window result ≡ window left top width height }
    {
        Window {
            left,
            top,
            width,
            height,
        }
    }

    /// Whether it is inside this size. Empty windows at the right and the lower edge are.
    pub fn is_inside(&self, width: usize, height: usize) -> bool
        ensures { result ≡ is_inside width height (as_window self.now) }
    {
        self.left <= width
            && self.width <= width - self.left
            && self.top <= height
            && self.height <= height - self.top
    }

    /// The column and the row of a pixel of this window, counted in the window's parent. The pixel
    /// is at column `x` of row `y` of this window.
    pub fn place(&self, x: usize, y: usize) -> (usize, usize)
        requires column_counts { self.now.left + x < 2 ^ 64 }
        requires row_counts { self.now.top + y < 2 ^ 64 }
        ensures column { result.0 ≡ self.now.left + x }
        ensures row { result.1 ≡ self.now.top + y }
    {
        (self.left + x, self.top + y)
    }

    /// A window of this window, as a window of this window's parent.
    pub fn nested(&self, inner: Window) -> Window
        requires column_counts { self.now.left + inner.left < 2 ^ 64 }
        requires row_counts { self.now.top + inner.top < 2 ^ 64 }
        ensures { as_window result ≡ window (self.now.left + inner.left) (self.now.top + inner.top)
            inner.width inner.height }
    {
        let (left, top) = self.place(inner.left, inner.top);
        Window::new(left, top, inner.width, inner.height)
    }
}

impl Stretch {
    ghost use Rattle.image_shape.specs.Window.{as_stretch};

    /// The numbers of its cells, as a range that takes them from a slice.
    pub fn range(&self) -> Range<usize>
        requires counts { self.now.start + self.now.len < 2 ^ 64 }
        ensures start { result.start ≡ self.now.start }
        ensures end { result.end ≡ self.now.start + self.now.len }
    {
        self.start..self.start + self.len
    }

    /// A stretch of this stretch's cells, as a stretch of all cells.
    pub fn nested(&self, inner: Stretch) -> Stretch
        requires room { IsWithin self.now.len (as_stretch inner) }
        requires counts { self.now.start + self.now.len < 2 ^ 64 }
        ensures value { as_stretch result
            ≡ stretch_within (as_stretch self.now) (as_stretch inner) }
        ensures inside { result.start + result.len ≤ self.now.start + self.now.len }
    {
        Stretch {
            start: self.start + inner.start,
            len: inner.len,
        }
    }
}
