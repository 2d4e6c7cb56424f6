//! The number of pixels that pass a test.

ghost use Rattle.image_model.specs.Layout.{Fits};
ghost use Rattle.image_model.specs.Rows.{grid_pixels};
ghost use Rattle.image_ops.specs.Counting.{IsCount};
ghost use Rattle.imgref.specs.Image.{grid_by, layout_by};

use crate::containers::AsSlice;
use crate::img::Img;
use image_ops::count_pixels;

impl<C: AsSlice> Img<C> {
    /// The number of pixels for which `f` returns true. `f` is called row by row and from left to
    /// right, and never with padding.
    ///
    /// # Requires
    ///
    /// The image fits (`is_valid`), and `f` may be called with every pixel.
    pub fn count_where<F: Fn(&C::Item) -> bool>(&self, f: F) -> usize
        requires fits { Fits (layout_by C.cells self.now) }
        requires callable { F.IsAlwaysCallable f }
        ensures count { IsCount (F.post f) (grid_pixels (grid_by C.cells self.now)) result }
    {
        count_pixels(self.buf.as_slice(), self.shape(), &f)
    }
}
