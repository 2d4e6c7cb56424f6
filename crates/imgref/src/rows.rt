//! The rows of an image, from either end.

ghost use Rattle.std.specs.Prelude.{◌≡◌};
ghost use Rattle.std.specs.Borrow.{sem, follows, Array};
ghost use Rattle.image_model.specs.Layout.{Fits};
ghost use Rattle.image_rows.specs.Rows.{refs_left, muts_left, cells_left, spacing_left, rows_name, AreRows};
ghost use Rattle.image_shape.specs.Spacing.{whole_spacing};
ghost use Rattle.imgref.specs.contracts.img.Img.{the_row};
ghost use Rattle.imgref.specs.Image.{buf_of, width_of, height_of, stride_of, layout_by, with_all, ref_layout};

use crate::containers::{AsMutSlice, AsSlice};
use crate::img::Img;
use image_rows::{RowsIter, RowsIterMut};

impl<'s, T> Img<&'s [T]> {
    /// The rows from top to bottom, or from bottom to top: `height` slices of `width` pixels, and
    /// none at width 0.
    ///
    /// # Requires
    ///
    /// The image fits: `is_valid`.
    pub fn rows(&self) -> RowsIter<'s, T>
        requires fits { Fits (ref_layout self.now) }
        ensures whole { AreRows (ref_layout self.now) (refs_left result) }
    {
        RowsIter::new(self.buf, self.shape())
    }
}

impl<C: AsMutSlice> Img<C> {
    /// The rows from top to bottom, or from bottom to top: `height` slices of `width` pixels, and
    /// none at width 0.
    ///
    /// # Requires
    ///
    /// The image fits: `is_valid`.
    pub fn rows(&self) -> RowsIter<'_, C::Item>
        requires fits { Fits (layout_by C.cells self.now) }
        ensures whole { AreRows (layout_by C.cells self.now) (refs_left result) }
    {
        RowsIter::new(self.buf.as_slice(), self.shape())
    }

    /// The rows for writing, from top to bottom, or from bottom to top: `height` slices of `width`
    /// pixels, and none at width 0.
    ///
    /// Once the borrow ends, the image has the cells that the iterator and its rows left.
    ///
    /// # Requires
    ///
    /// The image fits: `is_valid`.
    pub fn rows_mut(&mut self) -> RowsIterMut<'_, C::Item>
        requires fits { Fits (layout_by C.cells self.old) }
        ensures* writes_back { sem 𝓛 (follows (the_row C.row) (Array C.Item.row 0)
            self.entry.ghost_name (rows_name result) (with_all C.cells C.with_cells self.old)) }
        ensures cells { cells_left result ≡ C.cells (buf_of self.old) }
        ensures spacing { spacing_left result
            ≡ whole_spacing (width_of self.old) (height_of self.old) (stride_of self.old) }
        ensures whole { AreRows (layout_by C.cells self.old) (muts_left result) }
    {
        let (cells, shape) = self.all_parts_mut();
        RowsIterMut::new(cells, shape)
    }
}
