//! The pixels of an image, one by one.

ghost use Rattle.std.specs.Prelude.{◌≡◌};
ghost use Rattle.std.specs.Borrow.{sem, follows, Array};
ghost use Rattle.std.specs.Iterator.{YieldsFirst, YieldsFirstRef};
ghost use Rattle.std.specs.Iterator.Runs.{YieldsInOrder, YieldsRefsInOrder};
ghost use Rattle.image_model.specs.Layout.{Fits, SameOutside};
ghost use Rattle.image_model.specs.Grid.{uniform};
ghost use Rattle.image_model.specs.Mapped.{HasAnswers, IsMapped};
ghost use Rattle.image_pixels.specs.Pixels.{refs_left, copies_left, ArePixels};
ghost use Rattle.imgref.specs.Image.{buf_of, width_of, height_of, grid_by, layout_by, OnlyCellsChange, with_all, ref_layout};

use crate::containers::{AsMutSlice, AsSlice};
use crate::img::Img;
use image_ops::{fill_pixels, map_pixels};
use image_pixels::{PixelsIter, PixelsIterMut, PixelsRefIter};
use image_shape::Shape;

impl<'s, T> Img<&'s [T]> {
    /// References to the pixels, row by row and from left to right: `width` times `height` of them,
    /// without the padding.
    ///
    /// # Requires
    ///
    /// The image fits: `is_valid`.
    pub fn pixels_ref(&self) -> PixelsRefIter<'s, T>
        requires fits { Fits (ref_layout self.now) }
        ensures whole { ArePixels (ref_layout self.now) (refs_left result) }
        ensures runs { YieldsRefsInOrder (YieldsFirstRef (refs_left {T = T})) refs_left }
    {
        PixelsRefIter::new(self.buf, self.shape())
    }
}

impl<'s, T: Copy> Img<&'s [T]> {
    /// Copies of the pixels, row by row and from left to right: `width` times `height` of them,
    /// without the padding.
    ///
    /// # Requires
    ///
    /// The image fits: `is_valid`.
    pub fn pixels(&self) -> PixelsIter<'s, T>
        requires fits { Fits (ref_layout self.now) }
        ensures whole { ArePixels (ref_layout self.now) (copies_left result) }
        ensures runs { YieldsInOrder (YieldsFirst (copies_left {T = T})) copies_left }
    {
        PixelsIter::new(self.buf, self.shape())
    }
}

impl<C: AsMutSlice> Img<C>
where
    C::Item: Copy,
{
    /// Copies of the pixels, row by row and from left to right: `width` times `height` of them,
    /// without the padding.
    ///
    /// # Requires
    ///
    /// The image fits: `is_valid`.
    pub fn pixels(&self) -> PixelsIter<'_, C::Item>
        requires fits { Fits (layout_by C.cells self.now) }
        ensures whole { ArePixels (layout_by C.cells self.now) (copies_left result) }
        ensures runs { YieldsInOrder (YieldsFirst (copies_left {T = C.Item})) copies_left }
    {
        PixelsIter::new(self.buf.as_slice(), self.shape())
    }
}

impl<C: AsMutSlice> Img<C> {
    /// Every pixel becomes `value`; the padding stays. (The original crate has no such call.)
    ///
    /// # Requires
    ///
    /// The image fits: `is_valid`.
    pub fn fill<'a>(&'a mut self, value: C::Item)
    where
        C::Item: Copy + 'a,
        requires fits { Fits (layout_by C.cells self.old) }
        ensures grid { grid_by C.cells self.new
            ≡ uniform (width_of self.old) (height_of self.old) value }
        ensures outside { SameOutside (layout_by C.cells self.old) (layout_by C.cells self.new) }
        ensures fits { Fits (layout_by C.cells self.new) }
        ensures container { OnlyCellsChange C.cells C.with_cells self.old self.new }
    {
        let (cells, shape) = self.all_parts_mut();
        fill_pixels(cells, shape, value);
    }

    /// Every pixel becomes the result of `f` for it, row by row and from left to right; the padding
    /// stays. (In the Rust crate this is the caller's loop over `pixels_mut`.)
    ///
    /// # Requires
    ///
    /// The image fits (`is_valid`), and `f` can be called with any pixel.
    pub fn map_pixels<'a, F: Fn(C::Item) -> C::Item>(&'a mut self, f: F)
    where
        C::Item: Copy + 'a,
        requires fits { Fits (layout_by C.cells self.old) }
        requires callable { F.IsAlwaysCallable f }
        ensures answers { HasAnswers (F.post f) (layout_by C.cells self.old)
            (layout_by C.cells self.new) }
        ensures grid { IsMapped (F.post f) (layout_by C.cells self.old)
            (layout_by C.cells self.new) }
        ensures outside { SameOutside (layout_by C.cells self.old) (layout_by C.cells self.new) }
        ensures fits { Fits (layout_by C.cells self.new) }
        ensures container { OnlyCellsChange C.cells C.with_cells self.old self.new }
    {
        let (cells, shape) = self.all_parts_mut();
        map_pixels(cells, shape, &f);
    }
}

impl<C: AsMutSlice> Img<C> {
    ghost use Rattle.image_pixels.specs.Marks.{marks_of};
    ghost use Rattle.image_pixels.specs.Pixels.{muts_left, cells_left, marks_left, pixels_name, lender_of};
    ghost use Rattle.imgref.specs.contracts.img.Img.{the_row};
    ghost use Rattle.imgref.specs.Image.{shape_of, stride_of, with_cells_of, KeepsCount, AnyCellsFit};

    // All cells, and the shape.
    pub(crate) fn all_parts_mut(&mut self) -> (&mut [C::Item], Shape)
        ensures* hands_on { sem 𝓛 (follows (the_row C.row) (Array C.Item.row 0)
            self.entry.ghost_name result.0.ghost_name (with_all C.cells C.with_cells self.old)) }
        ensures cells { result.0.now ≡ C.cells (buf_of self.old) }
        ensures shape { result.1 ≡ shape_of self.old }
    {
        let shape = self.shape();
        let len = self.buf.as_slice().len();
        (self.buf.stretch_mut(0, len), shape)
    }

    /// The pixels for writing, row by row and from left to right: `width` times `height` of them,
    /// without the padding.
    ///
    /// Once the borrow ends, the pixels are what was last written, and everything else is as
    /// before. The contract of `exact_pixels_mut`, which returns the same cursor, says so. A caller
    /// with a generated proof learns less from this call: the size, the stride and the number of
    /// cells stay, so the image fits.
    ///
    /// # Requires
    ///
    /// The image fits: `is_valid`.
    pub fn pixels_mut(&mut self) -> PixelsIterMut<'_, C::Item>
        requires fits { Fits (layout_by C.cells self.old) }
        ensures* lends { sem 𝓛 (follows (the_row C.row) (the_row C.row) self.entry.ghost_name
            (lender_of result) (with_cells_of C.cells C.with_cells self.old)) }
        ensures count_stays { KeepsCount C.cells C.with_cells self.old }
        ensures fits { AnyCellsFit C.cells C.with_cells self.old }
        ensures cells { cells_left result ≡ C.cells (buf_of self.old) }
        ensures marks { marks_left result
            ≡ marks_of (width_of self.old) (height_of self.old) (stride_of self.old) }
        ensures whole { ArePixels (layout_by C.cells self.old) (muts_left result) }
    {
        self.exact_pixels_mut()
    }

    /// The cursor of `pixels_mut`, with the clause of the final cells: those that the cursor and
    /// its items left. A caller that is proved by hand cites this clause, together with `hands_on`
    /// of the cursor's `next` and `leaves_as` of its drop. (The original crate has no such call.)
    ///
    /// # Requires
    ///
    /// The image fits: `is_valid`.
    pub fn exact_pixels_mut(&mut self) -> PixelsIterMut<'_, C::Item>
        requires fits { Fits (layout_by C.cells self.old) }
        ensures* writes_back { sem 𝓛 (follows (the_row C.row) (Array C.Item.row 0)
            self.entry.ghost_name (pixels_name result) (with_all C.cells C.with_cells self.old)) }
        ensures cells { cells_left result ≡ C.cells (buf_of self.old) }
        ensures marks { marks_left result
            ≡ marks_of (width_of self.old) (height_of self.old) (stride_of self.old) }
        ensures whole { ArePixels (layout_by C.cells self.old) (muts_left result) }
    {
        let (cells, shape) = self.all_parts_mut();
        PixelsIterMut::new(cells, shape)
    }
}
