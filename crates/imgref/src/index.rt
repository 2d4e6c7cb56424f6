//! Cells and rows of an image by number.

ghost use Rattle.std.specs.Prelude.{◌≡◌, ◌<◌, length, Some};
ghost use Rattle.std.specs.Borrow.{sem, Lends, Array};
ghost use Rattle.image_model.specs.Layout.{Fits, pixel};
ghost use Rattle.image_model.specs.Rows.{row as row_of};
ghost use Rattle.imgref.specs.contracts.img.Img.{the_row};
ghost use Rattle.imgref.specs.Image.{width_of, height_of, layout_by};
ghost use Rattle.imgref.specs.Index.{HasCell, with_cell_at, with_row, PatchesGrid, KeepsOutside, KeepsFit, RowPatchesGrid, RowKeepsOutside, RowKeepsFit};

use crate::containers::{AsMutSlice, AsSlice};
use crate::img::Img;
use image_rows::row;
use std::ops::{Index, IndexMut};

/// The cell at column `x` of row `y`, by `img[(x, y)]`: cell `y * stride + x`. It may be padding,
/// or below the last row.
///
/// # Requires
///
/// The column is below the stride, and the cell is within the buffer: compare the numbers.
impl<C: AsSlice> Index<(usize, usize)> for Img<C> {
    type Output = C::Item;

    ghost can_index = { λ i at. HasCell (layout_by C.cells i) at.0 at.1 };

    ghost index_gives = { λ i at cell. pixel (layout_by C.cells i) at.0 at.1 ≡ Some cell };

    fn index(&self, index: (usize, usize)) -> &C::Item {
        let cells = self.buf.as_slice();
        let _len = cells.len();
        &cells[self.shape().cell(index.0, index.1)]
    }
}

/// The cell at column `x` of row `y`, for writing. Once the borrow ends, that cell has the value
/// that was left there, and no other cell has changed.
///
/// # Requires
///
/// The column is below the stride, and the cell is within the buffer: compare the numbers.
impl<C: AsMutSlice> IndexMut<(usize, usize)> for Img<C> {
    fn index_mut(&mut self, index: (usize, usize)) -> &mut C::Item
        requires { HasCell (layout_by C.cells self.old) index.0 index.1 }
        ensures* writes_back { sem 𝓛 (Lends (the_row C.row) C.Item.row self.entry result
            (with_cell_at C.cells C.with_cell self.old index.0 index.1)) }
        ensures value { pixel (layout_by C.cells self.old) index.0 index.1 ≡ Some result.now }
        ensures grid { PatchesGrid C.cells C.with_cell self.old index.0 index.1 }
        ensures outside { KeepsOutside C.cells C.with_cell self.old index.0 index.1 }
        ensures fits { KeepsFit C.cells C.with_cell self.old index.0 index.1 }
    {
        let _len = self.buf.as_slice().len();
        let at = self.shape().cell(index.0, index.1);
        self.buf.cell_mut(at)
    }
}

/// The same with `u32`. No product of them overflows: only the cell's number has to be within the
/// buffer.
impl<C: AsSlice> Index<(u32, u32)> for Img<C> {
    type Output = C::Item;

    ghost can_index = { λ i at. HasCell (layout_by C.cells i) at.0 at.1 };

    ghost index_gives = { λ i at cell. pixel (layout_by C.cells i) at.0 at.1 ≡ Some cell };

    fn index(&self, index: (u32, u32)) -> &C::Item {
        &self[(index.0 as usize, index.1 as usize)]
    }
}

/// The same with `u32`, for writing.
///
/// # Requires
///
/// The column is below the stride, and the cell is within the buffer: compare the numbers.
impl<C: AsMutSlice> IndexMut<(u32, u32)> for Img<C> {
    fn index_mut(&mut self, index: (u32, u32)) -> &mut C::Item
        requires { HasCell (layout_by C.cells self.old) index.0 index.1 }
        ensures* writes_back { sem 𝓛 (Lends (the_row C.row) C.Item.row self.entry result
            (with_cell_at C.cells C.with_cell self.old index.0 index.1)) }
        ensures value { pixel (layout_by C.cells self.old) index.0 index.1 ≡ Some result.now }
        ensures grid { PatchesGrid C.cells C.with_cell self.old index.0 index.1 }
        ensures outside { KeepsOutside C.cells C.with_cell self.old index.0 index.1 }
        ensures fits { KeepsFit C.cells C.with_cell self.old index.0 index.1 }
    {
        &mut self[(index.0 as usize, index.1 as usize)]
    }
}

impl<C: AsSlice> Img<C> {
    /// The pixels of row `y`: the `width` cells from `y * stride` on, and no cell at width 0. This
    /// call replaces the Rust crate's index by a row.
    ///
    /// # Requires
    ///
    /// The image fits (`is_valid`), and `y` is below `height()`.
    pub fn row(&self, y: usize) -> &[C::Item]
        requires row { y < height_of self.now }
        requires fits { Fits (layout_by C.cells self.now) }
        ensures value { result.now ≡ row_of (layout_by C.cells self.now) y }
        ensures len { length result.now ≡ width_of self.now }
    {
        row(self.buf.as_slice(), self.shape(), y)
    }
}

impl<C: AsMutSlice> Img<C> {
    /// The pixels of row `y`, for writing. Once the borrow ends, those cells have the values that
    /// were left there, and no other cell has changed.
    ///
    /// # Requires
    ///
    /// The image fits (`is_valid`), and `y` is below `height()`.
    #[tactic(auto, unfolding(crate::specs::Index::with_row))]
    pub fn row_mut(&mut self, y: usize) -> &mut [C::Item]
        requires row { y < height_of self.old }
        requires fits { Fits (layout_by C.cells self.old) }
        ensures* writes_back { sem 𝓛 (Lends (the_row C.row) (Array C.Item.row 0) self.entry result
            (with_row C.cells C.with_cells self.old y)) }
        ensures value { result.now ≡ row_of (layout_by C.cells self.old) y }
        ensures len { length result.now ≡ width_of self.old }
        ensures grid { RowPatchesGrid C.cells C.with_cells self.old y }
        ensures outside { RowKeepsOutside C.cells C.with_cells self.old y }
        ensures fits { RowKeepsFit C.cells C.with_cells self.old y }
    {
        let row = self.shape().any_row(self.buf.as_slice().len(), y);
        self.buf.stretch_mut(row.start, row.len)
    }
}
