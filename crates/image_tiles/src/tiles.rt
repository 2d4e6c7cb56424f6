//! The tiles of an image for writing, lent one at a time.

ghost use Rattle.std.specs.Prelude.{◌≡◌, ◌≤◌, ◌<◌, ◌∷◌, length, IsTrue};
ghost use Rattle.std.specs.Borrow.{sem, follows, follows_if, Array};
ghost use Rattle.image_model.specs.Layout.{Fits};
ghost use Rattle.image_model.specs.Tiles.{tiles};
ghost use Rattle.image_model.specs.Windows.{IsInside, window_view, window_layout};
ghost use Rattle.image_shape.specs.Shape.{shaped_grid, shaped, shape_width, shape_height};
ghost use Rattle.imgref.specs.Written.{WindowPatchesGrid, WindowKeepsOutside, WindowKeepsFit, WindowKeepsContainer};
ghost use Rattle.imgref.specs.Image.{buf_of, width_of, height_of, stride_of, grid_by, layout_by};
ghost use Rattle.image_tiles.specs.Tiling.{tile_now, windows_left, has_tile, stepped, tiling_width, tiling_height};

use crate::tiling::Tiling;
use imgref::{AsMutSlice, AsSlice, Img, Shape};

/// The tiles of an image of any container, for writing. [`TilesMut`] is this type for borrowed
/// pixels.
#[derive(Drop)]
pub struct TileCursor<C> {
    img: Img<C>,
    tiling: Tiling,
    ghost same_width: { width_of img ≡ tiling_width tiling },
    ghost same_height: { height_of img ≡ tiling_height tiling },
}

/// The tiles of an image of borrowed pixels for writing, one at a time.
pub type TilesMut<'a, T> = TileCursor<&'a mut [T]>;

impl<C: AsMutSlice> TileCursor<C> {
    ghost use Rattle.image_tiles.specs.contracts.tiles.TileCursor.{the_row};
    ghost use Rattle.image_tiles.specs.Lending.{image_of, tiling_of, after_tile, tile_name, IsNext, NextTile, tiles_left};

    /// The tiles of `tile_width` by `tile_height` pixels of an image: the windows of [`Tiling`], in
    /// its order.
    ///
    /// # Requires
    ///
    /// The image fits (`is_valid`), and both tile sizes are positive.
    pub fn new(img: Img<C>, tile_width: usize, tile_height: usize) -> Self
        requires fits { Fits (layout_by C.cells img) }
        requires tile_width { 0 < tile_width }
        requires tile_height { 0 < tile_height }
        ensures image { image_of result ≡ img }
        ensures rest { tiles_left C.cells result
            ≡ tiles (width_of img) (height_of img) tile_width tile_height }
    {
        let tiling = Tiling::new(img.width(), img.height(), tile_width, tile_height);
        Self { img, tiling }
    }

    /// The whole image, with its cells as they are now.
    pub fn into_img(self) -> Img<C>
        ensures { result ≡ image_of self }
    {
        let Self { img, tiling: _ } = self;
        img
    }

    /// The number of tiles that are left: 0 once the image no longer fits.
    pub fn remaining(&self) -> usize
        ensures value { result ≡ length (tiles_left C.cells self.now) }
        ensures some { 0 < result → IsTrue (has_tile (tiling_of self.now)) }
        ensures fits { 0 < result → Fits (layout_by C.cells (image_of self.now)) }
    {
        let _width = self.img.width();
        let _height = self.img.height();
        if self.img.is_valid() {
            return self.tiling.number_left();
        }
        0
    }

    /// The cells and the shape of the next tile; `from_parts` makes the tile from them.
    ///
    /// This is for a caller that is itself proved and specifies what its writes leave, as for
    /// `window_parts_mut`. First test `remaining`, then pass the cells to a function that writes
    /// them.
    ///
    /// # Requires
    ///
    /// The image fits and a tile is left: `remaining()` isn't 0.
    pub fn next_parts(&mut self) -> (&mut [C::Item], Shape)
        requires fits { Fits (layout_by C.cells (image_of self.old)) }
        requires more { IsTrue (has_tile (tiling_of self.old)) }
        ensures* hands_on { sem 𝓛 (follows (the_row C.row)
            (Array C.Item.row 0) self.entry.ghost_name result.0.ghost_name
            (after_tile C.cells C.with_cells C.padded_windows self.old)) }
        ensures steps { windows_left (tiling_of self.old)
            ≡ tile_now (tiling_of self.old) ∷ windows_left (stepped (tiling_of self.old)) }
        ensures inside { IsInside (width_of (image_of self.old)) (height_of (image_of self.old))
            (tile_now (tiling_of self.old)) }
        ensures layout { shaped result.0.now result.1 ≡ window_layout C.padded_windows
            (layout_by C.cells (image_of self.old)) (tile_now (tiling_of self.old)) }
        ensures fits { Fits (shaped result.0.now result.1) }
        ensures view { shaped_grid result.0.now result.1
            ≡ window_view (grid_by C.cells (image_of self.old)) (tile_now (tiling_of self.old)) }
        ensures some_width { 0 < shape_width result.1 }
        ensures some_height { 0 < shape_height result.1 }
        ensures holds_width { width_of (image_of self.old) ≤ stride_of (image_of self.old) }
        ensures grid { WindowPatchesGrid C.cells C.with_cells C.padded_windows (image_of self.old)
            (tile_now (tiling_of self.old)) (shaped result.0.now result.1) }
        ensures outside { WindowKeepsOutside C.cells C.with_cells C.padded_windows
            (image_of self.old) (tile_now (tiling_of self.old)) (shaped result.0.now result.1) }
        ensures still_fits { WindowKeepsFit C.cells C.with_cells C.padded_windows
            (image_of self.old) (tile_now (tiling_of self.old)) (shaped result.0.now result.1) }
        ensures container { WindowKeepsContainer C.cells C.with_cells C.padded_windows
            (image_of self.old) (tile_now (tiling_of self.old)) (shaped result.0.now result.1) }
    {
        let window = self.tiling.next_window();
        self.img.window_parts_mut(window)
    }

    // The next tile, where one is left.
    fn tile(&mut self) -> Img<&mut [C::Item]>
        requires fits { Fits (layout_by C.cells (image_of self.old)) }
        requires more { IsTrue (has_tile (tiling_of self.old)) }
        ensures* hands_on { sem 𝓛 (follows (the_row C.row) (Array C.Item.row 0)
            self.entry.ghost_name (buf_of result).ghost_name
            (after_tile C.cells C.with_cells C.padded_windows self.old)) }
        ensures next { IsNext C.cells C.with_cells C.padded_windows self.old
            (windows_left (tiling_of self.old)) result }
    {
        let (cells, shape) = self.next_parts();
        Img::from_parts(cells, shape)
    }

    // This cursor, and how many tiles are left.
    fn counted(&mut self) -> (&mut Self, usize)
        ensures same_reference { result.0.ghost_name ≡ self.entry.ghost_name }
        ensures value { result.0.now ≡ self.old }
        ensures count { result.1 ≡ length (tiles_left C.cells self.old) }
        ensures some { 0 < result.1 → IsTrue (has_tile (tiling_of self.old)) }
        ensures fits { 0 < result.1 → Fits (layout_by C.cells (image_of self.old)) }
    {
        let left = self.remaining();
        (self, left)
    }

    /// The next tile, made as by `sub_image_mut`, or `None`, from then on always, where no tile is
    /// left. Once the borrow ends, the image has what was left in the tile's cells, and every other
    /// cell is as it was.
    ///
    /// There is no condition. An image whose cells no longer fit, since a tile was replaced by
    /// other cells, has no tile left.
    pub fn next_tile(&mut self) -> Option<Img<&mut [C::Item]>>
        ensures* hands_on { sem 𝓛 (follows_if (the_row C.row)
            (Array C.Item.row 0) self.entry.ghost_name (tile_name result)
            (after_tile C.cells C.with_cells C.padded_windows self.old) self.old) }
        ensures gives { NextTile C.cells C.with_cells C.padded_windows self.old
            (tiles_left C.cells self.old) result }
    {
        let (this, left) = self.counted();
        if left == 0 {
            return None;
        }
        Some(this.tile())
    }
}
