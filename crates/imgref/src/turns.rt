//! Calls that move pixels to other columns and rows. Images are turned upside down, mirrored,
//! transposed and turned, in place or into another image. Two columns are exchanged.

ghost use Rattle.std.specs.Prelude.{◌≡◌, ◌<◌};
ghost use Rattle.image_model.specs.Layout.{Fits, SameOutside};
ghost use Rattle.image_model.specs.Flips.{flipped};
ghost use Rattle.image_model.specs.Turns.{columns_swapped, mirrored, transposed};
ghost use Rattle.image_turns.specs.Turned.{turned, turned_width, turned_height};
ghost use Rattle.imgref.specs.Image.{width_of, height_of, grid_by, layout_by, OnlyCellsChange};

use crate::containers::{AsMutSlice, AsSlice};
use crate::img::Img;
use image_turns::{
    Turn, flip_columns, flip_rows, swap_columns, transpose_pixels, transpose_square, turn_in_place,
    turn_pixels,
};

impl<C: AsMutSlice> Img<C> {
    /// The image is turned upside down: its first row changes places with its last, and so on. The
    /// padding stays, and no memory is allocated. (In the Rust crate this is the caller's
    /// `split_at_mut`.)
    ///
    /// # Requires
    ///
    /// The image fits: `is_valid`.
    pub fn flip_rows(&mut self)
        requires fits { Fits (layout_by C.cells self.old) }
        ensures grid { grid_by C.cells self.new ≡ flipped (grid_by C.cells self.old) }
        ensures outside { SameOutside (layout_by C.cells self.old) (layout_by C.cells self.new) }
        ensures fits { Fits (layout_by C.cells self.new) }
        ensures container { OnlyCellsChange C.cells C.with_cells self.old self.new }
    {
        let (cells, shape) = self.all_parts_mut();
        flip_rows(cells, shape);
    }

    /// The image is mirrored: its first column changes places with its last, and so on. The padding
    /// stays, and no memory is allocated. (In the Rust crate this is the caller's `reverse` of each
    /// row.)
    ///
    /// # Requires
    ///
    /// The image fits: `is_valid`.
    pub fn flip_columns<'a>(&'a mut self)
    where
        C::Item: Copy + 'a,
        requires fits { Fits (layout_by C.cells self.old) }
        ensures grid { grid_by C.cells self.new ≡ mirrored (grid_by C.cells self.old) }
        ensures outside { SameOutside (layout_by C.cells self.old) (layout_by C.cells self.new) }
        ensures fits { Fits (layout_by C.cells self.new) }
        ensures container { OnlyCellsChange C.cells C.with_cells self.old self.new }
    {
        let (cells, shape) = self.all_parts_mut();
        flip_columns(cells, shape);
    }

    /// Columns `x` and `z` are exchanged, and the padding stays. No memory is allocated. (In the
    /// Rust crate this is the caller's `swap` in each row.)
    ///
    /// # Requires
    ///
    /// The image fits (`is_valid`), and both `x` and `z` are below `width()`.
    pub fn swap_columns<'a>(&'a mut self, x: usize, z: usize)
    where
        C::Item: Copy + 'a,
        requires fits { Fits (layout_by C.cells self.old) }
        requires first { x < width_of self.old }
        requires second { z < width_of self.old }
        ensures grid { grid_by C.cells self.new ≡ columns_swapped x z (grid_by C.cells self.old) }
        ensures outside { SameOutside (layout_by C.cells self.old) (layout_by C.cells self.new) }
        ensures fits { Fits (layout_by C.cells self.new) }
        ensures container { OnlyCellsChange C.cells C.with_cells self.old self.new }
    {
        let (cells, shape) = self.all_parts_mut();
        swap_columns(cells, shape, x, z);
    }

    /// The image is transposed in place: each pixel changes places with the one across the
    /// diagonal, so columns become rows. The padding stays, and no memory is allocated. For an image
    /// that is no square, `transpose_into` writes another one. (In the Rust crate this is the
    /// caller's loop.)
    ///
    /// # Requires
    ///
    /// The image fits (`is_valid`), and its width and its height are equal.
    pub fn transpose<'a>(&'a mut self)
    where
        C::Item: Copy + 'a,
        requires fits { Fits (layout_by C.cells self.old) }
        requires square { width_of self.old ≡ height_of self.old }
        ensures grid { grid_by C.cells self.new ≡ transposed (grid_by C.cells self.old) }
        ensures outside { SameOutside (layout_by C.cells self.old) (layout_by C.cells self.new) }
        ensures fits { Fits (layout_by C.cells self.new) }
        ensures container { OnlyCellsChange C.cells C.with_cells self.old self.new }
    {
        let (cells, shape) = self.all_parts_mut();
        transpose_square(cells, shape);
    }

    /// The image is turned clockwise in place. The padding stays, and no memory is allocated. For a
    /// quarter turn of an image that is no square, `turn_into` writes another one. (In the Rust
    /// crate this is the caller's loop.)
    ///
    /// # Requires
    ///
    /// The image fits (`is_valid`). For `Turn::Right` and `Turn::Left` its width and its height are
    /// equal.
    pub fn turn<'a>(&'a mut self, turn: Turn)
    where
        C::Item: Copy + 'a,
        requires fits { Fits (layout_by C.cells self.old) }
        requires same_width { turned_width turn (width_of self.old) (height_of self.old)
            ≡ width_of self.old }
        ensures grid { grid_by C.cells self.new ≡ turned turn (grid_by C.cells self.old) }
        ensures outside { SameOutside (layout_by C.cells self.old) (layout_by C.cells self.new) }
        ensures fits { Fits (layout_by C.cells self.new) }
        ensures container { OnlyCellsChange C.cells C.with_cells self.old self.new }
    {
        let (cells, shape) = self.all_parts_mut();
        turn_in_place(cells, shape, turn);
    }
}

impl<C: AsSlice> Img<C> {
    /// Writes this image to `target` with columns and rows exchanged: column `x` becomes row `x`.
    /// The padding of `target` stays, and no memory is allocated. (In the Rust crate this is the
    /// caller's loop.)
    ///
    /// # Requires
    ///
    /// Both images fit (`is_valid`); `target` is as wide as this image is high, and as high as it
    /// is wide.
    pub fn transpose_into<'a, D: AsMutSlice<Item = C::Item>>(&self, target: &'a mut Img<D>)
    where
        C::Item: Copy + 'a,
        requires fits { Fits (layout_by C.cells self.now) }
        requires target_fits { Fits (layout_by D.cells target.old) }
        requires columns { width_of target.old ≡ height_of self.now }
        requires rows { height_of target.old ≡ width_of self.now }
        ensures grid { grid_by D.cells target.new ≡ transposed (grid_by C.cells self.now) }
        ensures outside { SameOutside (layout_by D.cells target.old)
            (layout_by D.cells target.new) }
        ensures fits { Fits (layout_by D.cells target.new) }
        ensures container { OnlyCellsChange D.cells D.with_cells target.old target.new }
    {
        let (cells, shape) = target.all_parts_mut();
        transpose_pixels(cells, shape, self.buf.as_slice(), self.shape());
    }

    /// Writes this image to `target` turned clockwise. The padding of `target` stays, and no memory
    /// is allocated. (In the Rust crate this is the caller's loop.)
    ///
    /// # Requires
    ///
    /// Both images fit (`is_valid`), and `target` has the size of the turned image.
    pub fn turn_into<'a, D: AsMutSlice<Item = C::Item>>(&self, target: &'a mut Img<D>, turn: Turn)
    where
        C::Item: Copy + 'a,
        requires fits { Fits (layout_by C.cells self.now) }
        requires target_fits { Fits (layout_by D.cells target.old) }
        requires columns { width_of target.old
            ≡ turned_width turn (width_of self.now) (height_of self.now) }
        requires rows { height_of target.old
            ≡ turned_height turn (width_of self.now) (height_of self.now) }
        ensures grid { grid_by D.cells target.new ≡ turned turn (grid_by C.cells self.now) }
        ensures outside { SameOutside (layout_by D.cells target.old)
            (layout_by D.cells target.new) }
        ensures fits { Fits (layout_by D.cells target.new) }
        ensures container { OnlyCellsChange D.cells D.with_cells target.old target.new }
    {
        let (cells, shape) = target.all_parts_mut();
        turn_pixels(cells, shape, self.buf.as_slice(), self.shape(), turn);
    }
}
