//! The containers of images: their cells can be read, or read and written.

ghost use Rattle.std.specs.Prelude.{◌≡◌, refl, Bool, true, false, ℕ, ◌+◌, ◌≤◌, ◌<◌, List, length, slice_set, slice_get, Some};
ghost use Rattle.std.specs.Borrow.{sem, Lends, Array};
ghost use Rattle.std.specs.Cow.{cow_slice_items};
ghost use Rattle.std.specs.Vec.{with_items_from, with_item};
ghost use Rattle.imgref.specs.Containers.{others_of_vec, stretch_of_vec, cell_of_vec, stretch_of_slice, cell_of_slice};
ghost use Rattle.image_model.specs.Windows.{Stretch, whole, stretch_cells, with_stretch};

use std::borrow::CowSlice;

/// A container whose cells can be read as a slice.
pub trait AsSlice {
    type Item;

    /// The cells, in order.
    ghost cells: { Self → List Self.Item };

    /// The cells as a slice.
    fn as_slice(&self) -> &[Self::Item]
        ensures { result.now ≡ cells self.now };
}

/// A container whose cells can be written: a stretch of them, as for the windows of an image, or
/// one cell, as for its index. It replaces the Rust crate's bound `AsMut`.
pub trait AsMutSlice: AsSlice {
    ghost padded_windows: { Bool };

    /// The container with other cells in place of a stretch.
    ghost with_cells: { Self → Stretch → List Self.Item → Self };

    /// The container with another cell at an index.
    ghost with_cell: { Self → ℕ → Self.Item → Self };

    /// Whether a window for writing has whole strides where the container has them. This is so for
    /// a borrowed slice; in a `Vec` the window ends at its last pixel.
    fn has_padded_windows() -> bool
        ensures { result ≡ padded_windows };

    /// The `len` cells from number `start` on, for writing. Once the borrow ends, the container has
    /// the cells that were left there in their place.
    ///
    /// # Requires
    ///
    /// `start + len` is at most the number of cells: compare the numbers.
    fn stretch_mut(&mut self, start: usize, len: usize) -> &mut [Self::Item]
        requires in_bounds { start + len ≤ length (Self.cells self.old) }
        ensures* writes_back { sem 𝓛 (Lends Self.row (Array Self.Item.row 0) self.entry result
            (with_cells self.old (record { start = start; len = len }))) }
        ensures value { result.now
            ≡ stretch_cells (Self.cells self.old) (record { start = start; len = len }) };

    /// The cell at an index, for writing. Once the borrow ends, the container has the value that
    /// was left there.
    ///
    /// # Requires
    ///
    /// The index is below the number of cells: compare the numbers.
    fn cell_mut(&mut self, at: usize) -> &mut Self::Item
        requires in_bounds { at < length (Self.cells self.old) }
        ensures* writes_back { sem 𝓛 (Lends Self.row Self.Item.row self.entry result
            (with_cell self.old at)) }
        ensures value { slice_get (Self.cells self.old) at ≡ Some result.now };

    /// As many cells in place of a stretch leave every other cell as it was.
    ghost others_stay: { (c : Self) (s : Stretch) (ws : List Self.Item)
        → s.start + s.len ≤ length (Self.cells c) → length ws ≡ s.len
        → Self.cells (with_cells c s ws) ≡ with_stretch (Self.cells c) s ws };

    /// Another cell at an index leaves every other cell as it was.
    ghost other_cells_stay: { (c : Self) (at : ℕ) (value : Self.Item) → at < length (Self.cells c)
        → Self.cells (with_cell c at value) ≡ slice_set (Self.cells c) at value };

    /// Writing a stretch changes only the container's cells.
    ghost stretch_is_cells: { (c : Self) (s : Stretch) (ws : List Self.Item)
        → s.start + s.len ≤ length (Self.cells c) → length ws ≡ s.len → with_cells c s ws
        ≡ with_cells c (whole (Self.cells c)) (with_stretch (Self.cells c) s ws) };

    /// So does writing a cell.
    ghost cell_is_cells: { (c : Self) (at : ℕ) (value : Self.Item)
        → at < length (Self.cells c) → with_cell c at value
        ≡ with_cells c (whole (Self.cells c)) (slice_set (Self.cells c) at value) };
}

impl<T> AsSlice for Vec<T> {
    type Item = T;

    ghost cells = { λ v. v.items };

    fn as_slice(&self) -> &[T] {
        self.as_slice()
    }
}

impl<'a, T> AsSlice for &'a [T] {
    type Item = T;

    ghost cells = { λ s. s.now };

    fn as_slice(&self) -> &[T] {
        &self[..]
    }
}

impl<'a, T> AsSlice for &'a mut [T] {
    type Item = T;

    ghost cells = { λ s. s.now };

    fn as_slice(&self) -> &[T] {
        &**self
    }
}

impl<'a, T: Clone> AsSlice for CowSlice<'a, T> {
    type Item = T;

    ghost cells = { cow_slice_items };

    fn as_slice(&self) -> &[T] {
        self.as_ref()
    }
}

impl<T> AsMutSlice for Vec<T> {
    ghost padded_windows = { false };

    ghost with_cells = { λ v s ws. with_items_from v s.start ws };

    ghost with_cell = { with_item };

    fn has_padded_windows() -> bool {
        false
    }

    fn stretch_mut(&mut self, start: usize, len: usize) -> &mut [T] {
        self.slice_mut(start..start + len)
    }

    fn cell_mut(&mut self, at: usize) -> &mut T {
        &mut self[at]
    }

    ghost others_stay = { others_of_vec };

    ghost other_cells_stay = { λ c at value within. refl };

    ghost stretch_is_cells = { stretch_of_vec };

    ghost cell_is_cells = { cell_of_vec };
}

impl<'a, T> AsMutSlice for &'a mut [T] {
    ghost padded_windows = { true };

    ghost with_cells = { λ c s ws. record c { now = with_stretch c.now s ws } };

    ghost with_cell = { λ s at w. record s { now = slice_set s.now at w } };

    fn has_padded_windows() -> bool {
        true
    }

    fn stretch_mut(&mut self, start: usize, len: usize) -> &mut [T] {
        &mut self[start..start + len]
    }

    fn cell_mut(&mut self, at: usize) -> &mut T {
        &mut (*self)[at]
    }

    ghost others_stay = { λ c s ws within same. refl };

    ghost other_cells_stay = { λ c at value within. refl };

    ghost stretch_is_cells = { stretch_of_slice };

    ghost cell_is_cells = { cell_of_slice };
}
