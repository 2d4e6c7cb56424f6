//! Tiles, and the lines of cells that have them, as values that the loops hand on.

use image_shape::Stretch;

/// A tile of so many pixels by so many. A pixel has `size` cells, next to one another in a row.
#[derive(Clone, Copy)]
pub(crate) struct Tile {
    pub(crate) size: usize,
    pub(crate) width: usize,
    pub(crate) height: usize,
}

/// So many lines of cells: the first one, and each other `stride` cells after the one before it.
#[derive(Clone, Copy)]
pub(crate) struct Lines {
    pub(crate) first: Stretch,
    pub(crate) stride: usize,
    pub(crate) count: usize,
}
