//! Changes of the frames of a video or of pictures.

use image_shape::{SampleBytes, Window};

/// What changes places in an image: the first with the last, and so on.
#[derive(Clone, Copy, PartialEq, Eq)]
pub enum Axes {
    /// The rows.
    Rows,
    /// The pixels of each row.
    Columns,
    /// The rows, and the pixels of each. That is a half turn.
    Both,
}

/// A change of an image. `V` is the type of the values that pixels get.
#[derive(Clone, Copy, PartialEq, Eq)]
pub enum Change<V> {
    /// Every pixel of the window gets this value.
    Fill {
        /// The window.
        window: Window,
        /// The new value.
        value: V,
    },
    /// Every pixel of the window gets the old value at the corner of its tile.
    Mosaic {
        /// The window.
        window: Window,
        /// The width of a tile.
        tile_width: usize,
        /// The height of a tile.
        tile_height: usize,
    },
    /// Every pixel of the window gets the mean of its tile's pixels, sample by sample, rounded to the
    /// nearest: a half goes up. Where a pixel has an odd number of bytes, each byte is a sample.
    Mean {
        /// The window.
        window: Window,
        /// The width of a tile.
        tile_width: usize,
        /// The height of a tile.
        tile_height: usize,
        /// The bytes of a sample.
        bytes: SampleBytes,
    },
    /// Every pixel of the window gets the mean of the box around it, sample by sample, rounded to the
    /// nearest: a half goes up. The box has `across` pixels on the left and on the right, and `down`
    /// above and below. What is outside the window doesn't count. Where a pixel has an odd number of
    /// bytes, each byte is a sample.
    Blur {
        /// The window.
        window: Window,
        /// How far the box reaches to the left and to the right.
        across: usize,
        /// How far it reaches up and down.
        down: usize,
        /// The bytes of a sample.
        bytes: SampleBytes,
    },
    /// The old pixels of the window are written over those of the window of its size at another
    /// corner; the two may overlap.
    Move {
        /// The window that is read.
        window: Window,
        /// The column of the other corner.
        left: usize,
        /// Its row.
        top: usize,
    },
    /// The rows or the columns of the whole image change places.
    Flip(Axes),
}

/// A turn by a quarter.
#[derive(Clone, Copy, PartialEq, Eq)]
pub enum Quarter {
    /// Clockwise: the first row becomes the last column.
    Right,
    /// The other way: the first row becomes the first column, from the bottom.
    Left,
}
