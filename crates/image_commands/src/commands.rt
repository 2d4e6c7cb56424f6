//! Commands over images, and their replies.

use image_shape::Window;

/// A window of one image: the image's number and a path of nested windows.
#[derive(Drop)]
pub struct Place {
    /// The number of the image, from 0.
    pub image: usize,
    /// Windows, each a window of the one before it; the empty path is the whole image.
    pub path: Vec<Window>,
}

/// A change of images, or a question about them. Columns and rows count from 0, sizes are in
/// pixels.
///
/// The rule of each command is its row in the table `meaning` (`specs/Commands`).
#[derive(Drop)]
pub enum Command<T> {
    /// The pixel at column `x` of row `y` of a window.
    Get {
        /// The window.
        spot: Place,
        /// The column in the window.
        x: usize,
        /// The row in the window.
        y: usize,
    },
    /// `value` is written at column `x` of row `y` of a window.
    Put {
        /// The window.
        spot: Place,
        /// The column in the window.
        x: usize,
        /// The row in the window.
        y: usize,
        /// The new pixel.
        value: T,
    },
    /// `value` is written at every place of a window.
    Fill {
        /// The window.
        spot: Place,
        /// The new pixel.
        value: T,
    },
    /// The number of pixels of a window that are equal to `value`.
    Count {
        /// The window.
        spot: Place,
        /// The pixel to look for.
        value: T,
    },
    /// Whether two windows have the same size, and equal pixels at every place.
    Same {
        /// One window.
        first: Place,
        /// The other window.
        second: Place,
    },
    /// The old pixels of a window are written over those of another of its size; the two may
    /// overlap.
    Blit {
        /// The window that is read.
        source: Place,
        /// The window that is written.
        target: Place,
    },
    /// Every place of a window gets the old pixel at the corner of its tile. The tiles begin at the
    /// window's corner, and are cut at its right and lower edge.
    Mosaic {
        /// The window.
        spot: Place,
        /// The width of a tile; 0 is refused.
        tile_width: usize,
        /// The height of a tile; 0 is refused.
        tile_height: usize,
    },
    /// An image loses its padding: its buffer becomes its rows one after the other, and its stride
    /// the width, or 1 at width 0.
    Compact {
        /// The number of the image, from 0.
        image: usize,
    },
}

/// The reply to a command.
#[derive(Clone, Copy, PartialEq, Eq)]
pub enum Reply<T> {
    /// The pixel that was asked for.
    Pixel(T),
    /// The number of pixels.
    Counted(usize),
    /// Whether the two windows are equal.
    Truth(bool),
    /// The command was carried out.
    Done,
    /// The command has this fault, and has changed nothing.
    Refused(Refusal),
}

/// The first fault of a command. The faults are tested in this order.
#[derive(Clone, Copy, PartialEq, Eq)]
pub enum Refusal {
    /// The image number isn't below the number of images.
    NoImage,
    /// A window of the path isn't inside the size before it.
    WindowOutside,
    /// The place isn't in the window.
    PlaceOutside,
    /// The two windows differ in width or height.
    SizesDiffer,
    /// A tile width or height is 0.
    NoTile,
}
