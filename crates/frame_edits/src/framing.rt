//! The change of the size of frames.

use image_commands::{Quarter, Window};

/// The change of the size of frames, in pixels.
#[derive(Clone, Copy, PartialEq, Eq)]
pub enum Framing {
    /// Only the window is kept.
    Crop(Window),
    /// The frame gets a border of so many columns and rows, of one brightness and without colour.
    Pad {
        left: usize,
        top: usize,
        right: usize,
        bottom: usize,
        value: usize,
    },
    /// The frame is turned by a quarter.
    Turn(Quarter),
}
