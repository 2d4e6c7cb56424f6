//! The pixels of an image, one by one: cursors over cells and a [`Shape`](image_shape::Shape).
//!
//! [`PixelsRefIter`] and [`PixelsIter`] return the pixels for reading, as references and as copies.
//! [`PixelsIterMut`] returns them for writing. All go row by row and from left to right, without
//! the padding. The cells must fit the shape; `Shape::fits` tests it.
#![tactic(auto)]

mod cells;
mod counts;
mod folding;
mod pixels;
mod pixels_mut;

pub use pixels::{PixelsIter, PixelsRefIter};
pub use pixels_mut::PixelsIterMut;
