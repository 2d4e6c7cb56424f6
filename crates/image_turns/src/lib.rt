//! Cells in a shape that are mirrored, transposed and turned, to another image and in place. A pixel
//! may have several cells, next to one another in a row.
//!
//! Cells are a slice, and a [`Shape`](image_shape::Shape) says where the rows of the image are in
//! them. The crate hides the blocks and strips by which the pixels go.
#![tactic(auto)]

mod bands;
mod block_pairs;
mod blocks;
mod flipping;
mod near;
mod pixel_flips;
mod pixel_squares;
mod pixel_turning;
mod squares;
mod swapping;
mod triples;
mod turning;

pub use flipping::{flip_columns, flip_rows, swap_columns};
pub use pixel_flips::{flip_window_columns, flip_window_rows, mirror_pixels};
pub use pixel_squares::orient_in_place;
pub use pixel_turning::{Orientation, orient_pixels};
pub use squares::{transpose_square, turn_in_place};
pub use swapping::swap_rows;
pub use turning::{Turn, transpose_pixels, turn_pixels};
