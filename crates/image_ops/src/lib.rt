//! Calls on all cells in a shape. They compare, count, hash, and copy without padding. They fill, copy
//! and map pixels, and make mosaics.
//!
//! Cells are a slice or a `Vec`, and a [`Shape`](image_shape::Shape) says where the rows of the
//! image are in them. The crate hides the loops over rows.
#![tactic(auto)]

mod appending;
mod clones;
mod copy;
mod counting;
mod equality;
mod fill;
mod hashing;
mod joining;
mod making;
mod map;
mod mosaic;
mod pairs;
mod pixel_counting;
mod places;
mod repeating;
mod short;
mod windows;

pub use clones::{cloned, contiguous, joined_clones};
pub use copy::copy_pixels;
pub use counting::count_pixels;
pub use equality::{are_equal, are_equal_fitting};
pub use fill::{fill_cells, fill_pixels};
pub use hashing::{hash_pixels, hash_rows};
pub use making::make_pixels;
pub use map::map_pixels;
pub use mosaic::{mosaic_cells, next_line};
pub use pairs::agree_at_places;
pub use pixel_counting::count_value;
pub use places::{map_places, zip_pixels};
pub use repeating::repeat_pixels;
pub use windows::{copy_window, fill_window, mosaic_window, mosaic_window_by, repeat_window};
