//! Pixels that move in place: row shifts in one list, which compact an image or move a window.
//!
//! A [`RowMover`] holds a borrowed list of cells and counts what it does there. All changes go
//! through [`RowMover::shift`]: the list and the count are private to its module, and the moves of
//! whole windows are in another module. [`join_rows`], [`pack`] and [`move_pixels`] do the same to an
//! image, and hide the mover. No call allocates memory.
#![tactic(auto)]

mod blocks;
mod mover;
mod moves;
mod packing;
#[cfg(test)]
mod tests;
mod windows;

pub use mover::RowMover;
pub use packing::{join_rows, pack};
pub use windows::move_pixels;
