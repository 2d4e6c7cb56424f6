//! Callers that borrow a part of an image: tiles, bands and paths of nested windows. Each specifies
//! the new image by the grid.
#![tactic(auto)]

mod bands;
mod fills;
mod mosaics;
mod paths;
#[cfg(test)]
mod tests;
mod tiles;

pub use bands::fill_first_band;
pub use mosaics::mosaic_by_tiles;
pub use paths::{fill_through_path, put_through_path};
pub use tiles::fill_next_tile;
