//! Images divided into tiles, which are lent one at a time. And images divided into bands of full
//! width; several bands may exist at the same time.
//!
//! [`Tiling`] returns the windows of tiles as numbers only. [`TilesMut`] lends these windows of an
//! image for writing. [`BandsMut`] splits an image into bands of rows. They use public calls only:
//! of `imgref`, the arithmetic of `image_shape`, and `cut_out` of `image_rows`.
#![tactic(auto)]

mod bands;
mod tiles;
mod tiling;

pub use bands::BandsMut;
pub use image_shape::{tile_at, tiles_along};
pub use tiles::{TileCursor, TilesMut};
pub use tiling::Tiling;
