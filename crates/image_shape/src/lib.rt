//! Sizes with a stride, and windows, as numbers only: the arithmetic of every image.
//!
//! A [`Shape`] is the width, the height and the stride of an image. It says whether a number of
//! cells fits it, whether a [`Window`] is inside it, and which [`Stretch`] of the cells a window
//! has. A [`Spacing`] says where rows are split off their cells, and [`tile_at`] where a tile of a
//! size begins. No sum or product overflows, for all numbers of `usize`.
#![tactic(auto)]

mod ends;
mod samples;
mod shape;
mod spacing;
mod tiles;
mod window;

pub use ends::End;
pub use samples::SampleBytes;
pub use shape::Shape;
pub use spacing::{Cuts, Spacing};
pub use tiles::{tile_at, tiles_along};
pub use window::{Stretch, Window};
