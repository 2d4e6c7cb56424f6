//! Means of pixels: mosaics of means, and blurs. A pixel has samples of one or two bytes, next to one
//! another in a row.
//!
//! The crate hides that a blur keeps sums of columns, and divides by a product.
#![tactic(auto)]

mod blur;
mod division;
mod lines;
mod means;
mod tile_sums;

pub use blur::blur_samples;
pub use image_shape::SampleBytes;
pub use means::{Sample, mean_samples, mean_window};
