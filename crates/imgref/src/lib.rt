//! Two-dimensional slices with a stride: images whose rows begin a fixed number of cells apart.
//!
//! An [`Img`] is a container of cells with a width and a height in pixels and a stride. The pixel
//! at column `x` of row `y` is cell `y * stride + x`; the cells between a row's last pixel and the
//! next row are padding. So a window of an image is an image over a part of the same cells, and
//! nothing is copied. [`ImgVec`] owns its pixels, [`ImgRef`] and [`ImgRefMut`] borrow them.
//!
//! An image whose cells reach its last pixel fits. `is_valid` tests it, and the calls that go over
//! rows or take windows require it. A width and a height are at most `u32::MAX`; strides, places
//! and windows range over all of `usize`, and no sum or product overflows.
//!
//! The calls have the names of the Rust crate `imgref` 1.12.3; docs/DIFFERENCES.md lists the
//! differences. The contracts use the words of the crate `image_model`: layout, fits, cell, pixel,
//! row, window.
#![tactic(auto)]

mod blit;
mod buffers;
mod by_place;
mod containers;
mod contiguous;
mod copies;
mod counts;
mod cow;
mod eqhash;
mod img;
mod index;
mod padded;
mod pairs;
mod pixels;
mod places;
mod ranges;
mod rows;
mod turns;
mod window;

pub use containers::{AsMutSlice, AsSlice};
pub use image_ops::fill_pixels;
pub use image_pixels::{PixelsIter, PixelsIterMut, PixelsRefIter};
pub use image_rows::{End, RowsIter, RowsIterMut};
pub use image_shape::{Shape, Stretch, Window};
pub use image_turns::Turn;
pub use img::{Img, ImgRef, ImgRefMut, ImgVec};
pub use padded::{ImgExt, ImgExtMut};
pub use ranges::{bound_u8, bound_u16, bound_u32, bound_u64};
