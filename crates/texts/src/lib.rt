//! Text, read piece by piece: bytes that are split at a separator, and the numbers, pixels and
//! windows that the parts denote. Numbers and pixels that are written. And the words for such texts,
//! with their laws.
//!
//! The contracts of the crates above cite its `specs/`, and their proofs use the laws in its
//! `proofs/`.
#![tactic(auto)]

mod fields;
mod parts;
mod pixels;
mod writing;

pub use fields::{Field, next};
pub use parts::Parts;
pub use writing::{PIXELS_ROOM, push_number, push_pixel, push_pixels};
