//! The rows of cells in a shape: one by its number, or all for reading and for writing, from either
//! end.
//!
//! [`row`] returns one row, [`RowsIter`] the rows as shared slices, [`RowsIterMut`] the rows as
//! slices for writing: each row once, and no padding. They take cells and a
//! [`Shape`](image_shape::Shape) that the cells fit.
#![tactic(auto)]

mod numbered;
mod parts;
mod reading;
mod writing;

pub use image_shape::End;
pub use numbered::row;
pub use parts::cut_out;
pub use reading::RowsIter;
pub use writing::RowsIterMut;
