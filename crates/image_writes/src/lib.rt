//! Parts of cells that are read and written: the part in which a window is, and parts of rows, by
//! registers or by one call. And the words for what is written to cells in a shape, with their laws.
//!
//! The contracts of the crates that write pixels cite its `specs/`, and their proofs use the laws
//! in its `proofs/`.
#![tactic(auto)]

mod row_parts;
mod window_parts;

pub use row_parts::{copy_line, is_word, part_of_row, read_part, write_part, write_words};
pub use window_parts::{exact_part, padded_part, padded_stretch_mut};
