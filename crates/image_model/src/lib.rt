//! Images as contracts see them: layouts, grids, rows, windows and tiles, and the laws about them.
//!
//! The crate has no code: the contracts of every other crate cite its `specs/`, and their proofs
//! use the laws in its `proofs/`.
#![tactic(auto)]
