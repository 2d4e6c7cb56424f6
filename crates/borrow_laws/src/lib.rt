//! A lemma library for borrows, in the logic of programs. It is about the final cells of a list
//! whose parts are lent, stretches that are lent again, and lifetimes inside others. Nothing here
//! is about images.
//!
//! The crate has no code. Its `specs/` define the final value of a name. Its `proofs/` have the
//! laws that the proofs by hand of the crates above use.
#![tactic(auto)]
