//! Calls that the benchmark times and the library for C doesn't export: calls with a closure,
//! iterators, and calls that allocate memory.
//!
//! Each call is on an image of `cells`. Its generic function is in `reading` or `writing`. Its
//! exports for pixels of one byte and of four are in the files of those names.
#![tactic(auto)]

mod reading;
mod u32_exports;
mod u8_exports;
mod writing;
