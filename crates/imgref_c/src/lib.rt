//! Images for C: what `include/imgref.h` declares, over slices and numbers.
//!
//! A caller in C can't be proved. So each call tests its conditions, and returns the number of a
//! `Status`, which says which test failed. Unless that is 0 (`IMGREF_OK`), nothing has changed. It
//! stays trusted that a pointer and a length are those of memory that the caller lends for the
//! call.
//!
//! Each call on cells is one generic function. Its exports for cells of one, two, four and eight
//! bytes are in the files of those names.
#![tactic(auto)]

mod areas;
mod blurs;
mod counts;
mod flips;
mod images;
mod means;
mod packing;
mod pairs;
mod pixels;
mod places;
mod regions;
mod status;
mod tiles;
mod turns;
mod u16_exports;
mod u32_exports;
mod u64_exports;
mod u8_exports;
mod values;
mod windows;
