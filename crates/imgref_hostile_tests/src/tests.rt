//! One file for each subject.

mod blits;
mod containers;
mod contiguous;
mod copies;
mod early_drops;
mod fixtures;
mod greatest_numbers;
mod greatest_strides;
mod greatest_units;
mod memory;
mod short_buffers;
mod short_copies;
mod unit_buffers;
mod units;
mod whole_buffers;
mod windows;
