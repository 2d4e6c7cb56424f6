//! One file for each subject.

mod changes;
mod counts;
mod equality;
mod images;
mod keys;
mod means;
mod nested_windows;
mod padded;
mod pixel_writes;
mod pixels;
mod places;
mod row_widths;
mod row_writes;
mod rows;
mod rows_by_number;
mod several_cells;
mod turns;
mod values;
mod window_writes;
mod windows;
