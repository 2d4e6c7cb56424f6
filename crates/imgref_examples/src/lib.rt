//! Frames of video: code as a user of `imgref` writes it, with contracts by the grid. Sums,
//! brightness, crops, blurs, rectangles, luma planes, scaled images, sprites with masks,
//! and drawings by places. docs/CALLERS.md explains them.
//!
//! Other callers show what a contract says to another crate. They write through nested windows, and
//! copy and move windows. They fill rows by number, or through an iterator that ends early. They
//! write pixels through a cursor. Some just meet the condition of a call.
#![tactic(auto)]

mod areas;
mod beside;
mod blits;
mod blur;
mod border;
mod brightness;
mod conditions;
mod counts;
mod crop;
mod drawing;
#[cfg(test)]
mod figures;
#[cfg(test)]
mod fills;
mod first_window;
mod gauss;
mod halves;
mod hashes;
mod joined;
mod kinds;
mod lent_turns;
mod literals;
mod luma;
mod masks;
mod nested;
#[cfg(test)]
mod outcomes;
mod overwritten;
mod paste;
mod pixels;
mod points;
mod rect;
mod rows;
mod scaling;
mod scenes;
mod spread;
mod sums;
#[cfg(test)]
mod tests;
mod thinning;
mod tiles;
mod upside_down;
mod windows;

pub use areas::sum_up_to;
pub use beside::put_above_fill;
pub use blits::{copy_across, copy_but_one, copy_over_cells, scroll_up};
pub use blur::box_blur_3x3;
pub use border::draw_border;
pub use brightness::{brighten, brighten_copy, brighten_places, brighten_rows};
pub use conditions::{
    add_same_size, cells_of_last_columns, clear_start_of_last_row, column_bound,
    exchange_last_columns, exchange_last_rows, halve_if_it_fits, highest, last_cell, narrowest,
    padding_of_first_row, pixels_if_it_fits, second_row_far_behind, start_of_last_row,
    transpose_a_square, transpose_three_columns, turn_by_a_half, widest,
};
pub use counts::count_above;
pub use crop::{crop_copy, crop_packed};
pub use drawing::{dot, put_then_get, stripes, three_by_index, three_places};
pub use first_window::write_through_window;
pub use gauss::gaussian_3x3;
pub use halves::halve;
pub use hashes::have_one_hash;
pub use image_regions::{bounding_box, flood_fill, histogram, integral};
pub use joined::are_connected;
pub use kinds::{
    draw_any, draw_lent, flip_any, pixel_of_any, pixel_of_ref, pixel_of_vec, put_and_read,
};
pub use lent_turns::{turn_into_window, turn_lent};
pub use literals::half_ramp;
pub use luma::{FrameError, luma_plane};
pub use masks::blend_masked;
pub use nested::greatest_in;
pub use overwritten::{checkerboard, threshold_into};
pub use paste::{paste_at, paste_sprite};
pub use pixels::{invert_lent, invert_owner, write_first};
pub use points::{invert, threshold};
pub use rect::draw_rect;
pub use rows::{fill_last_row, fill_row_at};
pub use scaling::resize_nearest;
pub use scenes::{blend, exchange_and_mirror, fill_disc, ramp, turn_right};
pub use spread::equalize;
pub use sums::{checksum, checksum_by_rows, exact_checksum, greatest, window_sum};
pub use thinning::thin;
pub use tiles::{darken_lent_tiles, darken_tiles};
pub use upside_down::flip;
pub use windows::{NestedPlace, put_in_cells, put_nested, put_pixel};
