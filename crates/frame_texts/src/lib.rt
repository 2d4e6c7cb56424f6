//! Headers and lists as text: the line of a video, the headers of pictures, ranges of frames, and
//! the boxes of a tracker. And the words of lines, and how many frames a list names. Nothing here
//! reads or writes a stream.
#![tactic(auto)]

mod boxes;
mod counts;
mod digits;
mod fault;
mod header;
mod heads;
mod lines;
mod names;
mod pam;
mod pam_words;
mod picture;
mod pixel;
mod ranges;
mod rate;
mod tracks;
mod video_line;

pub use boxes::{
    BEFORE, Decimal, Tracked, are_boxes, box_text, read_box, read_decimal, read_frame,
    read_tracked, window_of_box,
};
pub use counts::{agrees, read_count, says_none_else};
pub use fault::WordsFault;
pub use header::{Chroma, Format, read_format, read_size};
pub use heads::picture_head;
pub use lines::{Words, line_words};
pub use names::value_named;
pub use pam::{Fields, Lines, Place, Tuples};
pub use pam_words::Key;
pub use picture::{Head, Kind, Picture, Scan, heads_end_themselves};
pub use pixel::Pixel;
pub use ranges::{Range, read_range};
pub use rate::{Rate, read_rate};
pub use tracks::{around, comes_at, goes_on_at, missing, put_by_tracks, track_of};
pub use video_line::{ended_line, resized_line};
