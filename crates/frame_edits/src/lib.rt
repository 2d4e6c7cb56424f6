//! Edits of frames: from words, from lines of a list or from the boxes of a tracker's list. And which
//! pixels and frames each is for. Nothing here reads or writes a stream.
#![tactic(auto)]

mod box_covers;
mod covers;
mod found;
mod framing;
mod holds;
mod lists;
mod paint;
mod unsuited;
mod words;

pub use box_covers::{BoxStyle, cover_of, first_frame, read_boxes};
pub use covers::{
    Unit, frames_of, picture_covers_nothing, picture_window, settle_edit, turns_over,
    unit_of_picture, unit_of_video, video_covers_nothing, video_window,
};
pub use framing::Framing;
pub use holds::{held_at, read_held};
pub use lists::Edits;
pub use paint::Paint;
pub use unsuited::Unsuited;
pub use words::{Edit, Scope, read_way};
