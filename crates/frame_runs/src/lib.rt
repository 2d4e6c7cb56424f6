//! A run over a video or pictures, from any reader to any writer: each frame or picture is read
//! whole, edited and written.
//!
//! A frame and a picture are a header followed by cells, so one loop serves both (`cells.rt`).
#![tactic(auto)]

mod cells;
mod frames;
mod pictures;
mod program;
mod request;
mod unsuited;

pub use program::run;
pub use unsuited::unsuited_in_frame;
