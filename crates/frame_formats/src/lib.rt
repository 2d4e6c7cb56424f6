//! The planes of a frame of a video or a picture, and what edits do to each: the plan for each frame.
//! Nothing here reads or writes a stream.
#![tactic(auto)]

mod framing;
mod hiding;
mod layers;
mod plans;
mod samples;
mod settling;
mod steps;
mod suits;

pub use frame_edits::Edits;
pub use frame_texts::{Kind, Picture, WordsFault, read_format};
pub use hiding::recipes_hide;
pub use plans::{Plan, PlanFault};
pub use suits::{unsuited_in_picture, unsuited_in_video};
