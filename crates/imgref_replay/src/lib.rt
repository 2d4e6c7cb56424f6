//! Commands over images: nested windows, and lists of commands with their replies.
#![tactic(auto)]

mod copy;
mod path;
mod run;
mod step;

pub use image_commands::{Command, Place, Refusal, Reply};
pub use imgref::Window;
pub use path::{into_window_at, window_at};
pub use run::{replay, replay_into, two_layouts};
pub use step::replay_next;
