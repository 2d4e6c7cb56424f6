//! Commands over images with their replies, and changes of frames, as values. What a command means is
//! said by the definitions in `specs/`; `imgref_replay` carries them out, and `image_planes` the changes.
#![tactic(auto)]

mod changes;
mod commands;

pub use changes::{Axes, Change, Quarter};
pub use commands::{Command, Place, Refusal, Reply};
pub use image_shape::{SampleBytes, Window};
