//! The planes of a frame, one after the other in one buffer, and the changes of each. A plane is a
//! dense image of pixels of 1 to 8 bytes.
#![tactic(auto)]

mod change;
mod hiding;
mod plane;
mod planes;
mod scratch;
mod spans;
mod steps;
mod target;

pub use change::{Step, Value};
pub use hiding::changes_hide;
pub use image_commands::{Axes, Change, Quarter, SampleBytes, Window};
pub use plane::{Plane, is_inside};
pub use planes::{change_planes, planes_len, resize_planes, targets_len};
pub use scratch::{Scratch, scratch_len};
pub use target::{Resize, Target};
