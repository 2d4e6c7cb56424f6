//! Scripts over images of bytes as text: their images and commands, read line by line, and the lines
//! of replies and images. Nothing here runs a command, reads from a device or writes to one.
#![tactic(auto)]

mod command;
mod fault;
mod fields;
mod line;
mod output;
mod script;

pub use fault::ScriptFault;
pub use line::{Line, lines_have_one_value};
pub use output::{push_images, push_reply};
pub use script::Script;
