//! What the original crate returned for windows, rows and pixels, and the tests of tiles, bands and
//! commands. They are in a crate of their own, since a crate with tests is proved twice.
//!
//! The program prints what the port returns. `stdout` in this folder has the results of the original
//! crate, and the program must print the same.
#![tactic(auto)]

mod original;
#[cfg(test)]
mod tests;

use original::write_answers;
use std::process::ExitCode;

/// Prints the results of the port.
fn main(rt: HostRuntime) -> ExitCode {
    let mut text = String::new(rt.alloc());
    let is_written = write_answers(rt.alloc(), &mut text).is_ok();
    if is_written && print!(rt; "{text}").is_ok() {
        ExitCode::SUCCESS
    } else {
        ExitCode::FAILURE
    }
}
