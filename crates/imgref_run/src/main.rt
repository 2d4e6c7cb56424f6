//! Commands over images of bytes: a script in, its output out.
#![tactic(auto)]

#[cfg(test)]
mod device_tests;
mod fault;
#[cfg(test)]
mod fixtures;
mod input;
mod output;
mod program;
#[cfg(test)]
mod retried_tests;

pub use devices::Counted;
use devices::Retried;
pub use fault::RunFault;
pub use program::run;
use std::process::ExitCode;

/// Runs the script on standard input, and writes its output to standard output. Where the run ends
/// with a fault, the program prints the fault and exits with its status.
fn main(rt: HostRuntime) -> ExitCode {
    let mut reader = Counted::new(Retried::new(rt.stdin()));
    let mut writer = Counted::new(Retried::new(rt.stdout()));
    match run(rt.alloc(), &mut reader, &mut writer) {
        Ok(()) => ExitCode::SUCCESS,
        Err(fault) => {
            // The status tells of the fault even where its text can't be printed.
            let _ = println!(rt; "{fault}");
            ExitCode::from(fault.status())
        }
    }
}
