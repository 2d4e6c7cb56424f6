//! Why a run ended.

ghost use Rattle.std.specs.Prelude.{◌≡◌, Some};

use devices::{INPUT_TEXT, MEMORY_TEXT, OUTPUT_TEXT};
use script_text::ScriptFault;
use std::alloc::{AllocError, AllocFailed};
use std::fmt;

/// Why a run ended before its whole output was written.
#[derive(Clone, Copy, Debug, PartialEq, Eq)]
pub enum RunFault {
    /// The line of this number, from 1, is the first that isn't good. Nothing was written.
    Line(u64),
    /// Out of memory. Nothing was written.
    Memory,
    /// The reader failed. Nothing was written.
    Input,
    /// The writer failed. The first part of the output was written, or all of it where only the
    /// flush failed.
    Output,
}

impl RunFault {
    ghost use Rattle.imgref_run.specs.Fault.{status_of};

    /// The status that the program ends with.
    pub fn status(&self) -> u8
        ensures { result ≡ status_of self.now }
    {
        match self {
            RunFault::Line(_) => 2,
            RunFault::Memory => 3,
            RunFault::Input | RunFault::Output => 4,
        }
    }
}

impl fmt::Display for RunFault {
    ghost use Rattle.imgref_run.specs.Fault.{fault_text};

    ghost output = { λ fault. Some (fault_text fault) };

    fn fmt<W: fmt::Write>(&self, f: &mut fmt::Formatter<W>) -> fmt::Result {
        match self {
            RunFault::Line(number) => write!(f, "fault line {number}"),
            RunFault::Memory => write!(f, "{MEMORY_TEXT}"),
            RunFault::Input => write!(f, "{INPUT_TEXT}"),
            RunFault::Output => write!(f, "{OUTPUT_TEXT}"),
        }
    }
}

impl From<AllocError> for RunFault {
    ghost use Rattle.imgref_run.specs.declared.fault.RunFault.TheVariants.{Memory};

    ghost from_gives = { λ _ e. e ≡ Memory };

    fn from(_e: AllocError) -> RunFault {
        RunFault::Memory
    }
}

impl<T: Drop> From<AllocFailed<T>> for RunFault {
    ghost use Rattle.imgref_run.specs.declared.fault.RunFault.TheVariants.{Memory};

    ghost from_gives = { λ _ e. e ≡ Memory };

    fn from(_e: AllocFailed<T>) -> RunFault {
        RunFault::Memory
    }
}

impl From<ScriptFault> for RunFault {
    ghost use Rattle.imgref_run.specs.Fault.{of_script};

    ghost from_gives = { λ fault e. e ≡ of_script fault };

    fn from(fault: ScriptFault) -> RunFault {
        match fault {
            ScriptFault::Line(number) => RunFault::Line(number),
            ScriptFault::Memory => RunFault::Memory,
        }
    }
}
