//! Why a line or a script can't be read.

ghost use Rattle.std.specs.Prelude.{◌≡◌};

use std::alloc::{AllocError, AllocFailed};

/// Why a line can't be read.
#[derive(Clone, Copy)]
pub(crate) enum LineFault {
    /// No memory was found for what it stands for.
    Memory,
    /// It isn't good.
    Bad,
}

impl From<AllocError> for LineFault {
    ghost use Rattle.script_text.specs.declared.fault.LineFault.TheVariants.{Memory};

    ghost from_gives = { λ _ e. e ≡ Memory };

    fn from(_e: AllocError) -> LineFault {
        LineFault::Memory
    }
}

impl<T: Drop> From<AllocFailed<T>> for LineFault {
    ghost use Rattle.script_text.specs.declared.fault.LineFault.TheVariants.{Memory};

    ghost from_gives = { λ _ e. e ≡ Memory };

    fn from(_e: AllocFailed<T>) -> LineFault {
        LineFault::Memory
    }
}

/// Why a script can't be read.
#[derive(Clone, Copy)]
pub enum ScriptFault {
    /// The line of this number, from 1, is the first that isn't good.
    Line(u64),
    /// No memory was found.
    Memory,
}
