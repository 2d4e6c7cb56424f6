//! Why a run ended.

ghost use Rattle.std.specs.Prelude.{◌≡◌, Some};

use devices::{INPUT_TEXT, MEMORY_TEXT, OUTPUT_TEXT, ReadFailed, WriteFailed};
use std::fmt;

/// Why a run ended before everything was written.
#[derive(Clone, Copy, Debug, PartialEq, Eq)]
pub enum RunFault {
    /// The input begins neither with the line of a supported video nor with the header of a supported
    /// picture. Nothing was written.
    Header,
    /// The edit isn't valid for this video or picture. It reaches outside a plane, doesn't fall on
    /// whole chroma samples, or has a colour where there is none. The pictures before it were
    /// written.
    Outside,
    /// So many frames or pictures were read, and what comes after them isn't one, or no number
    /// counts one more. They were written.
    Frame(u64),
    /// Out of memory. So many pictures were read and written, and the header of one more was read.
    /// For a video it is 0, and nothing was written.
    Memory(u64),
    /// The reader failed. The frames or pictures before it were written.
    Input,
    /// The writer failed. The first part of the output was written.
    Output,
}

impl RunFault {
    ghost use Rattle.frame_requests.specs.Fault.{status_of};

    /// The status that the program ends with.
    pub fn status(&self) -> u8
        ensures { result ≡ status_of self.now }
    {
        match self {
            RunFault::Header => 2,
            RunFault::Memory(_) => 3,
            RunFault::Input => 4,
            RunFault::Output => 5,
            RunFault::Outside => 6,
            RunFault::Frame(_) => 7,
        }
    }
}

impl fmt::Display for RunFault {
    ghost use Rattle.frame_requests.specs.Fault.{fault_text};

    ghost output = { λ fault. Some (fault_text fault) };

    fn fmt<W: fmt::Write>(&self, f: &mut fmt::Formatter<W>) -> fmt::Result {
        match self {
            RunFault::Header => write!(f, "fault header"),
            RunFault::Outside => write!(f, "fault outside"),
            RunFault::Frame(number) => write!(f, "fault frame {number}"),
            RunFault::Memory(number) => write!(f, "{MEMORY_TEXT} {number}"),
            RunFault::Input => write!(f, "{INPUT_TEXT}"),
            RunFault::Output => write!(f, "{OUTPUT_TEXT}"),
        }
    }
}

impl From<ReadFailed> for RunFault {
    ghost use Rattle.frame_requests.specs.declared.fault.RunFault.TheVariants.{Input};

    ghost from_gives = { λ _ e. e ≡ Input };

    fn from(_e: ReadFailed) -> RunFault {
        RunFault::Input
    }
}

impl From<WriteFailed> for RunFault {
    ghost use Rattle.frame_requests.specs.declared.fault.RunFault.TheVariants.{Output};

    ghost from_gives = { λ _ e. e ≡ Output };

    fn from(_e: WriteFailed) -> RunFault {
        RunFault::Output
    }
}
