//! What the words ask for, and why a job ends early.

use std::alloc::{AllocError, AllocFailed};
use std::env;

/// A job.
#[derive(Clone, Copy, PartialEq, Eq)]
pub(crate) enum Job {
    /// Turns, mirrors, mosaics, fills and counts of pixels of three cells.
    Three,
    /// Means and blurs.
    Means,
    /// Rows that are cloned and compared.
    Rows,
    /// Long rows that are compared.
    Equal,
    /// Short rows that are compared.
    Short,
    /// Turns by strips, and half turns, which have none.
    Strips,
}

/// How large the input of a job is.
#[derive(Clone, Copy, PartialEq, Eq)]
pub(crate) enum Size {
    /// For timing.
    Full,
    /// For a test that the jobs run.
    Small,
}

/// What the words ask for.
#[derive(Clone, Copy)]
pub(crate) struct Request {
    // The one job, or all.
    job: Option<Job>,
    pub(crate) size: Size,
    pub(crate) seed: u64,
}

impl Request {
    /// Whether a job is asked for.
    pub(crate) fn includes(&self, job: Job) -> bool {
        match self.job {
            Some(only) => only == job,
            None => true,
        }
    }
}

/// Why a job ends early.
#[derive(Clone, Copy)]
pub(crate) enum Fault {
    /// The words ask for no job.
    Words,
    /// Out of memory.
    Memory,
    /// What was made isn't what the job needs.
    Input,
}

impl From<AllocError> for Fault {
    fn from(_e: AllocError) -> Fault {
        Fault::Memory
    }
}

impl<T: Drop> From<AllocFailed<T>> for Fault {
    fn from(_e: AllocFailed<T>) -> Fault {
        Fault::Memory
    }
}

// The job of this name, or `None` for all of them.
fn read_job(word: &str) -> Result<Option<Job>, Fault> {
    match word {
        "all" => Ok(None),
        "three" => Ok(Some(Job::Three)),
        "means" => Ok(Some(Job::Means)),
        "rows" => Ok(Some(Job::Rows)),
        "equal" => Ok(Some(Job::Equal)),
        "short" => Ok(Some(Job::Short)),
        "strips" => Ok(Some(Job::Strips)),
        _ => Err(Fault::Words),
    }
}

fn read_size(word: &str) -> Result<Size, Fault> {
    match word {
        "full" => Ok(Size::Full),
        "small" => Ok(Size::Small),
        _ => Err(Fault::Words),
    }
}

/// Reads the words of the command line.
pub(crate) fn read_request(rt: &HostRuntime) -> Result<Request, Fault> {
    let Ok(mut words) = env::args(rt) else {
        return Err(Fault::Words);
    };
    let (Some(_), Some(job), Some(size), Some(seed)) = (
        words.next(),
        words.next(),
        words.next(),
        words.next(),
    ) else {
        return Err(Fault::Words);
    };
    Ok(Request {
        job: read_job(&job)?,
        size: read_size(&size)?,
        seed: seed.parse().ok().ok_or(Fault::Words)?,
    })
}
