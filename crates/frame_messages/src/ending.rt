//! What a run ends as: its status, and whether what it made gets its names. And what is printed of it.

ghost use Rattle.std.specs.Prelude.{◌≡◌, ◌≤◌, ◌==◌, ℕ, Bool, IfOk, IfSome, List, OnOk, true, false};
ghost use Rattle.std.specs.Io.KnownBytes.{Appends};
ghost use Rattle.std.specs.List.{list_any};
ghost use Rattle.std.specs.Option.{is_some};
ghost use Rattle.frame_messages.specs.Bare.{AreCounted, AreInOrder, is_bare};
ghost use Rattle.frame_messages.specs.Ending.{IsQuiet, is_any_bare, is_other, nothing_found, order_status, quiet_text, status_after, status_found};
ghost use Rattle.frame_messages.specs.Told.{IsEnding, IsFound, OneEnding, OneTold, OneUncovered};
ghost use Rattle.frame_messages.specs.Unreached.{is_unreached};
ghost use Rattle.frame_requests.specs.Seen.{IsAnyUncovered, Sees, last_seen, rate_seen};
ghost use Rattle.frame_requests.specs.declared.seen.Shape.{Shape};

use crate::counts::{is_other, say_counts};
use crate::ranges::Noted;
use crate::report::{Bare, find_bare, say_bare};
use frame_requests::{Options, RunFault, Seen};
use std::io;
use std::io::Write;

// The status where a range was not reached, and that is a fault.
const RANGE: u8 = 8;

// The status where a cover covers nothing, and that is a fault.
const COVER: u8 = 9;

// The status where a cover comes after an edit that may show what it covers, and that is a fault.
const ORDER: u8 = 10;

// The status where the input has another number of frames than was asked for.
const COUNT: u8 = 11;

// The status where a frame has no box, and that is a fault.
const BOX: u8 = 12;

/// What was found of the frames of an input, and may be a fault.
#[derive(Clone, Copy, PartialEq, Eq)]
pub struct Found {
    /// Another number of frames was asked for.
    pub other_count: bool,
    /// The frames that have no box of the list, where there is one.
    pub bare: Option<Bare>,
    /// A cover covers nothing in a frame.
    pub uncovered: bool,
    /// The input ends before a range.
    pub unreached: bool,
}

/// What a run ends as.
#[derive(Clone, Copy, PartialEq, Eq)]
pub struct Ending {
    /// The status of the program.
    pub status: u8,
    /// Whether the output and the report get their names.
    pub is_named: bool,
    /// What was found where all frames were read.
    pub found: Found,
}

/// The status that ends a run before it begins, where an edit that covers comes too late and that is
/// a fault.
pub fn order_status(strict: bool, late: bool) -> Option<u8>
    ensures { result ≡ order_status strict late }
{
    if strict && late { Some(ORDER) } else { None }
}

impl Found {
    // Nothing.
    fn nothing() -> Found
        ensures { result ≡ nothing_found }
    {
        Found {
            other_count: false,
            bare: None,
            uncovered: false,
            unreached: false,
        }
    }

    // What is found of so many frames.
    fn of(noted: Noted<'_>, options: Options, seen: &Seen, count: u64) -> Found
        ensures counts { result.other_count
            ≡ is_other count options.frames noted.entry.texts }
        ensures bare { AreInOrder noted.entry.steps.now → is_some result.bare
            ≡ is_any_bare noted.entry.texts noted.entry.steps.now count }
        ensures stretch { AreInOrder noted.entry.steps.now
            → IfSome result.bare (AreCounted (is_bare noted.entry.steps.now) count) }
        ensures uncovered { (shapes : List (ℕ × Shape)) → Sees noted.entry.steps.now shapes seen.now
            → last_seen seen.now ≤ count → result.uncovered ≡ true
            → IsAnyUncovered shapes noted.entry.steps.now count }
        ensures covered { (shapes : List (ℕ × Shape)) → Sees noted.entry.steps.now shapes seen.now
            → last_seen seen.now ≤ count → result.uncovered ≡ false
            → IsAnyUncovered shapes noted.entry.steps.now count → ⊥ }
        ensures unreached { result.unreached
            ≡ list_any (λ e. is_unreached count (rate_seen seen.now) e) noted.entry.steps.now }
        ensures is { IsFound noted.entry.texts noted.entry.steps.now options.frames count seen.now
            result }
    {
        Found {
            other_count: is_other(count, options.frames, noted.texts),
            bare: match noted.texts.boxes {
                Some(_) => find_bare(noted.steps, count),
                None => None,
            },
            uncovered: noted.is_any_uncovered(seen, count),
            unreached: noted.is_any_unreached(count, seen.rate()),
        }
    }

    // The status of the first that is a fault, or 0.
    fn status(self, options: Options) -> u8
        ensures { result ≡ status_found options.strict options.require_box self }
    {
        if self.other_count {
            COUNT
        } else if self.bare.is_some() && options.require_box {
            BOX
        } else if self.uncovered && options.strict {
            COVER
        } else if self.unreached && options.strict {
            RANGE
        } else {
            0
        }
    }
}

/// What a run ends as that has this result, where it is known whether all that it made is on its disk.
/// A fault of the run counts before what is found of the frames. `tell_found` prints that.
pub fn ending_of(
    noted: Noted<'_>,
    options: Options,
    seen: &Seen,
    outcome: Result<u64, RunFault>,
    is_kept: bool,
) -> Ending
    ensures status { result.status
        ≡ status_after options.strict options.require_box outcome is_kept result.found }

    // Exactly a run with the status 0 gives what it made its names.
    ensures named { result.is_named ≡ (result.status == 0) }

    // Without a range that isn't reached and a cover that covers nothing, the status is the same with
    // `--strict` and without it.
    ensures strict { result.found.uncovered ≡ false → result.found.unreached ≡ false
        → (strict : Bool) → result.status
        ≡ status_after strict options.require_box outcome is_kept result.found }

    // What was found where all frames were read, and all is on its disk.
    ensures counts { is_kept ≡ true → IfOk outcome (λ count. result.found.other_count
        ≡ is_other count options.frames noted.entry.texts) }
    ensures bare { is_kept ≡ true → AreInOrder noted.entry.steps.now → IfOk outcome
        (λ count. is_some result.found.bare
        ≡ is_any_bare noted.entry.texts noted.entry.steps.now count) }
    ensures stretch { is_kept ≡ true → AreInOrder noted.entry.steps.now → IfOk outcome
        (λ count. IfSome result.found.bare (AreCounted (is_bare noted.entry.steps.now) count)) }
    ensures uncovered { is_kept ≡ true → IfOk outcome (λ count. (shapes : List (ℕ × Shape))
        → Sees noted.entry.steps.now shapes seen.now → last_seen seen.now ≤ count
        → result.found.uncovered ≡ true → IsAnyUncovered shapes noted.entry.steps.now count) }
    ensures covered { is_kept ≡ true → IfOk outcome (λ count. (shapes : List (ℕ × Shape))
        → Sees noted.entry.steps.now shapes seen.now → last_seen seen.now ≤ count
        → result.found.uncovered ≡ false → IsAnyUncovered shapes noted.entry.steps.now count → ⊥) }
    ensures unreached { is_kept ≡ true → IfOk outcome (λ count. result.found.unreached
        ≡ list_any (λ e. is_unreached count (rate_seen seen.now) e) noted.entry.steps.now) }

    // With `--strict` and status 0 nothing was found but frames without a box.
    ensures quiet { options.strict ≡ true → result.status ≡ 0 → IsQuiet result.found }

    // The options, the texts, the edits, the result and what was seen decide it. So runs that have
    // seen frames of the same shapes end as one.
    ensures ending { IsEnding options.strict options.require_box options.frames noted.entry.texts
        noted.entry.steps.now outcome is_kept seen.now result }
    ensures one_ending { OneEnding }

    // Messages take the same of both: the last shape, its number, the rate, and for each edit the
    // first frame in which it covers nothing.
    ensures one_told { OneTold }
    ensures one_uncovered { OneUncovered }
{
    let (status, found) = match outcome {
        Ok(count) => {
            if is_kept {
                let found = Found::of(noted, options, seen, count);
                (found.status(options), found)
            } else {
                (RunFault::Output.status(), Found::nothing())
            }
        }
        Err(fault) => (fault.status(), Found::nothing()),
    };
    Ending {
        status,
        is_named: status == 0,
        found,
    }
}

/// Prints what was found of the frames after a run that has this result. Nothing else is printed of a
/// run that has no fault.
///
/// # Errors
///
/// The writer fails.
pub fn tell_found<W: Write>(
    noted: Noted<'_>,
    options: Options,
    seen: &Seen,
    outcome: Result<u64, RunFault>,
    found: Found,
    writer: &mut W,
) -> io::Result<()>
    // Where nothing was found but frames without a box, their number and the longest stretch of them
    // are all that is printed.
    ensures quiet { IsQuiet found → OnOk result (Appends (W.contents writer.old)
        (W.contents writer.new) (quiet_text options.require_box outcome found)) }
{
    let Ok(count) = outcome else {
        return Ok(());
    };
    if found.other_count {
        say_counts(count, options.frames, noted.texts, writer)?;
    }
    if found.uncovered {
        noted.say_uncovered(seen, count, writer)?;
    }
    if found.unreached {
        noted.say_unreached(count, seen.rate(), writer)?;
    }
    match found.bare {
        Some(bare) => say_bare(bare, count, options.require_box, writer),
        None => Ok(()),
    }
}
