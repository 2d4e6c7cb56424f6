//! Two runs whose inputs differ only in what covers and fills cover: what is proved of one run and of
//! another, used together.

ghost use Rattle.std.specs.Prelude.{◌≡◌, ℕ, List, OnOk, Some, false, true};
ghost use Rattle.std.specs.Io.KnownBytes.{Appends};
ghost use Rattle.devices.specs.Device.{device_of, failures_of};
ghost use Rattle.frame_edits.specs.Edits.{edits};
ghost use Rattle.frame_edits.specs.Order.{covers_first};
ghost use Rattle.frame_messages.specs.Bare.{AreInOrder};
ghost use Rattle.frame_runs.specs.Alike.{Agree, AlikeUncovered, is_broken_off};
ghost use Rattle.frame_runs.specs.Fault.{CanCount};

use devices::Counted;
use frame_edits::Framing;
use frame_messages::{Ending, Noted, ending_of, tell_found};
use frame_requests::{Options, RunFault, Seen};
use frame_runs::run;
use std::io;
use std::io::{Read, Write};

/// The result of a run, what it ends as, and whether what was found is printed.
#[derive(Drop)]
pub(crate) struct Ended {
    pub(crate) outcome: Result<u64, RunFault>,
    pub(crate) ending: Ending,
    pub(crate) told: io::Result<()>,
}

/// Runs the same edits over two inputs. What was found in the input is printed to `errors`, and of the
/// other input to `other_errors`.
pub(crate) fn run_both<R: Read, W: Write, E: Write>(
    noted: Noted<'_>,
    options: Options,
    framing: Option<Framing>,
    reader: &mut Counted<R>,
    writer: &mut Counted<W>,
    errors: &mut E,
    other_reader: &mut Counted<R>,
    other_writer: &mut Counted<W>,
    other_errors: &mut E,
) -> (Ended, Ended)
    requires counts { CanCount (failures_of reader.old) (failures_of writer.old) }
    requires others { CanCount (failures_of other_reader.old) (failures_of other_writer.old) }

    // Where covers and fills come first, result and output reveal nothing of what they cover.
    ensures outputs { (mine theirs old new other : List ℕ)
        → covers_first noted.entry.steps.now ≡ true
        → AlikeUncovered (edits noted.entry.steps.now framing) mine theirs
        → R.remaining (device_of reader.old) ≡ Some mine
        → R.remaining (device_of other_reader.old) ≡ Some theirs
        → W.contents (device_of writer.old) ≡ Some old
        → W.contents (device_of other_writer.old) ≡ Some old
        → W.contents (device_of writer.new) ≡ Some new
        → W.contents (device_of other_writer.new) ≡ Some other
        → Agree result.0.outcome result.1.outcome new other }

    // And so do the status and what is found, where no device and no memory ends a run.
    ensures endings { (mine theirs : List ℕ) → covers_first noted.entry.steps.now ≡ true
        → AreInOrder noted.entry.steps.now
        → AlikeUncovered (edits noted.entry.steps.now framing) mine theirs
        → R.remaining (device_of reader.old) ≡ Some mine
        → R.remaining (device_of other_reader.old) ≡ Some theirs
        → is_broken_off result.0.outcome ≡ false → result.0.outcome ≡ result.1.outcome
        → result.0.ending ≡ result.1.ending }

    // And with `--strict` and status 0 so does the text that is printed after a run: it is one.
    ensures told { (mine theirs : List ℕ) → covers_first noted.entry.steps.now ≡ true
        → AreInOrder noted.entry.steps.now
        → AlikeUncovered (edits noted.entry.steps.now framing) mine theirs
        → R.remaining (device_of reader.old) ≡ Some mine
        → R.remaining (device_of other_reader.old) ≡ Some theirs
        → options.strict ≡ true → result.0.ending.status ≡ 0
        → result.0.outcome ≡ result.1.outcome
        → (text : List ℕ) × OnOk result.0.told (Appends (E.contents errors.old) (E.contents errors.new) text)
        × OnOk result.1.told (Appends (E.contents other_errors.old) (E.contents other_errors.new) text) }
{
    let alloc = noted.alloc;
    let mut seen = Seen::nothing(alloc);
    let mut other_seen = Seen::nothing(alloc);
    let outcome = run(
        alloc,
        options.limit,
        noted.steps,
        framing,
        &mut seen,
        reader,
        writer,
    );
    let other = run(
        alloc,
        options.limit,
        noted.steps,
        framing,
        &mut other_seen,
        other_reader,
        other_writer,
    );
    let ending = ending_of(noted, options, &seen, outcome, true);
    let other_ending = ending_of(noted, options, &other_seen, other, true);
    let (found, other_found) = (ending.found, other_ending.found);
    let told = tell_found(noted, options, &seen, outcome, found, errors);
    let other_told = tell_found(
        noted,
        options,
        &other_seen,
        other,
        other_found,
        other_errors,
    );
    let first = Ended {
        outcome,
        ending,
        told,
    };
    let second = Ended {
        outcome: other,
        ending: other_ending,
        told: other_told,
    };
    (first, second)
}
