//! A reader that fails: what is proved of the bytes that it gave before, as a caller uses it.

ghost use Rattle.std.specs.Prelude.{◌≡◌, ◌<◌, Err, IfOk, IfSome, None, Ok, length, take};
ghost use Rattle.std.specs.Io.KnownBytes.{Appends, Consumes};
ghost use Rattle.devices.specs.Device.{device_of, failures_of};
ghost use Rattle.devices.specs.Whole.{GaveFewer};
ghost use Rattle.frame_edits.specs.Edits.{edits};
ghost use Rattle.frame_runs.specs.Failing.{InputFails};
ghost use Rattle.frame_runs.specs.Program.{Writes};

use devices::{Counted, fill, write_all};
use frame_edits::{Edit, Framing};
use frame_requests::{RunFault, Seen};
use frame_runs::run;
use std::alloc::Global;
use std::io::{Read, Write};

/// Reads as many bytes as the piece has, or up to the end, and writes them. Returns their number.
pub(crate) fn pass_piece<R: Read, W: Write>(
    piece: &mut [u8],
    reader: &mut Counted<R>,
    writer: &mut Counted<W>,
) -> Result<usize, RunFault>
    requires reader_counts { failures_of reader.old < u64.MAX }
    requires writer_counts { failures_of writer.old < u64.MAX }
    ensures read { IfOk result (λ n. Consumes (R.remaining (device_of reader.old))
        (R.remaining (device_of reader.new)) (take n piece.new)) }
    ensures written { IfOk result (λ n. Appends (W.contents (device_of writer.old))
        (W.contents (device_of writer.new)) (take n piece.new)) }

    // A reader that failed gave fewer bytes than the piece has, and none of them was written.
    ensures fewer { result ≡ Err RunFault.Input → GaveFewer (length piece.old)
        (R.remaining (device_of reader.old)) (R.remaining (device_of reader.new)) }
    ensures nothing { result ≡ Err RunFault.Input → writer.new ≡ writer.old }
{
    let Ok(count) = fill(reader, piece) else {
        return Err(RunFault::Input);
    };
    match write_all(writer, &piece[..count]) {
        Ok(()) => Ok(count),
        Err(_) => Err(RunFault::Output),
    }
}

/// Edits an input, and takes a reader that fails for one that ends. Returns the number of frames or
/// pictures, or `None` where the reader failed.
pub(crate) fn run_cut<R: Read, W: Write>(
    alloc: Global,
    limit: usize,
    steps: &[Edit],
    framing: Option<Framing>,
    seen: &mut Seen,
    reader: &mut Counted<R>,
    writer: &mut Counted<W>,
) -> Result<Option<u64>, RunFault>
    requires reader_counts { failures_of reader.old < u64.MAX }
    requires writer_counts { failures_of writer.old < u64.MAX }
    ensures whole { IfOk result (λ found. IfSome found (λ count. Writes (Ok count)
        (edits steps.now framing) (R.remaining (device_of reader.old))
        (W.contents (device_of writer.old)) (W.contents (device_of writer.new)))) }

    // What was written is what an input of exactly the bytes that were read gets.
    ensures cut { IfOk result (λ found. found ≡ None → InputFails (Err RunFault.Input)
        (edits steps.now framing) (R.remaining (device_of reader.old))
        (R.remaining (device_of reader.new)) (W.contents (device_of writer.old))
        (W.contents (device_of writer.new))) }
{
    match run(alloc, limit, steps, framing, seen, reader, writer) {
        Ok(count) => Ok(Some(count)),
        Err(RunFault::Input) => Ok(None),
        Err(fault) => Err(fault),
    }
}
