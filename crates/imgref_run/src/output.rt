//! The output of a run, written whole.

ghost use Rattle.std.specs.Prelude.{◌≡◌, ◌<◌, ◌+◌, OnOk, OnErr, IfErr};
ghost use Rattle.std.specs.Io.KnownBytes.{Appends};
ghost use Rattle.devices.specs.Device.{device_of, failures_of};
ghost use Rattle.devices.specs.Whole.{AppendsBeginning};
ghost use Rattle.imgref_run.specs.Fault.{writer_failures};

use crate::fault::RunFault;
use devices::Counted;
use std::io::Write;

/// Writes the whole text, and then flushes once.
pub(crate) fn write_all<W: Write>(writer: &mut Counted<W>, text: &[u8]) -> Result<(), RunFault>
    requires { failures_of writer.old < u64.MAX }
    ensures whole { OnOk result
        (Appends (W.contents (device_of writer.old)) (W.contents (device_of writer.new)) text.now) }
    ensures beginning { OnErr result (AppendsBeginning (W.contents (device_of writer.old))
        (W.contents (device_of writer.new)) text.now) }
    ensures count { failures_of writer.new ≡ failures_of writer.old + writer_failures result }
    ensures fault { IfErr result (λ e. e ≡ RunFault.Output) }
{
    if devices::write_all(writer, text).is_err() {
        return Err(RunFault::Output);
    }
    match writer.flush() {
        Ok(()) => Ok(()),
        Err(_) => Err(RunFault::Output),
    }
}
