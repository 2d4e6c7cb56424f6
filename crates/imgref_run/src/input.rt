//! The input of a run, read whole.

ghost use Rattle.std.specs.Prelude.{◌≡◌, ◌<◌, ◌+◌, IfOk, OnOk, IfErr};
ghost use Rattle.std.specs.Io.KnownBytes.{Consumes, IsAtEnd};
ghost use Rattle.devices.specs.Device.{device_of, failures_of};
ghost use Rattle.imgref_run.specs.Fault.{reader_failures, IsReadFault};

use crate::fault::RunFault;
use devices::Counted;
use std::alloc::Global;
use std::io::Read;

// How many bytes a read asks for.
const PIECE: usize = 4096;

/// All remaining bytes of the reader.
pub(crate) fn read_all<R: Read>(alloc: Global, reader: &mut Counted<R>) -> Result<Vec<u8>, RunFault>
    requires { failures_of reader.old < u64.MAX }
    ensures bytes { IfOk result (λ input. Consumes (R.remaining (device_of reader.old))
        (R.remaining (device_of reader.new)) input.items) }
    ensures end { OnOk result (IsAtEnd (R.remaining (device_of reader.new))) }
    ensures count { failures_of reader.new ≡ failures_of reader.old + reader_failures result }
    ensures fault { IfErr result IsReadFault }
{
    let mut input = Vec::new(alloc);
    let mut piece = [0u8; PIECE];
    loop {
        match reader.read(&mut piece) {
            Ok(0) => return Ok(input),
            Ok(count) => {
                if input.extend_from_slice(&piece[..count]).is_err() {
                    return Err(RunFault::Memory);
                }
            }
            Err(_) => return Err(RunFault::Input),
        }
    }
}
