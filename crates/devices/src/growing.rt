//! Buffers that grow within their capacity, so that memory is touched only as bytes arrive.

ghost use Rattle.std.specs.Prelude.{◌≡◌, ℕ, List, Option, ◌<◌, ◌≤◌, ◌+◌, ◌-◌, ◌^◌, ◌++◌, IfOk, OnErr, length, max, replicate, take, vec_capacity};
ghost use Rattle.std.specs.Io.KnownBytes.{Consumes, IsAtEnd};
ghost use Rattle.devices.specs.Device.{device_of, failures_of, errors};
ghost use Rattle.devices.specs.Whole.{GaveFewer};

use crate::counted::Counted;
use crate::whole::{ReadFailed, fill};
use std::io::Read;

// So many bytes of a buffer are touched before they are read.
const AHEAD: usize = 1 << 20;

/// Makes a buffer so long within its capacity, where it is shorter. The new bytes are 0.
///
/// # Requires
///
/// The capacity of the buffer is as large.
pub fn lengthen(buffer: &mut Vec<u8>, len: usize)
    requires { len ≤ vec_capacity buffer.old }
    ensures exact { buffer.new.items
        ≡ buffer.old.items ++ replicate (len - length buffer.old.items) 0 }
    ensures len { len ≤ length buffer.new.items }
    ensures front { (n : ℕ) → n ≤ length buffer.old.items
        → take n buffer.new.items ≡ take n buffer.old.items }
    ensures capacity { vec_capacity buffer.old ≤ vec_capacity buffer.new }
{
    if buffer.len() < len {
        let Ok(()) = buffer.resize(len, 0) else {
            unreachable!()
        };
    }
}

// Fills so many bytes of the buffer after those that were read before, as far as the reader goes.
#[tactic(auto, using(crate::proofs::Filling::read_more))]
fn fill_part<R: Read>(
    reader: &mut Counted<R>,
    buffer: &mut [u8],
    filled: usize,
    more: usize,
) -> Result<usize, ReadFailed>
    requires room { filled + more ≤ length buffer.old }
    requires counts { failures_of reader.old < u64.MAX }
    ensures within { IfOk result (λ n. n ≤ more) }
    ensures bytes { IfOk result (λ n. (input : Option (List ℕ))
        → Consumes input (R.remaining (device_of reader.old)) (take filled buffer.old)
        → Consumes input (R.remaining (device_of reader.new)) (take (filled + n) buffer.new)) }
    ensures end { IfOk result (λ n. n < more → IsAtEnd (R.remaining (device_of reader.new))) }
    ensures failed { OnErr result (GaveFewer more
        (R.remaining (device_of reader.old)) (R.remaining (device_of reader.new))) }
    ensures count { failures_of reader.new ≡ failures_of reader.old + errors result }
{
    fill(reader, &mut buffer[filled..filled + more])
}

/// Fills the front of the buffer, so many bytes, as far as the reader goes. Returns the number of
/// bytes read, which is less only where the reader is at its end. A reader that fails gave fewer
/// bytes. The buffer becomes longer within its capacity, and only as bytes arrive: by at most 1 MiB
/// more than were read.
///
/// # Requires
///
/// The capacity of the buffer is as large. The reader's count can still be increased by one.
pub fn fill_front<R: Read>(
    reader: &mut Counted<R>,
    buffer: &mut Vec<u8>,
    size: usize,
) -> Result<usize, ReadFailed>
    requires room { size ≤ vec_capacity buffer.old }
    requires counts { failures_of reader.old < u64.MAX }
    ensures within { IfOk result (λ n. n ≤ size) }
    ensures len { IfOk result (λ n. n ≤ length buffer.new.items) }
    ensures bytes { IfOk result (λ n. Consumes (R.remaining (device_of reader.old))
        (R.remaining (device_of reader.new)) (take n buffer.new.items)) }
    ensures end { IfOk result (λ n. n < size → IsAtEnd (R.remaining (device_of reader.new))) }
    ensures failed { OnErr result (GaveFewer size
        (R.remaining (device_of reader.old)) (R.remaining (device_of reader.new))) }
    ensures ahead { IfOk result
        (λ n. length buffer.new.items ≤ max (length buffer.old.items) (n + 2 ^ 20)) }
    ensures most { length buffer.new.items ≤ max (length buffer.old.items) size }
    ensures capacity { vec_capacity buffer.old ≤ vec_capacity buffer.new }
    ensures count { failures_of reader.new ≡ failures_of reader.old + errors result }
{
    let mut filled = 0;
    while filled < size {
        let more = AHEAD.min(size - filled);
        lengthen(buffer, filled + more);
        match fill_part(reader, buffer, filled, more) {
            Ok(count) => {
                filled += count;
                if count < more {
                    return Ok(filled);
                }
            }
            Err(failed) => return Err(failed),
        }
    }
    Ok(filled)
}
