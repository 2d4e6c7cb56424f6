//! Whole buffers and lines from a reader, and whole buffers to a writer.

ghost use Rattle.std.specs.Prelude.{◌≡◌, ◌≢◌, ◌<◌, ◌≤◌, ◌+◌, ◌++◌, ◌∷◌, [], All, OnOk, OnErr, IfOk, IfErr, IfSome, IfNone, length, take};
ghost use Rattle.std.specs.Io.KnownBytes.{Appends, Consumes, IsAtEnd, Keeps};
ghost use Rattle.devices.specs.Device.{device_of, failures_of, errors};
ghost use Rattle.devices.specs.Whole.{AppendsBeginning, Explains, GaveFewer, line_failures};

use crate::counted::Counted;
use std::io::{Read, Write};

/// The reader failed.
#[derive(Clone, Copy, Debug, PartialEq, Eq)]
pub struct ReadFailed;

/// The writer failed, or took no byte.
#[derive(Clone, Copy, Debug, PartialEq, Eq)]
pub struct WriteFailed;

/// Why no line was read.
#[derive(Clone, Copy, Debug, PartialEq, Eq)]
pub enum LineFault {
    /// There is no line feed within the length of the buffer.
    NoLine,
    /// The reader failed.
    Reader,
}

/// Fills the buffer as far as the reader goes, and returns the number of bytes read. It is less
/// than the length of the buffer only where the reader is at its end. A reader that fails gave
/// fewer bytes.
///
/// # Requires
///
/// The reader's count can still be increased by one.
pub fn fill<R: Read>(reader: &mut Counted<R>, buffer: &mut [u8]) -> Result<usize, ReadFailed>
    requires { failures_of reader.old < u64.MAX }
    ensures within { IfOk result (λ n. n ≤ length buffer.new) }
    ensures bytes { IfOk result (λ n. Consumes (R.remaining (device_of reader.old))
        (R.remaining (device_of reader.new)) (take n buffer.new)) }
    ensures end { IfOk result
        (λ n. n < length buffer.new → IsAtEnd (R.remaining (device_of reader.new))) }
    ensures failed { OnErr result (GaveFewer (length buffer.old)
        (R.remaining (device_of reader.old)) (R.remaining (device_of reader.new))) }
    ensures count { failures_of reader.new ≡ failures_of reader.old + errors result }
{
    let mut filled = 0;
    while filled < buffer.len() {
        match reader.read(&mut buffer[filled..]) {
            Ok(0) => return Ok(filled),
            Ok(count) => filled += count,
            Err(_) => return Err(ReadFailed),
        }
    }
    Ok(filled)
}

/// The next byte, or `None` where the reader is at its end. A reader that fails gave no byte.
///
/// # Requires
///
/// The reader's count can still be increased by one.
pub fn read_byte<R: Read>(reader: &mut Counted<R>) -> Result<Option<u8>, ReadFailed>
    requires { failures_of reader.old < u64.MAX }
    ensures byte { IfOk result (λ found. IfSome found (λ byte. Consumes
        (R.remaining (device_of reader.old)) (R.remaining (device_of reader.new)) (byte ∷ []))) }
    ensures end { IfOk result (λ found. IfNone found (Consumes (R.remaining (device_of reader.old))
        (R.remaining (device_of reader.new)) [] × IsAtEnd (R.remaining (device_of reader.new)))) }
    ensures failed { OnErr result (Keeps (R.remaining (device_of reader.old))
        (R.remaining (device_of reader.new))) }
    ensures count { failures_of reader.new ≡ failures_of reader.old + errors result }
{
    let mut one = [0u8; 1];
    match fill(reader, &mut one) {
        Ok(0) => Ok(None),
        Ok(_) => Ok(Some(one[0])),
        Err(e) => Err(e),
    }
}

/// Reads up to and including the first line feed, and returns the number of bytes before it.
///
/// # Requires
///
/// The reader's count can still be increased by one.
///
/// # Errors
///
/// `NoLine` where there is no line feed within the length of the buffer. `Reader` where the reader
/// failed, which gave fewer bytes and no line feed.
pub fn read_line<R: Read>(reader: &mut Counted<R>, line: &mut [u8]) -> Result<usize, LineFault>
    requires { failures_of reader.old < u64.MAX }
    ensures within { IfOk result (λ n. n < length line.new) }
    ensures bytes { IfOk result (λ n. Consumes (R.remaining (device_of reader.old))
        (R.remaining (device_of reader.new)) (take n line.new ++ 10 ∷ [])) }
    ensures feed { IfOk result (λ n. take (n + 1) line.new ≡ take n line.new ++ 10 ∷ []) }
    ensures one_line { IfOk result (λ n. All (λ b. b ≢ 10) (take n line.new)) }
    ensures fault { IfErr result (Explains (length line.old) (R.remaining (device_of reader.old))
        (R.remaining (device_of reader.new))) }
    ensures count { failures_of reader.new ≡ failures_of reader.old + line_failures result }
{
    for at in 0..line.len() {
        let byte = match read_byte(reader) {
            Ok(Some(byte)) => byte,
            Ok(None) => return Err(LineFault::NoLine),
            Err(_) => return Err(LineFault::Reader),
        };
        line[at] = byte;
        if byte == b'\n' {
            return Ok(at);
        }
    }
    Err(LineFault::NoLine)
}

/// Writes the whole buffer. Nothing is flushed.
///
/// # Requires
///
/// The writer's count can still be increased by one.
pub fn write_all<W: Write>(writer: &mut Counted<W>, bytes: &[u8]) -> Result<(), WriteFailed>
    requires { failures_of writer.old < u64.MAX }
    ensures whole { OnOk result (Appends (W.contents (device_of writer.old))
        (W.contents (device_of writer.new)) bytes.now) }
    ensures beginning { OnErr result (AppendsBeginning (W.contents (device_of writer.old))
        (W.contents (device_of writer.new)) bytes.now) }
    ensures count { failures_of writer.new ≡ failures_of writer.old + errors result }
{
    let mut sent = 0;
    while sent < bytes.len() {
        match writer.write(&bytes[sent..]) {
            Ok(0) | Err(_) => return Err(WriteFailed),
            Ok(count) => sent += count,
        }
    }
    Ok(())
}
