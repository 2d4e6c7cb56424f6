//! The frames of a video, read, edited and written one by one.

ghost use Rattle.std.specs.Prelude.{◌≡◌, ◌+◌, ◌≤◌, ◌<◌, length, vec_capacity};
ghost use Rattle.devices.specs.Device.{device_of, failures_of};
ghost use Rattle.frame_formats.specs.Planned.{recipe_of, plan_room, plan_other_room};
ghost use Rattle.image_planes.specs.Scratch.{HasRoom};
ghost use Rattle.frame_runs.specs.Failing.{FramesFail};
ghost use Rattle.frame_runs.specs.Fault.{CanCount, Counts, reader_failures};
ghost use Rattle.frame_runs.specs.Passing.{WordIs, LineIs, PassesFrames};

use crate::cells::pass_cells;
use devices::{Counted, LineFault, fill, read_line};
use frame_formats::Plan;
use frame_requests::RunFault;
use image_planes::Scratch;
use std::io::{Read, Write};

/// What was found in place of a frame's line.
#[derive(Clone, Copy)]
pub(crate) enum Found {
    /// The line, and the number of its bytes, including its line feed.
    Frame(usize),
    /// The end of the input.
    End,
    /// Something else.
    Other,
}

/// What the first bytes of a frame's line are.
#[derive(Clone, Copy)]
pub(crate) enum Begin {
    /// The whole line: there are no parameters.
    Whole,
    /// The word, and the space before its parameters.
    Open,
    /// There are none: the input is at its end.
    End,
    /// Something else.
    Other,
}

// Reads the word that the line of a frame begins with, and the byte after it.
fn read_word<R: Read>(reader: &mut Counted<R>, word: &mut [u8]) -> Result<Begin, RunFault>
    requires room { length word.old ≡ 6 }
    requires counts { failures_of reader.old < u64.MAX }
    ensures found { WordIs result word.new (R.remaining (device_of reader.old))
        (R.remaining (device_of reader.new)) }
    ensures count { failures_of reader.new ≡ failures_of reader.old + reader_failures result }
{
    let count = fill(reader, word)?;
    if count == 0 {
        return Ok(Begin::End);
    }
    if count < word.len() {
        return Ok(Begin::Other);
    }
    if *word == *b"FRAME\n".as_slice() {
        Ok(Begin::Whole)
    } else if *word == *b"FRAME ".as_slice() {
        Ok(Begin::Open)
    } else {
        Ok(Begin::Other)
    }
}

// Reads the line of the next frame into the front of the buffer.
fn read_frame_line<R: Read>(reader: &mut Counted<R>, line: &mut [u8]) -> Result<Found, RunFault>
    requires room { length line.old ≡ 256 }
    requires counts { failures_of reader.old < u64.MAX }
    ensures found { LineIs result line.new (R.remaining (device_of reader.old))
        (R.remaining (device_of reader.new)) }
    ensures count { failures_of reader.new ≡ failures_of reader.old + reader_failures result }
{
    let (word, rest) = line.split_at_mut(6);
    match read_word(reader, word)? {
        Begin::Whole => return Ok(Found::Frame(6)),
        Begin::Open => {}
        Begin::End => return Ok(Found::End),
        Begin::Other => return Ok(Found::Other),
    }
    match read_line(reader, rest) {
        Ok(len) => Ok(Found::Frame(len + 7)),
        Err(LineFault::NoLine) => Ok(Found::Other),
        Err(LineFault::Reader) => Err(RunFault::Input),
    }
}

/// Reads frame after frame, edits it and writes it. Returns the number of frames. After 2^64 - 1
/// frames it reads no further.
pub(crate) fn pass_frames<R: Read, W: Write>(
    reader: &mut Counted<R>,
    writer: &mut Counted<W>,
    plan: &Plan,
    line: &mut [u8],
    cells: &mut Vec<u8>,
    other: &mut Vec<u8>,
    scratch: &mut Scratch,
) -> Result<u64, RunFault>
    requires room { length line.old ≡ 256 }
    requires cells_room { plan_room plan.now ≤ vec_capacity cells.old }
    requires other_room { plan_other_room plan.now ≤ vec_capacity other.old }
    requires scratch { HasRoom (recipe_of plan.now).jobs scratch.old }
    requires counts { CanCount (failures_of reader.old) (failures_of writer.old) }
    ensures passes { PassesFrames result (recipe_of plan.now)
        (R.remaining (device_of reader.old)) (R.remaining (device_of reader.new))
        (W.contents (device_of writer.old)) (W.contents (device_of writer.new)) }
    ensures fails { FramesFail result (recipe_of plan.now)
        (R.remaining (device_of reader.old)) (R.remaining (device_of reader.new))
        (W.contents (device_of writer.old)) (W.contents (device_of writer.new)) }
    ensures counts { Counts result (failures_of reader.old) (failures_of reader.new)
        (failures_of writer.old) (failures_of writer.new) }
{
    for number in 0..u64::MAX {
        let len = match read_frame_line(reader, line)? {
            Found::Frame(len) => len,
            Found::End => return Ok(number),
            Found::Other => return Err(RunFault::Frame(number)),
        };
        let head = &line[..len];
        pass_cells(reader, writer, plan, number, head, cells, other, scratch)?;
    }
    Err(RunFault::Frame(u64::MAX))
}
