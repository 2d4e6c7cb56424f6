//! Frames of video and pictures, edited by a plan.

use crate::digest::Digest;
use crate::numbers::Numbers;
use crate::photos::scatter;
use crate::request::{Fault, Size};
use crate::scripts::{push_number, push_numbers};
use frame_formats::{Edits, Kind, Picture, Plan, PlanFault, WordsFault, read_format};
use std::alloc::Global;

impl From<PlanFault> for Fault {
    fn from(fault: PlanFault) -> Fault {
        match fault {
            PlanFault::Outside => Fault::Input,
            PlanFault::Memory => Fault::Memory,
        }
    }
}

impl From<WordsFault> for Fault {
    fn from(fault: WordsFault) -> Fault {
        match fault {
            WordsFault::NoEdit => Fault::Input,
            WordsFault::Memory => Fault::Memory,
        }
    }
}

// The edits that these lines are.
fn edits_of(alloc: Global, lines: &[u8]) -> Result<Edits, Fault> {
    let mut edits = Edits::new(alloc);
    edits.take_lines(alloc, lines)?;
    Ok(edits)
}

// The plan of these edits for a video whose frames are `width` by `height` pixels in 4:2:0.
fn video_plan(alloc: Global, line: &[u8], lines: &[u8]) -> Result<Plan, Fault> {
    let edits = edits_of(alloc, lines)?;
    let format = read_format(line).ok_or(Fault::Input)?;
    Ok(Plan::for_video(alloc, line, format, &edits.steps, edits.framing)?)
}

// The plan of these edits for pictures.
fn picture_plan(alloc: Global, picture: Picture, lines: &[u8]) -> Result<Plan, Fault> {
    let edits = edits_of(alloc, lines)?;
    Ok(Plan::for_picture(alloc, picture, &edits.steps, edits.framing)?)
}

// Edits so many frames by a plan, each with other pixels.
fn edit_frames(
    alloc: Global,
    plan: &Plan,
    count: u64,
    numbers: &mut Numbers,
    digest: &mut Digest,
) -> Result<(), Fault> {
    let mut cells = vec![in alloc; 0u8; plan.room()]?;
    let mut other = vec![in alloc; 0u8; plan.other_room()]?;
    let mut scratch = plan.scratch(alloc)?;
    for number in 0..count {
        scatter(&mut cells, numbers);
        if cells.len() < plan.room() || other.len() < plan.other_room() {
            return Err(Fault::Input);
        }
        digest.add_bytes(plan.edit(number, &mut cells, &mut other, &mut scratch));
    }
    Ok(())
}

// A tracker's list: a rectangle for each frame, at another place.
fn tracked(alloc: Global, numbers: &mut Numbers, count: usize) -> Result<Vec<u8>, Fault> {
    let mut text = Vec::new(alloc);
    for number in 0..count {
        push_number(&mut text, number)?;
        text.extend_from_slice(b"..")?;
        push_number(&mut text, number + 1)?;
        text.extend_from_slice(b" cover ")?;
        let (left, top) = (numbers.below(40), numbers.below(40));
        push_numbers(&mut text, b',', &[left, top, 20, 20])?;
        text.extend_from_slice(b"\n")?;
    }
    Ok(text)
}

/// Edits frames of video in 4:2:0, by a few edits of the whole frame and by a list with a line for
/// each frame.
pub(crate) fn videos(
    alloc: Global,
    size: Size,
    numbers: &mut Numbers,
    digest: &mut Digest,
) -> Result<(), Fault> {
    let small = b"YUV4MPEG2 W96 H64 F25:1 C420jpeg";
    if size == Size::Small {
        let lines = b"cover 8,8,16,16\nmosaic 0,0,96,64 4,4\npad 0,6,0,6 16\n";
        edit_frames(alloc, &video_plan(alloc, small, lines)?, 2, numbers, digest)?;
    } else {
        let line = b"YUV4MPEG2 W1920 H1080 F25:1 C420jpeg";
        let lines = b"cover 64,48,320,160\nmosaic 0,0,1920,1080 8,8\npad 0,60,0,60 16\n";
        edit_frames(
            alloc,
            &video_plan(alloc, line, lines)?,
            100,
            numbers,
            digest,
        )?;
    }
    let count = size.pick(5000, 10);
    let lines = tracked(alloc, numbers, count)?;
    let plan = video_plan(alloc, small, &lines)?;
    edit_frames(alloc, &plan, count as u64, numbers, digest)
}

/// Edits pictures in colour, and many small grey ones.
pub(crate) fn pictures(
    alloc: Global,
    size: Size,
    numbers: &mut Numbers,
    digest: &mut Digest,
) -> Result<(), Fault> {
    let colour = Picture {
        width: size.pick(1920, 48),
        height: size.pick(1080, 27),
        kind: Kind::Plain { colour: true },
        greatest: 255,
    };
    let lines = if size == Size::Full {
        b"mosaic 0,0,1920,1080 12,12\ncrop 320,180,1280,720\n".as_slice()
    } else {
        b"mosaic 0,0,48,27 12,12\ncrop 8,9,32,18\n".as_slice()
    };
    let plan = picture_plan(alloc, colour, lines)?;
    edit_frames(alloc, &plan, size.pick(40, 2) as u64, numbers, digest)?;
    let grey = Picture {
        width: 64,
        height: 64,
        kind: Kind::Plain { colour: false },
        greatest: 255,
    };
    let plan = picture_plan(alloc, grey, b"cover 8,8,24,24\nmosaic 32,32,32,32 5,5\n")?;
    edit_frames(alloc, &plan, size.pick(5000, 5) as u64, numbers, digest)
}
