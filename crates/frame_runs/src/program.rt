//! The program on any reader and writer: a video or pictures in, the same out, edited.

ghost use Rattle.std.specs.Prelude.{◌≡◌, ◌≢◌, ◌<◌, ◌+◌, ◌++◌, ◌∷◌, ◌≤◌, [], All, IfErr, IfOk, length, vec_capacity, false};
ghost use Rattle.devices.specs.Device.{device_of, failures_of};
ghost use Rattle.frame_runs.specs.Failing.{InputFails, InputFailsAfter};
ghost use Rattle.frame_runs.specs.Fault.{CanCount, Counts, reader_failures, writer_failures};
ghost use Rattle.frame_edits.specs.Edits.{edits};
ghost use Rattle.frame_formats.specs.Planned.{recipe_of, plan_room, plan_other_room};
ghost use Rattle.frame_formats.specs.Recipe.{buffers_len};
ghost use Rattle.image_planes.specs.Scratch.{HasRoom, room_len};
ghost use Rattle.frame_runs.specs.Alike.{Hides, HidesCovered, OneOutput, OneOutputCovered, OneSeen, OneSeenCovered};
ghost use Rattle.frame_runs.specs.Kept.{Stops, VideoStopsAfter};
ghost use Rattle.frame_runs.specs.Limit.{KeepsLimit, KeepsLimitAfter};
ghost use Rattle.frame_runs.specs.Request.{edits_of};
ghost use Rattle.frame_runs.specs.Seen.{RunSees, VideoSeesAfter};
ghost use Rattle.frame_requests.specs.Seen.{Sees, last_seen};
ghost use Rattle.frame_runs.specs.Program.{Follows, Writes, begins_picture};

use crate::frames::pass_frames;
use crate::pictures::pass_pictures;
use crate::request::{Request, fault_of_plan, is_over};
use devices::{Counted, LineFault, read_byte, read_line, write_all};
use frame_edits::{Edit, Framing};
use frame_formats::{Plan, recipes_hide};
use frame_requests::{RunFault, Seen, Shape};
use frame_texts::{heads_end_themselves, read_format, read_rate};
use image_planes::Scratch;
use std::alloc::Global;
use std::io::{Read, Write};

// How many bytes the line of a video or of a frame may have, its line feed among them.
const LONGEST: usize = 256;

// The buffers for the frames of a video, and the work buffers for its blurs.
#[derive(Drop)]
struct Buffers {
    cells: Vec<u8>,
    other: Vec<u8>,
    scratch: Scratch,
}

// The buffers that a plan needs, which have at most `limit` bytes together.
fn make_buffers(request: Request<'_>, plan: &Plan) -> Result<Buffers, RunFault>
    ensures room { IfOk result (λ b. plan_room plan.now ≤ vec_capacity b.cells) }
    ensures other_room { IfOk result (λ b. plan_other_room plan.now ≤ vec_capacity b.other) }
    ensures scratch { IfOk result (λ b. HasRoom (recipe_of plan.now).jobs b.scratch) }
    ensures limit { IfOk result (λ b. vec_capacity b.cells + vec_capacity b.other
        + room_len b.scratch ≤ request.entry.limit) }
    ensures within { IfOk result (λ _. buffers_len (recipe_of plan.now) ≤ request.entry.limit) }
    ensures memory { IfErr result (λ fault. fault ≡ RunFault.Memory 0) }
{
    if is_over(request.limit, plan) {
        return Err(RunFault::Memory(0));
    }
    let Ok(cells) = Vec::with_capacity(request.alloc, plan.room()) else {
        return Err(RunFault::Memory(0));
    };
    let Ok(other) = Vec::with_capacity(request.alloc, plan.other_room()) else {
        return Err(RunFault::Memory(0));
    };
    let Ok(scratch) = plan.scratch(request.alloc) else {
        return Err(RunFault::Memory(0));
    };
    Ok(Buffers {
        cells,
        other,
        scratch,
    })
}

// Writes the video's line, and then the frames after it.
fn run_video<R: Read, W: Write>(
    request: Request<'_>,
    line: &[u8],
    seen: &mut Seen,
    reader: &mut Counted<R>,
    writer: &mut Counted<W>,
) -> Result<u64, RunFault>
    requires one_line { All (λ b. b ≢ 10) line.now }
    requires short { length line.now < 256 }
    requires kind { begins_picture (line.now ++ 10 ∷ []) ≡ false }
    requires counts { CanCount (failures_of reader.old) (failures_of writer.old) }
    ensures follows { Follows result (edits_of request.entry) (line.now ++ 10 ∷ [])
        (R.remaining (device_of reader.old)) (W.contents (device_of writer.old))
        (W.contents (device_of writer.new)) }
    ensures fails { InputFailsAfter result (edits_of request.entry) (line.now ++ 10 ∷ [])
        (R.remaining (device_of reader.old)) (R.remaining (device_of reader.new))
        (W.contents (device_of writer.old)) (W.contents (device_of writer.new)) }
    ensures limit { KeepsLimitAfter result request.entry.limit (edits_of request.entry)
        (line.now ++ 10 ∷ []) (R.remaining (device_of reader.old))
        (W.contents (device_of writer.old)) (W.contents (device_of writer.new)) }
    ensures stops { VideoStopsAfter result (edits_of request.entry) (line.now ++ 10 ∷ [])
        (R.remaining (device_of reader.old)) (R.remaining (device_of reader.new)) }
    ensures seen { Sees request.entry.steps.now [] seen.old
        → VideoSeesAfter result (edits_of request.entry) (line.now ++ 10 ∷ [])
        (R.remaining (device_of reader.old)) seen.new }
    ensures counts { Counts result (failures_of reader.old) (failures_of reader.new)
        (failures_of writer.old) (failures_of writer.new) }
{
    let alloc = request.alloc;
    let Some(format) = read_format(line) else {
        return Err(RunFault::Header);
    };
    seen.see(0, Shape::Video(format, read_rate(line)), request.steps);
    let plan = match Plan::for_video(alloc, line, format, request.steps, request.framing) {
        Ok(plan) => plan,
        Err(fault) => return Err(fault_of_plan(0, fault)),
    };
    let mut buffers = match make_buffers(request, &plan) {
        Ok(buffers) => buffers,
        Err(fault) => return Err(fault),
    };
    if write_all(writer, plan.head()).is_err() {
        return Err(RunFault::Output);
    }
    let mut frame_line = [0u8; LONGEST];
    pass_frames(
        reader,
        writer,
        &plan,
        &mut frame_line,
        &mut buffers.cells,
        &mut buffers.other,
        &mut buffers.scratch,
    )
}

// The run over a video, of which the first byte was read.
fn carry_video<R: Read, W: Write>(
    request: Request<'_>,
    first: u8,
    seen: &mut Seen,
    reader: &mut Counted<R>,
    writer: &mut Counted<W>,
) -> Result<u64, RunFault>
    requires kind { first ≢ 80 }
    requires counts { CanCount (failures_of reader.old) (failures_of writer.old) }
    ensures follows { Follows result (edits_of request.entry) (first ∷ [])
        (R.remaining (device_of reader.old)) (W.contents (device_of writer.old))
        (W.contents (device_of writer.new)) }
    ensures fails { InputFailsAfter result (edits_of request.entry) (first ∷ [])
        (R.remaining (device_of reader.old)) (R.remaining (device_of reader.new))
        (W.contents (device_of writer.old)) (W.contents (device_of writer.new)) }
    ensures limit { KeepsLimitAfter result request.entry.limit (edits_of request.entry)
        (first ∷ []) (R.remaining (device_of reader.old)) (W.contents (device_of writer.old))
        (W.contents (device_of writer.new)) }
    ensures stops { VideoStopsAfter result (edits_of request.entry) (first ∷ [])
        (R.remaining (device_of reader.old)) (R.remaining (device_of reader.new)) }
    ensures seen { Sees request.entry.steps.now [] seen.old
        → VideoSeesAfter result (edits_of request.entry) (first ∷ [])
        (R.remaining (device_of reader.old)) seen.new }
    ensures counts { Counts result (failures_of reader.old) (failures_of reader.new)
        (failures_of writer.old) (failures_of writer.new) }
{
    if first == b'\n' {
        return Err(RunFault::Header);
    }
    let mut line = [0u8; LONGEST];
    line[0] = first;
    let len = match read_line(reader, &mut line[1..]) {
        Ok(len) => len,
        Err(LineFault::NoLine) => return Err(RunFault::Header),
        Err(LineFault::Reader) => return Err(RunFault::Input),
    };
    run_video(request, &line[..len + 1], seen, reader, writer)
}

/// Reads a video or pictures, and writes what the steps and then a crop or a border make of each
/// frame or picture. Returns the number of frames or pictures. All memory for a video is allocated
/// before the first byte is written, and that for a picture before its first byte. All buffers have
/// at most `limit` bytes. `seen` tells what was read last.
pub fn run<R: Read, W: Write>(
    alloc: Global,
    limit: usize,
    steps: &[Edit],
    framing: Option<Framing>,
    seen: &mut Seen,
    reader: &mut Counted<R>,
    writer: &mut Counted<W>,
) -> Result<u64, RunFault>
    requires reader_counts { failures_of reader.old < u64.MAX }
    requires writer_counts { failures_of writer.old < u64.MAX }

    // On Ok the video that the edits make of the input; on a fault nothing, whole frames, or a
    // beginning of that video, as the fault says.
    ensures written { Writes result (edits steps.now framing) (R.remaining (device_of reader.old))
        (W.contents (device_of writer.old)) (W.contents (device_of writer.new)) }

    // Where the reader fails, what was written is what a run over an input of exactly the bytes that
    // were read writes, if neither a device nor memory ends it.
    ensures input { InputFails result (edits steps.now framing) (R.remaining (device_of reader.old))
        (R.remaining (device_of reader.new)) (W.contents (device_of writer.old))
        (W.contents (device_of writer.new)) }

    // Whatever was written is of frames or pictures for which the buffers need at most `limit` bytes
    // together.
    ensures limit { KeepsLimit result limit (edits steps.now framing)
        (R.remaining (device_of reader.old)) (W.contents (device_of writer.old))
        (W.contents (device_of writer.new)) }

    // Out of memory comes only where exactly the line of a video was read, or exactly the pictures
    // before and one header more, of another size or kind than the last of them. The first edit is one
    // of that video or picture.
    ensures stops { Stops result (edits steps.now framing) (R.remaining (device_of reader.old))
        (R.remaining (device_of reader.new)) }

    // Of the video that was read, or of the pictures, it is known which shape each frame has, and of
    // these shapes in which frames an edit covers nothing. Of a picture that is refused, or that has
    // no memory, the header was seen last.
    ensures seen { Sees steps.now [] seen.old
        → RunSees result (edits steps.now framing) (R.remaining (device_of reader.old)) seen.new }
    ensures last { Sees steps.now [] seen.old
        → IfOk result (λ count. last_seen seen.new ≤ count) }

    // Each count grew exactly where the result is that device's fault.
    ensures reader_count { failures_of reader.new
        ≡ failures_of reader.old + reader_failures result }
    ensures writer_count { failures_of writer.new
        ≡ failures_of writer.old + writer_failures result }

    // What was returned and written is right for each input that differs only in what a fill or a
    // mosaic hides.
    ensures hiding { Hides result (edits steps.now framing) (R.remaining (device_of reader.old))
        (W.contents (device_of writer.old)) (W.contents (device_of writer.new)) }

    // Two such inputs get one result and one output. Where memory, the reader or the writer fails,
    // one output is the beginning of the other.
    ensures one_output { OneOutput }

    // Two such inputs have frames of the same shapes, so what is printed of them is the same.
    ensures one_seen { OneSeen }

    // Where no mosaic, means, blur or move comes before a cover or a fill that may be for the same
    // frame, whatever comes between them, the same holds of inputs that differ in anything
    // that a cover or a fill covers. `late_pairs` of `frame_requests` finds what comes so.
    ensures covers { HidesCovered result (edits steps.now framing)
        (R.remaining (device_of reader.old))
        (W.contents (device_of writer.old)) (W.contents (device_of writer.new)) }
    ensures one_covered { OneOutputCovered }
    ensures one_seen_covered { OneSeenCovered }
{
    recipes_hide();
    heads_end_themselves();
    let request = Request {
        alloc,
        limit,
        steps,
        framing,
    };
    match read_byte(reader) {
        Ok(Some(b'P')) => pass_pictures(request, seen, reader, writer),
        Ok(Some(first)) => carry_video(request, first, seen, reader, writer),
        Ok(None) => Err(RunFault::Header),
        Err(_) => Err(RunFault::Input),
    }
}
