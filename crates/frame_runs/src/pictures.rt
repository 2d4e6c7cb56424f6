//! Pictures, one after the other, read, edited and written one by one.

ghost use Rattle.std.specs.Prelude.{◌≡◌, ◌+◌, ◌≤◌, ◌<◌, max, vec_capacity, [], None, true, false, IfOk, IfErr, IfSome, OnOk};
ghost use Rattle.devices.specs.Device.{device_of, failures_of};
ghost use Rattle.frame_formats.specs.Planned.{recipe_of};
ghost use Rattle.frame_formats.specs.Recipe.{picture_recipe};
ghost use Rattle.image_planes.specs.Scratch.{scratch_len};
ghost use Rattle.frame_runs.specs.Failing.{PicturesFail};
ghost use Rattle.frame_runs.specs.Fault.{CanCount, Counts, reader_failures};
ghost use Rattle.frame_runs.specs.Kept.{IsKept, kept_picture, picture_in, HasNoPlan, NeedsMemory, PictureStops, PicturesStop};
ghost use Rattle.frame_runs.specs.Passing.{PassesPicture, PassesPictures};
ghost use Rattle.frame_runs.specs.Pictures.{HeadIs, behind_letter};
ghost use Rattle.frame_runs.specs.Request.{edits_of};
ghost use Rattle.frame_runs.specs.Seen.{PicturesSee, SeesPicture};
ghost use Rattle.frame_requests.specs.Seen.{Sees};

use crate::cells::pass_cells;
use crate::request::{Request, fault_of_plan, is_over};
use devices::{Counted, read_byte};
use frame_formats::Plan;
use frame_requests::{RunFault, Seen, Shape, is_same_picture};
use frame_texts::{Picture, Scan, heads_end_themselves};
use image_planes::Scratch;
use std::alloc::{AllocError, Global};
use std::io::{Read, Write};

// How many bytes a header may have after its first letter, with one more that shows that it is too
// long.
const LONGEST: usize = 65536;

/// The plan for a picture, which is also that for each of the same size and kind, and the work
/// buffers for its blurs.
#[derive(Drop)]
pub(crate) struct Kept {
    picture: Picture,
    plan: Plan,
    scratch: Scratch,
}

// Reads the rest of a header, whose first letter was read. Returns `None` where it isn't a header of at
// most 64 KiB.
fn read_head<R: Read>(reader: &mut Counted<R>) -> Result<Option<Picture>, RunFault>
    requires counts { failures_of reader.old < u64.MAX }
    ensures head { HeadIs result (R.remaining (device_of reader.old))
        (R.remaining (device_of reader.new)) }
    ensures count { failures_of reader.new ≡ failures_of reader.old + reader_failures result }
{
    heads_end_themselves();
    let mut scan = Scan::new().push(b'P');
    for _count in 0..LONGEST {
        match scan {
            Scan::Done(picture) => return Ok(Some(picture)),
            Scan::Bad => return Ok(None),
            Scan::More { .. } => {}
        }
        let Some(byte) = read_byte(reader)? else {
            return Ok(None);
        };
        scan = scan.push(byte);
    }
    Ok(None)
}

// Makes so much room, where there is less. The old buffer is given back before there is a new one.
fn grow(alloc: Global, buffer: &mut Vec<u8>, room: usize) -> Result<(), AllocError>
    ensures { OnOk result (vec_capacity buffer.new ≡ max (vec_capacity buffer.old) room) }
{
    if buffer.capacity() < room {
        *buffer = Vec::new(alloc);
        *buffer = Vec::with_capacity(alloc, room)?;
    }
    Ok(())
}

// Makes room in both buffers, which have at most so many bytes together. Those of the picture before
// are given back where they would be more.
fn make_room(
    alloc: Global,
    limit: usize,
    cells: &mut Vec<u8>,
    room: usize,
    other: &mut Vec<u8>,
    other_room: usize,
) -> Result<(), AllocError>
    requires { room + other_room ≤ limit }
    ensures room { OnOk result (room ≤ vec_capacity cells.new) }
    ensures other_room { OnOk result (other_room ≤ vec_capacity other.new) }
    ensures limit { OnOk result (vec_capacity cells.new + vec_capacity other.new ≤ limit) }
{
    let larger = cells.capacity().max(room);
    if larger.saturating_add(other.capacity().max(other_room)) > limit {
        *cells = Vec::new(alloc);
        *other = Vec::new(alloc);
    }
    grow(alloc, cells, room)?;
    grow(alloc, other, other_room)
}

// A new plan for the picture of this number, with room for it.
fn make_plan(
    request: Request<'_>,
    number: u64,
    picture: Picture,
    cells: &mut Vec<u8>,
    other: &mut Vec<u8>,
) -> Result<Kept, RunFault>
    ensures picture { IfOk result (λ k. k.picture ≡ picture) }
    ensures kept { IfOk result
        (IsKept (edits_of request.entry) request.entry.limit (vec_capacity cells.new)
        (vec_capacity other.new)) }
    ensures limit { IfOk result (λ k. vec_capacity cells.new + vec_capacity other.new
        + scratch_len (recipe_of k.plan).jobs ≤ request.entry.limit) }
    ensures fault { IfErr result
        (HasNoPlan (picture_recipe (edits_of request.entry) picture ≡ None) number) }
    ensures stops { IfErr result (NeedsMemory (edits_of request.entry) None picture) }
{
    let alloc = request.alloc;
    let plan = match Plan::for_picture(alloc, picture, request.steps, request.framing) {
        Ok(plan) => plan,
        Err(fault) => return Err(fault_of_plan(number, fault)),
    };
    if is_over(request.limit, &plan) {
        return Err(RunFault::Memory(number));
    }
    let Some(bytes) = plan.scratch_len() else {
        return Err(RunFault::Memory(number));
    };
    let left = request.limit - bytes;
    let (room, other_room) = (plan.room(), plan.other_room());
    if make_room(alloc, left, cells, room, other, other_room).is_err() {
        return Err(RunFault::Memory(number));
    }
    let Ok(scratch) = plan.scratch(alloc) else {
        return Err(RunFault::Memory(number));
    };
    Ok(Kept {
        picture,
        plan,
        scratch,
    })
}

// The plan for the picture of this number: that of the picture before it where both have the same
// size and kind, and else a new one. Then the work buffers of the one before are given back first.
#[tactic(auto, using(crate::proofs::Starts::needs_first, crate::proofs::Starts::needs_other))]
fn plan_for(
    request: Request<'_>,
    number: u64,
    kept: Option<Kept>,
    picture: Picture,
    cells: &mut Vec<u8>,
    other: &mut Vec<u8>,
) -> Result<Kept, RunFault>
    requires kept { IfSome kept
        (IsKept (edits_of request) request.limit (vec_capacity cells.old) (vec_capacity other.old)) }
    ensures picture { IfOk result (λ k. k.picture ≡ picture) }
    ensures kept { IfOk result
        (IsKept (edits_of request.entry) request.entry.limit (vec_capacity cells.new)
        (vec_capacity other.new)) }
    ensures fault { IfErr result
        (HasNoPlan (picture_recipe (edits_of request.entry) picture ≡ None) number) }
    ensures stops { IfErr result
        (NeedsMemory (edits_of request.entry) (kept_picture kept) picture) }
{
    if let Some(before) = kept {
        if is_same_picture(before.picture, picture) {
            return Ok(before);
        }
    }
    make_plan(request, number, picture, cells, other)
}

// Passes on the picture of this number, the first letter of whose header was read. The plan of the
// picture before it is used for it too, where both have the same size and kind.
fn pass_picture<R: Read, W: Write>(
    request: Request<'_>,
    number: u64,
    kept: Option<Kept>,
    cells: &mut Vec<u8>,
    other: &mut Vec<u8>,
    seen: &mut Seen,
    reader: &mut Counted<R>,
    writer: &mut Counted<W>,
) -> Result<Kept, RunFault>
    requires kept { IfSome kept
        (IsKept (edits_of request) request.limit (vec_capacity cells.old) (vec_capacity other.old)) }
    requires counts { CanCount (failures_of reader.old) (failures_of writer.old) }
    requires numbers { number < u64.MAX }
    ensures passes { PassesPicture (picture_in result) request.entry.limit (edits_of request.entry) number
        (behind_letter (R.remaining (device_of reader.old))) (R.remaining (device_of reader.new))
        (W.contents (device_of writer.old)) (W.contents (device_of writer.new)) }
    ensures kept { IfOk result
        (IsKept (edits_of request.entry) request.entry.limit (vec_capacity cells.new)
        (vec_capacity other.new)) }
    ensures stops { PictureStops result (edits_of request.entry) (kept_picture kept)
        (behind_letter (R.remaining (device_of reader.old)))
        (R.remaining (device_of reader.new)) }
    ensures seen { SeesPicture (picture_in result) (edits_of request.entry) number
        (behind_letter (R.remaining (device_of reader.old))) seen.old seen.new }
    ensures counts { Counts result (failures_of reader.old) (failures_of reader.new)
        (failures_of writer.old) (failures_of writer.new) }
{
    heads_end_themselves();
    let Some(picture) = read_head(reader)? else {
        if number == 0 {
            return Err(RunFault::Header);
        }
        return Err(RunFault::Frame(number));
    };
    seen.see(number, Shape::Picture(picture), request.steps);
    let mut made = plan_for(request, number, kept, picture, cells, other)?;
    let (plan, scratch) = (&made.plan, &mut made.scratch);
    let head = plan.head();
    pass_cells(reader, writer, plan, number, head, cells, other, scratch)?;
    Ok(made)
}

/// Reads picture after picture, edits it and writes it; the letter at the front was already read.
/// Returns the number of pictures.
pub(crate) fn pass_pictures<R: Read, W: Write>(
    request: Request<'_>,
    seen: &mut Seen,
    reader: &mut Counted<R>,
    writer: &mut Counted<W>,
) -> Result<u64, RunFault>
    requires counts { CanCount (failures_of reader.old) (failures_of writer.old) }
    ensures passes { PassesPictures result request.entry.limit (edits_of request.entry)
        (behind_letter (R.remaining (device_of reader.old))) (R.remaining (device_of reader.new))
        (W.contents (device_of writer.old)) (W.contents (device_of writer.new)) }
    ensures fails { PicturesFail result request.entry.limit (edits_of request.entry)
        (behind_letter (R.remaining (device_of reader.old))) (R.remaining (device_of reader.new))
        (W.contents (device_of writer.old)) (W.contents (device_of writer.new)) }
    ensures stops { PicturesStop result (edits_of request.entry)
        (behind_letter (R.remaining (device_of reader.old)))
        (R.remaining (device_of reader.new)) }
    ensures seen { Sees request.entry.steps.now [] seen.old
        → PicturesSee result (edits_of request.entry)
        (behind_letter (R.remaining (device_of reader.old))) seen.new }
    ensures counts { Counts result (failures_of reader.old) (failures_of reader.new)
        (failures_of writer.old) (failures_of writer.new) }
{
    heads_end_themselves();
    let mut cells = Vec::new(request.alloc);
    let mut other = Vec::new(request.alloc);
    let mut kept = None;
    for number in 0..u64::MAX {
        kept = Some(pass_picture(
            request, number, kept, &mut cells, &mut other, seen, reader, writer,
        )?);
        match read_byte(reader)? {
            Some(b'P') => {}
            Some(_) => return Err(RunFault::Frame(number + 1)),
            None => return Ok(number + 1),
        }
    }
    Err(RunFault::Frame(u64::MAX))
}
