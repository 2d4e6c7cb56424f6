//! The cells after a header: they are read, edited, and written after their new header.

ghost use Rattle.std.specs.Prelude.{◌≡◌, ◌+◌, ◌≤◌, ◌<◌, ◌++◌, length, take, vec_capacity, IfOk, OnOk, OnErr};
ghost use Rattle.std.specs.Io.KnownBytes.{Appends, Consumes, IsAtEnd};
ghost use Rattle.devices.specs.Device.{device_of, failures_of, errors};
ghost use Rattle.devices.specs.Whole.{AppendsBeginning, GaveFewer};
ghost use Rattle.frame_formats.specs.Planned.{recipe_of, plan_room, plan_other_room};
ghost use Rattle.image_planes.specs.Scratch.{HasRoom, KeepsRoom};
ghost use Rattle.frame_runs.specs.Fault.{CanCount, Counts};
ghost use Rattle.frame_runs.specs.Passing.{PassesCells};
ghost use Rattle.frame_runs.specs.Video.{with_head};

use devices::{Counted, ReadFailed, WriteFailed, fill_front, lengthen, write_all};
use frame_formats::Plan;
use frame_requests::RunFault;
use image_planes::Scratch;
use std::io::{Read, Write};

// Writes a header, and cells after it.
fn write_piece<W: Write>(
    writer: &mut Counted<W>,
    head: &[u8],
    cells: &[u8],
) -> Result<(), WriteFailed>
    requires { failures_of writer.old < u64.MAX }
    ensures whole { OnOk result (Appends (W.contents (device_of writer.old))
        (W.contents (device_of writer.new)) (head.now ++ cells.now)) }
    ensures beginning { OnErr result (AppendsBeginning (W.contents (device_of writer.old))
        (W.contents (device_of writer.new)) (head.now ++ cells.now)) }
    ensures count { failures_of writer.new ≡ failures_of writer.old + errors result }
{
    match write_all(writer, head) {
        Ok(()) => write_all(writer, cells),
        Err(failed) => Err(failed),
    }
}

// Edits the cells of the frame or picture of this number, and writes them after the header.
fn write_edited<W: Write>(
    writer: &mut Counted<W>,
    plan: &Plan,
    number: u64,
    head: &[u8],
    cells: &mut [u8],
    other: &mut [u8],
    scratch: &mut Scratch,
) -> Result<(), WriteFailed>
    requires room { plan_room plan.now ≤ length cells.old }
    requires other_room { plan_other_room plan.now ≤ length other.old }
    requires scratch { HasRoom (recipe_of plan.now).jobs scratch.old }
    requires counts { failures_of writer.old < u64.MAX }
    ensures whole { OnOk result
        (Appends (W.contents (device_of writer.old)) (W.contents (device_of writer.new)) (head.now
        ++ (recipe_of plan.now).frame number (take (recipe_of plan.now).size cells.old))) }
    ensures beginning { OnErr result (AppendsBeginning
        (W.contents (device_of writer.old)) (W.contents (device_of writer.new)) (head.now
        ++ (recipe_of plan.now).frame number (take (recipe_of plan.now).size cells.old))) }
    ensures same_scratch { KeepsRoom scratch.old scratch.new }
    ensures count { failures_of writer.new ≡ failures_of writer.old + errors result }
{
    let made = plan.edit(number, cells, other, scratch);
    write_piece(writer, head, made)
}

// Reads the cells of a frame or picture, and returns how many bytes there are. Where these are all,
// the buffers are as long as the plan needs.
fn take_cells<R: Read>(
    reader: &mut Counted<R>,
    plan: &Plan,
    cells: &mut Vec<u8>,
    other: &mut Vec<u8>,
) -> Result<usize, ReadFailed>
    requires room { plan_room plan.now ≤ vec_capacity cells.old }
    requires other_room { plan_other_room plan.now ≤ vec_capacity other.old }
    requires counts { failures_of reader.old < u64.MAX }
    ensures within { IfOk result (λ n. n ≤ length cells.new.items) }
    ensures bytes { IfOk result (λ n. Consumes (R.remaining (device_of reader.old))
        (R.remaining (device_of reader.new)) (take n cells.new.items)) }
    ensures end { IfOk result
        (λ n. n < (recipe_of plan.now).size → IsAtEnd (R.remaining (device_of reader.new))) }
    ensures whole { IfOk result (λ n. (recipe_of plan.now).size ≤ n
        → (n ≡ (recipe_of plan.now).size) × (plan_room plan.now ≤ length cells.new.items)
        × (plan_other_room plan.now ≤ length other.new.items)) }
    ensures failed { OnErr result (GaveFewer (recipe_of plan.now).size
        (R.remaining (device_of reader.old)) (R.remaining (device_of reader.new))) }
    ensures same_room { vec_capacity cells.old ≤ vec_capacity cells.new }
    ensures same_other_room { vec_capacity other.old ≤ vec_capacity other.new }
    ensures count { failures_of reader.new ≡ failures_of reader.old + errors result }
{
    let size = plan.room();
    let count = fill_front(reader, cells, size)?;
    if count == size {
        lengthen(other, plan.other_room());
    }
    Ok(count)
}

/// Reads the cells of the frame or picture of this number, edits them, and writes the header and then
/// the cells. The buffers have the capacity; their memory is touched only as bytes arrive.
pub(crate) fn pass_cells<R: Read, W: Write>(
    reader: &mut Counted<R>,
    writer: &mut Counted<W>,
    plan: &Plan,
    number: u64,
    head: &[u8],
    cells: &mut Vec<u8>,
    other: &mut Vec<u8>,
    scratch: &mut Scratch,
) -> Result<(), RunFault>
    requires room { plan_room plan.now ≤ vec_capacity cells.old }
    requires other_room { plan_other_room plan.now ≤ vec_capacity other.old }
    requires scratch { HasRoom (recipe_of plan.now).jobs scratch.old }
    requires counts { CanCount (failures_of reader.old) (failures_of writer.old) }
    ensures passes { PassesCells result (with_head head.now (recipe_of plan.now))
        number (R.remaining (device_of reader.old)) (R.remaining (device_of reader.new))
        (W.contents (device_of writer.old)) (W.contents (device_of writer.new)) }
    ensures same_room { vec_capacity cells.old ≤ vec_capacity cells.new }
    ensures same_other_room { vec_capacity other.old ≤ vec_capacity other.new }
    ensures same_scratch { KeepsRoom scratch.old scratch.new }
    ensures counts { Counts result (failures_of reader.old) (failures_of reader.new)
        (failures_of writer.old) (failures_of writer.new) }
{
    let count = take_cells(reader, plan, cells, other)?;
    if count < plan.room() {
        return Err(RunFault::Frame(number));
    }
    Ok(write_edited(writer, plan, number, head, cells, other, scratch)?)
}
