//! The planes of a frame, one after the other in one buffer: they are changed there, or copied in
//! another size into another frame.

ghost use Rattle.std.specs.Prelude.{◌≡◌, ◌≤◌, length, map};
ghost use Rattle.image_planes.specs.Changes.{changed_planes, jobs_len, as_usize};
ghost use Rattle.image_planes.specs.Planes.{job_of};
ghost use Rattle.image_planes.specs.Scratch.{copy_room, sums_room, HasRoom, KeepsRoom};
ghost use Rattle.image_planes.specs.Resized.{sources_len, targets_len, resized_planes};
ghost use Rattle.image_planes.specs.Targets.{resizing_of};

use crate::plane::Plane;
use crate::scratch::{Scratch, lengthen};
use crate::target::Target;

/// The number of bytes of all planes, or `None` exactly where that is 2^64 or more.
pub fn planes_len(planes: &[Plane]) -> Option<usize>
    ensures { result ≡ as_usize (jobs_len (map job_of planes.now)) }
{
    match planes {
        [] => Some(0),
        [plane, others @ ..] => plane.len().checked_add(planes_len(others)?),
    }
}

// Applies the steps for the frame of this number to each of its planes.
fn change_each(number: u64, cells: &mut [u8], planes: &[Plane], copy: &mut [u8], sums: &mut [u32])
    requires cells { jobs_len (map job_of planes.now) ≤ length cells.old }
    requires copy { copy_room (map job_of planes.now) ≤ length copy.old }
    requires sums { sums_room (map job_of planes.now) ≤ length sums.old }
    ensures { cells.new ≡ changed_planes number (map job_of planes.now) cells.old }
{
    let Some((plane, others)) = planes.split_first() else {
        return;
    };
    let len = plane.len();
    let (front, back) = cells.split_at_mut(len);
    plane.apply(number, front, copy, sums);
    change_each(number, back, others, copy, sums);
}

/// Applies the steps for the frame of this number to each of its planes. The cells are those of the
/// planes, one after the other. Blurs use the work buffers.
pub fn change_planes(number: u64, cells: &mut [u8], planes: &[Plane], scratch: &mut Scratch)
    requires cells { jobs_len (map job_of planes.now) ≤ length cells.old }
    requires scratch { HasRoom (map job_of planes.now) scratch.old }
    ensures planes { cells.new ≡ changed_planes number (map job_of planes.now) cells.old }
    ensures room { KeepsRoom scratch.old scratch.new }
{
    lengthen(&mut scratch.copy, scratch.copy_room, 0);
    lengthen(&mut scratch.sums, scratch.sums_room, 0);
    let (copy, sums) = (&mut scratch.copy, &mut scratch.sums);
    change_each(number, cells, planes, copy, sums);
}

/// The number of bytes of all planes in their other size, or `None` exactly where that is 2^64 or more.
pub fn targets_len(targets: &[Target]) -> Option<usize>
    ensures { result ≡ as_usize (targets_len (map resizing_of targets.now)) }
{
    match targets {
        [] => Some(0),
        [target, others @ ..] => target.len().checked_add(targets_len(others)?),
    }
}

/// Copies each plane of a frame in its other size, one after the other, over a frame of such
/// planes.
pub fn resize_planes(source: &[u8], frame: &mut [u8], targets: &[Target])
    requires whole { sources_len (map resizing_of targets.now) ≤ length source.now }
    requires room { length frame.old ≡ targets_len (map resizing_of targets.now) }
    ensures { frame.new ≡ resized_planes (map resizing_of targets.now) source.now }
{
    let Some((target, others)) = targets.split_first() else {
        return;
    };
    let source_len = target.source_len();
    let (plane, planes) = source.split_at(source_len);
    let len = target.len();
    let (front, back) = frame.split_at_mut(len);
    target.apply(plane, front);
    resize_planes(planes, back, others);
}
