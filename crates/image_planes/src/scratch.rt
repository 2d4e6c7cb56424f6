//! The work buffers that blurs need besides the planes.

ghost use Rattle.std.specs.Prelude.{◌≡◌, ◌≤◌, length, map, vec_capacity, IfOk, IsOk};
ghost use Rattle.image_planes.specs.Changes.{as_usize};
ghost use Rattle.image_planes.specs.Planes.{job_of};
ghost use Rattle.image_planes.specs.Scratch.{copy_room, sums_room, scratch_len, HasRoom};

use crate::plane::Plane;
use std::alloc::{AllocError, Global};

// How many bytes the longest copy has.
fn copy_room(planes: &[Plane]) -> usize
    ensures { result ≡ copy_room (map job_of planes.now) }
{
    match planes {
        [] => 0,
        [plane, others @ ..] => plane.copy_len().max(copy_room(others)),
    }
}

// How many sums the longest row needs.
fn sums_room(planes: &[Plane]) -> usize
    ensures { result ≡ sums_room (map job_of planes.now) }
{
    match planes {
        [] => 0,
        [plane, others @ ..] => plane.sums_len().max(sums_room(others)),
    }
}

/// The number of bytes that the blurs of these planes need besides them. It is 0 where there is no
/// blur, and `None` exactly where it is 2^64 or more.
pub fn scratch_len(planes: &[Plane]) -> Option<usize>
    ensures { result ≡ as_usize (scratch_len (map job_of planes.now)) }
{
    sums_room(planes)
        .checked_mul(4)?
        .checked_add(copy_room(planes))
}

/// Room for the blurs of planes: a copy of the bytes of one, and sums for its rows. Its memory is
/// touched only where the first frame is changed.
#[derive(Drop)]
pub struct Scratch {
    pub(crate) copy: Vec<u8>,
    pub(crate) sums: Vec<u32>,
    pub(crate) copy_room: usize,
    pub(crate) sums_room: usize,
}

impl Scratch {
    // This names the type itself.
    ghost use Rattle.image_planes.specs.Scratch.{room_len};

    /// Exactly the work buffers for the blurs of these planes. Without a blur it takes no memory.
    pub fn new(alloc: Global, planes: &[Plane]) -> Result<Scratch, AllocError>
        ensures room { IfOk result (HasRoom (map job_of planes.now)) }
        ensures bytes { IfOk result (λ s. room_len s ≡ scratch_len (map job_of planes.now)) }
        ensures succeeds { scratch_len (map job_of planes.now) ≡ 0 → IsOk result }
    {
        let (copy_room, sums_room) = (copy_room(planes), sums_room(planes));
        Ok(Scratch {
            copy: Vec::with_capacity(alloc, copy_room)?,
            sums: Vec::with_capacity(alloc, sums_room)?,
            copy_room,
            sums_room,
        })
    }
}

/// Makes a buffer so long that it has at least so many items. It has the capacity.
pub(crate) fn lengthen<T: Copy + Drop>(buffer: &mut Vec<T>, len: usize, value: T)
    requires { len ≤ vec_capacity buffer.old }
    ensures len { len ≤ length buffer.new.items }
    ensures capacity { vec_capacity buffer.old ≤ vec_capacity buffer.new }
{
    if buffer.len() < len {
        let Ok(()) = buffer.resize(len, value) else {
            unreachable!()
        };
    }
}
