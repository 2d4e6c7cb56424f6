//! The request for a run, and why a plan for it is refused.

ghost use Rattle.std.specs.Prelude.{◌≡◌, ◌≤◌, ◌<◌, None, false, true, Some};
ghost use Rattle.frame_formats.specs.Planned.{recipe_of};
ghost use Rattle.frame_formats.specs.Recipe.{buffers_len};
ghost use Rattle.image_planes.specs.Changes.{as_usize};
ghost use Rattle.frame_runs.specs.Program.{fault_of_plan};

use frame_edits::{Edit, Framing};
use frame_formats::{Plan, PlanFault};
use frame_requests::RunFault;
use std::alloc::Global;

/// The edits of each frame or picture, the allocator for its memory, and how many bytes all buffers
/// may have.
#[derive(Clone, Copy)]
pub(crate) struct Request<'a> {
    pub(crate) alloc: Global,
    pub(crate) limit: usize,
    pub(crate) steps: &'a [Edit],
    pub(crate) framing: Option<Framing>,
}

// How many bytes the buffers for a plan have, and its work buffers for blurs.
fn bytes_for(plan: &Plan) -> Option<usize>
    ensures { result ≡ as_usize (buffers_len (recipe_of plan.now)) }
{
    let buffers = plan.room().checked_add(plan.other_room())?;
    buffers.checked_add(plan.scratch_len()?)
}

/// Whether the buffers for a plan have more bytes than allowed.
pub(crate) fn is_over(limit: usize, plan: &Plan) -> bool
    ensures within { result ≡ false → buffers_len (recipe_of plan.now) ≤ limit }
    ensures over { result ≡ true → limit < buffers_len (recipe_of plan.now) }
{
    match bytes_for(plan) {
        Some(bytes) => bytes > limit,
        None => true,
    }
}

/// The fault of a plan after so many frames or pictures, as one of the run.
pub(crate) fn fault_of_plan(count: u64, fault: PlanFault) -> RunFault
    ensures { result ≡ fault_of_plan count fault }
{
    match fault {
        PlanFault::Outside => RunFault::Outside,
        PlanFault::Memory => RunFault::Memory(count),
    }
}
