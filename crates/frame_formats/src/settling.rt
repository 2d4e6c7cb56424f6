//! The edits as steps of a frame of a size.

ghost use Rattle.std.specs.Prelude.{◌≡◌, ◌≢◌, IfOk, IfErr, Some, None};
ghost use Rattle.frame_edits.specs.Covers.{IsUnit};
ghost use Rattle.frame_formats.specs.Plan.{Tells};
ghost use Rattle.frame_formats.specs.Steps.{all_some, first_made, step_in};

use crate::plans::PlanFault;
use frame_edits::{Edit, Paint, Unit, frames_of, settle_edit};
use frame_texts::Rate;
use image_planes::Step;
use std::alloc::Global;

/// An edit as a step of a frame of this size, where it has frames.
#[tactic(auto, using(crate::proofs::StepsEach::edit_settled, crate::proofs::StepsEach::edit_stops))]
pub(crate) fn step_of(
    unit: Unit,
    rate: Option<Rate>,
    width: usize,
    height: usize,
    edit: Edit,
) -> Option<Step<Paint>>
    requires { IsUnit unit }
    ensures { result ≡ step_in unit rate width height edit }
{
    let (first, end) = frames_of(unit, rate, edit)?;
    let change = settle_edit(unit, width, height, edit);
    Some(Step { first, end, change })
}

/// The edits as steps of a frame of this size. A cover is the fill that it is there, and a range of
/// times has the frames that are in it at this rate. An interlaced video takes no change that
/// exchanges its fields.
#[tactic(auto, using(crate::proofs::StepsEach::one_more, crate::proofs::StepsEach::one_stops, crate::proofs::StepsEach::first_more))]
pub(crate) fn settle_all(
    alloc: Global,
    unit: Unit,
    rate: Option<Rate>,
    width: usize,
    height: usize,
    edits: &[Edit],
) -> Result<Vec<Step<Paint>>, PlanFault>
    requires { IsUnit unit }
    ensures steps { IfOk result
        (λ all. all_some (step_in unit rate width height) edits.now ≡ Some all.items) }
    ensures fault { IfErr result
        (Tells (all_some (step_in unit rate width height) edits.now ≡ None)) }
    ensures memory { IfErr result (λ e. e ≡ PlanFault.Memory
        → first_made (step_in unit rate width height) edits.now ≢ None) }
{
    let mut all = Vec::new(alloc);
    for edit in edits {
        let step = step_of(unit, rate, width, height, *edit);
        all.push(step.ok_or(PlanFault::Outside)?)?;
    }
    Ok(all)
}
