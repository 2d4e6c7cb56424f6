//! A tracker's list, whose boxes are covered before other edits.

ghost use Rattle.std.specs.Prelude.{◌≡◌, IfErr, IfOk};
ghost use Rattle.frame_requests.specs.Boxes.{BeginsWithBoxes, BoxesAreRefused, CoverBoxes};
ghost use Rattle.frame_texts.specs.Boxes.{HasBoxes, each_box};
ghost use Rattle.frame_requests.specs.Words.{AreUsable, HaveFrames};
ghost use Rattle.frame_edits.specs.Lists.{plain};

use crate::words::Refusal;
use frame_edits::{BoxStyle, Edit, Edits, read_boxes, read_held};
use frame_texts::WordsFault;
use std::alloc::Global;

// What the boxes of a tracker's list become, which are held for so many frames.
fn covers_of(
    alloc: Global,
    text: &[u8],
    style: BoxStyle,
    hold: Option<usize>,
) -> Result<Vec<Edit>, WordsFault>
    ensures covers { IfOk result (λ covers. CoverBoxes style text.now hold covers.items) }
    ensures none { IfErr result (λ e. e ≡ WordsFault.NoEdit → each_box text.now ≡ None) }
    ensures memory { IfErr result (λ e. e ≡ WordsFault.Memory → HasBoxes text.now) }
{
    match hold {
        None => read_boxes(alloc, text, style),
        Some(hold) => read_held(alloc, text, style, hold),
    }
}

/// What the boxes of a tracker's list become, and after that these edits. The boxes are held for so
/// many frames.
///
/// # Requires
///
/// The range of each edit has a frame, as those of `edits_of_words` and `edits_of_lines` have.
///
/// # Errors
///
/// `NoBoxes` where a line is no box, whatever memory there is. `EmptyBoxes` where there is none.
/// `Memory` only where there is a box.
#[tactic(auto, using(crate::proofs::BoxCovers::covers_have_boxes, crate::proofs::BoxFrames::covers_have_frames))]
pub(crate) fn with_boxes(
    alloc: Global,
    text: &[u8],
    style: BoxStyle,
    hold: Option<usize>,
    edits: &Edits,
) -> Result<Edits, Refusal>
    requires frames { HaveFrames edits.now.steps.items }
    ensures begins { IfOk result
        (λ made. BeginsWithBoxes style text.now hold (plain edits.now) (plain made)) }
    ensures usable { IfOk result (λ made. AreUsable (plain made)) }
    ensures refused { IfErr result (BoxesAreRefused style text.now hold) }
{
    let mut steps = match covers_of(alloc, text, style, hold) {
        Ok(covers) => covers,
        Err(WordsFault::NoEdit) => return Err(Refusal::NoBoxes),
        Err(WordsFault::Memory) => return Err(Refusal::Memory),
    };
    if steps.is_empty() {
        return Err(Refusal::EmptyBoxes);
    }
    if steps.extend_from_slice(&edits.steps).is_err() {
        return Err(Refusal::Memory);
    }
    Ok(Edits {
        steps,
        framing: edits.framing,
    })
}
