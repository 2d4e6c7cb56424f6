//! Why a run found that its edits aren't those of a frame.

ghost use Rattle.frame_edits.specs.Lists.{plain};
ghost use Rattle.frame_runs.specs.Unsuited.{TellsBadOf};

use frame_edits::{Edits, Unsuited};
use frame_formats::{unsuited_in_picture, unsuited_in_video};
use frame_requests::Shape;

/// What isn't one of a frame of this shape: the first such edit, or what becomes of the size. It takes
/// no memory.
pub fn unsuited_in_frame(shape: Shape, edits: &Edits) -> Option<Unsuited>
    ensures { TellsBadOf shape (plain edits.now) result }
{
    match shape {
        Shape::Video(format, rate) => {
            unsuited_in_video(format, rate, &edits.steps, edits.framing)
        }
        Shape::Picture(picture) => unsuited_in_picture(picture, &edits.steps, edits.framing),
    }
}
