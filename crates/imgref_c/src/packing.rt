//! Compaction in place.

ghost use Rattle.std.specs.Prelude.{◌≡◌, length};
ghost use Rattle.imgref_c.specs.Words.{code, image_status, layout, Packs};

use crate::images::ClaimedShape;
use crate::status::Status;
use row_mover::join_rows;

// The rows are joined at the front of the cells; the cells after them stay.
pub(crate) fn pack<T: Copy>(cells: &mut [T], claimed: ClaimedShape) -> Status
    ensures status { result
        ≡ image_status (length cells.old) claimed.width claimed.height claimed.stride }
    ensures packs { Packs (code result)
        (layout cells.old claimed.width claimed.height claimed.stride) cells.new }
{
    if !claimed.is_image(cells.len()) {
        return Status::NotAnImage;
    }
    join_rows(cells, claimed.shape());
    Status::Done
}
