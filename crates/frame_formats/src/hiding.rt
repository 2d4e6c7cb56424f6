//! Laws about recipes.

ghost use Rattle.frame_formats.specs.Recipe.{HeadsAreRead, PicturesHide, PicturesHideFilled, VideosHide, VideosHideFilled};

use frame_texts::heads_end_themselves;
use image_planes::changes_hide;

/// The output reveals nothing of what the edits of a video or a picture hide: frames that differ
/// only there become the same. All that covers and fills fill is hidden where they come first in
/// their frames. And what is written before a picture is the header of a picture. A caller calls this
/// for its clauses, which are the laws; it does nothing.
#[tactic(auto, using(crate::proofs::WrittenHeads::heads_are_read, crate::proofs::FillsFirst::videos_fill, crate::proofs::FillsFirst::pictures_fill))]
pub fn recipes_hide()
    ensures videos { VideosHide }
    ensures pictures { PicturesHide }
    ensures videos_filled { VideosHideFilled }
    ensures pictures_filled { PicturesHideFilled }
    ensures heads { HeadsAreRead }
{
    changes_hide();
    heads_end_themselves();
}
