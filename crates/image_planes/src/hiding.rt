//! What a frame doesn't reveal after fills and mosaics.

ghost use Rattle.std.specs.Prelude.{◌≡◌, ℕ, List};
ghost use Rattle.image_model.specs.Grid.{Grid};
ghost use Rattle.image_shape.specs.declared.samples.SampleBytes.{SampleBytes};
ghost use Rattle.image_planes.specs.Changes.{Job, changed, changed_planes};
ghost use Rattle.image_commands.specs.declared.changes.Change.TheVariants.{Blur, Mean};
ghost use Rattle.image_shape.specs.declared.window.Window.{Window};
ghost use Rattle.image_planes.specs.Filled.{FillFirst, PlanesUnfilled};
ghost use Rattle.image_planes.specs.Unseen.{BoxesAlike, MeansAlike, PlanesAlike};

/// A frame reveals nothing of a filled window, and of a mosaic only the corners of its tiles. That
/// is, frames that differ only at the other places are equal after the steps. A caller calls this
/// for its clauses, which are the law; it does nothing. By `fills`, all that a fill fills is hidden
/// where no mosaic, means, blur or move of the frame comes before a fill. By `means`, a mosaic of means reveals of its
/// window only the mean of each tile, sample by sample. By `blurs`, a blur reveals of its window only
/// the means of its boxes, from which the old pixels may perhaps be computed.
#[tactic(auto, using(crate::proofs::Unseen::planes_hide, crate::proofs::Unseen::only_means, crate::proofs::Unseen::only_boxes, crate::proofs::Filled::planes_alike))]
pub fn changes_hide()
    ensures planes { (number : ℕ) (jobs : List Job) (cells others : List ℕ)
        → PlanesAlike number jobs cells others
        → changed_planes number jobs cells ≡ changed_planes number jobs others }
    ensures fills { (number : ℕ) (jobs : List Job) (cells others : List ℕ)
        → FillFirst number jobs → PlanesUnfilled number jobs cells others
        → PlanesAlike number jobs cells others }
    ensures means { (size : ℕ) (window : Window) (tile_width tile_height : ℕ) (bytes : SampleBytes)
        → (g h : Grid ℕ) → MeansAlike size window tile_width tile_height bytes g h
        → changed size (Mean window tile_width tile_height bytes) g
        ≡ changed size (Mean window tile_width tile_height bytes) h }
    ensures blurs { (size : ℕ) (window : Window) (across down : ℕ) (bytes : SampleBytes)
        → (g h : Grid ℕ) → BoxesAlike size window across down bytes g h
        → changed size (Blur window across down bytes) g
        ≡ changed size (Blur window across down bytes) h }
{}
