//! Changes that are applied one after the other, each to some frames of a video.

ghost use Rattle.std.specs.Prelude.{◌≡◌, length};
ghost use Rattle.image_model.specs.Grid.{grid_of};
ghost use Rattle.image_shape.specs.Shape.{shaped};
ghost use Rattle.image_writes.specs.Written.{Becomes};
ghost use Rattle.image_planes.specs.Changes.{are_inside, stepped};
ghost use Rattle.image_planes.specs.Scratch.{AreFor};

use crate::change::{Step, Value, change_cells};
use crate::plane::is_inside;
use image_shape::Shape;

/// Whether all steps are valid for so many pixels.
pub(crate) fn all_inside(width: usize, height: usize, steps: &[Step<Value>]) -> bool
    ensures { result ≡ are_inside width height steps.now }
{
    steps
        .iter()
        .all(|step| is_inside(width, height, step.change))
}

/// Applies the steps for the frame of this number to the image that the bytes make in this shape. A
/// pixel has `size` bytes; the padding stays. What the copy and the sums had is lost.
pub(crate) fn do_steps(
    cells: &mut [u8],
    shape: Shape,
    size: usize,
    steps: &[Step<Value>],
    number: u64,
    copy: &mut [u8],
    sums: &mut [u32],
)
    requires steps { AreFor cells.old shape size (length copy.old) (length sums.old) steps.now }
    ensures { Becomes shape cells.old cells.new
        (stepped size number steps.now (grid_of (shaped cells.old shape))) }
{
    for step in steps {
        if step.first <= number && number < step.end {
            change_cells(cells, shape, size, step.change, copy, sums);
        }
    }
}
