//! The counts with which a cursor over a shape begins.

ghost use Rattle.std.specs.Prelude.{◌≡◌, ◌+◌, ◌-◌, ◌*◌, ◌<◌, ◌≤◌, ◌^◌};
ghost use Rattle.image_shape.specs.Shape.{shape_width, shape_height, shape_stride};
ghost use Rattle.image_pixels.specs.Marks.{first_row, rows_after};

use image_shape::Shape;

// The pixels that are left in a row, the rows after it, the width of each, and how many cells of
// padding lie before it.
#[derive(Clone, Copy)]
pub(crate) struct Counts {
    pub(crate) remaining: usize,
    pub(crate) rows_left: usize,
    pub(crate) width: usize,
    pub(crate) pad: usize,
}

impl Counts {
    // Those of a whole shape.
    pub(crate) fn of_shape(shape: Shape) -> Counts
        ensures remaining { result.remaining ≡ first_row (shape_width shape) (shape_height shape) }
        ensures rows_left { result.rows_left ≡ rows_after (shape_width shape) (shape_height shape) }
        ensures width { result.width ≡ shape_width shape }
        ensures pad { result.pad ≡ shape_stride shape - shape_width shape }
        ensures holds_width { shape_width shape ≤ shape_stride shape }
        ensures width_bound { shape_width shape < 2 ^ 32 }
        ensures height_bound { shape_height shape < 2 ^ 32 }
    {
        let width = shape.width();
        Counts {
            remaining: if shape.height() == 0 { 0 } else { width },
            rows_left: shape.row_count().saturating_sub(1),
            width,
            pad: shape.padding(),
        }
    }
}

// How many pixels are left: those of the row, and those of the rows after it.
pub(crate) fn pixels_left(remaining: usize, rows_left: usize, width: usize) -> usize
    requires { remaining + rows_left * width < 2 ^ 64 }
    ensures { result ≡ remaining + rows_left * width }
{
    remaining + Shape::cells_of_rows(rows_left, width)
}
