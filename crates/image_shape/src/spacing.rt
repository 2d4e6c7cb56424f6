//! Where the rows are in a list of cells, and where rows are split off.

ghost use Rattle.std.specs.Prelude.{◌≡◌, ◌+◌, ◌-◌, ◌*◌, ◌^◌, ◌<◌, ◌≤◌};
ghost use Rattle.image_model.specs.Rows.{row_count};
ghost use Rattle.image_shape.specs.Shape.{shape_width, shape_height, shape_stride};

use crate::ends::End;
use crate::shape::Shape;

/// Where the rows that are left of an image are in a list of cells.
#[derive(Clone, Copy)]
pub struct Spacing {
    /// The number of cells before the first row.
    pub skip: usize,
    /// The number of rows.
    pub count: usize,
    /// The number of cells in a row.
    pub width: usize,
    /// The number of cells from the start of a row to the start of the next one.
    pub stride: usize,
}

/// Where rows at one end are split off, and where the others are in the cells that are kept.
#[derive(Clone, Copy)]
pub struct Cuts {
    /// The cell that separates the rows, and the cells that are dropped with them, from the cells
    /// that are kept.
    pub outer: usize,
    /// Among the cells that are split off, the one that separates the rows from the cells that are
    /// dropped.
    pub inner: usize,
    /// Where the other rows are in the cells that are kept.
    pub rest: Spacing,
}

impl Spacing {
    ghost use Rattle.image_shape.specs.Spacing.{span, whole_spacing, outer_cut, inner_cut, without};

    /// The rows of a shape, in cells that begin with the first row. Without a column there is no
    /// row.
    pub fn whole(shape: Shape) -> Spacing
        ensures value { result
            ≡ whole_spacing (shape_width shape) (shape_height shape) (shape_stride shape) }
        ensures small { row_count (shape_width shape) (shape_height shape) < 2 ^ 32 }
        ensures positive { 1 ≤ shape_stride shape }
        ensures holds_width { shape_width shape ≤ shape_stride shape }
        ensures width_bound { shape_width shape < 2 ^ 32 }
    {
        Spacing {
            skip: 0,
            count: shape.row_count(),
            width: shape.width(),
            stride: shape.stride(),
        }
    }

    /// Where so many rows at that end are split off, from the first pixel of the first row to the
    /// last pixel of the last.
    pub fn cuts(self, end: End, rows: usize) -> Cuts
        requires some { 0 < rows }
        requires there { rows ≤ self.count }
        requires holds_width { self.width ≤ self.stride }
        requires reach { self.skip + (self.stride * (self.count - 1) + self.width) < 2 ^ 64 }
        ensures outer { result.outer ≡ outer_cut end rows self }
        ensures inner { result.inner ≡ inner_cut end rows self }
        ensures rest { result.rest ≡ without end rows self }
    {
        let others = self.count - rows;
        let span = Shape::cells_of_rows(rows - 1, self.stride) + self.width;
        match end {
            End::First => Cuts {
                outer: self.skip + span,
                inner: self.skip,
                rest: Spacing {
                    skip: self.stride - self.width,
                    count: others,
                    ..self
                },
            },
            End::Last => Cuts {
                outer: self.skip + Shape::cells_of_rows(others, self.stride),
                inner: span,
                rest: Spacing {
                    count: others,
                    ..self
                },
            },
        }
    }
}
