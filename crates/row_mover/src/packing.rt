//! Rows of an image, joined at the front of its cells.

ghost use Rattle.std.specs.Prelude.{◌≡◌, ◌*◌, ◌++◌, length, drop};
ghost use Rattle.std.specs.Vec.{vec_capacity};
ghost use Rattle.image_model.specs.Layout.{Fits};
ghost use Rattle.image_model.specs.Grid.{grid_of};
ghost use Rattle.image_model.specs.Rows.{joined_rows};
ghost use Rattle.image_model.specs.Compaction.{IsPacked, packed};
ghost use Rattle.image_shape.specs.Shape.{shape_width, shape_height, shaped_grid, shaped};

use crate::RowMover;
use image_shape::Shape;

// The cells with the rows of an image joined at their front. They are handed back whole, so that
// what is done to them is known where they were lent. It isn't inlined: so rows that touch cost their
// test alone.
#[inline(never)]
fn with_joined_rows<T: Copy>(cells: &mut [T], shape: Shape) -> &mut [T]
    requires fits { Fits (shaped cells.old shape) }
    ensures same { result.ghost_name ≡ cells.entry.ghost_name }
    ensures cells { result.now ≡ joined_rows (shaped cells.old shape)
        ++ drop (shape_width shape * shape_height shape) cells.old }
    ensures length { length result.now ≡ length cells.old }
{
    let mut mover = RowMover::new(cells);
    mover.compact_rows(shape.width(), shape.height(), shape.stride());
    mover.into_cells()
}

/// Joins the rows of an image at the front of its cells, in place; the cells after them stay. The
/// cells fit.
pub fn join_rows<T: Copy>(cells: &mut [T], shape: Shape)
    requires fits { Fits (shaped cells.old shape) }
    ensures cells { cells.new ≡ joined_rows (shaped cells.old shape)
        ++ drop (shape_width shape * shape_height shape) cells.old }
{
    if shape.width() == shape.stride() {
        return;
    }
    with_joined_rows(cells, shape);
}

/// Leaves only the joined rows in the buffer, and returns their shape: the same size at the least
/// stride. The cells fit. The buffer keeps its capacity: no memory is allocated or freed.
pub fn pack<T: Copy>(buf: &mut Vec<T>, shape: Shape) -> Shape
    requires fits { Fits (shaped buf.old.items shape) }
    ensures layout { shaped buf.new.items result ≡ packed (shaped buf.old.items shape) }
    ensures packed { IsPacked (packed (shaped buf.old.items shape)) }
    ensures fits { Fits (packed (shaped buf.old.items shape)) }
    ensures grid { grid_of (packed (shaped buf.old.items shape)) ≡ shaped_grid buf.old.items shape }
    ensures capacity { vec_capacity buf.new ≡ vec_capacity buf.old }
{
    join_rows(buf.as_mut_slice(), shape);
    buf.truncate(shape.pixel_count());
    shape.packed()
}
