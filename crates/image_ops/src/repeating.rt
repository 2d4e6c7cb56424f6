//! Rows that repeat a pattern of cells: fills of pixels of several cells next to one another.

ghost use Rattle.std.specs.Prelude.{◌≡◌, ◌+◌, ◌≤◌, ◌<◌, length};
ghost use Rattle.image_model.specs.Layout.{Fits, SameOutside};
ghost use Rattle.image_model.specs.Shifts.{shifted};
ghost use Rattle.image_shape.specs.Shape.{shape_width, shape_height, shaped_grid, shaped};
ghost use Rattle.image_ops.specs.Repeated.{repeated, IsRepeated};

use image_shape::{Shape, Stretch};
use image_writes::copy_line;

// The cells become the pattern, again and again.
fn repeat_cells<T: Copy>(row: &mut [T], pattern: &[T])
    requires some { 0 < length pattern.now }
    ensures { IsRepeated pattern.now row.old row.new }
{
    let size = pattern.len();
    for x in 0..row.len() {
        if x < size {
            row[x] = pattern[x];
        } else {
            row[x] = row[x - size];
        }
    }
}

/// Copies a row to a cell after its end, by a call. The compiler doesn't know that two parts of one
/// list don't overlap: without the call it would make a second loop over rows.
#[inline(always)]
pub(crate) fn repeat_row<T: Copy>(cells: &mut [T], row: Stretch, target: usize)
    requires apart { row.start + row.len ≤ target }
    requires target { target + row.len ≤ length cells.old }
    ensures { cells.new ≡ shifted cells.old row.start row.len target }
{
    let (front, back) = cells.split_at_mut(target);
    copy_line(&mut back[..row.len], &front[row.range()]);
}

/// Every row of `shape` in `cells` becomes the pattern, again and again; the padding stays. The
/// cells must fit (`Shape::fits`), and the pattern has a cell.
pub fn repeat_pixels<T: Copy>(cells: &mut [T], shape: Shape, pattern: &[T])
    requires fits { Fits (shaped cells.old shape) }
    requires some { 0 < length pattern.now }
    ensures grid { shaped_grid cells.new shape
        ≡ repeated (shape_width shape) (shape_height shape) pattern.now }
    ensures outside { SameOutside (shaped cells.old shape) (shaped cells.new shape) }
{
    for y in 0..shape.row_count() {
        let row = shape.row(cells.len(), y);
        if y == 0 {
            repeat_cells(&mut cells[row.range()], pattern);
        } else {
            repeat_row(cells, shape.row_above(row), row.start);
        }
    }
}
