//! Fills: one value in every pixel.

ghost use Rattle.std.specs.Prelude.{◌≡◌, length, replicate};
ghost use Rattle.image_model.specs.Layout.{Fits, SameOutside};
ghost use Rattle.image_model.specs.Grid.{uniform};
ghost use Rattle.image_shape.specs.Shape.{shape_width, shape_height, shaped_grid, shaped};
ghost use Rattle.image_writes.specs.Written.{Becomes};

use crate::joining::fewest_rows;
use image_shape::Shape;

/// Every cell becomes `value`.
pub fn fill_cells<T: Copy>(cells: &mut [T], value: T)
    ensures { cells.new ≡ replicate (length cells.old) value }
{
    for cell in cells.iter_mut() {
        *cell = value;
    }
}

// Every pixel of `shape` in `cells` becomes `value`, by one fill for each row.
fn fill_rows<T: Copy>(cells: &mut [T], shape: Shape, value: T)
    requires fits { Fits (shaped cells.old shape) }
    ensures { Becomes shape cells.old cells.new
        (uniform (shape_width shape) (shape_height shape) value) }
{
    for y in 0..shape.row_count() {
        let row = shape.row(cells.len(), y);
        fill_cells(&mut cells[row.range()], value);
    }
}

/// Every pixel of `shape` in `cells` becomes `value`; the padding stays. The cells must fit;
/// `Shape::fits` tests it.
pub fn fill_pixels<T: Copy>(cells: &mut [T], shape: Shape, value: T)
    requires fits { Fits (shaped cells.old shape) }
    ensures grid { shaped_grid cells.new shape
        ≡ uniform (shape_width shape) (shape_height shape) value }
    ensures outside { SameOutside (shaped cells.old shape) (shaped cells.new shape) }
{
    let (rows, _) = fewest_rows(shape, shape);
    fill_rows(cells, rows, value);
}
