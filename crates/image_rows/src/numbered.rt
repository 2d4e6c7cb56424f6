//! A row by its number.

ghost use Rattle.std.specs.Prelude.{◌≡◌, ◌<◌, length};
ghost use Rattle.image_model.specs.Layout.{Fits};
ghost use Rattle.image_model.specs.Rows.{row as row_of};
ghost use Rattle.image_shape.specs.Shape.{shape_width, shape_height, shaped};

use image_shape::Shape;

/// The pixels of row `y`. The cells fit the shape, which has that row.
pub fn row<T>(cells: &[T], shape: Shape, y: usize) -> &[T]
    requires row { y < shape_height shape }
    requires fits { Fits (shaped cells.now shape) }
    ensures value { result.now ≡ row_of (shaped cells.now shape) y }
    ensures len { length result.now ≡ shape_width shape }
{
    &cells[shape.any_row(cells.len(), y).range()]
}
