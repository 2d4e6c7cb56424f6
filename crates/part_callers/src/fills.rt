//! Fills of cells in a shape, through the cursor of `pixels_mut`.

ghost use Rattle.std.specs.Prelude.{◌≡◌};
ghost use Rattle.image_model.specs.Layout.{Fits, SameOutside};
ghost use Rattle.image_model.specs.Grid.{uniform};
ghost use Rattle.imgref.specs.Shape.{shape_width, shape_height, shaped_grid, shaped};

use imgref::{ImgRefMut, Shape};
use imgref_examples::write_first;

// Every pixel becomes `value`, one after the other.
pub fn fill<T: Copy>(cells: &mut [T], shape: Shape, value: T)
    requires fits { Fits (shaped cells.old shape) }
    ensures grid { shaped_grid cells.new shape
        ≡ uniform (shape_width shape) (shape_height shape) value }
    ensures outside { SameOutside (shaped cells.old shape) (shaped cells.new shape) }
{
    let count = shape.pixel_count();
    let mut image = ImgRefMut::from_parts(cells, shape);
    write_first(&mut image, count, value);
}
