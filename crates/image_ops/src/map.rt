//! Every pixel changed by a closure.

ghost use Rattle.image_model.specs.Layout.{Fits, SameOutside};
ghost use Rattle.image_model.specs.Mapped.{HasAnswers, IsMapped};
ghost use Rattle.image_shape.specs.Shape.{shaped};
ghost use Rattle.image_ops.specs.CellAnswers.{AreAnswersAt};

use image_shape::Shape;

// Every cell becomes what `f` makes of it.
fn map_cells<T: Copy, F: Fn(T) -> T>(cells: &mut [T], f: &F)
    requires { F.IsAlwaysCallable f.now }
    ensures { AreAnswersAt (λ _. F.post f.now) cells.old cells.new }
{
    for cell in cells.iter_mut() {
        *cell = f(*cell);
    }
}

/// Every pixel of `shape` in `cells` becomes the result of `f` for it, row by row and from left to
/// right; the padding stays. The cells must fit; `Shape::fits` tests it.
pub fn map_pixels<T: Copy, F: Fn(T) -> T>(cells: &mut [T], shape: Shape, f: &F)
    requires fits { Fits (shaped cells.old shape) }
    requires callable { F.IsAlwaysCallable f.now }
    ensures answers { HasAnswers (F.post f.now) (shaped cells.old shape) (shaped cells.new shape) }
    ensures grid { IsMapped (F.post f.now) (shaped cells.old shape) (shaped cells.new shape) }
    ensures outside { SameOutside (shaped cells.old shape) (shaped cells.new shape) }
{
    for y in 0..shape.row_count() {
        let row = shape.row(cells.len(), y);
        map_cells(&mut cells[row.range()], f);
    }
}
