//! Every pixel changed by a closure that takes its place, or the pixel of another image there.

ghost use Rattle.std.specs.Prelude.{◌≡◌, length};
ghost use Rattle.image_model.specs.Layout.{Fits, SameOutside};
ghost use Rattle.image_model.specs.ByPlace.{TakesEachPlace, HasPlaceAnswers, IsMappedByPlace, TakesBothPixels, HasZipAnswers, IsZipped};
ghost use Rattle.image_shape.specs.Shape.{shape_width, shape_height, shaped};
ghost use Rattle.image_ops.specs.CellAnswers.{TakesEachCell, TakesBothCells, AreAnswersAt, both_answers};

use image_rows::row;
use image_shape::Shape;

// Every cell of row `y` becomes what `f` makes of its column, the row and the cell.
fn map_row<T: Copy, F: Fn(usize, usize, T) -> T>(cells: &mut [T], y: usize, f: &F)
    requires callable { TakesEachCell (λ x. F.pre f.now x y) cells.old }
    ensures { AreAnswersAt (λ x. F.post f.now x y) cells.old cells.new }
{
    for x in 0..cells.len() {
        cells[x] = f(x, y, cells[x]);
    }
}

/// Every pixel of `shape` in `cells` becomes the result of `f` for its column, its row and itself.
/// It goes row by row and from left to right, and the padding stays. The cells must fit;
/// `Shape::fits` tests it.
pub fn map_places<T: Copy, F: Fn(usize, usize, T) -> T>(cells: &mut [T], shape: Shape, f: &F)
    requires fits { Fits (shaped cells.old shape) }
    requires callable { TakesEachPlace (F.pre f.now) (shaped cells.old shape) }
    ensures answers { HasPlaceAnswers (F.post f.now)
        (shaped cells.old shape) (shaped cells.new shape) }
    ensures grid { IsMappedByPlace (F.post f.now)
        (shaped cells.old shape) (shaped cells.new shape) }
    ensures outside { SameOutside (shaped cells.old shape) (shaped cells.new shape) }
{
    for y in 0..shape.row_count() {
        let row = shape.row(cells.len(), y);
        map_row(&mut cells[row.range()], y, f);
    }
}

// Every cell becomes what `f` makes of it and the cell of its number in another list.
fn zip_row<T: Copy, U: Copy, F: Fn(T, U) -> T>(cells: &mut [T], others: &[U], f: &F)
    requires as_many { length others.now ≡ length cells.old }
    requires callable { TakesBothCells (F.pre f.now) cells.old others.now }
    ensures { AreAnswersAt (both_answers (F.post f.now) others.now) cells.old cells.new }
{
    for k in 0..cells.len() {
        cells[k] = f(cells[k], others[k]);
    }
}

/// Every pixel of `shape` in `cells` becomes the result of `f` for it and the pixel of the other
/// image at its place. It goes row by row and from left to right, and the padding stays. Both fit
/// (`Shape::fits`) and have the same size; their strides may differ.
pub fn zip_pixels<T: Copy, U: Copy, F: Fn(T, U) -> T>(
    cells: &mut [T],
    shape: Shape,
    others: &[U],
    other_shape: Shape,
    f: &F,
)
    requires fits { Fits (shaped cells.old shape) }
    requires other_fits { Fits (shaped others.now other_shape) }
    requires same_width { shape_width other_shape ≡ shape_width shape }
    requires same_height { shape_height other_shape ≡ shape_height shape }
    requires callable { TakesBothPixels (F.pre f.now)
        (shaped cells.old shape) (shaped others.now other_shape) }
    ensures answers { HasZipAnswers (F.post f.now) (shaped cells.old shape)
        (shaped others.now other_shape) (shaped cells.new shape) }
    ensures grid { IsZipped (F.post f.now) (shaped cells.old shape)
        (shaped others.now other_shape) (shaped cells.new shape) }
    ensures outside { SameOutside (shaped cells.old shape) (shaped cells.new shape) }
{
    for y in 0..shape.row_count() {
        let place = shape.row(cells.len(), y);
        zip_row(&mut cells[place.range()], row(others, other_shape, y), f);
    }
}
