//! The number of pixels that have a value. A pixel is one cell or several, next to one another in a row.

ghost use Rattle.std.specs.Prelude.{◌≡◌, ◌*◌, ◌<◌, ◌≤◌, count_by, length};
ghost use Rattle.image_model.specs.Layout.{Fits};
ghost use Rattle.image_model.specs.Rows.{grid_pixels};
ghost use Rattle.image_shape.specs.Shape.{shaped, shaped_grid};
ghost use Rattle.image_ops.specs.PixelCounts.{times_in_row, times_shown};

use crate::counting::count_pixels;
use image_rows::RowsIter;
use image_shape::Shape;

// The number of pixels of a row that have the value of `N` cells.
fn count_pixels_in_row<T: PartialEq, const N: usize>(row: &[T], value: &[T]) -> usize
    requires some { 0 < N }
    requires size { length value.now ≡ N }
    ensures number { result ≡ times_in_row T.eq value.now row.now }
    ensures within { result ≤ length row.now }
{
    let mut count = 0;
    for x in 0..row.len() / N {
        if &row[x * N..x * N + N] == value {
            count += 1;
        }
    }
    count
}

// The same of all rows.
fn count_in_rows<T: PartialEq, const N: usize>(cells: &[T], shape: Shape, value: &[T]) -> usize
    requires some { 0 < N }
    requires size { length value.now ≡ N }
    requires fits { Fits (shaped cells.now shape) }
    ensures { result ≡ times_shown T.eq value.now (shaped_grid cells.now shape) }
{
    let _pixels = shape.pixel_count();
    let mut count = 0;
    for row in RowsIter::new(cells, shape) {
        count += count_pixels_in_row::<T, N>(row, value);
    }
    count
}

// The number of cells of `shape` that are equal to one.
fn count_equal<T: PartialEq>(cells: &[T], shape: Shape, wanted: &T) -> usize
    requires fits { Fits (shaped cells.now shape) }
    ensures { result
        ≡ count_by (λ p. T.eq p wanted.now) (grid_pixels (shaped_grid cells.now shape)) }
{
    count_pixels(cells, shape, &|cell: &T| cell == wanted)
}

// The number of pixels of one cell that have the value.
fn count_cells<T: PartialEq>(cells: &[T], shape: Shape, value: &[T]) -> usize
    requires size { length value.now ≡ 1 }
    requires fits { Fits (shaped cells.now shape) }
    ensures { result ≡ times_shown T.eq value.now (shaped_grid cells.now shape) }
{
    count_equal(cells, shape, &value[0])
}

/// The number of pixels of `shape` in `cells` that have the value. A pixel is as many cells as the
/// value, 1 to 4, next to one another in a row. The cells must fit; `Shape::fits` tests it.
pub fn count_value<T: PartialEq>(cells: &[T], shape: Shape, value: &[T]) -> usize
    requires some { 0 < length value.now }
    requires few { length value.now ≤ 4 }
    requires fits { Fits (shaped cells.now shape) }
    ensures { result ≡ times_shown T.eq value.now (shaped_grid cells.now shape) }
{
    match value.len() {
        1 => count_cells(cells, shape, value),
        2 => count_in_rows::<T, 2>(cells, shape, value),
        3 => count_in_rows::<T, 3>(cells, shape, value),
        _ => count_in_rows::<T, 4>(cells, shape, value),
    }
}
