//! Windows that are flipped in place: their rows, or the pixels of their rows. A pixel may have several
//! cells, next to one another in a row.

ghost use Rattle.std.specs.Prelude.{IsTrue, ◌≡◌, ◌+◌, ◌-◌, ◌*◌, ◌/◌, ◌%◌, ◌<◌, ◌≤◌, ◌^◌, length};
ghost use Rattle.image_model.specs.Flips.{flipped};
ghost use Rattle.image_model.specs.Grid.{patch};
ghost use Rattle.image_model.specs.Layout.{Fits, SameOutside};
ghost use Rattle.image_model.specs.Windows.{window_view, IsInside};
ghost use Rattle.image_shape.specs.Shape.{shape_width, shape_height, shape_stride, shaped_grid, shaped};
ghost use Rattle.image_shape.specs.Window.{as_window};
ghost use Rattle.image_writes.specs.Gathered.{AreGathered};
ghost use Rattle.image_writes.specs.Mirrored.{mirrored_by};
ghost use Rattle.image_writes.specs.Written.{Becomes};

use crate::flipping::{flip_columns, flip_rows};
use crate::swapping::swap_pixels;
use crate::triples::{reverse_triples, triples_pay};
use image_shape::{Shape, Window};
use image_writes::exact_part;

/// The first row of the window changes places with its last, and so on; every other cell stays. The
/// cells fit the shape, and the window is inside it.
pub fn flip_window_rows<T>(cells: &mut [T], shape: Shape, window: Window)
    requires fits { Fits (shaped cells.old shape) }
    requires inside { IsInside (shape_width shape) (shape_height shape) (as_window window) }
    ensures grid { shaped_grid cells.new shape ≡ patch (shaped_grid cells.old shape)
        window.left window.top (flipped (window_view (shaped_grid cells.old shape) (as_window window))) }
    ensures outside { SameOutside (shaped cells.old shape) (shaped cells.new shape) }
{
    let (part, inner) = exact_part(cells.len(), shape, window);
    flip_rows(&mut cells[part], inner);
}

// Rows of `N` cells, without padding: the first changes places with the last, and so on.
#[inline(always)]
#[tactic(auto, using(image_model::proofs::Flips::flips))]
fn flip_pixels<T: Copy, const N: usize>(cells: &mut [T], shape: Shape)
    requires some { 0 < N }
    requires width { shape_width shape ≡ N }
    requires stride { shape_stride shape ≡ N }
    requires fits { Fits (shaped cells.old shape) }
    ensures { Becomes shape cells.old cells.new (flipped (shaped_grid cells.old shape)) }
{
    let height = shape.height();
    for y in 0..height / 2 {
        swap_pixels::<T, N>(cells, shape, y, height - 1 - y);
    }
}

// The same of rows of any size, where `N` is 0.
#[inline(always)]
fn flip_sized<T: Copy, const N: usize>(cells: &mut [T], shape: Shape)
    requires width { 0 < N → shape_width shape ≡ N }
    requires stride { 0 < N → shape_stride shape ≡ N }
    requires fits { Fits (shaped cells.old shape) }
    ensures { Becomes shape cells.old cells.new (flipped (shaped_grid cells.old shape)) }
{
    if N > 0 {
        flip_pixels::<T, N>(cells, shape);
    } else {
        flip_rows(cells, shape);
    }
}

// The pixels of a row in the opposite order, of `N` cells each, or of any number where `N` is 0. As an
// image with one pixel in each row, the row is upside down then. Pixels of three cells may go by blocks.
#[inline(always)]
fn reverse_pixels<T: Copy, const N: usize, const BLOCKS: bool>(
    row: &mut [T],
    size: usize,
    count: usize,
)
    requires known { 0 < N → size ≡ N }
    requires blocks { IsTrue BLOCKS → size ≡ 3 }
    requires some { 0 < size }
    requires many { length row.old ≡ count * size }
    requires size_bound { size < 2 ^ 32 }
    requires count_bound { count < 2 ^ 32 }
    ensures as_many { length row.new ≡ length row.old }
    ensures turned { AreGathered (λ k. (count - 1 - k / size) * size + k % size) row.old row.new }
{
    if BLOCKS {
        reverse_triples(row);
    } else {
        flip_sized::<T, N>(row, Shape::new(size, count, size));
    }
}

// In each row the first pixel changes places with the last, and so on.
fn reverse_pixel_rows<T: Copy, const N: usize, const BLOCKS: bool>(
    cells: &mut [T],
    shape: Shape,
    size: usize,
    columns: usize,
)
    requires known { 0 < N → size ≡ N }
    requires blocks { IsTrue BLOCKS → size ≡ 3 }
    requires some { 0 < size }
    requires size_bound { size < 2 ^ 32 }
    requires fits { Fits (shaped cells.old shape) }
    requires width { shape_width shape ≡ columns * size }
    ensures { Becomes shape cells.old cells.new (mirrored_by size (shaped_grid cells.old shape)) }
{
    let _width = shape.width();
    for y in 0..shape.row_count() {
        let row = shape.row(cells.len(), y);
        reverse_pixels::<T, N, BLOCKS>(&mut cells[row.range()], size, columns);
    }
}

/// In each row the first pixel changes places with the last, and so on; the padding stays. A pixel is
/// `size` cells next to one another, and a row has `columns` pixels. The cells fit the shape.
///
/// How many cells a pixel of an image has is told once for all of them. So a pixel of a few cells
/// moves whole.
pub fn mirror_pixels<T: Copy>(cells: &mut [T], shape: Shape, size: usize, columns: usize)
    requires some { 0 < size }
    requires size_bound { size < 2 ^ 32 }
    requires fits { Fits (shaped cells.old shape) }
    requires width { shape_width shape ≡ columns * size }
    ensures grid { shaped_grid cells.new shape ≡ mirrored_by size (shaped_grid cells.old shape) }
    ensures outside { SameOutside (shaped cells.old shape) (shaped cells.new shape) }
{
    match size {
        1 => flip_columns(cells, shape),
        2 => reverse_pixel_rows::<T, 2, false>(cells, shape, size, columns),
        3 if triples_pay(cells, columns) => {
            reverse_pixel_rows::<T, 3, true>(cells, shape, size, columns);
        }
        3 => reverse_pixel_rows::<T, 3, false>(cells, shape, size, columns),
        4 => reverse_pixel_rows::<T, 4, false>(cells, shape, size, columns),
        _ => reverse_pixel_rows::<T, 0, false>(cells, shape, size, columns),
    }
}

/// In each row of the window the first pixel changes places with the last, and so on; every other cell
/// stays. A pixel is `size` cells next to one another, and the window has `columns` pixels in a row.
/// The cells fit the shape, and the window is inside it.
pub fn flip_window_columns<T: Copy>(
    cells: &mut [T],
    shape: Shape,
    window: Window,
    size: usize,
    columns: usize,
)
    requires some { 0 < size }
    requires size_bound { size < 2 ^ 32 }
    requires fits { Fits (shaped cells.old shape) }
    requires inside { IsInside (shape_width shape) (shape_height shape) (as_window window) }
    requires width { window.width ≡ columns * size }
    ensures grid { shaped_grid cells.new shape ≡ patch (shaped_grid cells.old shape)
        window.left window.top
        (mirrored_by size (window_view (shaped_grid cells.old shape) (as_window window))) }
    ensures outside { SameOutside (shaped cells.old shape) (shaped cells.new shape) }
{
    let (part, inner) = exact_part(cells.len(), shape, window);
    mirror_pixels(&mut cells[part], inner, size, columns);
}
