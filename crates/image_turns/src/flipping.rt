//! Rows and columns that change places: images upside down and mirrored, and two columns exchanged.

ghost use Rattle.std.specs.Prelude.{◌≡◌, ◌+◌, ◌-◌, ◌*◌, ◌<◌, ◌≤◌, length};
ghost use Rattle.image_model.specs.Flips.{flipped};
ghost use Rattle.image_model.specs.Layout.{Fits, SameOutside};
ghost use Rattle.image_model.specs.Turns.{swapped_column, columns_swapped, mirrored};
ghost use Rattle.image_shape.specs.Shape.{shape_width, shaped_grid, shaped};
ghost use Rattle.image_writes.specs.Gathered.{AreGathered, mirrored_place};
ghost use Rattle.image_writes.specs.Written.{Becomes};

use crate::swapping::swap_rows;
use image_shape::Shape;

/// The first row changes places with the last, the second with the one before the last, and so on;
/// the padding stays. The cells must fit; `Shape::fits` tests it.
#[tactic(auto, using(image_model::proofs::Flips::flips))]
pub fn flip_rows<T>(cells: &mut [T], shape: Shape)
    requires fits { Fits (shaped cells.old shape) }
    ensures grid { shaped_grid cells.new shape ≡ flipped (shaped_grid cells.old shape) }
    ensures outside { SameOutside (shaped cells.old shape) (shaped cells.new shape) }
{
    // Without a column there is nothing to change, however many rows there are.
    if shape.row_count() == 0 {
        return;
    }
    let height = shape.height();
    for y in 0..height / 2 {
        swap_rows(cells, shape, y, height - 1 - y);
    }
}

/// Each cell becomes a cell of the source, which is as long, from its last one on.
pub(crate) fn copy_back<T: Copy>(cells: &mut [T], source: &[T])
    requires as_many { length source.now ≡ length cells.old }
    ensures as_many { length cells.new ≡ length cells.old }
    ensures taken { AreGathered (λ k. length cells.old - 1 - k) source.now cells.new }
{
    let count = cells.len();
    for k in 0..count {
        cells[k] = source[count - 1 - k];
    }
}

// The `N` cells after the first `done` change places with those before the last `done`, the first
// with the last. All are read before one is written: so the two blocks may overlap, and the
// compiler makes vector code of them.
fn exchange_blocks<T: Copy, const N: usize>(row: &mut [T], done: usize)
    requires some { 0 < N }
    requires inside { 2 * done + N ≤ length row.old }
    ensures as_many { length row.new ≡ length row.old }
    ensures crossed { AreGathered (mirrored_place (length row.old) done (done + N)) row.old row.new }
{
    let last = row.len() - done - N;
    let mut front = [row[done]; N];
    let mut back = [row[done]; N];
    copy_back(front.as_mut_slice(), &row[done..done + N]);
    copy_back(back.as_mut_slice(), &row[last..last + N]);
    row[done..done + N].copy_from_slice(back.as_slice());
    row[last..last + N].copy_from_slice(front.as_slice());
}

// Of fewer than 32 cells between the first `done` and the last `done` the first changes places with
// the last, and so on.
fn reverse_middle<T: Copy>(row: &mut [T], done: usize)
    requires inside { 2 * done ≤ length row.old }
    requires few { length row.old < 2 * done + 32 }
    ensures as_many { length row.new ≡ length row.old }
    ensures crossed { AreGathered (mirrored_place (length row.old) done (length row.old))
        row.old row.new }
{
    let left = row.len() - 2 * done;
    if left >= 16 {
        exchange_blocks::<T, 16>(row, done);
    } else if left >= 8 {
        exchange_blocks::<T, 8>(row, done);
    } else if left >= 4 {
        exchange_blocks::<T, 4>(row, done);
    } else if left >= 2 {
        exchange_blocks::<T, 2>(row, done);
    }
}

// The cells in the opposite order, pair by pair.
fn reverse_few<T: Copy>(row: &mut [T])
    ensures as_many { length row.new ≡ length row.old }
    ensures turned { AreGathered (λ x. length row.old - 1 - x) row.old row.new }
{
    for x in 0..row.len() / 2 {
        let z = row.len() - 1 - x;
        swap_cells(row, x, z);
    }
}

// The cells in the opposite order: a few of them pair by pair, and more by blocks.
#[inline(always)]
fn reverse_row<T: Copy, const FEW: bool>(row: &mut [T])
    ensures as_many { length row.new ≡ length row.old }
    ensures turned { AreGathered (λ x. length row.old - 1 - x) row.old row.new }
{
    if FEW {
        reverse_few(row);
        return;
    }
    let blocks = row.len() / 32;
    for block in 0..blocks {
        exchange_blocks::<T, 16>(row, 16 * block);
    }
    if row.len() % 32 >= 2 {
        reverse_middle(row, 16 * blocks);
    }
}

// In each row the first pixel changes places with the last, and so on. It isn't inlined: the loop
// for rows of a few pixels would take registers from the other one.
#[inline(never)]
fn reverse_rows<T: Copy, const FEW: bool>(cells: &mut [T], shape: Shape)
    requires fits { Fits (shaped cells.old shape) }
    ensures { Becomes shape cells.old cells.new (mirrored (shaped_grid cells.old shape)) }
{
    for y in 0..shape.row_count() {
        let row = shape.row(cells.len(), y);
        reverse_row::<T, FEW>(&mut cells[row.range()]);
    }
}

/// In each row the first pixel changes places with the last, and so on; the padding stays. The
/// cells must fit; `Shape::fits` tests it.
pub fn flip_columns<T: Copy>(cells: &mut [T], shape: Shape)
    requires fits { Fits (shaped cells.old shape) }
    ensures grid { shaped_grid cells.new shape ≡ mirrored (shaped_grid cells.old shape) }
    ensures outside { SameOutside (shaped cells.old shape) (shaped cells.new shape) }
{
    // Blocks of fewer pixels would take longer than their pairs.
    if shape.width() < 8 {
        reverse_rows::<T, true>(cells, shape);
    } else {
        reverse_rows::<T, false>(cells, shape);
    }
}

/// Two cells change places.
pub(crate) fn swap_cells<T: Copy>(row: &mut [T], x: usize, z: usize)
    requires first { x < length row.old }
    requires second { z < length row.old }
    ensures as_many { length row.new ≡ length row.old }
    ensures swapped { AreGathered (swapped_column x z) row.old row.new }
{
    let pixel = row[x];
    row[x] = row[z];
    row[z] = pixel;
}

/// The pixels of columns `x` and `z` of `shape` in `cells` are exchanged, and the padding stays.
/// The cells must fit; `Shape::fits` tests it.
pub fn swap_columns<T: Copy>(cells: &mut [T], shape: Shape, x: usize, z: usize)
    requires fits { Fits (shaped cells.old shape) }
    requires first { x < shape_width shape }
    requires second { z < shape_width shape }
    ensures grid { shaped_grid cells.new shape ≡ columns_swapped x z (shaped_grid cells.old shape) }
    ensures outside { SameOutside (shaped cells.old shape) (shaped cells.new shape) }
{
    for y in 0..shape.row_count() {
        let row = shape.row(cells.len(), y);
        swap_cells(&mut cells[row.range()], x, z);
    }
}
