//! Exchanges of rows.

ghost use Rattle.std.specs.Prelude.{◌≡◌, ◌+◌, ◌<◌, ◌≤◌, length};
ghost use Rattle.image_model.specs.Layout.{Fits, SameOutside};
ghost use Rattle.image_model.specs.Swaps.{StretchesSwapped, rows_swapped};
ghost use Rattle.image_shape.specs.Shape.{shape_width, shape_height, shape_stride, shaped_grid, shaped};
ghost use Rattle.image_writes.specs.Written.{Becomes};

use image_shape::{Shape, Stretch};

// Two stretches of one length change places.
fn swap_stretches<T>(cells: &mut [T], first: Stretch, second: Stretch)
    requires same { first.len ≡ second.len }
    requires apart { first.start + first.len ≤ second.start }
    requires inside { second.start + second.len ≤ length cells.old }
    ensures { StretchesSwapped cells.old cells.new first.start second.start second.len }
{
    let (front, back) = cells.split_at_mut(second.start);
    front[first.range()].swap_with_slice(&mut back[..second.len]);
}

// The same of stretches of `N` cells. Each is read whole before one is written.
#[inline(always)]
fn swap_few<T: Copy, const N: usize>(cells: &mut [T], first: usize, second: usize)
    requires some { 0 < N }
    requires apart { first + N ≤ second }
    requires inside { second + N ≤ length cells.old }
    ensures { StretchesSwapped cells.old cells.new first second N }
{
    let mut front = [cells[first]; N];
    let mut back = [cells[second]; N];
    front
        .as_mut_slice()
        .copy_from_slice(&cells[first..first + N]);
    back.as_mut_slice()
        .copy_from_slice(&cells[second..second + N]);
    cells[first..first + N].copy_from_slice(back.as_slice());
    cells[second..second + N].copy_from_slice(front.as_slice());
}

// Two rows of `N` cells change places, the upper one first. There is no padding.
#[inline(always)]
pub(crate) fn swap_pixels<T: Copy, const N: usize>(
    cells: &mut [T],
    shape: Shape,
    upper: usize,
    lower: usize,
)
    requires some { 0 < N }
    requires width { shape_width shape ≡ N }
    requires stride { shape_stride shape ≡ N }
    requires fits { Fits (shaped cells.old shape) }
    requires order { upper < lower }
    requires below { lower < shape_height shape }
    ensures { Becomes shape cells.old cells.new
        (rows_swapped upper lower (shaped_grid cells.old shape)) }
{
    let _reach = shape.row(cells.len(), lower);
    swap_few::<T, N>(cells, upper * N, lower * N);
}

// The same of two rows, the upper one first.
fn swap_apart<T>(cells: &mut [T], shape: Shape, upper: usize, lower: usize)
    requires fits { Fits (shaped cells.old shape) }
    requires order { upper < lower }
    requires below { lower < shape_height shape }
    ensures { Becomes shape cells.old cells.new
        (rows_swapped upper lower (shaped_grid cells.old shape)) }
{
    // Without a column there is nothing to swap.
    if lower >= shape.row_count() {
        return;
    }
    let first = shape.row(cells.len(), upper);
    let second = shape.row(cells.len(), lower);
    swap_stretches(cells, first, second);
}

/// The pixels of rows `y` and `z` of `shape` in `cells` are exchanged, and the padding stays. The
/// cells must fit; `Shape::fits` tests it.
pub fn swap_rows<T>(cells: &mut [T], shape: Shape, y: usize, z: usize)
    requires fits { Fits (shaped cells.old shape) }
    requires first { y < shape_height shape }
    requires second { z < shape_height shape }
    ensures grid { shaped_grid cells.new shape ≡ rows_swapped y z (shaped_grid cells.old shape) }
    ensures outside { SameOutside (shaped cells.old shape) (shaped cells.new shape) }
{
    if y < z {
        swap_apart(cells, shape, y, z);
    } else if z < y {
        swap_apart(cells, shape, z, y);
    }
}
