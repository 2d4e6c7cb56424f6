//! The number of pixels for which a closure returns true.

ghost use Rattle.std.specs.Prelude.{◌<◌, length};
ghost use Rattle.image_model.specs.Layout.{Fits};
ghost use Rattle.image_model.specs.Rows.{grid_pixels};
ghost use Rattle.image_shape.specs.Shape.{shaped, shaped_grid};
ghost use Rattle.image_ops.specs.Counting.{IsCount};

use image_rows::RowsIter;
use image_shape::Shape;
use std::mem::size_of_val;

// The most bytes of a pixel for which a count by blocks is faster.
const SMALL: usize = 4;

// The width from which on a row is worth a count by blocks.
const WIDE: usize = 8;

// How many pixels are counted in a byte: whole registers, of 16 bytes each.
const BLOCK: usize = 224;

// The number in a block, in a byte: so the compiler counts 16 pixels of a byte in one register. A
// `usize` leaves room for two.
fn count_in_block<T, F: Fn(&T) -> bool>(block: &[T], f: &F) -> u8
    requires callable { F.IsAlwaysCallable f.now }
    requires short { length block.now < 256 }
    ensures { IsCount (F.post f.now) block.now result }
{
    let mut count = 0;
    for pixel in block {
        if f(pixel) {
            count += 1;
        }
    }
    count
}

// The number in a row, block by block.
fn count_by_blocks<T, F: Fn(&T) -> bool>(row: &[T], f: &F) -> usize
    requires { F.IsAlwaysCallable f.now }
    ensures { IsCount (F.post f.now) row.now result }
{
    let mut count = 0;
    let mut rest = row;
    while rest.len() >= BLOCK {
        let (block, after) = rest.split_at(BLOCK);
        count += usize::from(count_in_block(block, f));
        rest = after;
    }
    count + usize::from(count_in_block(rest, f))
}

// The number in a row, pixel by pixel.
#[inline(always)]
fn count_one_by_one<T, F: Fn(&T) -> bool>(row: &[T], f: &F) -> usize
    requires { F.IsAlwaysCallable f.now }
    ensures { IsCount (F.post f.now) row.now result }
{
    let mut count = 0;
    for pixel in row {
        if f(pixel) {
            count += 1;
        }
    }
    count
}

// The number in a row. In few pixels, and in large ones, a block gains nothing.
#[inline(always)]
fn count_in_row<T, F: Fn(&T) -> bool>(row: &[T], f: &F) -> usize
    requires { F.IsAlwaysCallable f.now }
    ensures { IsCount (F.post f.now) row.now result }
{
    match row.first() {
        Some(pixel) if size_of_val(pixel) <= SMALL && row.len() >= WIDE => count_by_blocks(row, f),
        _ => count_one_by_one(row, f),
    }
}

/// The number of pixels of `shape` in `cells` for which `f` returns true. `f` is called row by row
/// and from left to right. The cells must fit; `Shape::fits` tests it.
pub fn count_pixels<T, F: Fn(&T) -> bool>(cells: &[T], shape: Shape, f: &F) -> usize
    requires fits { Fits (shaped cells.now shape) }
    requires callable { F.IsAlwaysCallable f.now }
    ensures { IsCount (F.post f.now) (grid_pixels (shaped_grid cells.now shape)) result }
{
    let pixels = shape.pixel_count();
    if shape.width() == shape.stride() {
        // The rows lie one after the other, so they are counted as one.
        return count_in_row(&cells[..pixels], f);
    }
    let mut count = 0;
    for row in RowsIter::new(cells, shape) {
        count += count_in_row(row, f);
    }
    count
}
