//! Images whose columns become rows, by bands of rows that are read from a copy of their cells.
//!
//! Where the rows of the source share few sets of the nearest cache, their lines are gone before their
//! next pixels are taken. So whole pieces of these rows are copied to a block first, and no stride
//! matters. A block has a stride that the compiler knows.

ghost use Rattle.std.specs.Prelude.{◌≡◌, ◌+◌, ◌*◌, ◌<◌, ◌≤◌, length};
ghost use Rattle.image_model.specs.Grid.{patch, view};
ghost use Rattle.image_shape.specs.Shape.{shape_width, shape_height, shape_stride, shaped_grid};
ghost use Rattle.image_turns.specs.Quarters.{quartered};
ghost use Rattle.image_turns.specs.Sizes.{AreCrosswise};
ghost use Rattle.image_writes.specs.Written.{Becomes};

use crate::blocks::read_rows;
use crate::turning::{CrossedShape, blocks_pay, first_column, quarter_blocks, quarter_rows};
use image_shape::{Shape, Window};
use image_writes::{exact_part, padded_part};
use std::mem::size_of_val;

// Every pixel of `shape` in `cells` becomes the pixel of the source whose columns are rows, 16 rows at
// a time. They are put together in `lines` first, and written as whole rows: so their own stride
// doesn't matter either. Where the last ones would be cut off, they begin earlier.
#[inline(always)]
fn quarter_lines<T: Copy>(
    cells: &mut [T],
    shape: Shape,
    source: &[T],
    from: CrossedShape,
    lines: &mut [T],
)
    requires sizes { AreCrosswise cells.old shape source.now from.shape }
    requires wide { 16 ≤ shape_width shape }
    requires high { 16 ≤ shape_height shape }
    requires narrow { shape_width shape ≤ shape_stride from.shape }
    requires room { 16 * shape_stride from.shape ≤ length lines.old }
    ensures becomes { Becomes shape cells.old cells.new
        (quartered from.crossing (shaped_grid source.now from.shape)) }
    ensures as_many { length lines.new ≡ length lines.old }
{
    let (width, height) = (shape.width(), shape.height());
    let (columns, rows) = (from.shape.width(), from.shape.height());
    let band = Shape::new(width, 16, from.shape.stride());
    let mut top = 0;
    while top < height {
        let line = top.min(height - 16);
        let column = first_column(from.crossing, columns, line, 16);
        let place = Window::new(column, 0, 16, rows);
        let (seen, seen_shape) = padded_part(source, from.shape, place);
        let seen_from = CrossedShape {
            shape: seen_shape,
            crossing: from.crossing,
        };
        quarter_blocks(lines, band, seen, seen_from);
        let shown = Window::new(0, line, width, 16);
        let (part, inner) = exact_part(cells.len(), shape, shown);
        read_rows::<T, 0>(&mut cells[part], inner, lines, band, false);
        top += 16;
    }
}

// The `height` rows from row `top` on become those that the source shows there. Its cells that they
// show are copied first. It isn't inlined, so that the compiler makes vector code of it.
#[inline(never)]
fn quarter_band<T: Copy, const SIDE: usize>(
    cells: &mut [T],
    shape: Shape,
    top: usize,
    height: usize,
    source: &[T],
    from: CrossedShape,
    copy: &mut [T],
    lines: &mut [T],
)
    requires sizes { AreCrosswise cells.old shape source.now from.shape }
    requires some { 0 < SIDE }
    requires narrow { shape_width shape ≤ SIDE }
    requires low { height ≤ SIDE }
    requires there { top + height ≤ shape_height shape }
    requires room { SIDE * SIDE ≤ length copy.old }
    ensures becomes { Becomes shape cells.old cells.new (patch (shaped_grid cells.old shape) 0 top
        (view (quartered from.crossing (shaped_grid source.now from.shape)) 0 top
        (shape_width shape) height)) }
    ensures as_many { length copy.new ≡ length copy.old }
    ensures as_many_lines { length lines.new ≡ length lines.old }
{
    let column = first_column(from.crossing, from.shape.width(), top, height);
    let place = Window::new(column, 0, height, from.shape.height());
    let (seen, seen_shape) = padded_part(source, from.shape, place);
    let near = Shape::new(height, from.shape.height(), SIDE);
    read_rows::<T, 0>(copy, near, seen, seen_shape, false);
    let copy_from = CrossedShape {
        shape: near,
        crossing: from.crossing,
    };
    let place = Window::new(0, top, shape.width(), height);
    let (part, inner) = exact_part(cells.len(), shape, place);
    let target = &mut cells[part];
    if lines.len() / 16 >= SIDE && blocks_pay(copy, inner) {
        quarter_lines(target, inner, copy, copy_from, lines);
    } else {
        quarter_rows(target, inner, copy, copy_from);
    }
}

// Every pixel of `shape` in `cells` becomes the pixel of the source whose columns are rows, `SIDE`
// rows at a time. What is in `copy` and `lines` doesn't matter.
fn quarter_bands<T: Copy, const SIDE: usize>(
    cells: &mut [T],
    shape: Shape,
    source: &[T],
    from: CrossedShape,
    copy: &mut [T],
    lines: &mut [T],
)
    requires sizes { AreCrosswise cells.old shape source.now from.shape }
    requires some { 0 < SIDE }
    requires narrow { shape_width shape ≤ SIDE }
    requires room { SIDE * SIDE ≤ length copy.old }
    ensures { Becomes shape cells.old cells.new
        (quartered from.crossing (shaped_grid source.now from.shape)) }
{
    let height = shape.height();
    let mut top = 0;
    while top < height {
        let count = SIDE.min(height - top);
        quarter_band::<T, SIDE>(cells, shape, top, count, source, from, copy, lines);
        top += count;
    }
}

/// How many columns `quarter_copied` writes, at most: 0 for cells that it doesn't copy. These are so
/// large that a line of the cache holds few of them.
pub(crate) fn copied_columns(size: usize) -> usize {
    match size {
        1 => 144,
        2 => 112,
        3..=4 => 64,
        5..=8 => 32,
        9..=16 => 16,
        _ => 0,
    }
}

/// Every pixel of `shape` in `cells` becomes the pixel of the source whose columns are rows. Up to
/// 24 KiB of its cells are copied at a time. Where there are more columns than `copied_columns` says,
/// none are copied. It isn't inlined, so that the loop over strips that need no copy stays small.
#[inline(never)]
pub(crate) fn quarter_copied<T: Copy>(
    cells: &mut [T],
    shape: Shape,
    source: &[T],
    from: CrossedShape,
)
    requires { AreCrosswise cells.old shape source.now from.shape }
    ensures { Becomes shape cells.old cells.new
        (quartered from.crossing (shaped_grid source.now from.shape)) }
{
    let width = shape.width();
    let Some(cell) = source.first() else {
        return quarter_rows(cells, shape, source, from);
    };
    let mut lines = [*cell; 1];
    let none = lines.as_mut_slice();
    match size_of_val(cell) {
        1 if width <= 144 => {
            let (mut copy, mut lines) = ([*cell; 20_736], [*cell; 2304]);
            let (copy, lines) = (copy.as_mut_slice(), lines.as_mut_slice());
            quarter_bands::<T, 144>(cells, shape, source, from, copy, lines);
        }
        2 if width <= 112 => {
            let mut copy = [*cell; 12_544];
            let copy = copy.as_mut_slice();
            quarter_bands::<T, 112>(cells, shape, source, from, copy, none);
        }
        3..=4 if width <= 64 => {
            let mut copy = [*cell; 4096];
            let copy = copy.as_mut_slice();
            quarter_bands::<T, 64>(cells, shape, source, from, copy, none);
        }
        5..=8 if width <= 32 => {
            let mut copy = [*cell; 1024];
            let copy = copy.as_mut_slice();
            quarter_bands::<T, 32>(cells, shape, source, from, copy, none);
        }
        9..=16 if width <= 16 => {
            let mut copy = [*cell; 256];
            let copy = copy.as_mut_slice();
            quarter_bands::<T, 16>(cells, shape, source, from, copy, none);
        }
        _ => quarter_rows(cells, shape, source, from),
    }
}
