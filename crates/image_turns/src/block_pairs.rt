//! Squares that are transposed in place by pairs of blocks, which are copied first. A pixel is `N` cells
//! next to one another in a row, and moves whole.
//!
//! A block and the one across the diagonal are read whole, row after row. So the processor waits for
//! many lines of the cache at once, and none is read again for its other pixels. Then each is written
//! from the copy of the other. A copy has a stride that the compiler knows.

ghost use Rattle.std.specs.Prelude.{◌≡◌, ◌+◌, ◌*◌, ◌<◌, ◌≤◌, length};
ghost use Rattle.image_model.specs.Grid.{patch};
ghost use Rattle.image_model.specs.Layout.{Fits};
ghost use Rattle.image_model.specs.Windows.{window_view, IsInside};
ghost use Rattle.image_shape.specs.Shape.{shape_width, shape_height, shaped_grid, shaped};
ghost use Rattle.image_shape.specs.Window.{as_window};
ghost use Rattle.image_turns.specs.Blocks.{pixels_crossed_at};
ghost use Rattle.image_turns.specs.Oriented.{oriented};
ghost use Rattle.image_turns.specs.Sizes.{AreBlocks, IsPixelSquare};
ghost use Rattle.image_writes.specs.Written.{Becomes};

use crate::blocks::read_rows;
use crate::pixel_turning::{Orientation, Origin, orient_rows};
use crate::turning::{CrossedShape, Crossing, quarter_rows};
use image_shape::{Shape, Window};
use image_writes::{exact_part, padded_part};

// The block becomes the pixels of the window, in the shape that is returned. Its rows have room for
// `WIDTH` cells, and there are up to `HEIGHT` of them.
#[inline(always)]
pub(crate) fn copy_block<T: Copy, const WIDTH: usize, const HEIGHT: usize>(
    block: &mut [T],
    cells: &[T],
    shape: Shape,
    window: Window,
) -> Shape
    requires fits { Fits (shaped cells.now shape) }
    requires inside { IsInside (shape_width shape) (shape_height shape) (as_window window) }
    requires some { 0 < WIDTH }
    requires narrow { window.width ≤ WIDTH }
    requires low { window.height ≤ HEIGHT }
    requires room { WIDTH * HEIGHT ≤ length block.old }
    ensures width { shape_width result ≡ window.width }
    ensures height { shape_height result ≡ window.height }
    ensures fits { Fits (shaped block.new result) }
    ensures grid { shaped_grid block.new result
        ≡ window_view (shaped_grid cells.now shape) (as_window window) }
    ensures as_many { length block.new ≡ length block.old }
{
    let (part, part_shape) = padded_part(cells, shape, window);
    let near = Shape::new(window.width, window.height, WIDTH);
    read_rows::<T, 0>(block, near, part, part_shape, false);
    near
}

// The window of cells gets the pixels of the block, transposed; every other cell stays.
#[inline(always)]
fn write_across<T: Copy, const N: usize>(
    cells: &mut [T],
    shape: Shape,
    window: Window,
    block: &[T],
    block_shape: Shape,
)
    requires some { 0 < N }
    requires fits { Fits (shaped cells.old shape) }
    requires inside { IsInside (shape_width shape) (shape_height shape) (as_window window) }
    requires block_fits { Fits (shaped block.now block_shape) }
    requires columns { window.width ≡ shape_height block_shape * N }
    requires lines { shape_width block_shape ≡ window.height * N }
    ensures { Becomes shape cells.old cells.new (patch (shaped_grid cells.old shape)
        window.left window.top (oriented N Orientation.Transposed (shaped_grid block.now block_shape))) }
{
    let (part, inner) = exact_part(cells.len(), shape, window);
    let count = block_shape.height();
    // Of cells of four bytes the compiler makes vector code here alone.
    if N == 1 {
        let from = CrossedShape {
            shape: block_shape,
            crossing: Crossing::Across,
        };
        quarter_rows(&mut cells[part], inner, block, from);
        return;
    }
    let origin = Origin {
        shape: block_shape,
        columns: window.height,
        orientation: Orientation::Transposed,
    };
    orient_rows::<T, N>(&mut cells[part], inner, 0, count, block, origin);
}

// The pixels of the window change places with those across the diagonal. The window is counted in
// pixels. Both blocks are copied before one is written: so they may be the same. What is in them
// doesn't matter.
#[inline(always)]
fn cross_pair<T: Copy, const N: usize, const SIDE: usize, const WIDTH: usize>(
    cells: &mut [T],
    shape: Shape,
    window: Window,
    upper: &mut [T],
    lower: &mut [T],
)
    requires image { IsPixelSquare N cells.old shape }
    requires blocks { AreBlocks N SIDE WIDTH upper.old lower.old }
    requires column { window.left + window.width ≤ shape_height shape }
    requires line { window.top + window.height ≤ shape_height shape }
    requires narrow { window.width ≤ SIDE }
    requires low { window.height ≤ SIDE }
    ensures crossed { Becomes shape cells.old cells.new
        (pixels_crossed_at N window.left window.top window.width window.height
        (shaped_grid cells.old shape)) }
    ensures blocks { AreBlocks N SIDE WIDTH upper.new lower.new }
{
    let Window {
        left,
        top,
        width,
        height,
    } = window;
    // (a width is below 2^32, so no product overflows)
    let _width = shape.width();
    let here = Window::new(left * N, top, width * N, height);
    let across = Window::new(top * N, left, height * N, width);
    let upper_shape = copy_block::<T, WIDTH, SIDE>(upper, cells, shape, here);
    let lower_shape = copy_block::<T, WIDTH, SIDE>(lower, cells, shape, across);
    write_across::<T, N>(cells, shape, across, upper, upper_shape);
    write_across::<T, N>(cells, shape, here, lower, lower_shape);
}

/// Columns become rows, and rows columns, `SIDE` by `SIDE` pixels at a time. A row of a block has
/// `WIDTH` cells. What is in the blocks doesn't matter.
pub(crate) fn cross_pairs<T: Copy, const N: usize, const SIDE: usize, const WIDTH: usize>(
    cells: &mut [T],
    shape: Shape,
    upper: &mut [T],
    lower: &mut [T],
)
    requires image { IsPixelSquare N cells.old shape }
    requires blocks { AreBlocks N SIDE WIDTH upper.old lower.old }
    ensures { Becomes shape cells.old cells.new
        (oriented N Orientation.Transposed (shaped_grid cells.old shape)) }
{
    let side = shape.height();
    let mut top = 0;
    while top < side {
        let height = SIDE.min(side - top);
        let mut left = top;
        while left < side {
            let width = SIDE.min(side - left);
            let window = Window::new(left, top, width, height);
            cross_pair::<T, N, SIDE, WIDTH>(cells, shape, window, upper, lower);
            left += width;
        }
        top += height;
    }
}
