//! Squares that are transposed and turned in place.

ghost use Rattle.std.specs.Prelude.{◌≡◌, ◌+◌, ◌*◌, ◌<◌, ◌≤◌, length};
ghost use Rattle.image_model.specs.Grid.{patch, view};
ghost use Rattle.image_model.specs.Layout.{Fits, SameOutside};
ghost use Rattle.image_model.specs.Turns.{transposed};
ghost use Rattle.image_shape.specs.Shape.{shape_width, shape_height, shaped_grid, shaped};
ghost use Rattle.image_turns.specs.Blocks.{block_grid, pixels_crossed_at, corner_crossed, strip_crossed};
ghost use Rattle.image_turns.specs.Turned.{turned, turned_width};
ghost use Rattle.image_writes.specs.Written.{Becomes};
ghost use Rattle.image_turns.specs.Sizes.{IsSquare};

use crate::block_pairs::cross_pairs;
use crate::blocks::{block_shape, read_rows, transpose_block};
use crate::flipping::{flip_columns, flip_rows, swap_cells};
use crate::near::rows_near;
use crate::turning::Turn;
use image_shape::{Shape, Window};
use image_writes::{exact_part, padded_part};
use std::mem::{size_of, size_of_val};

// How many bytes of an image are crossed at once where its rows don't clash: these are near anyway.
const NEAR: usize = 524_288;

// How many bytes are in the nearest cache at any stride.
const NEAREST: usize = 28_672;

// How many columns are crossed at a time, at most.
const STRIP: usize = 64;

// How many columns are crossed at a time. Their pixels come from so many rows, a pixel of each at a
// time. So the lines of these rows have to stay in the nearest cache until the pixels beside them are
// taken.
fn strip_width<T>(cells: &[T], side: usize, stride: usize) -> usize
    ensures { 0 < result }
{
    let Some(cell) = cells.first() else {
        return 1;
    };
    let bytes = cells.len() * size_of::<T>();
    if bytes <= NEAREST {
        return side.max(1);
    }
    let near = rows_near(stride.wrapping_mul(size_of_val(cell)), STRIP);
    if near == STRIP && bytes <= NEAR {
        return side.max(1);
    }
    near
}

// The block becomes the 16 by 16 pixels from column `left` of row `top` on, transposed.
#[inline(always)]
fn read_across<T: Copy>(block: &mut [T], cells: &[T], shape: Shape, left: usize, top: usize)
    requires many { length block.old ≡ 256 }
    requires fits { Fits (shaped cells.now shape) }
    requires column { left + 16 ≤ shape_width shape }
    requires line { top + 16 ≤ shape_height shape }
    ensures as_many { length block.new ≡ length block.old }
    ensures grid { block_grid block.new
        ≡ transposed (view (shaped_grid cells.now shape) left top 16 16) }
{
    let (part, part_shape) = padded_part(cells, shape, Window::new(left, top, 16, 16));
    read_rows::<T, 16>(block, block_shape(), part, part_shape, false);
    transpose_block(block);
}

// The 16 by 16 pixels from column `left` of row `top` on become those of the block; every other
// cell stays.
#[inline(always)]
fn write_block<T: Copy>(cells: &mut [T], shape: Shape, left: usize, top: usize, block: &[T])
    requires many { length block.now ≡ 256 }
    requires fits { Fits (shaped cells.old shape) }
    requires column { left + 16 ≤ shape_width shape }
    requires line { top + 16 ≤ shape_height shape }
    ensures { Becomes shape cells.old cells.new
        (patch (shaped_grid cells.old shape) left top (block_grid block.now)) }
{
    let (part, inner) = exact_part(cells.len(), shape, Window::new(left, top, 16, 16));
    read_rows::<T, 16>(&mut cells[part], inner, block, block_shape(), false);
}

// The 16 by 16 pixels from column `left` of row `top` on change places with those across the
// diagonal. Both blocks are read before one is written: so they may be the same.
fn cross_at<T: Copy>(cells: &mut [T], shape: Shape, left: usize, top: usize)
    requires image { IsSquare cells.old shape }
    requires column { left + 16 ≤ shape_width shape }
    requires line { top + 16 ≤ shape_width shape }
    ensures { Becomes shape cells.old cells.new
        (pixels_crossed_at 1 left top 16 16 (shaped_grid cells.old shape)) }
{
    let mut upper = [cells[0]; 256];
    let mut lower = [cells[0]; 256];
    read_across(upper.as_mut_slice(), cells, shape, left, top);
    read_across(lower.as_mut_slice(), cells, shape, top, left);
    write_block(cells, shape, top, left, upper.as_slice());
    write_block(cells, shape, left, top, lower.as_slice());
}

// Of the first `blocks` times 16 columns and rows each pixel changes places with the one across the
// diagonal, by blocks of 16 by 16 pixels. Blocks of 64 columns come one after the other: so the
// pixels beside those of a block are still near.
fn cross_blocks<T: Copy>(cells: &mut [T], shape: Shape, blocks: usize)
    requires image { IsSquare cells.old shape }
    requires inside { 16 * blocks ≤ shape_width shape }
    ensures { Becomes shape cells.old cells.new
        (corner_crossed (16 * blocks) (shaped_grid cells.old shape)) }
{
    let mut from = 0;
    while from < blocks {
        let upto = from + 4.min(blocks - from);
        for line in 0..upto {
            for column in from.max(line)..upto {
                cross_at(cells, shape, 16 * column, 16 * line);
            }
        }
        from = upto;
    }
}

// How many blocks of 16 columns a side has, or 0 where they don't pay. The compiler makes vector code
// of them for cells of one or two bytes, and for those of two it pays from two blocks on.
fn block_count<T>(cells: &[T], side: usize) -> usize
    ensures within { 16 * result ≤ side }
{
    match cells.first() {
        Some(cell) if size_of_val(cell) <= 2 && 16 * size_of_val(cell) <= side => side / 16,
        _ => 0,
    }
}

// From how many columns on blocks or strips may pay. A smaller square has no block that pays, and few
// rows that clash.
fn least_side<T>(cells: &[T]) -> usize
    ensures { result ≤ 64 }
{
    match cells.first() {
        Some(cell) => 16 * size_of_val(cell).min(4),
        None => 64,
    }
}

// Of the columns from `left` to `right` each pixel above the diagonal changes places with the one
// across it.
#[inline(always)]
#[tactic(auto, using(crate::proofs::Diagonals::within))]
fn cross_strip<T: Copy>(cells: &mut [T], shape: Shape, left: usize, right: usize)
    requires image { IsSquare cells.old shape }
    requires inside { right ≤ shape_height shape }
    ensures { Becomes shape cells.old cells.new
        (strip_crossed left right (shaped_grid cells.old shape)) }
{
    for y in 0..right {
        for x in left.max(y + 1)..right {
            swap_cells(cells, shape.cell(x, y), shape.cell(y, x));
        }
    }
}

// Columns become rows, and rows columns, by blocks and by strips of `width` columns.
fn cross_strips<T: Copy>(cells: &mut [T], shape: Shape, width: usize)
    requires image { IsSquare cells.old shape }
    requires some { 0 < width }
    ensures { Becomes shape cells.old cells.new (transposed (shaped_grid cells.old shape)) }
{
    let side = shape.height();
    let blocks = block_count(cells, side);
    cross_blocks(cells, shape, blocks);
    let mut left = 16 * blocks;
    while left < side {
        let right = left + width.min(side - left);
        cross_strip(cells, shape, left, right);
        left = right;
    }
}

// Columns become rows, and rows columns. Where strips would be needed, pixels of three or four bytes
// go by pairs of blocks, which takes down to half the time. Wider pixels would take longer so, and
// narrower ones have vector code. It isn't inlined, so that small squares take no longer than without
// it.
#[inline(never)]
fn cross_square<T: Copy>(cells: &mut [T], shape: Shape)
    requires image { IsSquare cells.old shape }
    ensures { Becomes shape cells.old cells.new (transposed (shaped_grid cells.old shape)) }
{
    let side = shape.height();
    let width = strip_width(cells, side, shape.stride());
    match cells.first() {
        Some(cell) if width < side && (3..=4).contains(&size_of_val(cell)) => {
            let (mut upper, mut lower) = ([*cell; 1024], [*cell; 1024]);
            let (upper, lower) = (upper.as_mut_slice(), lower.as_mut_slice());
            cross_pairs::<T, 1, 32, 32>(cells, shape, upper, lower);
        }
        _ => cross_strips(cells, shape, width),
    }
}

/// Columns become rows, and rows columns, in place: each pixel changes places with the one across
/// the diagonal, and the padding stays. The cells fit (`Shape::fits`), and the image is as wide as
/// it is high.
pub fn transpose_square<T: Copy>(cells: &mut [T], shape: Shape)
    requires fits { Fits (shaped cells.old shape) }
    requires square { shape_width shape ≡ shape_height shape }
    ensures grid { shaped_grid cells.new shape ≡ transposed (shaped_grid cells.old shape) }
    ensures outside { SameOutside (shaped cells.old shape) (shaped cells.new shape) }
{
    let side = shape.height();
    if side < least_side(cells) {
        cross_strip(cells, shape, 0, side);
    } else {
        cross_square(cells, shape);
    }
}

/// The image is turned clockwise in place, and the padding stays. The cells fit (`Shape::fits`),
/// and the turned image is as wide as the image. So a quarter turn needs a square.
#[tactic(auto, using(crate::proofs::Diagonals::turns))]
pub fn turn_in_place<T: Copy>(cells: &mut [T], shape: Shape, turn: Turn)
    requires fits { Fits (shaped cells.old shape) }
    requires same_width { turned_width turn (shape_width shape) (shape_height shape)
        ≡ shape_width shape }
    ensures grid { shaped_grid cells.new shape ≡ turned turn (shaped_grid cells.old shape) }
    ensures outside { SameOutside (shaped cells.old shape) (shaped cells.new shape) }
{
    match turn {
        Turn::Right => {
            transpose_square(cells, shape);
            flip_columns(cells, shape);
        }
        Turn::Half => {
            flip_columns(cells, shape);
            flip_rows(cells, shape);
        }
        Turn::Left => {
            transpose_square(cells, shape);
            flip_rows(cells, shape);
        }
    }
}
