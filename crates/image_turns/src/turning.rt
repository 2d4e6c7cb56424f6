//! Pixels written to another image that is transposed or turned.

ghost use Rattle.std.specs.Prelude.{◌≡◌, ◌+◌, ◌-◌, ◌*◌, ◌<◌, ◌≤◌, length, IsTrue};
ghost use Rattle.image_model.specs.Layout.{Fits, SameOutside};
ghost use Rattle.image_model.specs.Grid.{patch, view};
ghost use Rattle.image_model.specs.Turns.{transposed, turned_half};
ghost use Rattle.image_model.specs.Windows.{IsInside};
ghost use Rattle.image_shape.specs.Shape.{shape_width, shape_height, shaped_grid, shaped};
ghost use Rattle.image_shape.specs.Window.{as_window};
ghost use Rattle.image_writes.specs.Gathered.{AreGathered};
ghost use Rattle.image_turns.specs.Quarters.{quartered, first_column, first_row, reads_back, writes_back};
ghost use Rattle.image_turns.specs.Turned.{turned, turned_width, turned_height};
ghost use Rattle.image_turns.specs.Sizes.{AreCrosswise};
ghost use Rattle.image_writes.specs.Written.{Becomes, HaveSameSize};

use crate::bands::{copied_columns, quarter_copied};
use crate::blocks::{block_shape, read_rows, transpose_block};
use crate::flipping::copy_back;
use crate::near::rows_near;
use image_rows::row;
use image_shape::{Shape, Window};
use image_writes::{exact_part, padded_part};
use std::mem::{size_of, size_of_val};

// The most columns that are written at a time. A column of the target has the cells of a row of the
// source, and a row of the target takes one cell from each of these rows. So their cells are still in
// the nearest cache when the next row takes the cells beside them.
const STRIP: usize = 256;

// The fewest columns that are written at a time without a copy of the source's cells.
const NARROW: usize = 48;

// A source of so many bytes stays in the nearest cache, and needs no strips.
const NEAR: usize = 28_672;

// Each cell becomes a cell of the source, from cell `start` on and `step` cells further each time.
fn gather<T: Copy>(cells: &mut [T], source: &[T], start: usize, step: usize)
    requires inside { 0 < length cells.old → start + (length cells.old - 1) * step < length source.now }
    ensures as_many { length cells.new ≡ length cells.old }
    ensures taken { AreGathered (λ k. start + k * step) source.now cells.new }
{
    let _count = source.len();
    for k in 0..cells.len() {
        cells[k] = source[start + k * step];
    }
}

// The same backwards: `step` cells before the last one each time.
fn gather_back<T: Copy>(cells: &mut [T], source: &[T], start: usize, step: usize)
    requires inside { start < length source.now }
    requires enough { 0 < length cells.old → (length cells.old - 1) * step ≤ start }
    ensures as_many { length cells.new ≡ length cells.old }
    ensures taken { AreGathered (λ k. start - k * step) source.now cells.new }
{
    let _count = source.len();
    for k in 0..cells.len() {
        cells[k] = source[start - k * step];
    }
}

/// A turn of an image, clockwise.
#[derive(Clone, Copy, PartialEq, Eq)]
pub enum Turn {
    /// By a quarter: the first row becomes the last column.
    Right,
    /// By a half: the first row becomes the last one, from right to left.
    Half,
    /// By three quarters: the first row becomes the first column, from the bottom.
    Left,
}

// How columns become rows.
#[derive(Clone, Copy)]
pub(crate) enum Crossing {
    // The first column becomes the first row: the image is transposed.
    Across,
    // The first row becomes the last column.
    Right,
    // The first row becomes the first column, from the bottom.
    Left,
}

// The shape of a source, and how its columns become rows.
#[derive(Clone, Copy)]
pub(crate) struct CrossedShape {
    pub(crate) shape: Shape,
    pub(crate) crossing: Crossing,
}

// Every pixel of `shape` in `cells` becomes the pixel of the source whose columns are rows, row by
// row.
#[inline(always)]
pub(crate) fn quarter_rows<T: Copy>(cells: &mut [T], shape: Shape, source: &[T], from: CrossedShape)
    requires { AreCrosswise cells.old shape source.now from.shape }
    ensures { Becomes shape cells.old cells.new
        (quartered from.crossing (shaped_grid source.now from.shape)) }
{
    for y in 0..shape.row_count() {
        let place = shape.row(cells.len(), y);
        let target = &mut cells[place.range()];
        let column = first_column(from.crossing, from.shape.width(), y, 1);
        if reads_back(from.crossing) {
            let last = from.shape.row(source.len(), from.shape.height() - 1);
            gather_back(target, source, last.start + column, from.shape.stride());
        } else {
            gather(target, source, column, from.shape.stride());
        }
    }
}

// The first of the `width` rows of a source of `height` rows that the columns from `left` on get.
fn first_row(crossing: Crossing, height: usize, left: usize, width: usize) -> usize
    requires there { left + width ≤ height }
    ensures { result ≡ first_row crossing height left width }
{
    match crossing {
        Crossing::Right => height - left - width,
        Crossing::Across | Crossing::Left => left,
    }
}

// The first of the `height` columns of a source of `width` columns that the rows from `top` on get.
pub(crate) fn first_column(crossing: Crossing, width: usize, top: usize, height: usize) -> usize
    requires there { top + height ≤ width }
    ensures { result ≡ first_column crossing width top height }
{
    match crossing {
        Crossing::Left => width - top - height,
        Crossing::Across | Crossing::Right => top,
    }
}

// Whether a block is read from its last row on.
fn reads_back(crossing: Crossing) -> bool
    ensures { result ≡ reads_back crossing }
{
    match crossing {
        Crossing::Right => true,
        Crossing::Across | Crossing::Left => false,
    }
}

// Whether it is written from its last row on.
fn writes_back(crossing: Crossing) -> bool
    ensures { result ≡ writes_back crossing }
{
    match crossing {
        Crossing::Left => true,
        Crossing::Across | Crossing::Right => false,
    }
}

// The 16 by 16 pixels from column `left` of row `top` on become those that the source shows there;
// every other cell stays. The compiler knows the size of a block, so it makes vector code.
fn quarter_at<T: Copy>(
    cells: &mut [T],
    shape: Shape,
    left: usize,
    top: usize,
    source: &[T],
    from: CrossedShape,
)
    requires sizes { AreCrosswise cells.old shape source.now from.shape }
    requires wide { left + 16 ≤ shape_width shape }
    requires high { top + 16 ≤ shape_height shape }
    ensures { Becomes shape cells.old cells.new (patch (shaped_grid cells.old shape) left top
        (view (quartered from.crossing (shaped_grid source.now from.shape)) left top 16 16)) }
{
    let column = first_column(from.crossing, from.shape.width(), top, 16);
    let line = first_row(from.crossing, from.shape.height(), left, 16);
    let place = Window::new(column, line, 16, 16);
    let (seen, seen_shape) = padded_part(source, from.shape, place);
    let square = block_shape();
    let mut block = [seen[0]; 256];
    read_rows::<T, 16>(
        block.as_mut_slice(),
        square,
        seen,
        seen_shape,
        reads_back(from.crossing),
    );
    transpose_block(block.as_mut_slice());
    let (part, inner) = exact_part(cells.len(), shape, Window::new(left, top, 16, 16));
    let target = &mut cells[part];
    read_rows::<T, 16>(
        target,
        inner,
        block.as_slice(),
        square,
        writes_back(from.crossing),
    );
}

// Every pixel of `shape` in `cells` becomes the pixel of the source whose columns are rows, block
// by block. Where a last block would be cut off, it begins earlier: what is written twice is the
// same. It isn't inlined, so that rows of other images take no longer than without it.
#[inline(never)]
pub(crate) fn quarter_blocks<T: Copy>(
    cells: &mut [T],
    shape: Shape,
    source: &[T],
    from: CrossedShape,
)
    requires sizes { AreCrosswise cells.old shape source.now from.shape }
    requires wide { 16 ≤ shape_width shape }
    requires high { 16 ≤ shape_height shape }
    ensures { Becomes shape cells.old cells.new
        (quartered from.crossing (shaped_grid source.now from.shape)) }
{
    let (width, height) = (shape.width(), shape.height());
    let mut top = 0;
    while top < height {
        let line = top.min(height - 16);
        let mut left = 0;
        while left < width {
            let column = left.min(width - 16);
            quarter_at(cells, shape, column, line, source, from);
            left += 16;
        }
        top += 16;
    }
}

// Whether blocks pay. Cells of two bytes gain nothing by them, and of wider ones the compiler makes
// no vector code. In small sizes too many pixels would be written twice.
pub(crate) fn blocks_pay<T>(source: &[T], shape: Shape) -> bool
    ensures wide { IsTrue result → 16 ≤ shape_width shape }
    ensures high { IsTrue result → 16 ≤ shape_height shape }
{
    let (width, height) = (shape.width(), shape.height());
    if width < 16 || height < 16 {
        return false;
    }
    let Some(cell) = source.first() else {
        return false;
    };
    if size_of_val(cell) != 1 {
        return false;
    }
    width == 16 || height == 16 || width + height >= 48
}

// Whether a source stays in the nearest cache, however it is read.
pub(crate) fn is_near<T>(source: &[T]) -> bool {
    source.len() * size_of::<T>() <= NEAR
}

// How many columns are written at a time in an image of few rows, which share the lines of the cache.
// Here the start of a strip takes as long as many of its pixels, and one row shares none.
fn columns_of_few(height: usize) -> usize
    ensures { 0 < result }
{
    match height {
        0..=1 => usize::MAX,
        2..=3 => 512,
        _ => STRIP,
    }
}

// Whether 16 rows at this stride of bytes are too many for the nearest cache, where blocks of bytes
// are written.
fn blocks_clash(size: usize, stride: usize) -> bool {
    size == 1 && rows_near(stride, 16) < 16
}

// How many columns are written at a time, and whether the source's cells are copied first. As many
// rows of the source are read at once, and the lines of the cache that have their pixels stay in the
// nearest one. Where too few do, a copy of their cells does. All of a source that is near stays.
fn strip_columns<T>(source: &[T], stride: usize, shape: Shape) -> (usize, bool)
    ensures { 0 < result.0 }
{
    if is_near(source) {
        return (usize::MAX, false);
    }
    let few = columns_of_few(shape.height());
    let Some(cell) = source.first() else {
        return (few, false);
    };
    let size = size_of_val(cell);
    let copied = copied_columns(size);
    if shape.height() < 16 || copied == 0 {
        return (few, false);
    }
    let near = rows_near(stride.wrapping_mul(size), STRIP);
    if near < NARROW || blocks_clash(size, shape.stride().wrapping_mul(size)) {
        return (copied, true);
    }
    (near / 16 * 16, false)
}

// Every pixel of `shape` in `cells` becomes the pixel of the source whose columns are rows, some
// columns at a time; the padding stays. It isn't inlined, so that small images take no longer than
// without it.
#[inline(never)]
fn quarter_strips<T: Copy>(cells: &mut [T], shape: Shape, source: &[T], from: CrossedShape)
    requires { AreCrosswise cells.old shape source.now from.shape }
    ensures { Becomes shape cells.old cells.new
        (quartered from.crossing (shaped_grid source.now from.shape)) }
{
    let (most, is_copied) = strip_columns(source, from.shape.stride(), shape);
    let (columns, lines) = (shape.width(), shape.height());
    let (source_width, source_height) = (from.shape.width(), from.shape.height());
    let mut left = 0;
    while left < columns {
        let width = most.min(columns - left);
        let top = first_row(from.crossing, source_height, left, width);
        let rows = Window::new(0, top, source_width, width);
        let (part, part_shape) = padded_part(source, from.shape, rows);
        let part_from = CrossedShape {
            shape: part_shape,
            crossing: from.crossing,
        };
        let strip = Window::new(left, 0, width, lines);
        let (cut, inner) = exact_part(cells.len(), shape, strip);
        let target = &mut cells[cut];
        if is_copied {
            quarter_copied(target, inner, part, part_from);
        } else if blocks_pay(part, inner) {
            quarter_blocks(target, inner, part, part_from);
        } else {
            quarter_rows(target, inner, part, part_from);
        }
        left += width;
    }
}

// Every pixel of `shape` in `cells` becomes the pixel of the source whose columns are rows; the
// padding stays. This is inlined, so that a small image costs only the loops of its turn.
#[inline(always)]
fn quarter_pixels<T: Copy>(
    cells: &mut [T],
    shape: Shape,
    source: &[T],
    source_shape: Shape,
    crossing: Crossing,
)
    requires { AreCrosswise cells.old shape source.now source_shape }
    ensures { Becomes shape cells.old cells.new
        (quartered crossing (shaped_grid source.now source_shape)) }
{
    let from = CrossedShape {
        shape: source_shape,
        crossing,
    };
    if !is_near(source) {
        quarter_strips(cells, shape, source, from);
    } else if blocks_pay(source, shape) {
        quarter_blocks(cells, shape, source, from);
    } else {
        quarter_rows(cells, shape, source, from);
    }
}

/// Every pixel of `shape` in `cells` becomes the pixel of the source in whose row it is a column:
/// the source is transposed. The padding stays. Both fit (`Shape::fits`), and the one is as wide as
/// the other is high.
pub fn transpose_pixels<T: Copy>(cells: &mut [T], shape: Shape, source: &[T], source_shape: Shape)
    requires fits { Fits (shaped cells.old shape) }
    requires source_fits { Fits (shaped source.now source_shape) }
    requires columns { shape_width shape ≡ shape_height source_shape }
    requires lines { shape_height shape ≡ shape_width source_shape }
    ensures grid { shaped_grid cells.new shape ≡ transposed (shaped_grid source.now source_shape) }
    ensures outside { SameOutside (shaped cells.old shape) (shaped cells.new shape) }
{
    quarter_pixels(cells, shape, source, source_shape, Crossing::Across);
}

// Each cell becomes a cell of the source, which is as long, from its last one on. It is a long row, in
// a function of its own. Inside the loop over the rows the compiler tests
// once, for all of them, whether the images overlap. Since the rows of the source go back, that test
// always fails, and cells would go one by one.
#[inline(never)]
fn copy_long_back<T: Copy>(cells: &mut [T], source: &[T])
    requires as_many { length source.now ≡ length cells.old }
    ensures as_many { length cells.new ≡ length cells.old }
    ensures taken { AreGathered (λ k. length cells.old - 1 - k) source.now cells.new }
{
    copy_back(cells, source);
}

// Whether a call pays for a row. In a short one it takes longer than the cells, and of cells of other
// sizes the compiler makes no vector code.
fn call_pays<T>(cells: &[T]) -> bool {
    let Some(cell) = cells.first() else {
        return false;
    };
    match size_of_val(cell) {
        1 | 2 | 4 | 8 => cells.len() >= 8,
        _ => false,
    }
}

// The same of a row of any length.
fn copy_row_back<T: Copy>(cells: &mut [T], source: &[T])
    requires as_many { length source.now ≡ length cells.old }
    ensures as_many { length cells.new ≡ length cells.old }
    ensures taken { AreGathered (λ k. length cells.old - 1 - k) source.now cells.new }
{
    if call_pays(cells) {
        copy_long_back(cells, source);
    } else {
        copy_back(cells, source);
    }
}

// Every pixel of `shape` in `cells` becomes the pixel of the source turned by a half; the padding
// stays.
fn half_pixels<T: Copy>(cells: &mut [T], shape: Shape, source: &[T], source_shape: Shape)
    requires { HaveSameSize cells.old shape source.now source_shape }
    ensures { Becomes shape cells.old cells.new (turned_half (shaped_grid source.now source_shape)) }
{
    for y in 0..shape.row_count() {
        let place = shape.row(cells.len(), y);
        let target = &mut cells[place.range()];
        let from = row(source, source_shape, source_shape.height() - 1 - y);
        copy_row_back(target, from);
    }
}

/// Every pixel of `shape` in `cells` becomes the pixel of the turned source at its place; the
/// padding stays. Both fit (`Shape::fits`), and `shape` has the size of the turned source.
pub fn turn_pixels<T: Copy>(
    cells: &mut [T],
    shape: Shape,
    source: &[T],
    source_shape: Shape,
    turn: Turn,
)
    requires fits { Fits (shaped cells.old shape) }
    requires source_fits { Fits (shaped source.now source_shape) }
    requires columns { shape_width shape
        ≡ turned_width turn (shape_width source_shape) (shape_height source_shape) }
    requires lines { shape_height shape
        ≡ turned_height turn (shape_width source_shape) (shape_height source_shape) }
    ensures grid { shaped_grid cells.new shape ≡ turned turn (shaped_grid source.now source_shape) }
    ensures outside { SameOutside (shaped cells.old shape) (shaped cells.new shape) }
{
    match turn {
        Turn::Right => quarter_pixels(cells, shape, source, source_shape, Crossing::Right),
        Turn::Half => half_pixels(cells, shape, source, source_shape),
        Turn::Left => quarter_pixels(cells, shape, source, source_shape, Crossing::Left),
    }
}
