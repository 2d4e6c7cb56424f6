//! Pixels of several cells, next to one another in a row, written to another image that is transposed
//! or turned.
//!
//! Strides are counted in cells. They need not be multiples of a pixel's size, so these images can't be
//! seen as images of arrays.

ghost use Rattle.std.specs.Prelude.{◌≡◌, ◌+◌, ◌-◌, ◌*◌, ◌<◌, ◌≤◌, length};
ghost use Rattle.image_model.specs.Grid.{patch, view};
ghost use Rattle.image_model.specs.Layout.{Fits, Reaches, SameOutside};
ghost use Rattle.image_shape.specs.Shape.{shape_width, shape_height, shape_stride, shaped_grid, shaped};
ghost use Rattle.image_writes.specs.Gathered.{AreGathered};
ghost use Rattle.image_turns.specs.Oriented.{oriented, oriented_width, oriented_height, source_cell, source_column, source_row, AreFollowed};
ghost use Rattle.image_turns.specs.Sizes.{AreOriented, ArePartOfRow};
ghost use Rattle.image_writes.specs.Written.{Becomes};

use crate::near::rows_near;
use crate::triples::{copy_triples_back, triples_pay};
use crate::turning::{Turn, is_near, transpose_pixels, turn_pixels};
use image_shape::{Shape, Window};
use image_writes::{exact_part, read_part, write_part};
use std::mem::size_of_val;

// The most columns that are written at a time. They come from as many rows, whose lines stay in the
// nearest cache until the pixels beside them are read.
const STRIP: usize = 64;

/// How the pixels of an image are placed in another one.
#[derive(Clone, Copy, PartialEq, Eq)]
pub enum Orientation {
    /// Columns are rows, and rows are columns.
    Transposed,
    /// Turned clockwise by a quarter: the first row becomes the last column.
    Right,
    /// Turned by a half: the first row becomes the last one, from right to left.
    Half,
    /// Turned clockwise by three quarters: the first row becomes the first column, from the bottom.
    Left,
}

// Where the pixels of an image come from: the shape of the source, how many pixels it has in a row, and
// how they are placed.
#[derive(Clone, Copy)]
pub(crate) struct Origin {
    pub(crate) shape: Shape,
    pub(crate) columns: usize,
    pub(crate) orientation: Orientation,
}

// The `count` pixels from column `left` of row `y` on.
#[derive(Clone, Copy)]
struct RowPart {
    left: usize,
    count: usize,
    y: usize,
}

// The column and the row of the source whose pixel column `x` of row `y` gets.
#[inline(always)]
fn source_place(origin: Origin, x: usize, y: usize) -> (usize, usize)
    requires across { x < oriented_width origin.orientation origin.columns (shape_height origin.shape) }
    requires down { y < oriented_height origin.orientation origin.columns (shape_height origin.shape) }
    ensures column { result.0 ≡ source_column origin.orientation origin.columns x y }
    ensures line { result.1 ≡ source_row origin.orientation (shape_height origin.shape) x y }
    ensures has_column { result.0 < origin.columns }
    ensures has_line { result.1 < shape_height origin.shape }
{
    let (columns, rows) = (origin.columns, origin.shape.height());
    match origin.orientation {
        Orientation::Transposed => (y, x),
        Orientation::Right => (y, rows - 1 - x),
        Orientation::Half => (columns - 1 - x, rows - 1 - y),
        Orientation::Left => (columns - 1 - y, x),
    }
}

// The number of the cell with which the pixel of the source begins that column `x` of row `y` gets. The
// source has `len` cells.
#[inline(always)]
fn source_start<const N: usize>(origin: Origin, len: usize, x: usize, y: usize) -> usize
    requires some { 0 < N }
    requires fits { Reaches len (shape_width origin.shape) (shape_height origin.shape)
        (shape_stride origin.shape) }
    requires wide { shape_width origin.shape ≡ origin.columns * N }
    requires across { x < oriented_width origin.orientation origin.columns (shape_height origin.shape) }
    requires down { y < oriented_height origin.orientation origin.columns (shape_height origin.shape) }
    ensures value { result ≡ source_row origin.orientation (shape_height origin.shape) x y
        * shape_stride origin.shape + source_column origin.orientation origin.columns x y * N }
    ensures inside { result + N ≤ len }
    ensures next_inside { source_column origin.orientation origin.columns x y + 1 < origin.columns
        → result + 2 * N ≤ len }
{
    let _len = len;
    let (column, line) = source_place(origin, x, y);
    origin.shape.cell(column * N, line)
}

// The pixels of three cells in a part of a row become those of the source that is turned by a half. They come from pixels that are next to one another there.
fn take_half<T: Copy>(cells: &mut [T], part: RowPart, source: &[T], origin: Origin)
    requires some { 0 < part.count }
    requires many { length cells.old ≡ part.count * 3 }
    requires source_fits { Fits (shaped source.now origin.shape) }
    requires source_width { shape_width origin.shape ≡ origin.columns * 3 }
    requires across { part.left + part.count ≤ origin.columns }
    requires down { part.y < shape_height origin.shape }
    ensures as_many { length cells.new ≡ length cells.old }
    ensures taken { AreGathered (source_cell Orientation.Half 3 (shape_stride origin.shape)
        origin.columns (shape_height origin.shape) part.left part.y) source.now cells.new }
{
    let line = origin.shape.height() - 1 - part.y;
    let from = origin
        .shape
        .cell((origin.columns - part.left - part.count) * 3, line);
    copy_triples_back(cells, &source[from..from + part.count * 3]);
}

// How many pixels of a part of a row aren't its last one, and come from pixels that have another one
// after them in their row. It is 0 where that doesn't pay, and for half
// turns.
#[inline(always)]
fn followed_count(origin: Origin, part: RowPart, pays: bool) -> usize
    requires across { part.left + part.count
        ≤ oriented_width origin.orientation origin.columns (shape_height origin.shape) }
    requires down { part.y < oriented_height origin.orientation origin.columns (shape_height origin.shape) }
    ensures few { result ≤ part.count - 1 }
    ensures followed { AreFollowed origin.orientation origin.columns part.left part.y result }
{
    let is_followed = match origin.orientation {
        Orientation::Transposed | Orientation::Right => origin.columns - part.y > 1,
        Orientation::Half => false,
        Orientation::Left => part.y > 0,
    };
    if pays && is_followed {
        part.count.saturating_sub(1)
    } else {
        0
    }
}

// Whether a pixel is better moved with some cells after it. Wider cells gain nothing by it.
fn are_narrow<T>(cells: &[T]) -> bool {
    match cells.first() {
        Some(cell) => size_of_val(cell) <= 4,
        None => false,
    }
}

// The pixels of a part of a row become those of the source. The compiler moves
// `W` cells at once, and those of a pixel maybe not. So a pixel is copied with the cells after it, where
// it has them, and the next pixel is written over these.
#[inline(always)]
fn take_each<T: Copy, const N: usize, const W: usize>(
    cells: &mut [T],
    part: RowPart,
    source: &[T],
    origin: Origin,
)
    requires part { ArePartOfRow N cells.old part source.now origin }
    requires wide { N ≤ W }
    requires narrow { W ≤ 2 * N }
    ensures as_many { length cells.new ≡ length cells.old }
    ensures taken { AreGathered (source_cell origin.orientation N (shape_stride origin.shape)
        origin.columns (shape_height origin.shape) part.left part.y) source.now cells.new }
{
    let pays = W > N && are_narrow(cells);
    let followed = followed_count(origin, part, pays);
    for k in 0..followed {
        let start = source_start::<N>(origin, source.len(), part.left + k, part.y);
        let pixels = read_part::<T, W>(&source[start..start + W]);
        write_part::<T, W>(&mut cells[k * N..k * N + W], pixels);
    }
    for x in followed..part.count {
        let from = source_start::<N>(origin, source.len(), part.left + x, part.y);
        let pixel = read_part::<T, N>(&source[from..from + N]);
        write_part::<T, N>(&mut cells[x * N..x * N + N], pixel);
    }
}

// The pixels of a part of a row become those of the source.
#[inline(always)]
fn take_pixels<T: Copy, const N: usize>(
    cells: &mut [T],
    part: RowPart,
    source: &[T],
    origin: Origin,
)
    requires { ArePartOfRow N cells.old part source.now origin }
    ensures as_many { length cells.new ≡ length cells.old }
    ensures taken { AreGathered (source_cell origin.orientation N (shape_stride origin.shape)
        origin.columns (shape_height origin.shape) part.left part.y) source.now cells.new }
{
    if N == 3 && origin.orientation == Orientation::Half && triples_pay(cells, part.count) {
        take_half(cells, part, source, origin);
    } else if N == 3 {
        take_each::<T, N, 4>(cells, part, source, origin);
    } else if N > 4 && N < 8 {
        take_each::<T, N, 8>(cells, part, source, origin);
    } else {
        take_each::<T, N, N>(cells, part, source, origin);
    }
}

// Every pixel of `shape` in `cells` becomes the pixel of the source that the columns from `left` on
// get.
#[inline(always)]
pub(crate) fn orient_rows<T: Copy, const N: usize>(
    cells: &mut [T],
    shape: Shape,
    left: usize,
    count: usize,
    source: &[T],
    origin: Origin,
)
    requires some { 0 < N }
    requires fits { Fits (shaped cells.old shape) }
    requires width { shape_width shape ≡ count * N }
    requires height { shape_height shape
        ≡ oriented_height origin.orientation origin.columns (shape_height origin.shape) }
    requires source_fits { Fits (shaped source.now origin.shape) }
    requires source_width { shape_width origin.shape ≡ origin.columns * N }
    requires across { left + count
        ≤ oriented_width origin.orientation origin.columns (shape_height origin.shape) }
    ensures { Becomes shape cells.old cells.new
        (view (oriented N origin.orientation (shaped_grid source.now origin.shape)) (left * N) 0
        (count * N) (shape_height shape)) }
{
    for y in 0..shape.row_count() {
        let row = shape.row(cells.len(), y);
        let part = RowPart { left, count, y };
        take_pixels::<T, N>(&mut cells[row.range()], part, source, origin);
    }
}

// The columns from `left` on become those of the source's pixels; every other cell stays.
#[inline(always)]
fn orient_columns<T: Copy, const N: usize>(
    cells: &mut [T],
    shape: Shape,
    left: usize,
    count: usize,
    source: &[T],
    origin: Origin,
)
    requires image { AreOriented N cells.old shape source.now origin }
    requires across { left + count
        ≤ oriented_width origin.orientation origin.columns (shape_height origin.shape) }
    ensures { Becomes shape cells.old cells.new (patch (shaped_grid cells.old shape) (left * N) 0
        (view (oriented N origin.orientation (shaped_grid source.now origin.shape)) (left * N) 0
        (count * N) (shape_height shape))) }
{
    let _width = shape.width();
    let strip = Window::new(left * N, 0, count * N, shape.height());
    let (part, inner) = exact_part(cells.len(), shape, strip);
    orient_rows::<T, N>(&mut cells[part], inner, left, count, source, origin);
}

// How many columns are written at a time, where the rows of the source begin so many cells apart. A
// half turn goes along its rows, and a small source stays in the nearest cache.
fn pixel_strip_columns<T>(source: &[T], stride: usize, orientation: Orientation) -> usize
    ensures { 0 < result }
{
    match source.first() {
        Some(cell) if orientation != Orientation::Half && !is_near(source) => {
            rows_near(stride.wrapping_mul(size_of_val(cell)), STRIP)
        }
        _ => usize::MAX,
    }
}

// Every pixel of `shape` in `cells` becomes the pixel of the source that its place gets, some columns
// at a time.
#[inline(always)]
fn orient_strips<T: Copy, const N: usize>(
    cells: &mut [T],
    shape: Shape,
    source: &[T],
    origin: Origin,
)
    requires { AreOriented N cells.old shape source.now origin }
    ensures { Becomes shape cells.old cells.new
        (oriented N origin.orientation (shaped_grid source.now origin.shape)) }
{
    let most = pixel_strip_columns(source, origin.shape.stride(), origin.orientation);
    // An image of no rows would have many strips of nothing.
    if shape.height() == 0 {
        return;
    }
    let width = shape.width() / N;
    let mut left = 0;
    while left < width {
        let count = most.min(width - left);
        orient_columns::<T, N>(cells, shape, left, count, source, origin);
        left += count;
    }
}

// The same, with a loop of its own for each orientation: none is asked for at each pixel.
fn orient_each<T: Copy, const N: usize>(cells: &mut [T], shape: Shape, source: &[T], origin: Origin)
    requires { AreOriented N cells.old shape source.now origin }
    ensures { Becomes shape cells.old cells.new
        (oriented N origin.orientation (shaped_grid source.now origin.shape)) }
{
    use Orientation::{Half, Left, Right, Transposed};
    let mut known = origin;
    match origin.orientation {
        Transposed => {
            known.orientation = Transposed;
            orient_strips::<T, N>(cells, shape, source, known);
        }
        Right => {
            known.orientation = Right;
            orient_strips::<T, N>(cells, shape, source, known);
        }
        Half => {
            known.orientation = Half;
            orient_strips::<T, N>(cells, shape, source, known);
        }
        Left => {
            known.orientation = Left;
            orient_strips::<T, N>(cells, shape, source, known);
        }
    }
}

// The same of pixels of one cell.
fn orient_cells<T: Copy>(cells: &mut [T], shape: Shape, source: &[T], origin: Origin)
    requires { AreOriented 1 cells.old shape source.now origin }
    ensures { Becomes shape cells.old cells.new
        (oriented 1 origin.orientation (shaped_grid source.now origin.shape)) }
{
    let from = origin.shape;
    match origin.orientation {
        Orientation::Transposed => transpose_pixels(cells, shape, source, from),
        Orientation::Right => turn_pixels(cells, shape, source, from, Turn::Right),
        Orientation::Half => turn_pixels(cells, shape, source, from, Turn::Half),
        Orientation::Left => turn_pixels(cells, shape, source, from, Turn::Left),
    }
}

/// Every pixel of `shape` in `cells` becomes the pixel of the source that its place gets; the padding
/// stays. A pixel is `size` cells next to one another in a row, 1 to 8 of them.
///
/// # Requires
///
/// Both fit (`Shape::fits`). The source has `columns` pixels in a row, and `shape` is as wide and high
/// as the source becomes.
pub fn orient_pixels<T: Copy>(
    cells: &mut [T],
    shape: Shape,
    source: &[T],
    source_shape: Shape,
    size: usize,
    columns: usize,
    orientation: Orientation,
)
    requires some { 1 ≤ size }
    requires few { size ≤ 8 }
    requires fits { Fits (shaped cells.old shape) }
    requires source_fits { Fits (shaped source.now source_shape) }
    requires source_width { shape_width source_shape ≡ columns * size }
    requires width { shape_width shape
        ≡ oriented_width orientation columns (shape_height source_shape) * size }
    requires height { shape_height shape
        ≡ oriented_height orientation columns (shape_height source_shape) }
    ensures grid { shaped_grid cells.new shape
        ≡ oriented size orientation (shaped_grid source.now source_shape) }
    ensures outside { SameOutside (shaped cells.old shape) (shaped cells.new shape) }
{
    let origin = Origin {
        shape: source_shape,
        columns,
        orientation,
    };
    match size {
        1 => orient_cells(cells, shape, source, origin),
        2 => orient_each::<T, 2>(cells, shape, source, origin),
        3 => orient_each::<T, 3>(cells, shape, source, origin),
        4 => orient_each::<T, 4>(cells, shape, source, origin),
        5 => orient_each::<T, 5>(cells, shape, source, origin),
        6 => orient_each::<T, 6>(cells, shape, source, origin),
        7 => orient_each::<T, 7>(cells, shape, source, origin),
        _ => orient_each::<T, 8>(cells, shape, source, origin),
    }
}
