//! Pixels of several cells that are mirrored, turned by a half in place, and transposed and turned to
//! another image. Each cell is compared with the one that its place names.

ghost use Rattle.std.specs.Prelude.{◌≡◌, ◌*◌, ◌<◌, ◌≤◌};
ghost use Rattle.image_shape.specs.Shape.{shape_width, shape_height};
ghost use Rattle.image_turns.specs.Oriented.{oriented_width, oriented_height};

use image_shape::Shape;
use image_turns::{Orientation, mirror_pixels, orient_in_place, orient_pixels};
use std::alloc::{AllocError, Global};
use std::process::Abort;
use std::test::Fail;

// So many columns and rows of pixels, of so many cells each. No product of such numbers overflows.
#[derive(Clone, Copy)]
struct Size {
    columns: u8,
    rows: u8,
    cells: u8,
}

// The image whose pixels another one gets.
#[derive(Clone, Copy)]
struct Source<'a, T> {
    cells: &'a [T],
    shape: Shape,
}

// What becomes of an image: each row is mirrored, or all is turned.
#[derive(Clone, Copy)]
enum Change {
    Mirrored,
    Turned(Orientation),
}

// The shape of an image of this size.
fn shape_of(size: Size, padding: u8) -> Shape
    ensures width { shape_width result ≡ size.columns * size.cells }
    ensures height { shape_height result ≡ size.rows }
{
    let width = usize::from(size.columns) * usize::from(size.cells);
    let stride = width + usize::from(padding);
    Shape::new(width, usize::from(size.rows), stride.max(1))
}

// Room for the cells of the largest image: those that are changed, the same as they were, and the
// source's. It is taken once, since each growth that a test asks for is refused in turn.
#[derive(Drop)]
struct Room<T: Drop> {
    cells: Vec<T>,
    old: Vec<T>,
    source: Vec<T>,
}

// No image has more cells.
const MOST_CELLS: usize = 70 * (70 * 8 + 8);

// Numbers from `first` on in the last cells of a room: as many as a shape has, up to its last pixel
// or with the padding after it. A write after them is one outside the list, which a checked run tells.
fn numbered<T: Copy + Drop + From<u8>>(
    room: &mut [T],
    shape: Shape,
    has_last_padding: bool,
    first: u8,
) -> &mut [T] {
    let last = if has_last_padding {
        shape.stride()
    } else {
        shape.width()
    };
    let before = shape
        .height()
        .saturating_sub(1)
        .saturating_mul(shape.stride());
    let count = before.saturating_add(last).min(room.len());
    let start = room.len() - count;
    let cells = &mut room[start..];
    for k in 0..count {
        cells[k] = T::from((k.saturating_add(usize::from(first)) % 251) as u8);
    }
    cells
}

// The column and the row of the source's pixel that a place shows.
fn place_shown(
    change: Change,
    columns: usize,
    rows: usize,
    column: usize,
    row: usize,
) -> (usize, usize) {
    let back = |count: usize, place: usize| count.saturating_sub(place).saturating_sub(1);
    match change {
        Change::Mirrored => (back(columns, column), row),
        Change::Turned(Orientation::Transposed) => (row, column),
        Change::Turned(Orientation::Right) => (row, back(rows, column)),
        Change::Turned(Orientation::Half) => (back(columns, column), back(rows, row)),
        Change::Turned(Orientation::Left) => (back(columns, row), column),
    }
}

// Whether the cells of a shape are those of the source at their places. The padding is as it was.
fn is_changed<T: Copy + PartialEq>(
    cells: &[T],
    shape: Shape,
    size: usize,
    old: &[T],
    source: Source<'_, T>,
    change: Change,
) -> bool
    requires some { 0 < size }
{
    let (columns, rows) = (source.shape.width() / size, source.shape.height());
    for k in 0..cells.len() {
        let (x, y) = (k % shape.stride(), k / shape.stride());
        let (column, line) = place_shown(change, columns, rows, x / size, y);
        let from = line
            .saturating_mul(source.shape.stride())
            .saturating_add(column.saturating_mul(size))
            .saturating_add(x % size);
        let wanted = if x < shape.width() && y < shape.height() {
            source.cells.get(from)
        } else {
            old.get(k)
        };
        if cells.get(k) != wanted {
            return false;
        }
    }
    true
}

// The size that an image gets.
fn oriented_size(size: Size, orientation: Orientation) -> Size
    ensures columns { result.columns ≡ oriented_width orientation size.columns size.rows }
    ensures rows { result.rows ≡ oriented_height orientation size.columns size.rows }
    ensures cells { result.cells ≡ size.cells }
{
    if orientation == Orientation::Half {
        return size;
    }
    Size {
        columns: size.rows,
        rows: size.columns,
        cells: size.cells,
    }
}

// Turns a source to another image, each with its padding. Both have the padding after their last row,
// too, or end with a pixel.
fn check_turned<T: Copy + Drop + PartialEq + From<u8>>(
    rt: &impl Abort,
    room: &mut Room<T>,
    size: Size,
    padding: (u8, u8),
    orientation: Orientation,
)
    requires some { 0 < size.cells }
    requires few { size.cells ≤ 8 }
{
    let shape = shape_of(oriented_size(size, orientation), padding.0);
    let source_shape = shape_of(size, padding.1);
    let (count, columns) = (usize::from(size.cells), usize::from(size.columns));
    for has_last_padding in [true, false] {
        let old = numbered(room.old.as_mut_slice(), shape, has_last_padding, 0);
        let source = numbered(
            room.source.as_mut_slice(),
            source_shape,
            has_last_padding,
            100,
        );
        let cells = numbered(room.cells.as_mut_slice(), shape, has_last_padding, 0);
        assert!(rt; shape.fits(cells.len()) && source_shape.fits(source.len()));
        orient_pixels(
            cells,
            shape,
            source,
            source_shape,
            count,
            columns,
            orientation,
        );
        let source = Source {
            cells: source,
            shape: source_shape,
        };
        let change = Change::Turned(orientation);
        assert!(rt; is_changed(cells, shape, count, old, source, change));
    }
}

// Mirrors an image, and turns it by a half: in place, where its pixels have few cells, and to another
// image.
fn check_width<T: Copy + Drop + PartialEq + From<u8>>(
    rt: &impl Abort,
    room: &mut Room<T>,
    size: Size,
    padding: (u8, u8),
)
    requires some { 0 < size.cells }
    requires few { size.cells ≤ 8 }
{
    let (shape, half) = (shape_of(size, padding.0), Orientation::Half);
    let (count, columns) = (usize::from(size.cells), usize::from(size.columns));
    let old = numbered(room.old.as_mut_slice(), shape, true, 0);
    let source = Source { cells: old, shape };
    let cells = numbered(room.cells.as_mut_slice(), shape, true, 0);
    assert!(rt; shape.fits(cells.len()));
    mirror_pixels(cells, shape, count, columns);
    assert!(rt; is_changed(cells, shape, count, old, source, Change::Mirrored));
    if count <= 4 {
        let cells = numbered(room.cells.as_mut_slice(), shape, true, 0);
        assert!(rt; shape.fits(cells.len()));
        orient_in_place(cells, shape, count, columns, half);
        assert!(rt; is_changed(cells, shape, count, old, source, Change::Turned(half)));
    }
    check_turned::<T>(rt, room, size, padding, half);
}

// Every width up to 70 pixels, with each padding. Then a few sizes, of which some have more rows than
// a strip has columns, in each orientation.
fn check_each_size<T: Copy + Drop + PartialEq + From<u8>>(
    rt: &impl Abort,
    alloc: Global,
    cells: u8,
) -> Result<(), AllocError>
    requires some { 0 < cells }
    requires few { cells ≤ 8 }
{
    let mut room = Room {
        cells: vec![in alloc; T::from(0); MOST_CELLS]?,
        old: vec![in alloc; T::from(0); MOST_CELLS]?,
        source: vec![in alloc; T::from(0); MOST_CELLS]?,
    };
    for columns in 0..71 {
        for padding in [(0, 8), (1, 7), (5, 3)] {
            let size = Size {
                columns,
                rows: 3,
                cells,
            };
            check_width(rt, &mut room, size, padding);
        }
    }
    for orientation in [
        Orientation::Transposed,
        Orientation::Right,
        Orientation::Half,
        Orientation::Left,
    ] {
        for columns in [0, 1, 2, 3, 16, 17, 70] {
            for rows in [0, 1, 2, 5, 16, 33, 70] {
                let size = Size {
                    columns,
                    rows,
                    cells,
                };
                check_turned(rt, &mut room, size, (5, 0), orientation);
            }
        }
    }
    Ok(())
}

#[test]
fn pixels_of_bytes(rt: HostRuntime) -> Result<(), Fail> {
    for cells in 1..9 {
        check_each_size::<u8>(&rt, rt.alloc(), cells)?;
    }
    Ok(())
}

#[test]
fn pixels_of_wider_cells(rt: HostRuntime) -> Result<(), Fail> {
    check_each_size::<u16>(&rt, rt.alloc(), 3)?;
    for cells in [3, 5] {
        check_each_size::<u32>(&rt, rt.alloc(), cells)?;
    }
    check_each_size::<u64>(&rt, rt.alloc(), 3)?;
    Ok(())
}
