//! Mosaics of means, whose tiles go by sums of 16 bits, by sums of 32, and one by one. Each cell is
//! compared with a mean that two loops make.

ghost use Rattle.std.specs.Prelude.{◌≡◌, ◌+◌, ◌*◌, ◌<◌, ◌≤◌, ◌^◌, length};

use image_means::{Sample, mean_window};
use image_shape::{Shape, Window};
use std::alloc::{AllocError, Global};
use std::process::Abort;
use std::test::Fail;

// The columns of a window of an image, the cells of a pixel, and the size of a tile.
#[derive(Clone, Copy)]
struct Case {
    columns: usize,
    rows: usize,
    size: usize,
    tile_width: usize,
    tile_height: usize,
}

// The mean of the tile that has a cell of the window, which begins at column 2 of row 1.
fn plain_mean<T: Sample>(cells: &[T], stride: usize, case: Case, x: usize, y: usize) -> u64 {
    let (size, wide, high) = (
        case.size.max(1),
        case.tile_width.max(1),
        case.tile_height.max(1),
    );
    let (left, top) = (x / size / wide * wide, y / high * high);
    let (mut sum, mut count) = (0u64, 0u64);
    for line in top..case.rows.min(top.saturating_add(high)) {
        for column in left..case.columns.min(left.saturating_add(wide)) {
            let across = column.saturating_mul(size).saturating_add(x % size);
            let row = line.saturating_add(1).saturating_mul(stride);
            if let Some(cell) = cells.get(row.saturating_add(across).saturating_add(2)) {
                sum = sum.saturating_add(u64::from(cell.number()));
                count = count.saturating_add(1);
            }
        }
    }
    sum.saturating_mul(2).saturating_add(count) / count.saturating_mul(2).max(1)
}

// Cells that are no sequence.
fn scattered<T: Sample + Drop + From<u8>>(alloc: Global, count: usize) -> Result<Vec<T>, AllocError>
    requires few { count ≤ 700000 }
{
    let mut cells = vec![in alloc; T::from(0); count]?;
    for k in 0..count {
        cells[k] = T::from((k.wrapping_mul(k) % 251) as u8);
    }
    Ok(cells)
}

// Whether a window of an image gets the means of its tiles, and all other cells stay.
fn has_means<T: Sample + Drop + PartialEq + From<u8>>(
    rt: &impl Abort,
    alloc: Global,
    case: Case,
) -> Result<bool, AllocError> {
    let width = case.columns.saturating_mul(case.size).min(2000);
    let rows = case.rows.min(300);
    let stride = width + 5;
    let shape = Shape::new(width + 4, rows + 2, stride);
    let count = stride.saturating_mul(rows + 2).min(700000);
    let old = scattered::<T>(alloc, count)?;
    let mut cells = scattered::<T>(alloc, count)?;
    let window = Window::new(2, 1, width, rows);
    assert!(rt; shape.fits(cells.len()) && shape.has_window(window) && cells.len() < 1000000);
    assert!(rt; case.size > 0 && case.tile_width > 0 && case.tile_height > 0);
    mean_window(
        cells.as_mut_slice(),
        shape,
        window,
        case.size,
        case.tile_width,
        case.tile_height,
    );
    for k in 0..cells.len() {
        let (x, y) = (k % stride, k / stride);
        let is_inside = x >= 2 && x - 2 < width && y >= 1 && y - 1 < rows;
        let (now, before) = (u64::from(cells[k].number()), old.get(k));
        let wanted = match before {
            Some(_) if is_inside => plain_mean(&old, stride, case, x - 2, y - 1),
            Some(cell) => u64::from(cell.number()),
            None => return Ok(false),
        };
        if now != wanted {
            return Ok(false);
        }
    }
    Ok(true)
}

// Every width up to 70 pixels, with tiles of one to five columns.
fn check_each<T: Sample + Drop + PartialEq + From<u8>>(
    rt: &impl Abort,
    alloc: Global,
    size: usize,
) -> Result<(), AllocError> {
    for columns in 0..71 {
        let case = Case {
            columns,
            rows: 3,
            size,
            tile_width: 1 + columns % 5,
            tile_height: 2,
        };
        assert!(rt; has_means::<T>(rt, alloc, case)?);
    }
    Ok(())
}

#[test]
fn means_of_bytes(rt: HostRuntime) -> Result<(), Fail> {
    for size in [1, 3, 5] {
        check_each::<u8>(&rt, rt.alloc(), size)?;
    }
    Ok(())
}

#[test]
fn means_of_cells_of_two_bytes(rt: HostRuntime) -> Result<(), Fail> {
    for size in [1, 3] {
        check_each::<u16>(&rt, rt.alloc(), size)?;
    }
    Ok(())
}

#[test]
fn means_of_many_cells(rt: HostRuntime) -> Result<(), Fail> {
    // Rows of several stretches, and tiles of more lines than 16 bits hold.
    for (columns, size, tile_width, tile_height) in [
        (180, 3, 7, 2),
        (513, 1, 512, 1),
        (171, 3, 171, 1),
        (3, 1, 2, 257),
        (3, 1, 2, 258),
    ] {
        let case = Case {
            columns,
            rows: tile_height.min(300),
            size,
            tile_width,
            tile_height,
        };
        assert!(&rt; has_means::<u8>(&rt, rt.alloc(), case)?);
        assert!(&rt; has_means::<u16>(&rt, rt.alloc(), case)?);
    }
    Ok(())
}
