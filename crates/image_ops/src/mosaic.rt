//! Mosaics of cells in a shape: each tile gets the pixel at its corner.

ghost use Rattle.std.specs.Prelude.{◌≡◌, ◌<◌, ◌≤◌, ◌+◌, ◌%◌, length};
ghost use Rattle.image_model.specs.Layout.{Fits, SameOutside};
ghost use Rattle.image_model.specs.Grid.{grid_of};
ghost use Rattle.image_shape.specs.Shape.{shaped, shaped_grid};
ghost use Rattle.image_writes.specs.Mosaic.{mosaic_by, IsSpread, IsSpreadBy};
ghost use Rattle.image_writes.specs.Written.{Becomes};
ghost use Rattle.image_ops.specs.Tiled.{AreTiles};

use crate::fill::fill_cells;
use crate::repeating::repeat_row;
use image_shape::Shape;
use std::mem::size_of_val;

// From this width on a tile's part of a row is filled by one call.
const FILLED_WIDTH: usize = 16;

// Each cell becomes the first one of its tile, cell by cell.
fn spread_by_cells<T: Copy>(row: &mut [T], tile_width: usize)
    requires tile_width { 0 < tile_width }
    ensures { IsSpread tile_width row.old row.new }
{
    let Some(first) = row.first() else {
        return;
    };
    let mut pixel = *first;
    let mut corner = 0;
    for x in 0..row.len() {
        if x - corner == tile_width {
            corner = x;
            pixel = row[x];
        }
        row[x] = pixel;
    }
}

// The same in a function of its own, for what the blocks of each length leave.
#[inline(never)]
fn spread_rest<T: Copy>(row: &mut [T], tile_width: usize)
    requires tile_width { 0 < tile_width }
    ensures { IsSpread tile_width row.old row.new }
{
    spread_by_cells(row, tile_width);
}

// The same for tiles of two cells: the second becomes the first.
fn spread_pairs<T: Copy>(row: &mut [T])
    ensures { IsSpread 2 row.old row.new }
{
    for pair in 0..row.len() / 2 {
        row[2 * pair + 1] = row[2 * pair];
    }
}

// The same by blocks of `N` cells, one for each tile: a tile has at most `N` cells, and two tiles
// have at least as many.
//
// The compiler knows the length of a block, so it is one store or two. What a block writes after
// its tile lies in the next tile, which gets its own block. So the next corner is read before.
fn spread_by_blocks<T: Copy, const N: usize>(row: &mut [T], tile_width: usize)
    requires tile_width { 0 < tile_width }
    requires within_block { tile_width ≤ N }
    requires within_tiles { N ≤ tile_width + tile_width }
    ensures { IsSpread tile_width row.old row.new }
{
    let Some(first) = row.first() else {
        return;
    };
    let mut pixel = *first;
    let mut corner = 0;
    while row.len() - corner > N {
        let next = row[corner + tile_width];
        fill_cells(&mut row[corner..corner + N], pixel);
        pixel = next;
        corner += tile_width;
    }
    row[corner] = pixel;
    spread_rest(&mut row[corner..], tile_width);
}

// The same for narrow tiles, by the shortest block of 4, 8 or 16 cells that has room for a tile.
// Blocks pay for cells of which a register holds several.
fn spread_narrow<T: Copy>(row: &mut [T], tile_width: usize)
    requires several { 1 < tile_width }
    requires narrow { tile_width < 16 }
    ensures { IsSpread tile_width row.old row.new }
{
    if tile_width == 2 {
        spread_pairs(row);
    } else if row.len() < tile_width || !matches!(size_of_val(&row[0]), 1 | 2 | 4) {
        spread_rest(row, tile_width);
    } else if tile_width <= 4 {
        spread_by_blocks::<T, 4>(row, tile_width);
    } else if tile_width <= 8 {
        spread_by_blocks::<T, 8>(row, tile_width);
    } else {
        spread_by_blocks::<T, 16>(row, tile_width);
    }
}

// The same, tile by tile.
fn spread_by_tiles<T: Copy>(row: &mut [T], tile_width: usize)
    requires tile_width { 0 < tile_width }
    ensures { IsSpread tile_width row.old row.new }
{
    let mut corner = 0;
    while corner < row.len() {
        let len = tile_width.min(row.len() - corner);
        let pixel = row[corner];
        fill_cells(&mut row[corner..corner + len], pixel);
        corner += len;
    }
}

// Each pixel of so many cells becomes the first one of its tile. A pixel that isn't the first gets
// the cells of the one before it.
fn spread_by_pixels<T: Copy>(row: &mut [T], size: usize, tile_width: usize)
    requires { AreTiles size tile_width }
    ensures { IsSpreadBy size tile_width row.old row.new }
{
    let tile = tile_width.saturating_mul(size);
    let mut corner = 0;
    for x in 0..row.len() {
        if x - corner == tile {
            corner = x;
        } else if x - corner >= size {
            row[x] = row[x - size];
        }
    }
}

// The same by a loop for each tile, with no test of a cell. That is faster in wide rows.
#[inline(never)]
fn spread_tiles_of_pixels<T: Copy>(row: &mut [T], size: usize, tile_width: usize)
    requires { AreTiles size tile_width }
    ensures { IsSpreadBy size tile_width row.old row.new }
{
    let tile = size.saturating_mul(tile_width);
    let mut corner = 0;
    while corner < row.len() {
        let len = tile.min(row.len() - corner);
        for x in size..len {
            row[corner + x] = row[corner + x - size];
        }
        corner += len;
    }
}

// The same for tiles of two pixels of `N` cells, whole ones by a loop of known length.
#[inline(never)]
fn spread_pixel_pairs<T: Copy, const N: usize>(row: &mut [T])
    requires some { 0 < N }
    requires few { N ≤ 4 }
    ensures { IsSpreadBy N 2 row.old row.new }
{
    let mut corner = 0;
    while row.len() - corner >= 2 * N {
        for x in N..2 * N {
            row[corner + x] = row[corner + x - N];
        }
        corner += 2 * N;
    }
    if corner < row.len() {
        for last in N..row.len() - corner {
            row[corner + last] = row[corner + last - N];
        }
    }
}

// The same for wide rows, wide tiles and tiles of one pixel, by what is faster for such tiles. A tile
// of one pixel shows that pixel.
//
// It isn't inlined: it would take registers from the loop over rows.
#[inline(never)]
fn spread_wide<T: Copy>(row: &mut [T], size: usize, tile_width: usize)
    requires { AreTiles size tile_width }
    ensures { IsSpreadBy size tile_width row.old row.new }
{
    match (size, tile_width) {
        (_, 1) => {}
        (2, 2) => spread_pixel_pairs::<T, 2>(row),
        (3, 2) => spread_pixel_pairs::<T, 3>(row),
        (4, 2) => spread_pixel_pairs::<T, 4>(row),
        (1, 0..FILLED_WIDTH) => spread_narrow(row, tile_width),
        (1, _) => spread_by_tiles(row, tile_width),
        _ => spread_tiles_of_pixels(row, size, tile_width),
    }
}

// The same for any row, which is taken for a wide one or not.
#[inline(always)]
fn spread<T: Copy>(row: &mut [T], size: usize, tile_width: usize, wide: bool)
    requires { AreTiles size tile_width }
    ensures { IsSpreadBy size tile_width row.old row.new }
{
    if wide {
        spread_wide(row, size, tile_width);
    } else if size > 1 {
        spread_by_pixels(row, size, tile_width);
    } else {
        spread_by_cells(row, tile_width);
    }
}

// Whether rows of so many cells are taken for wide ones: a call for each pays. Both ways give the same.
fn are_wide<T>(cells: &[T], width: usize, size: usize, tile_width: usize) -> bool {
    if tile_width == 1 {
        return true;
    }
    if size >= 2 {
        return width >= 32;
    }
    if tile_width == 2 {
        return width >= 8;
    }
    if tile_width >= FILLED_WIDTH {
        return true;
    }
    let Some(cell) = cells.first() else {
        return false;
    };
    width >= 24 && width / 4 >= tile_width && matches!(size_of_val(cell), 1 | 2 | 4)
}

/// The line of a tile that comes after a line, from the first one again after the last.
#[inline(always)]
pub fn next_line(line: usize, tile_height: usize) -> usize
    requires { line < tile_height }
    ensures { result ≡ (line + 1) % tile_height }
{
    let next = line + 1;
    if next == tile_height { 0 } else { next }
}

// Each row of the image becomes that of its mosaic. The line of its tile is counted: a remainder for
// each row takes longer than the copy of a short row. The compiler makes a loop for rows that are taken
// for wide ones, and another for those that aren't.
#[inline(never)]
fn mosaic_rows<T: Copy>(
    cells: &mut [T],
    shape: Shape,
    size: usize,
    tile_width: usize,
    tile_height: usize,
    wide: bool,
)
    requires fits { Fits (shaped cells.old shape) }
    requires size { 0 < size }
    requires tile_width { 0 < tile_width }
    requires tile_height { 0 < tile_height }
    ensures { Becomes shape cells.old cells.new
        (mosaic_by size tile_width tile_height (shaped_grid cells.old shape)) }
{
    let mut line = 0;
    for y in 0..shape.row_count() {
        let row = shape.row(cells.len(), y);
        if line == 0 {
            spread(&mut cells[row.range()], size, tile_width, wide);
        } else {
            repeat_row(cells, shape.row_above(row), row.start);
        }
        line = next_line(line, tile_height);
    }
}

/// Writes, at every place of `shape`, the old pixel at the corner of the place's tile. A pixel is
/// `size` cells next to one another in a row. The padding stays.
///
/// It goes row by row. In the first row of a tile each pixel becomes the one at its tile's corner.
/// Each other row is a copy of the row above it.
///
/// # Requires
///
/// The cells fit the shape, a pixel has cells, and a tile has columns and rows.
pub fn mosaic_cells<T: Copy>(
    cells: &mut [T],
    shape: Shape,
    size: usize,
    tile_width: usize,
    tile_height: usize,
)
    requires fits { Fits (shaped cells.old shape) }
    requires size { 0 < size }
    requires tile_width { 0 < tile_width }
    requires tile_height { 0 < tile_height }
    ensures grid { grid_of (shaped cells.new shape)
        ≡ mosaic_by size tile_width tile_height (grid_of (shaped cells.old shape)) }
    ensures outside { SameOutside (shaped cells.old shape) (shaped cells.new shape) }
{
    // A tile of one pixel shows that pixel.
    if tile_width == 1 && tile_height == 1 {
        return;
    }
    let wide = are_wide(cells, shape.width(), size, tile_width);
    mosaic_rows(cells, shape, size, tile_width, tile_height, wide);
}
