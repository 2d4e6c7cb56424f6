//! Mosaics of means: each tile shows the mean of its pixels.

ghost use Rattle.std.proofs.Common.{rules};
ghost use Rattle.std.specs.Prelude.{◌≡◌, ◌≢◌, ◌<◌, ◌≤◌, ◌+◌, ◌-◌, ◌*◌, ◌%◌, ◌^◌, ◌⊎◌, ℕ, length, true, false};
ghost use Rattle.image_model.specs.Layout.{Fits, SameOutside};
ghost use Rattle.image_model.specs.Grid.{grid_of, patch};
ghost use Rattle.image_model.specs.Tiles.{tile_count};
ghost use Rattle.image_model.specs.Windows.{window_view, IsInside};
ghost use Rattle.image_shape.specs.Shape.{shape_width, shape_height, shaped, shaped_grid};
ghost use Rattle.image_shape.specs.Window.{as_window};
ghost use Rattle.image_means.specs.Means.{mean_cell, mean_mosaic_by, mean_of, rounded_mean, byte_of, cell_number, sample_cells, sample_in, sample_mosaic, sample_mosaic_by, sample_number, sum_upto, AreBytes, AreLines, BeginsWith, CanBeTiled, HasSamples, HaveTiles, PutsMeans};
ghost use Rattle.image_writes.specs.Written.{Becomes};

use crate::lines::{Lines, Tile};
use crate::tile_sums::{ROOM, put_by_sums};
use image_ops::{mosaic_cells, next_line};
use image_shape::{SampleBytes, Shape, Stretch, Window, tiles_along};
use image_writes::exact_part;

/// A cell that is a number of at most 16 bits, of which a mean can be taken.
pub trait Sample: Copy {
    // The number of a cell.
    ghost number: { Self → ℕ };

    // The cell of a number.
    ghost sample: { ℕ → Self };

    // The greatest number of a cell.
    ghost greatest: { ℕ };

    /// The number.
    fn number(self) -> u16
        ensures value { result ≡ number self }
        ensures within { result ≤ greatest };

    /// The greatest number of a cell.
    fn greatest() -> u16
        ensures { result ≡ greatest };

    /// The cell of a number, which is at most the greatest one of a cell.
    fn sample(value: u16) -> Self
        requires { value ≤ greatest }
        ensures { result ≡ sample value };

    // No number has more than 16 bits.
    ghost short: { greatest < 2 ^ 16 };
}

impl Sample for u8 {
    ghost number = { λ n. n };

    ghost sample = { λ n. n };

    ghost greatest = { 255 };

    fn number(self) -> u16 {
        u16::from(self)
    }

    fn greatest() -> u16 {
        255
    }

    fn sample(value: u16) -> u8 {
        value as u8
    }

    ghost short = { Prim.search rules };
}

impl Sample for u16 {
    ghost number = { λ n. n };

    ghost sample = { λ n. n };

    ghost greatest = { 65535 };

    fn number(self) -> u16 {
        self
    }

    fn greatest() -> u16 {
        65535
    }

    fn sample(value: u16) -> u16 {
        value
    }

    ghost short = { Prim.search rules };
}

// Whether a sample begins at this column.
#[inline(always)]
fn begins_sample(bytes: SampleBytes, x: usize) -> bool
    ensures begins { result ≡ true → x % sample_cells bytes ≡ 0 }
    ensures within { result ≡ false → 0 < x % sample_cells bytes }
{
    match bytes {
        SampleBytes::One => true,
        SampleBytes::LowFirst | SampleBytes::HighFirst => x % 2 == 0,
    }
}

// The number of the sample that begins at this cell.
#[inline(always)]
pub(crate) fn sample_from<T: Sample>(bytes: SampleBytes, cells: &[T], at: usize) -> u16
    requires kind { AreBytes bytes T.greatest }
    requires inside { at + sample_cells bytes ≤ length cells.now }
    requires room { length cells.now < 2 ^ 63 }
    ensures value { result ≡ sample_in bytes T.number cells.now at }
    ensures within { result ≤ sample_number bytes T.greatest T.greatest }
{
    match bytes {
        SampleBytes::One => cells[at].number(),
        SampleBytes::LowFirst => cells[at].number() + 256 * cells[at + 1].number(),
        SampleBytes::HighFirst => 256 * cells[at].number() + cells[at + 1].number(),
    }
}

// The low byte of a number, or the high one.
#[inline(always)]
fn byte_of(low: bool, value: u16) -> u16
    ensures { result ≡ byte_of low value }
{
    if low { value % 256 } else { value / 256 }
}

// The number of the cell in this column of a sample.
#[inline(always)]
fn number_at(bytes: SampleBytes, x: usize, value: u16) -> u16
    ensures { result ≡ cell_number bytes x value }
{
    match bytes {
        SampleBytes::One => value,
        SampleBytes::LowFirst => byte_of(x % 2 == 0, value),
        SampleBytes::HighFirst => byte_of(x % 2 == 1, value),
    }
}

// From this sum on the division is begun, so that no sum overflows.
const LARGE: u64 = 1 << 62;

// The sum of the first sample of each pixel of a row.
fn sum_of<T: Sample>(bytes: SampleBytes, row: &[T], size: usize) -> u64
    requires samples { HasSamples bytes T.greatest size }
    requires narrow { length row.now < 2 ^ 32 }
    requires whole { length row.now % sample_cells bytes ≡ 0 }
    ensures value { result ≡ sum_upto (tile_count size (length row.now))
        (λ i. sample_in bytes T.number row.now (i * size)) }
    ensures bound { result
        ≤ tile_count size (length row.now) * sample_number bytes T.greatest T.greatest }
{
    let mut sum = 0;
    for pixel in 0..tiles_along(row.len(), size) {
        sum += u64::from(sample_from(bytes, row, pixel * size));
    }
    sum
}

// The number with this sum of so many numbers as its mean, rounded to the nearest.
pub(crate) fn rounded(sum: u64, count: u64) -> u64
    requires { 0 < count }
    ensures { result ≡ rounded_mean sum count }
{
    let whole = sum / count;
    let rest = sum % count;
    if rest < count - rest {
        whole
    } else {
        whole + 1
    }
}

// The mean of the first sample of each pixel in these lines.
fn mean_at<T: Sample>(bytes: SampleBytes, cells: &[T], lines: Lines, size: usize) -> u16
    requires samples { HasSamples bytes T.greatest size }
    requires some { 0 < lines.first.len }
    requires whole { lines.first.len % sample_cells bytes ≡ 0 }
    requires lines { AreLines lines (length cells.now) }
    ensures value { result ≡ mean_of (tile_count size lines.first.len) lines.count
        (λ i j. sample_in bytes T.number cells.now
        (lines.first.start + (j * lines.stride + i * size))) }
    ensures within { result ≤ sample_number bytes T.greatest T.greatest }
{
    let count = (tiles_along(lines.first.len, size) * lines.count) as u64;
    let mut mean = 0;
    let mut sum = 0;
    for line in 0..lines.count {
        let start = lines.first.start + line * lines.stride;
        sum += sum_of(bytes, &cells[start..start + lines.first.len], size);
        if sum >= LARGE {
            mean += sum / count;
            sum %= count;
        }
    }
    (mean + rounded(sum, count)) as u16
}

// Where the tile begins that has cell `x` of a row, by where that of the cell before it begins.
#[inline(always)]
fn corner_of(x: usize, corner: usize, tile: usize) -> usize
    requires { corner ≤ x }
    ensures { ((x ≡ corner + tile) × (result ≡ x)) ⊎ ((x ≢ corner + tile) × (result ≡ corner)) }
{
    if x - corner == tile { x } else { corner }
}

// In the first of these lines, the first pixel of each tile becomes the mean of the tile's pixels in all
// of them, tile by tile.
#[inline(always)]
fn put_row_cells<T: Sample>(bytes: SampleBytes, cells: &mut [T], lines: Lines, tile: Tile)
    requires { HaveTiles bytes T.greatest lines tile (length cells.old) }
    ensures { PutsMeans bytes T.number T.sample lines tile cells.old cells.new }
{
    let across = tile.width.saturating_mul(tile.size);
    let mut corner = 0;
    let mut mean = 0;
    for x in 0..lines.first.len {
        corner = corner_of(x, corner, across);
        if x - corner < tile.size {
            if begins_sample(bytes, x) {
                let start = lines.first.start + x;
                let len = across.min(lines.first.len - x);
                let first = Stretch { start, len };
                mean = mean_at(bytes, cells, Lines { first, ..lines }, tile.size);
            }
            cells[lines.first.start + x] = T::sample(number_at(bytes, x, mean));
        }
    }
}

// The same. Cells that are samples go by the sums of columns, unless tiles are too large.
#[inline(always)]
fn put_row_means<T: Sample>(bytes: SampleBytes, cells: &mut [T], lines: Lines, tile: Tile)
    requires { HaveTiles bytes T.greatest lines tile (length cells.old) }
    ensures { PutsMeans bytes T.number T.sample lines tile cells.old cells.new }
{
    let across = tile.width.saturating_mul(tile.size);
    if bytes == SampleBytes::One && across <= ROOM && lines.count < 65536 {
        put_by_sums(cells, lines, tile);
    } else {
        put_row_cells(bytes, cells, lines, tile);
    }
}

// The first pixel of each tile becomes the mean of the tile's pixels.
#[inline(always)]
fn put_means<T: Sample>(bytes: SampleBytes, cells: &mut [T], shape: Shape, tile: Tile)
    requires fits { Fits (shaped cells.old shape) }
    requires room { length cells.old < 2 ^ 63 }
    requires tiled { CanBeTiled bytes T.greatest (shape_width shape) tile }
    ensures grid { BeginsWith (mean_cell bytes T.number T.sample tile.size tile.width tile.height
        (shaped_grid cells.old shape)) tile.size tile.width tile.height
        (shaped_grid cells.new shape) (shape_width shape) (shape_height shape) }
    ensures outside { SameOutside (shaped cells.old shape) (shaped cells.new shape) }
{
    let mut line = 0;
    for y in 0..shape.row_count() {
        if line == 0 {
            let lines = Lines {
                first: shape.row(cells.len(), y),
                stride: shape.stride(),
                count: tile.height.min(shape.height() - y),
            };
            put_row_means(bytes, cells, lines, tile);
        }
        line = next_line(line, tile.height);
    }
}

// Each tile of the image shows the mean of its pixels: its first pixel becomes it, and the others
// become the first one.
#[inline(always)]
fn mean_cells<T: Sample>(bytes: SampleBytes, cells: &mut [T], shape: Shape, tile: Tile)
    requires fits { Fits (shaped cells.old shape) }
    requires room { length cells.old < 2 ^ 63 }
    requires tiled { CanBeTiled bytes T.greatest (shape_width shape) tile }
    ensures { Becomes shape cells.old cells.new (sample_mosaic_by bytes T.number T.sample
        tile.size tile.width tile.height (shaped_grid cells.old shape)) }
{
    put_means(bytes, cells, shape, tile);
    mosaic_cells(cells, shape, tile.size, tile.width, tile.height);
}

// The same in a window of the image.
#[inline(always)]
fn mean_part<T: Sample>(
    bytes: SampleBytes,
    cells: &mut [T],
    shape: Shape,
    window: Window,
    tile: Tile,
)
    requires fits { Fits (shaped cells.old shape) }
    requires inside { IsInside (shape_width shape) (shape_height shape) (as_window window) }
    requires room { length cells.old < 2 ^ 63 }
    requires tiled { CanBeTiled bytes T.greatest window.width tile }
    ensures { Becomes shape cells.old cells.new
        (patch (shaped_grid cells.old shape) window.left window.top
        (sample_mosaic_by bytes T.number T.sample tile.size tile.width tile.height
        (window_view (shaped_grid cells.old shape) (as_window window)))) }
{
    let (part, inner) = exact_part(cells.len(), shape, window);
    mean_cells(bytes, &mut cells[part], inner, tile);
}

/// Writes, at every place of the window, the mean of its tile, rounded to the nearest number: a half
/// goes up. Every other cell stays. A pixel is `size` cells next to one another in a row, and each
/// cell is the mean of such cells of the tile. Tiles are counted from the window's corner, in pixels.
/// A tile that the window's edge cuts has the mean of the pixels that are left of it.
///
/// # Requires
///
/// The cells fit the shape and are fewer than 2^63, as any slice of cells with bytes. The window is
/// inside the shape, a pixel has cells, and a tile has columns and rows.
#[inline(never)]
pub fn mean_window<T: Sample>(
    cells: &mut [T],
    shape: Shape,
    window: Window,
    size: usize,
    tile_width: usize,
    tile_height: usize,
)
    requires fits { Fits (shaped cells.old shape) }
    requires room { length cells.old < 2 ^ 63 }
    requires inside { IsInside (shape_width shape) (shape_height shape) (as_window window) }
    requires size { 0 < size }
    requires tile_width { 0 < tile_width }
    requires tile_height { 0 < tile_height }
    ensures grid { shaped_grid cells.new shape
        ≡ patch (shaped_grid cells.old shape) window.left window.top
        (mean_mosaic_by T.number T.sample size tile_width tile_height
        (window_view (shaped_grid cells.old shape) (as_window window))) }
    ensures outside { SameOutside (shaped cells.old shape) (shaped cells.new shape) }
{
    let tile = Tile {
        size,
        width: tile_width,
        height: tile_height,
    };
    mean_part(SampleBytes::One, cells, shape, window, tile);
}

/// The same for samples of one byte or of two. Each sample of a pixel becomes the mean of such samples
/// of its tile, and each byte that byte of the mean.
///
/// # Requires
///
/// The cells fit the shape. The window is inside the shape. A pixel, which has bytes, and the
/// window's rows have whole samples. A tile has columns and rows.
#[inline(never)]
pub fn mean_samples(
    bytes: SampleBytes,
    cells: &mut [u8],
    shape: Shape,
    window: Window,
    size: usize,
    tile_width: usize,
    tile_height: usize,
)
    requires fits { Fits (shaped cells.old shape) }
    requires inside { IsInside (shape_width shape) (shape_height shape) (as_window window) }
    requires whole { window.width % sample_cells bytes ≡ 0 }
    requires size { 0 < size }
    requires pixels { size % sample_cells bytes ≡ 0 }
    requires tile_width { 0 < tile_width }
    requires tile_height { 0 < tile_height }
    ensures grid { shaped_grid cells.new shape
        ≡ patch (shaped_grid cells.old shape) window.left window.top
        (sample_mosaic bytes size tile_width tile_height
        (window_view (shaped_grid cells.old shape) (as_window window))) }
    ensures outside { SameOutside (shaped cells.old shape) (shaped cells.new shape) }
{
    match bytes {
        SampleBytes::One => mean_window(cells, shape, window, size, tile_width, tile_height),
        SampleBytes::LowFirst | SampleBytes::HighFirst => {
            let tile = Tile {
                size,
                width: tile_width,
                height: tile_height,
            };
            mean_part(bytes, cells, shape, window, tile);
        }
    }
}
