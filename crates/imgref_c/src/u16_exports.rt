//! Made from `u8_exports.rt` by `make exports`: the same exports, for cells of type `u16`.

ghost use Rattle.std.specs.Prelude.{◌≡◌, ◌*◌, ◌<◌, ◌==◌, ◌↔◌, IsTrue, length, Some};
ghost use Rattle.imgref_c.specs.Words.{as_window, code, copy_status, flipped, flood_status, grid_of, image_status, in_cells, labels_status, layout, mirrored_by, mosaic_by, mosaic_of, mosaic_status, move_status, oriented, oriented_in_place_status, oriented_status, pair_status, pixel_mosaic_status, pixel_window_status, place_status, repeated, rows_status, rows_swapped, seen, times_shown, turn_by, turn_in_place_status, turn_status, uniform, window_status, Agree, Fills, Gives, IsBox, Labels, Packs, Transposed, Writes};

use crate::images::ClaimedShape;
use crate::{counts, flips, packing, pairs, pixels, places, regions, turns, windows};
use image_shape::Window;
use image_turns::Orientation;

/// Writes the pixel in column `x` of row `y` to `pixel`.
#[unsafe(no_mangle)]
pub extern "C" fn imgref_u16_get(
    cells: &[u16],
    width: usize,
    height: usize,
    stride: usize,
    x: usize,
    y: usize,
    pixel: &mut u16,
) -> u32
    ensures status { result ≡ code (place_status (length cells.now) width height stride x y) }
    ensures gives { Gives result pixel.old pixel.new
        ((grid_of (layout cells.now width height stride)).pixel x y ≡ Some pixel.new) }
{
    let claimed = ClaimedShape::new(width, height, stride);
    places::get(cells, claimed, (x, y), pixel).code()
}

/// The pixel in column `x` of row `y` becomes `value`.
#[unsafe(no_mangle)]
pub extern "C" fn imgref_u16_put(
    cells: &mut [u16],
    width: usize,
    height: usize,
    stride: usize,
    x: usize,
    y: usize,
    value: u16,
) -> u32
    ensures status { result ≡ code (place_status (length cells.old) width height stride x y) }
    ensures writes { Writes result width height stride cells.old cells.new x y (uniform 1 1 value) }
{
    let claimed = ClaimedShape::new(width, height, stride);
    places::put(cells, claimed, (x, y), value).code()
}

/// Every pixel of the window becomes `value`.
#[unsafe(no_mangle)]
pub extern "C" fn imgref_u16_fill_window(
    cells: &mut [u16],
    width: usize,
    height: usize,
    stride: usize,
    window: Window,
    value: u16,
) -> u32
    ensures status { result
        ≡ code (window_status (length cells.old) width height stride (as_window window)) }
    ensures writes { Writes result width height stride cells.old cells.new window.left window.top
        (uniform window.width window.height value) }
{
    let claimed = ClaimedShape::new(width, height, stride);
    windows::fill_window(cells, claimed, window, value).code()
}

/// Each tile of the window, from its corner on, gets the old pixel at the tile's corner.
#[unsafe(no_mangle)]
pub extern "C" fn imgref_u16_mosaic(
    cells: &mut [u16],
    width: usize,
    height: usize,
    stride: usize,
    window: Window,
    tile_width: usize,
    tile_height: usize,
) -> u32
    ensures status { result ≡ code (mosaic_status (length cells.old) width height stride
        (as_window window) tile_width tile_height) }
    ensures writes { Writes result width height stride cells.old cells.new window.left window.top
        (mosaic_of tile_width tile_height (seen width height stride cells.old (as_window window))) }
{
    let claimed = ClaimedShape::new(width, height, stride);
    windows::mosaic(cells, claimed, window, tile_width, tile_height).code()
}

/// Every pixel of the window becomes `pixel`, which has 1 to 4 cells, next to one another in a row.
/// Sizes and windows are counted in pixels, and the stride in cells.
#[unsafe(no_mangle)]
pub extern "C" fn imgref_u16_fill_pixels(
    cells: &mut [u16],
    width: usize,
    height: usize,
    stride: usize,
    window: Window,
    pixel: &[u16],
) -> u32
    ensures status { result ≡ code (pixel_window_status (length pixel.now) (length cells.old) width
        height stride (as_window window)) }
    ensures writes { Writes result (length pixel.now * width) height stride cells.old cells.new
        (length pixel.now * window.left) window.top
        (repeated (length pixel.now * window.width) window.height pixel.now) }
{
    let claimed = ClaimedShape::new(width, height, stride);
    pixels::fill_pixels(cells, claimed, window, pixel).code()
}

/// Each tile of the window, from its corner on, gets the old pixel at the tile's corner. A pixel has
/// 1 to 4 cells, next to one another in a row. Sizes, windows and tiles are counted in pixels, and
/// the stride in cells.
#[unsafe(no_mangle)]
pub extern "C" fn imgref_u16_mosaic_pixels(
    cells: &mut [u16],
    width: usize,
    height: usize,
    stride: usize,
    channels: usize,
    window: Window,
    tile_width: usize,
    tile_height: usize,
) -> u32
    ensures status { result ≡ code (pixel_mosaic_status channels (length cells.old) width height
        stride (as_window window) tile_width tile_height) }
    ensures writes { Writes result (channels * width) height stride cells.old cells.new
        (channels * window.left) window.top (mosaic_by channels tile_width tile_height
        (seen (channels * width) height stride cells.old (in_cells channels (as_window window)))) }
{
    let claimed = ClaimedShape::new(width, height, stride).of_pixels(channels);
    pixels::mosaic_pixels(cells, claimed, window, (tile_width, tile_height)).code()
}

/// The window `to` gets the pixels that the window `from` had; the two may overlap.
#[unsafe(no_mangle)]
pub extern "C" fn imgref_u16_move_window(
    cells: &mut [u16],
    width: usize,
    height: usize,
    stride: usize,
    from: Window,
    to: Window,
) -> u32
    ensures status { result
        ≡ code (move_status (length cells.old) width height stride (as_window from) (as_window to)) }
    ensures writes { Writes result width height stride cells.old cells.new to.left to.top
        (seen width height stride cells.old (as_window from)) }
{
    let claimed = ClaimedShape::new(width, height, stride);
    windows::move_window(cells, claimed, from, to).code()
}

/// The window gets the pixels of `source`, which has its size.
#[unsafe(no_mangle)]
pub extern "C" fn imgref_u16_copy_window(
    cells: &mut [u16],
    width: usize,
    height: usize,
    stride: usize,
    window: Window,
    source: &[u16],
    source_width: usize,
    source_height: usize,
    source_stride: usize,
) -> u32
    ensures status { result ≡ code (copy_status (length cells.old) width height stride
        (as_window window) (length source.now) source_width source_height source_stride) }
    ensures writes { Writes result width height stride cells.old cells.new window.left window.top
        (grid_of (layout source.now source_width source_height source_stride)) }
{
    let claimed = ClaimedShape::new(width, height, stride);
    let claimed_source = ClaimedShape::new(source_width, source_height, source_stride);
    pairs::copy_window(cells, claimed, source, claimed_source, window).code()
}

/// Writes to `count` how many pixels of the window have the value, which has 1 to 4 cells, next to one
/// another in a row. Sizes and windows are counted in pixels, and the stride in cells.
#[unsafe(no_mangle)]
pub extern "C" fn imgref_u16_count(
    cells: &[u16],
    width: usize,
    height: usize,
    stride: usize,
    window: Window,
    value: &[u16],
    count: &mut usize,
) -> u32
    ensures status { result ≡ code (pixel_window_status (length value.now) (length cells.now) width
        height stride (as_window window)) }
    ensures gives { Gives result count.old count.new (count.new ≡ times_shown ◌==◌ value.now
        (seen (length value.now * width) height stride cells.now
        (in_cells (length value.now) (as_window window)))) }
{
    let claimed = ClaimedShape::new(width, height, stride);
    counts::count(cells, claimed, window, value, count).code()
}

/// Every pixel becomes that of `source` turned clockwise by so many quarters, 1 to 3. A pixel has 1 to 4
/// cells, next to one another in a row. Sizes are counted in pixels, and strides in cells.
#[unsafe(no_mangle)]
pub extern "C" fn imgref_u16_turn_into(
    cells: &mut [u16],
    width: usize,
    height: usize,
    stride: usize,
    channels: usize,
    source: &[u16],
    source_width: usize,
    source_height: usize,
    source_stride: usize,
    quarters: u32,
) -> u32
    ensures status { result ≡ code (turn_status channels quarters (length cells.old) width height
        stride (length source.now) source_width source_height source_stride) }
    ensures writes { Writes result (channels * width) height stride cells.old cells.new 0 0
        (oriented channels (turn_by quarters) (grid_of (layout source.now
        (channels * source_width) source_height source_stride))) }
{
    let claimed = ClaimedShape::new(width, height, stride).of_pixels(channels);
    let claimed_source = ClaimedShape::new(source_width, source_height, source_stride);
    turns::turn_into(cells, claimed, source, claimed_source, quarters).code()
}

/// Every pixel becomes the pixel of `source` in whose row it is a column. A pixel has 1 to 4 cells,
/// next to one another in a row. Sizes are counted in pixels, and strides in cells.
#[unsafe(no_mangle)]
pub extern "C" fn imgref_u16_transpose_into(
    cells: &mut [u16],
    width: usize,
    height: usize,
    stride: usize,
    channels: usize,
    source: &[u16],
    source_width: usize,
    source_height: usize,
    source_stride: usize,
) -> u32
    ensures status { result ≡ code (oriented_status channels Transposed (length cells.old) width
        height stride (length source.now) source_width source_height source_stride) }
    ensures writes { Writes result (channels * width) height stride cells.old cells.new 0 0
        (oriented channels Transposed (grid_of (layout source.now (channels * source_width)
        source_height source_stride))) }
{
    let claimed = ClaimedShape::new(width, height, stride).of_pixels(channels);
    let claimed_source = ClaimedShape::new(source_width, source_height, source_stride);
    let orientation = Orientation::Transposed;
    turns::orient_into(cells, claimed, source, claimed_source, orientation).code()
}

/// The image is turned clockwise by so many quarters, 1 to 3, in place. It has to be a square unless it
/// is turned by a half. A pixel has 1 to 4 cells, next to one another in a row. Sizes are counted in
/// pixels, and the stride in cells.
#[unsafe(no_mangle)]
pub extern "C" fn imgref_u16_turn(
    cells: &mut [u16],
    width: usize,
    height: usize,
    stride: usize,
    channels: usize,
    quarters: u32,
) -> u32
    ensures status { result ≡ code (turn_in_place_status channels quarters (length cells.old) width
        height stride) }
    ensures writes { Writes result (channels * width) height stride cells.old cells.new 0 0
        (oriented channels (turn_by quarters) (grid_of (layout cells.old (channels * width) height
        stride))) }
{
    let claimed = ClaimedShape::new(width, height, stride).of_pixels(channels);
    turns::turn(cells, claimed, quarters).code()
}

/// Columns become rows, and rows columns, in place. The image has to be a square. A pixel has 1 to 4
/// cells, next to one another in a row. Sizes are counted in pixels, and the stride in cells.
#[unsafe(no_mangle)]
pub extern "C" fn imgref_u16_transpose(
    cells: &mut [u16],
    width: usize,
    height: usize,
    stride: usize,
    channels: usize,
) -> u32
    ensures status { result ≡ code (oriented_in_place_status channels Transposed (length cells.old)
        width height stride) }
    ensures writes { Writes result (channels * width) height stride cells.old cells.new 0 0
        (oriented channels Transposed (grid_of (layout cells.old (channels * width) height
        stride))) }
{
    let claimed = ClaimedShape::new(width, height, stride).of_pixels(channels);
    turns::orient(cells, claimed, Orientation::Transposed).code()
}

/// The first row of the window changes places with its last, and so on. A pixel has 1 to 4 cells, next
/// to one another in a row. Sizes and windows are counted in pixels, and the stride in cells.
#[unsafe(no_mangle)]
pub extern "C" fn imgref_u16_flip_rows(
    cells: &mut [u16],
    width: usize,
    height: usize,
    stride: usize,
    channels: usize,
    window: Window,
) -> u32
    ensures status { result ≡ code (pixel_window_status channels (length cells.old) width height
        stride (as_window window)) }
    ensures writes { Writes result (channels * width) height stride cells.old cells.new
        (channels * window.left) window.top (flipped (seen (channels * width) height stride
        cells.old (in_cells channels (as_window window)))) }
{
    let claimed = ClaimedShape::new(width, height, stride).of_pixels(channels);
    flips::flip_rows(cells, claimed, window).code()
}

/// In each row of the window the first pixel changes places with the last, and so on. A pixel has 1 to 4
/// cells, next to one another in a row. Sizes and windows are counted in pixels, and the stride in
/// cells.
#[unsafe(no_mangle)]
pub extern "C" fn imgref_u16_flip_columns(
    cells: &mut [u16],
    width: usize,
    height: usize,
    stride: usize,
    channels: usize,
    window: Window,
) -> u32
    ensures status { result ≡ code (pixel_window_status channels (length cells.old) width height
        stride (as_window window)) }
    ensures writes { Writes result (channels * width) height stride cells.old cells.new
        (channels * window.left) window.top (mirrored_by channels (seen (channels * width) height
        stride cells.old (in_cells channels (as_window window)))) }
{
    let claimed = ClaimedShape::new(width, height, stride).of_pixels(channels);
    flips::flip_columns(cells, claimed, window).code()
}

/// Rows `y` and `z` change places. A pixel has 1 to 4 cells, next to one another in a row. Sizes are
/// counted in pixels, and the stride in cells.
#[unsafe(no_mangle)]
pub extern "C" fn imgref_u16_swap_rows(
    cells: &mut [u16],
    width: usize,
    height: usize,
    stride: usize,
    channels: usize,
    y: usize,
    z: usize,
) -> u32
    ensures status { result ≡ code (rows_status channels (length cells.old) width height stride y z) }
    ensures writes { Writes result (channels * width) height stride cells.old cells.new 0 0
        (rows_swapped y z (grid_of (layout cells.old (channels * width) height stride))) }
{
    let claimed = ClaimedShape::new(width, height, stride).of_pixels(channels);
    flips::swap_rows(cells, claimed, y, z).code()
}

/// Writes to `equal` whether two images have the same size and equal pixels at every place.
#[unsafe(no_mangle)]
pub extern "C" fn imgref_u16_equal(
    cells: &[u16],
    width: usize,
    height: usize,
    stride: usize,
    other: &[u16],
    other_width: usize,
    other_height: usize,
    other_stride: usize,
    equal: &mut bool,
) -> u32
    ensures status { result ≡ code (pair_status (length cells.now) width height stride
        (length other.now) other_width other_height other_stride) }
    ensures gives { Gives result equal.old equal.new
        (IsTrue equal.new ↔ Agree ◌==◌ (grid_of (layout cells.now width height stride))
        (grid_of (layout other.now other_width other_height other_stride))) }
{
    let claimed = ClaimedShape::new(width, height, stride);
    let claimed_other = ClaimedShape::new(other_width, other_height, other_stride);
    pairs::equal_images(cells, claimed, other, claimed_other, equal).code()
}

/// The rows are joined at the front of the cells; the cells after them stay.
#[unsafe(no_mangle)]
pub extern "C" fn imgref_u16_pack(
    cells: &mut [u16],
    width: usize,
    height: usize,
    stride: usize,
) -> u32
    ensures status { result ≡ code (image_status (length cells.old) width height stride) }
    ensures packs { Packs result (layout cells.old width height stride) cells.new }
{
    let claimed = ClaimedShape::new(width, height, stride);
    packing::pack(cells, claimed).code()
}

/// The pixel in column `x` of row `y` becomes `value`, and so does each that is connected with it. A path
/// leads there over sides, and over places that show the same pixel. The work buffer `room` has a number
/// for each place.
#[unsafe(no_mangle)]
pub extern "C" fn imgref_u16_flood_fill(
    cells: &mut [u16],
    width: usize,
    height: usize,
    stride: usize,
    x: usize,
    y: usize,
    value: u16,
    room: &mut [usize],
) -> u32
    ensures status { result
        ≡ code (flood_status (length cells.old) width height stride x y (length room.old)) }
    ensures fills { Fills result (layout cells.old width height stride)
        (layout cells.new width height stride) x y value }
    ensures room { 0 < result → room.new ≡ room.old }
{
    let claimed = ClaimedShape::new(width, height, stride);
    regions::flood_fill(cells, claimed, (x, y), value, room).code()
}

/// Each of `labels` becomes the label of its component: 1, 2 and so on up to the number of these, which
/// goes to `count`. They are an image of the size of `cells`, at a stride of their own. Two places have
/// one label exactly if they are connected: over sides, and over places that show the same pixel. The
/// work buffer `room` has a number for each place.
#[unsafe(no_mangle)]
pub extern "C" fn imgref_u16_components(
    cells: &[u16],
    width: usize,
    height: usize,
    stride: usize,
    labels: &mut [u64],
    labels_stride: usize,
    room: &mut [usize],
    count: &mut u64,
) -> u32
    ensures status { result ≡ code (labels_status (length cells.now) width height stride
        (length labels.old) labels_stride (length room.old)) }
    ensures labels { Labels result (layout cells.now width height stride)
        (layout labels.old width height labels_stride)
        (layout labels.new width height labels_stride) count.old count.new }
    ensures room { 0 < result → room.new ≡ room.old }
{
    let claimed = ClaimedShape::new(width, height, stride);
    let claimed_labels = ClaimedShape::new(width, height, labels_stride);
    regions::components(cells, claimed, labels, claimed_labels, room, count).code()
}

/// Writes to `around` the least window that has every place with a value. Where no place has it, that
/// is the window of no pixel at the corner.
#[unsafe(no_mangle)]
pub extern "C" fn imgref_u16_bounding_box(
    cells: &[u16],
    width: usize,
    height: usize,
    stride: usize,
    value: u16,
    around: &mut Window,
) -> u32
    ensures status { result ≡ code (image_status (length cells.now) width height stride) }
    ensures gives { Gives result around.old around.new
        (IsBox (grid_of (layout cells.now width height stride)) value (as_window around.new)) }
{
    let claimed = ClaimedShape::new(width, height, stride);
    regions::box_around(cells, claimed, value, around).code()
}
