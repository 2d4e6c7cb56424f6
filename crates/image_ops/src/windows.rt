//! Windows of cells in a shape that are filled, copied to, or made a mosaic.

ghost use Rattle.std.specs.Prelude.{◌≡◌, ◌<◌, ◌≤◌, length};
ghost use Rattle.image_model.specs.Layout.{Fits, Reaches, SameOutside};
ghost use Rattle.image_model.specs.Grid.{grid_of, patch, uniform};
ghost use Rattle.image_model.specs.Windows.{window_view, IsInside, IsWithin, padded_stretch, padded_window, stretch_cells};
ghost use Rattle.image_shape.specs.Shape.{shape_width, shape_height, shape_stride, shaped_grid, shaped};
ghost use Rattle.image_shape.specs.Window.{as_window, as_stretch};
ghost use Rattle.image_writes.specs.Mosaic.{mosaic, mosaic_by};
ghost use Rattle.image_ops.specs.Repeated.{repeated};

use crate::copy::copy_pixels;
use crate::fill::fill_pixels;
use crate::mosaic::mosaic_cells;
use crate::repeating::repeat_pixels;
use image_shape::{Shape, Window};
use image_writes::exact_part;

// The calls below are not inlined. The tests of a call for C hold so many numbers that the
// loop over the rows would have no register left: at rows of 64 bytes it took a third longer.

/// Every pixel of the window becomes `value`; every other cell stays. The cells fit the shape, and
/// the window is inside it.
#[inline(never)]
pub fn fill_window<T: Copy>(cells: &mut [T], shape: Shape, window: Window, value: T)
    requires fits { Fits (shaped cells.old shape) }
    requires inside { IsInside (shape_width shape) (shape_height shape) (as_window window) }
    ensures grid { shaped_grid cells.new shape ≡ patch (shaped_grid cells.old shape)
        window.left window.top (uniform window.width window.height value) }
    ensures outside { SameOutside (shaped cells.old shape) (shaped cells.new shape) }
{
    let (part, inner) = exact_part(cells.len(), shape, window);
    fill_pixels(&mut cells[part], inner, value);
}

/// The window gets the pixels of `source`, which has its size; every other cell stays. Both fit
/// their shapes, and the window is inside `shape`.
#[inline(never)]
pub fn copy_window<T: Copy>(
    cells: &mut [T],
    shape: Shape,
    window: Window,
    source: &[T],
    source_shape: Shape,
)
    requires fits { Fits (shaped cells.old shape) }
    requires inside { IsInside (shape_width shape) (shape_height shape) (as_window window) }
    requires source_fits { Fits (shaped source.now source_shape) }
    requires same_width { window.width ≡ shape_width source_shape }
    requires same_height { window.height ≡ shape_height source_shape }
    ensures grid { shaped_grid cells.new shape ≡ patch (shaped_grid cells.old shape)
        window.left window.top (shaped_grid source.now source_shape) }
    ensures outside { SameOutside (shaped cells.old shape) (shaped cells.new shape) }
{
    let (part, inner) = exact_part(cells.len(), shape, window);
    copy_pixels(&mut cells[part], inner, source, source_shape);
}

/// Writes, at every place of the window, the old pixel at the corner of the place's tile; every
/// other cell stays. Tiles are counted from the window's corner. The cells fit the shape, the
/// window is inside it, and a tile has columns and rows.
#[inline(never)]
pub fn mosaic_window<T: Copy>(
    cells: &mut [T],
    shape: Shape,
    window: Window,
    tile_width: usize,
    tile_height: usize,
)
    requires fits { Fits (shaped cells.old shape) }
    requires inside { IsInside (shape_width shape) (shape_height shape) (as_window window) }
    requires tile_width { 0 < tile_width }
    requires tile_height { 0 < tile_height }
    ensures grid { shaped_grid cells.new shape
        ≡ patch (shaped_grid cells.old shape) window.left window.top (mosaic tile_width tile_height
        (window_view (shaped_grid cells.old shape) (as_window window))) }
    ensures outside { SameOutside (shaped cells.old shape) (shaped cells.new shape) }
{
    let (part, inner) = exact_part(cells.len(), shape, window);
    mosaic_cells(&mut cells[part], inner, 1, tile_width, tile_height);
}

/// Every row of the window becomes the pattern, again and again; every other cell stays. So a
/// window of pixels of several cells, next to one another, is filled with one pixel. The cells fit
/// the shape, the window is inside it, and the pattern has a cell.
#[inline(never)]
pub fn repeat_window<T: Copy>(cells: &mut [T], shape: Shape, window: Window, pattern: &[T])
    requires fits { Fits (shaped cells.old shape) }
    requires inside { IsInside (shape_width shape) (shape_height shape) (as_window window) }
    requires some { 0 < length pattern.now }
    ensures grid { shaped_grid cells.new shape ≡ patch (shaped_grid cells.old shape)
        window.left window.top (repeated window.width window.height pattern.now) }
    ensures outside { SameOutside (shaped cells.old shape) (shaped cells.new shape) }
{
    if pattern.len() == 1 {
        fill_window(cells, shape, window, pattern[0]);
        return;
    }
    let (part, inner) = exact_part(cells.len(), shape, window);
    repeat_pixels(&mut cells[part], inner, pattern);
}

/// The same as `mosaic_window` for pixels of `size` cells, next to one another in a row. The window
/// is one of cells, and a tile has so many pixels. The cells fit the shape, the window is inside
/// it, a pixel has cells, and a tile has columns and rows.
#[inline(never)]
pub fn mosaic_window_by<T: Copy>(
    cells: &mut [T],
    shape: Shape,
    window: Window,
    size: usize,
    tile_width: usize,
    tile_height: usize,
)
    requires fits { Fits (shaped cells.old shape) }
    requires inside { IsInside (shape_width shape) (shape_height shape) (as_window window) }
    requires size { 0 < size }
    requires tile_width { 0 < tile_width }
    requires tile_height { 0 < tile_height }
    ensures grid { shaped_grid cells.new shape
        ≡ patch (shaped_grid cells.old shape) window.left window.top
        (mosaic_by size tile_width tile_height
        (window_view (shaped_grid cells.old shape) (as_window window))) }
    ensures outside { SameOutside (shaped cells.old shape) (shaped cells.new shape) }
{
    let (part, inner) = exact_part(cells.len(), shape, window);
    mosaic_cells(&mut cells[part], inner, size, tile_width, tile_height);
}
