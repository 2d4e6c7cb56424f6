//! The part of the cells in which a window is, to be read or written.

ghost use Rattle.std.specs.Prelude.{◌≡◌, ◌≤◌, length};
ghost use Rattle.image_model.specs.Layout.{Fits, Reaches};
ghost use Rattle.image_model.specs.Grid.{grid_of};
ghost use Rattle.image_model.specs.Windows.{window_view, IsInside, IsWithin, padded_stretch, padded_window, stretch_cells};
ghost use Rattle.image_shape.specs.Shape.{shape_width, shape_height, shape_stride, shaped_grid, shaped};
ghost use Rattle.image_shape.specs.Window.{as_window, as_stretch};
ghost use Rattle.image_writes.specs.Part.{IsPart};

use image_shape::{Shape, Stretch, Window};
use std::ops::Range;

/// The cells and the shape of a window, with whole strides where the cells have them. `cells` fits
/// `shape`, and the window is inside it.
pub fn padded_part<T>(cells: &[T], shape: Shape, window: Window) -> (&[T], Shape)
    requires fits { Fits (shaped cells.now shape) }
    requires inside { IsInside (shape_width shape) (shape_height shape) (as_window window) }
    ensures layout { shaped result.0.now result.1
        ≡ padded_window (shaped cells.now shape) (as_window window) }
    ensures fits { Fits (shaped result.0.now result.1) }
    ensures view { shaped_grid result.0.now result.1
        ≡ window_view (shaped_grid cells.now shape) (as_window window) }
{
    let part = shape.stretch(true, cells.len(), window);
    (&cells[part.range()], shape.window(window))
}

/// The same cells, and the stretch and the shape of a window of them, with whole strides where the
/// cells have them. The cells fit the shape, and the window is inside it.
pub fn padded_stretch_mut<T>(
    cells: &mut [T],
    shape: Shape,
    window: Window,
) -> (&mut [T], Stretch, Shape)
    requires fits { Fits (shaped cells.old shape) }
    requires inside { IsInside (shape_width shape) (shape_height shape) (as_window window) }
    ensures cells { result.0 ≡ cells.entry }
    ensures room { IsWithin (length cells.old) (as_stretch result.1) }
    ensures stretch { as_stretch result.1
        ≡ padded_stretch (length cells.old) (shape_stride shape) (as_window window) }
    ensures layout { shaped (stretch_cells cells.old (as_stretch result.1)) result.2
        ≡ padded_window (shaped cells.old shape) (as_window window) }
    ensures fits { Fits (padded_window (shaped cells.old shape) (as_window window)) }
    ensures view { grid_of (padded_window (shaped cells.old shape) (as_window window))
        ≡ window_view (shaped_grid cells.old shape) (as_window window) }
{
    let stretch = shape.stretch(true, cells.len(), window);
    (cells, stretch, shape.window(window))
}

/// The numbers of the window's cells, of `count` cells that fit the shape, and the window's shape. The
/// window is inside the shape.
pub fn exact_part(count: usize, shape: Shape, window: Window) -> (Range<usize>, Shape)
    requires fits { Reaches count (shape_width shape) (shape_height shape) (shape_stride shape) }
    requires inside { IsInside (shape_width shape) (shape_height shape) (as_window window) }
    ensures part { IsPart count shape result.1 (as_window window) result.0.start result.0.end }
    ensures order { result.0.start ≤ result.0.end }
    ensures within { result.0.end ≤ count }
{
    let part = shape.stretch(false, count, window);
    (part.range(), shape.window(window))
}
