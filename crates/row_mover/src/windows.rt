//! Moves of the pixels of a window to another window of the same cells.

ghost use Rattle.std.specs.Prelude.{◌≡◌};
ghost use Rattle.image_model.specs.Layout.{Fits, SameOutside};
ghost use Rattle.image_model.specs.Grid.{patch};
ghost use Rattle.image_model.specs.Windows.{IsInside, window_view};
ghost use Rattle.image_shape.specs.Shape.{shape_width, shape_height, shaped_grid, shaped};
ghost use Rattle.image_shape.specs.Window.{as_window};
ghost use Rattle.image_writes.specs.Written.{Becomes};

use crate::RowMover;
use image_shape::{Shape, Window};

// The cells with the pixels of one window moved to another of its size. They are handed back whole,
// so that what is done to them is known where they were lent.
fn with_moved_window<T: Copy>(
    cells: &mut [T],
    shape: Shape,
    source: Window,
    target: Window,
) -> &mut [T]
    requires fits { Fits (shaped cells.old shape) }
    requires source_inside { IsInside (shape_width shape) (shape_height shape) (as_window source) }
    requires target_inside { IsInside (shape_width shape) (shape_height shape) (as_window target) }
    requires same_width { source.width ≡ target.width }
    requires same_height { source.height ≡ target.height }
    ensures same { result.ghost_name ≡ cells.entry.ghost_name }
    ensures moved { Becomes shape cells.old result.now (patch (shaped_grid cells.old shape)
        target.left target.top (window_view (shaped_grid cells.old shape) (as_window source))) }
{
    let from = shape.stretch(false, cells.len(), source).start;
    let to = shape.stretch(false, cells.len(), target).start;
    let _height = shape.height();
    let mut mover = RowMover::new(cells);
    mover.move_rows(shape.stride(), from, to, target.width, target.height);
    mover.into_cells()
}

/// Moves the pixels of one window to another of its size; the two may overlap, and every other cell
/// stays. The cells fit the shape, and both windows are inside it.
pub fn move_pixels<T: Copy>(cells: &mut [T], shape: Shape, source: Window, target: Window)
    requires fits { Fits (shaped cells.old shape) }
    requires source_inside { IsInside (shape_width shape) (shape_height shape) (as_window source) }
    requires target_inside { IsInside (shape_width shape) (shape_height shape) (as_window target) }
    requires same_width { source.width ≡ target.width }
    requires same_height { source.height ≡ target.height }
    ensures grid { shaped_grid cells.new shape ≡ patch (shaped_grid cells.old shape)
        target.left target.top (window_view (shaped_grid cells.old shape) (as_window source)) }
    ensures outside { SameOutside (shaped cells.old shape) (shaped cells.new shape) }
{
    with_moved_window(cells, shape, source, target);
}
