//! A frame along the inner edge of a window.

ghost use Rattle.std.specs.Prelude.{◌≡◌, ◌<◌, ◌+◌, ◌-◌};
ghost use Rattle.imgref.specs.Words.{Fits, SameOutside, IsInside, patch, uniform, as_window, width_of, height_of, vec_grid, vec_layout};

use imgref::{ImgVec, Window};

/// Writes `value` along the inner edge of a window, one pixel wide: the upper and the lower line,
/// then the left and the right one.
pub fn draw_border(image: &mut ImgVec<u8>, w: Window, value: u8)
    requires fits { Fits (vec_layout image.old) }
    requires inside { IsInside (width_of image.old) (height_of image.old) (as_window w) }
    requires width_positive { 0 < w.width }
    requires height_positive { 0 < w.height }
    ensures grid { vec_grid image.new ≡ patch (patch (patch (patch (vec_grid image.old)
        w.left w.top (uniform w.width 1 value))
        w.left (w.top + w.height - 1) (uniform w.width 1 value))
        w.left w.top (uniform 1 w.height value))
        (w.left + w.width - 1) w.top (uniform 1 w.height value) }
    ensures outside { SameOutside (vec_layout image.old) (vec_layout image.new) }
{
    image.fill_window(w.left, w.top, w.width, 1, value);
    image.fill_window(w.left, w.top + w.height - 1, w.width, 1, value);
    image.fill_window(w.left, w.top, 1, w.height, value);
    image.fill_window(w.left + w.width - 1, w.top, 1, w.height, value);
}
