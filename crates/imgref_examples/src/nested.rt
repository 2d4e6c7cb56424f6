//! The greatest pixel of a window of a window.

ghost use Rattle.std.specs.Prelude.{◌≡◌, max};
ghost use Rattle.std.specs.List.{reduce};
ghost use Rattle.imgref.specs.Words.{Fits, IsInside, grid_pixels, window_view, as_window, width_of, height_of, ref_grid, ref_layout};

use imgref::{ImgRef, Window};

/// The greatest pixel of the window `inner` of the window `outer`, or `None` where it has no pixel.
pub fn greatest_in(image: ImgRef<'_, u8>, outer: Window, inner: Window) -> Option<u8>
    requires fits { Fits (ref_layout image) }
    requires outer_inside { IsInside (width_of image) (height_of image) (as_window outer) }
    requires inner_inside { IsInside outer.width outer.height (as_window inner) }
    ensures { result ≡ reduce max (grid_pixels
        (window_view (window_view (ref_grid image.entry) (as_window outer)) (as_window inner))) }
{
    let part = image.window(outer).window(inner);
    part.pixels().max()
}
