//! Copies and moves of pixels: between images, within one image, and in a list of images.

ghost use Rattle.std.specs.Prelude.{◌≡◌, ◌-◌, ◌<◌, ◌≤◌};
ghost use Rattle.image_model.specs.Layout.{Fits, SameOutside};
ghost use Rattle.image_model.specs.Grid.{view, patch, uniform};
ghost use Rattle.image_model.specs.Windows.{IsInside, window, window_view};
ghost use Rattle.imgref.specs.Shape.{shape_width, shape_height, shaped_grid, shaped};
ghost use Rattle.imgref.specs.Window.{as_window};
ghost use Rattle.imgref.specs.Image.{width_of, height_of, vec_grid, vec_layout, ref_grid, ref_layout};

use imgref::{ImgRef, ImgRefMut, ImgVec, Shape, Window};

/// The image becomes a copy of another one, except for the pixel at column `x` of row `y`.
pub fn copy_but_one<T: Copy>(
    image: &mut ImgVec<T>,
    source: ImgRef<'_, T>,
    x: usize,
    y: usize,
    value: T,
)
    requires fits { Fits (vec_layout image.old) }
    requires source_fits { Fits (ref_layout source) }
    requires same_width { width_of source ≡ width_of image.old }
    requires same_height { height_of source ≡ height_of image.old }
    requires column { x < width_of source }
    requires row { y < height_of source }
    ensures grid { vec_grid image.new ≡ patch (ref_grid source.entry) x y (uniform 1 1 value) }
    ensures outside { SameOutside (vec_layout image.old) (vec_layout image.new) }
{
    image.copy_from(source);
    image.put(x, y, value);
}

/// Each row except the first moves up by one; the last row also stays where it is.
pub fn scroll_up<T: Copy>(image: &mut ImgVec<T>)
    requires fits { Fits (vec_layout image.old) }
    requires height_positive { 1 ≤ height_of image.old }
    ensures grid { vec_grid image.new ≡ patch (vec_grid image.old) 0 0
        (view (vec_grid image.old) 0 1 (width_of image.old) (height_of image.old - 1)) }
    ensures outside { SameOutside (vec_layout image.old) (vec_layout image.new) }
{
    let width = image.width();
    let height = image.height();
    image.move_window(0, 1, 0, 0, width, height - 1);
}

/// The pixels of these cells in this shape become those of another image.
pub fn copy_over_cells<T: Copy>(cells: &mut [T], shape: Shape, source: ImgRef<'_, T>)
    requires fits { Fits (shaped cells.old shape) }
    requires source_fits { Fits (ref_layout source) }
    requires same_width { width_of source ≡ shape_width shape }
    requires same_height { height_of source ≡ shape_height shape }
    ensures grid { shaped_grid cells.new shape ≡ ref_grid source.entry }
    ensures outside { SameOutside (shaped cells.old shape) (shaped cells.new shape) }
{
    let mut image = ImgRefMut::from_parts(cells, shape);
    image.copy_from(source);
}

/// A window of one image gets the pixels of a window of another one, of the same size.
pub fn copy_across<T: Copy>(
    image: &mut ImgVec<T>,
    left: usize,
    top: usize,
    source: &ImgVec<T>,
    from: Window,
)
    requires fits { Fits (vec_layout image.old) }
    requires source_fits { Fits (vec_layout source.now) }
    requires from_inside { IsInside (width_of source.now) (height_of source.now) (as_window from) }
    requires inside { IsInside (width_of image.old) (height_of image.old)
        (window left top from.width from.height) }
    ensures grid { vec_grid image.new
        ≡ patch (vec_grid image.old) left top (window_view (vec_grid source.now) (as_window from)) }
    ensures outside { SameOutside (vec_layout image.old) (vec_layout image.new) }
{
    let seen = source.window(from);
    image.copy_window(left, top, seen);
}
