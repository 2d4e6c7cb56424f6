//! Writes through nested windows: each changes only the image's pixel at the sum of the windows'
//! corners and the place.

ghost use Rattle.std.specs.Prelude.{◌≡◌, ◌+◌, ◌<◌};
ghost use Rattle.image_model.specs.Layout.{Fits, SameOutside};
ghost use Rattle.image_model.specs.Grid.{patch, uniform};
ghost use Rattle.image_model.specs.Windows.{IsInside};
ghost use Rattle.imgref.specs.Shape.{shape_width, shape_height, shaped_grid, shaped};
ghost use Rattle.imgref.specs.Window.{as_window};
ghost use Rattle.imgref.specs.Image.{width_of, height_of, grid_by, layout_by, OnlyCellsChange};

use imgref::{AsMutSlice, Img, ImgRefMut, Shape, Window};

/// Writes one pixel of the image that these cells make. They must fit; `Shape::fits` tests it.
pub fn put_pixel<T: Copy>(cells: &mut [T], shape: Shape, x: usize, y: usize, value: T)
    requires fits { Fits (shaped cells.old shape) }
    requires column { x < shape_width shape }
    requires row { y < shape_height shape }
    ensures grid { shaped_grid cells.new shape
        ≡ patch (shaped_grid cells.old shape) x y (uniform 1 1 value) }
    ensures outside { SameOutside (shaped cells.old shape) (shaped cells.new shape) }
{
    let mut image = ImgRefMut::from_parts(cells, shape);
    image[(x, y)] = value;
}

/// Writes one pixel of a window of the image that these cells make.
#[tactic(auto, using(image_model::proofs::Patches::fill_in_view))]
fn put_inside<T: Copy>(cells: &mut [T], shape: Shape, window: Window, x: usize, y: usize, value: T)
    requires fits { Fits (shaped cells.old shape) }
    requires inside { IsInside (shape_width shape) (shape_height shape) (as_window window) }
    requires column { x < window.width }
    requires row { y < window.height }
    ensures grid { shaped_grid cells.new shape ≡ patch (shaped_grid cells.old shape)
        (window.left + x) (window.top + y) (uniform 1 1 value) }
    ensures outside { SameOutside (shaped cells.old shape) (shaped cells.new shape) }
{
    let mut image = ImgRefMut::from_parts(cells, shape);
    let (inner, shape) = image.window_parts_mut(window);
    put_pixel(inner, shape, x, y, value);
}

/// A pixel of a window of a window: its column and row in the second one, which is inside the
/// first.
#[derive(Clone, Copy)]
pub struct NestedPlace {
    /// The window of the image.
    pub first: Window,
    /// The window of that window.
    pub second: Window,
    /// The column.
    pub x: usize,
    /// The row.
    pub y: usize,
}

/// Writes one pixel of a window of a window of an image. The image must fit (`is_valid`).
#[tactic(auto, using(image_model::proofs::Patches::fill_in_view))]
pub fn put_nested<'a, C: AsMutSlice>(image: &'a mut Img<C>, place: NestedPlace, value: C::Item)
where
    C::Item: Copy + 'a,
    requires fits { Fits (layout_by C.cells image.old) }
    requires first_inside { IsInside (width_of image.old) (height_of image.old)
        (as_window place.first) }
    requires second_inside { IsInside place.first.width place.first.height
        (as_window place.second) }
    requires column { place.x < place.second.width }
    requires row { place.y < place.second.height }
    ensures grid { grid_by C.cells image.new
        ≡ patch (grid_by C.cells image.old) (place.first.left + (place.second.left + place.x))
        (place.first.top + (place.second.top + place.y)) (uniform 1 1 value) }
    ensures outside { SameOutside (layout_by C.cells image.old) (layout_by C.cells image.new) }
    ensures container { OnlyCellsChange C.cells C.with_cells image.old image.new }
{
    let (cells, shape) = image.window_parts_mut(place.first);
    put_inside(cells, shape, place.second, place.x, place.y, value);
}

/// The same for the image that these cells make.
pub fn put_in_cells<T: Copy>(cells: &mut [T], shape: Shape, place: NestedPlace, value: T)
    requires fits { Fits (shaped cells.old shape) }
    requires first_inside { IsInside (shape_width shape) (shape_height shape)
        (as_window place.first) }
    requires second_inside { IsInside place.first.width place.first.height
        (as_window place.second) }
    requires column { place.x < place.second.width }
    requires row { place.y < place.second.height }
    ensures grid { shaped_grid cells.new shape
        ≡ patch (shaped_grid cells.old shape) (place.first.left + (place.second.left + place.x))
        (place.first.top + (place.second.top + place.y)) (uniform 1 1 value) }
    ensures outside { SameOutside (shaped cells.old shape) (shaped cells.new shape) }
{
    let mut image = ImgRefMut::from_parts(cells, shape);
    put_nested(&mut image, place, value);
}
