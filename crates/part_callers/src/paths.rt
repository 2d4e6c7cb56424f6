//! Writes through a path of nested windows, by `into_window_at`.

ghost use Rattle.std.specs.Prelude.{◌≡◌, ◌+◌, ◌<◌, None};
ghost use Rattle.std.specs.Borrow.{sem, follows, Array};
ghost use Rattle.image_model.specs.Layout.{Fits, SameOutside};
ghost use Rattle.image_model.specs.Grid.{patch, uniform};
ghost use Rattle.image_model.specs.Windows.{first_outside, corner_left, corner_top, path_width, path_height};
ghost use Rattle.imgref.specs.Shape.{shape_width, shape_height, shaped_grid, shaped};
ghost use Rattle.imgref.specs.Window.{as_path};
ghost use Rattle.imgref.specs.Image.{width_of, height_of, grid_by, layout_by};
ghost use Rattle.imgref.specs.contracts.img.Img.{the_row};
ghost use Rattle.part_callers.specs.Paths.{with_path, IsNested};

use crate::fills::fill;
use imgref::{AsMutSlice, Img, Shape, Window};
use imgref_examples::put_pixel;
use imgref_replay::into_window_at;

// The window that a path comes to, as its cells and its shape.
fn parts_at<'a, C: AsMutSlice>(image: &'a mut Img<C>, path: &[Window]) -> (&'a mut [C::Item], Shape)
    requires fits { Fits (layout_by C.cells image.old) }
    requires inside { first_outside (width_of image.old) (height_of image.old) (as_path path.now)
        ≡ None }
    ensures* hands_on { sem 𝓛 (follows (the_row C.row) (Array C.Item.row 0) image.entry.ghost_name
        result.0.ghost_name (with_path C.cells C.with_cells image.old (as_path path.now))) }
    ensures window { IsNested C.cells C.with_cells image.old (as_path path.now)
        (shaped result.0.now result.1) }
{
    match into_window_at(image.as_mut(), path) {
        Ok(window) => window.into_parts(),
        Err(_) => (&mut [], Shape::new(0, 0, 1)),
    }
}

/// Writes the pixel in a column and a row of the window that a path leads to; every other cell of
/// the image stays.
///
/// # Requires
///
/// The image fits (`is_valid`), each window of the path is inside the one before (`window_at` tests
/// it), and the place is in the last one.
pub fn put_through_path<'a, C: AsMutSlice>(
    image: &'a mut Img<C>,
    path: &[Window],
    place: (usize, usize),
    value: C::Item,
)
where
    C::Item: Copy + 'a,
    requires fits { Fits (layout_by C.cells image.old) }
    requires inside { first_outside (width_of image.old) (height_of image.old) (as_path path.now)
        ≡ None }
    requires column { place.0 < path_width (width_of image.old) (as_path path.now) }
    requires row { place.1 < path_height (height_of image.old) (as_path path.now) }
    ensures grid { grid_by C.cells image.new
        ≡ patch (grid_by C.cells image.old) (corner_left (as_path path.now) + place.0)
        (corner_top (as_path path.now) + place.1) (uniform 1 1 value) }
    ensures outside { SameOutside (layout_by C.cells image.old) (layout_by C.cells image.new) }
{
    let (cells, shape) = parts_at(image, path);
    put_pixel(cells, shape, place.0, place.1, value);
}

/// Every pixel of the window that a path leads to becomes `value`, through the cursor of
/// `pixels_mut`; every other cell of the image stays.
///
/// # Requires
///
/// The image fits (`is_valid`), and each window of the path is inside the one before (`window_at`
/// tests it).
pub fn fill_through_path<'a, C: AsMutSlice>(image: &'a mut Img<C>, path: &[Window], value: C::Item)
where
    C::Item: Copy + 'a,
    requires fits { Fits (layout_by C.cells image.old) }
    requires inside { first_outside (width_of image.old) (height_of image.old) (as_path path.now)
        ≡ None }
    ensures grid { grid_by C.cells image.new ≡ patch (grid_by C.cells image.old)
        (corner_left (as_path path.now)) (corner_top (as_path path.now))
        (uniform (path_width (width_of image.old) (as_path path.now))
        (path_height (height_of image.old) (as_path path.now)) value) }
    ensures outside { SameOutside (layout_by C.cells image.old) (layout_by C.cells image.new) }
{
    let (cells, shape) = parts_at(image, path);
    fill(cells, shape, value);
}
