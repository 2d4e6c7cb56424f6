//! Tiles filled with the pixel at their corner: by windows of the image, and each lent by itself.

ghost use Rattle.std.specs.Prelude.{◌≡◌, ◌<◌, ◌≤◌, IfSome, None};
ghost use Rattle.imgref.specs.Words.{Fits, SameOutside, IsInside, patch, uniform, as_window, width_of, height_of, vec_grid, vec_layout};
ghost use Rattle.imgref.specs.Shape.{shape_width, shape_height, shaped_grid, shaped};
ghost use Rattle.imgref_examples.specs.Darkened.{all_darkened, corner_of};

use image_tiles::Tiling;
use imgref::{ImgRefMut, ImgVec, Shape, Window};

// The pixel at the corner of a window, where it is below 128.
fn dark_corner(image: &ImgVec<u8>, window: Window) -> Option<u8>
    requires { Fits (vec_layout image.now) }
    ensures corner { IfSome result (λ corner.
        corner ≡ corner_of (vec_grid image.now) (as_window window)) }
    ensures dark { IfSome result (λ corner. corner < 128) }
    ensures other { result ≡ None → 128 ≤ corner_of (vec_grid image.now) (as_window window) }
{
    match image.get(window.left, window.top) {
        Some(corner) if corner < 128 => Some(corner),
        _ => None,
    }
}

/// Fills each tile of 8 by 8 with the pixel at its corner where that is below 128. It takes the
/// tiles one after the other, by the numbers of their windows.
#[tactic(auto, using(image_model::proofs::Tiles::all_inside), unfolding(crate::specs::Darkened::darkened))]
pub fn darken_tiles(image: &mut ImgVec<u8>)
    requires { Fits (vec_layout image.old) }
    ensures grid { vec_grid image.new ≡ all_darkened (vec_layout image.old) }
    ensures outside { SameOutside (vec_layout image.old) (vec_layout image.new) }
{
    for window in Tiling::new(image.width(), image.height(), 8, 8) {
        if let Some(corner) = dark_corner(image, window) {
            image.fill_inside(window, corner);
        }
    }
}

// Every pixel of the image that these cells are becomes that of a corner.
fn fill_tile(cells: &mut [u8], shape: Shape, corner: u8)
    requires fits { Fits (shaped cells.old shape) }
    ensures grid { shaped_grid cells.new shape
        ≡ uniform (shape_width shape) (shape_height shape) corner }
    ensures outside { SameOutside (shaped cells.old shape) (shaped cells.new shape) }
{
    let mut tile = ImgRefMut::from_parts(cells, shape);
    tile.fill(corner);
}

// The same where they are a window, which is lent for writing.
fn fill_lent(image: &mut ImgVec<u8>, window: Window, corner: u8)
    requires fits { Fits (vec_layout image.old) }
    requires inside { IsInside (width_of image.old) (height_of image.old) (as_window window) }
    ensures grid { vec_grid image.new ≡ patch (vec_grid image.old) window.left window.top
        (uniform window.width window.height corner) }
    ensures outside { SameOutside (vec_layout image.old) (vec_layout image.new) }
    ensures fits { Fits (vec_layout image.new) }
{
    let (cells, shape) = image.window_parts_mut(window);
    fill_tile(cells, shape, corner);
}

/// The same, where each tile is lent for writing and is then an image of its own.
#[tactic(auto, using(image_model::proofs::Tiles::all_inside), unfolding(crate::specs::Darkened::darkened))]
pub fn darken_lent_tiles(image: &mut ImgVec<u8>)
    requires { Fits (vec_layout image.old) }
    ensures grid { vec_grid image.new ≡ all_darkened (vec_layout image.old) }
    ensures outside { SameOutside (vec_layout image.old) (vec_layout image.new) }
{
    let (width, height) = (image.width(), image.height());
    for window in Tiling::new(width, height, 8, 8) {
        if let Some(corner) = dark_corner(image, window) {
            fill_lent(image, window, corner);
        }
    }
}
