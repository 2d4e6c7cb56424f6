//! A sprite with a mask over an image.

ghost use Rattle.std.specs.Prelude.{◌≡◌};
ghost use Rattle.imgref.specs.Words.{Fits, IsInside, SameOutside, grid_by, grid_of, height_of, layout_by, mapped_places, patch, ref_grid, ref_layout, shape_height, shape_width, shaped, shown, width_of, window, window_view};
ghost use Rattle.imgref_examples.specs.Scenes.{mix_of};

use crate::scaling::at;
use crate::scenes::mix;
use imgref::{AsMutSlice, Img, ImgRef, ImgRefMut, Shape, Window};

// Lays a sprite over cells in a shape of its size.
fn blend_cells(cells: &mut [u8], shape: Shape, sprite: ImgRef<'_, u8>, mask: ImgRef<'_, u8>)
    requires fits { Fits (shaped cells.old shape) }
    requires sprite_fits { Fits (ref_layout sprite) }
    requires mask_fits { Fits (ref_layout mask) }
    ensures grid { grid_of (shaped cells.new shape)
        ≡ mapped_places (λ x y p. mix_of (shown (ref_grid mask.entry) x y) p
        (shown (ref_grid sprite.entry) x y)) (grid_of (shaped cells.old shape)) }
    ensures outside { SameOutside (shaped cells.old shape) (shaped cells.new shape) }
{
    let mut target = ImgRefMut::from_parts(cells, shape);
    target.map_places(|x, y, p| mix(at(mask, x, y), p, at(sprite, x, y)));
}

/// Lays a sprite over the window of an image with its corner at column `left` of row `top`. Of each
/// pixel, as many parts of 255 show as the mask has at its place. Everything else stays.
pub fn blend_masked<C: AsMutSlice<Item = u8>>(
    image: &mut Img<C>,
    sprite: ImgRef<'_, u8>,
    mask: ImgRef<'_, u8>,
    left: usize,
    top: usize,
)
    requires fits { Fits (layout_by C.cells image.old) }
    requires sprite_fits { Fits (ref_layout sprite) }
    requires mask_fits { Fits (ref_layout mask) }
    requires mask_width { width_of mask ≡ width_of sprite }
    requires mask_height { height_of mask ≡ height_of sprite }
    requires inside { IsInside (width_of image.old) (height_of image.old)
        (window left top (width_of sprite) (height_of sprite)) }
    ensures grid { grid_by C.cells image.new ≡ patch (grid_by C.cells image.old) left top
        (mapped_places (λ x y p. mix_of (shown (ref_grid mask.entry) x y) p
        (shown (ref_grid sprite.entry) x y)) (window_view (grid_by C.cells image.old)
        (window left top (width_of sprite.entry) (height_of sprite.entry)))) }
    ensures outside { SameOutside (layout_by C.cells image.old) (layout_by C.cells image.new) }
{
    let window = Window::new(left, top, sprite.width(), sprite.height());
    let (cells, shape) = image.window_parts_mut(window);
    blend_cells(cells, shape, sprite, mask);
}
