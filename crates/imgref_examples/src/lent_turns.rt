//! A loop over places that writes lent pixels: an image turned into a window of another one.

ghost use Rattle.std.specs.Prelude.{◌≡◌};
ghost use Rattle.imgref.specs.Words.{Fits, SameOutside, SameBorrow, IsInside, as_window, grid_of, patch, table, shaped, shape_width, shape_height, width_of, height_of, ref_grid, ref_layout, mut_grid, mut_layout, grid_by, layout_by};
ghost use Rattle.imgref_examples.specs.Scenes.{turned_pixel};

use imgref::{AsMutSlice, Img, ImgRef, ImgRefMut, Shape, Window};

/// Turns an image clockwise into lent pixels.
#[tactic(auto, using(image_model::proofs::Laws::loops))]
pub fn turn_lent<T: Copy>(src: ImgRef<'_, T>, dst: &mut ImgRefMut<'_, T>)
    requires src_fits { Fits (ref_layout src) }
    requires dst_fits { Fits (mut_layout dst.old) }
    requires width { width_of dst.old ≡ height_of src }
    requires height { height_of dst.old ≡ width_of src }
    ensures grid { mut_grid dst.new ≡ table (height_of src.entry) (width_of src.entry)
        (turned_pixel (height_of src.entry) (ref_grid src.entry)) }
    ensures outside { SameOutside (mut_layout dst.old) (mut_layout dst.new) }
    ensures same_borrow { SameBorrow dst.old dst.new }
{
    for y in 0..src.width() {
        for x in 0..src.height() {
            dst.put(x, y, src[(y, src.height() - 1 - x)]);
        }
    }
}

// The same into cells in a shape.
fn turn_cells<T: Copy>(src: ImgRef<'_, T>, cells: &mut [T], shape: Shape)
    requires src_fits { Fits (ref_layout src) }
    requires dst_fits { Fits (shaped cells.old shape) }
    requires width { shape_width shape ≡ height_of src }
    requires height { shape_height shape ≡ width_of src }
    ensures grid { grid_of (shaped cells.new shape)
        ≡ table (height_of src.entry) (width_of src.entry)
        (turned_pixel (height_of src.entry) (ref_grid src.entry)) }
    ensures outside { SameOutside (shaped cells.old shape) (shaped cells.new shape) }
{
    let mut dst = ImgRefMut::from_parts(cells, shape);
    turn_lent(src, &mut dst);
}

/// The same into a window of an image, in any container.
pub fn turn_into_window<T: Copy, C: AsMutSlice<Item = T>>(
    src: ImgRef<'_, T>,
    image: &mut Img<C>,
    window: Window,
)
    requires src_fits { Fits (ref_layout src) }
    requires fits { Fits (layout_by C.cells image.old) }
    requires inside { IsInside (width_of image.old) (height_of image.old) (as_window window) }
    requires width { window.width ≡ height_of src }
    requires height { window.height ≡ width_of src }
    ensures grid { grid_by C.cells image.new
        ≡ patch (grid_by C.cells image.old) window.left window.top
        (table (height_of src.entry) (width_of src.entry)
        (turned_pixel (height_of src.entry) (ref_grid src.entry))) }
    ensures outside { SameOutside (layout_by C.cells image.old) (layout_by C.cells image.new) }
{
    let (cells, shape) = image.window_parts_mut(window);
    turn_cells(src, cells, shape);
}
