//! The sets of laws with each kind of image: one that owns its pixels, two that borrow them, and one
//! over any container.

ghost use Rattle.std.specs.Prelude.{◌≡◌, ◌<◌, Some};
ghost use Rattle.imgref.specs.Words.{Fits, SameBorrow, SameOutside, flipped, patch, uniform, width_of, height_of, vec_grid, vec_layout, ref_grid, ref_layout, mut_grid, mut_layout, grid_by, layout_by};

use imgref::{AsMutSlice, AsSlice, Img, ImgRef, ImgRefMut, ImgVec};

/// A pixel of an image that owns its pixels.
#[tactic(auto, using(image_model::proofs::Laws::reads))]
pub fn pixel_of_vec(image: &ImgVec<u8>, x: usize, y: usize) -> u8
    requires fits { Fits (vec_layout image.now) }
    requires column { x < width_of image.now }
    requires row { y < height_of image.now }
    ensures { (vec_grid image.now).pixel x y ≡ Some result }
{
    image[(x, y)]
}

/// A pixel of an image of borrowed pixels.
#[tactic(auto, using(image_model::proofs::Laws::reads))]
pub fn pixel_of_ref(image: ImgRef<'_, u8>, x: usize, y: usize) -> u8
    requires fits { Fits (ref_layout image) }
    requires column { x < width_of image }
    requires row { y < height_of image }
    ensures { (ref_grid image.entry).pixel x y ≡ Some result }
{
    image[(x, y)]
}

/// A pixel of an image of pixels that are borrowed for writing, after it was put.
#[tactic(auto, using(image_model::proofs::Laws::reads))]
pub fn put_and_read(image: &mut ImgRefMut<'_, u8>, x: usize, y: usize, value: u8) -> Option<u8>
    requires fits { Fits (mut_layout image.old) }
    requires column { x < width_of image.old }
    requires row { y < height_of image.old }
    ensures value { result ≡ Some value }
    ensures grid { mut_grid image.new ≡ patch (mut_grid image.old) x y (uniform 1 1 value) }
    ensures outside { SameOutside (mut_layout image.old) (mut_layout image.new) }
    ensures same_borrow { SameBorrow image.old image.new }
{
    image.put(x, y, value);
    image.get(x, y)
}

/// A pixel of an image in any container.
#[tactic(auto, using(image_model::proofs::Laws::reads))]
pub fn pixel_of_any<C: AsSlice<Item = u8>>(image: &Img<C>, x: usize, y: usize) -> u8
    requires fits { Fits (layout_by C.cells image.now) }
    requires column { x < width_of image.now }
    requires row { y < height_of image.now }
    ensures { (grid_by C.cells image.now).pixel x y ≡ Some result }
{
    image[(x, y)]
}

/// Writes `value` at each place of the rectangle that is in an image of borrowed pixels.
#[tactic(auto, using(image_model::proofs::Laws::writes))]
pub fn draw_lent(
    image: &mut ImgRefMut<'_, u8>,
    x: usize,
    y: usize,
    width: usize,
    height: usize,
    value: u8,
)
    requires { Fits (mut_layout image.old) }
    ensures grid { mut_grid image.new
        ≡ patch (mut_grid image.old) x y (uniform width height value) }
    ensures outside { SameOutside (mut_layout image.old) (mut_layout image.new) }
    ensures same_borrow { SameBorrow image.old image.new }
{
    if x >= image.width() || y >= image.height() {
        return;
    }
    let columns = width.min(image.width() - x);
    let rows = height.min(image.height() - y);
    image.fill_window(x, y, columns, rows, value);
}

/// The same in an image in any container.
#[tactic(auto, using(image_model::proofs::Laws::writes))]
pub fn draw_any<C: AsMutSlice<Item = u8>>(
    image: &mut Img<C>,
    x: usize,
    y: usize,
    width: usize,
    height: usize,
    value: u8,
)
    requires { Fits (layout_by C.cells image.old) }
    ensures grid { grid_by C.cells image.new
        ≡ patch (grid_by C.cells image.old) x y (uniform width height value) }
    ensures outside { SameOutside (layout_by C.cells image.old) (layout_by C.cells image.new) }
{
    if x >= image.width() || y >= image.height() {
        return;
    }
    let columns = width.min(image.width() - x);
    let rows = height.min(image.height() - y);
    image.fill_window(x, y, columns, rows, value);
}

/// Turns an image in any container upside down.
#[tactic(auto, using(image_model::proofs::Laws::loops))]
pub fn flip_any<C: AsMutSlice<Item = u8>>(image: &mut Img<C>)
    requires fits { Fits (layout_by C.cells image.old) }
    ensures grid { grid_by C.cells image.new ≡ flipped (grid_by C.cells image.old) }
    ensures outside { SameOutside (layout_by C.cells image.old) (layout_by C.cells image.new) }
{
    let height = image.height();
    for y in 0..height / 2 {
        image.swap_rows(y, height - 1 - y);
    }
}
