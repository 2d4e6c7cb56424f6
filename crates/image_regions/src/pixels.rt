//! One pixel of cells in a shape, read or written.

ghost use Rattle.std.specs.Prelude.{◌≡◌, ◌<◌, IfSome, Some};
ghost use Rattle.imgref.specs.Words.{Fits, SameOutside, grid_of, patch, shape_height, shape_width, shaped, uniform};

use imgref::{ImgRef, ImgRefMut, Shape};

// The pixel in column `x` of row `y`, or `None` where there is none.
#[inline(always)]
pub(crate) fn get<T: Copy>(cells: &[T], shape: Shape, x: usize, y: usize) -> Option<T>
    requires fits { Fits (shaped cells.now shape) }
    ensures pixel { result ≡ (grid_of (shaped cells.now shape)).pixel x y }
    ensures inside { IfSome result (λ _. (x < shape_width shape) × (y < shape_height shape)) }
{
    ImgRef::from_parts(cells, shape).get(x, y)
}

// The pixel in column `x` of row `y`, where there is one.
#[inline(always)]
#[tactic(auto, using(image_model::proofs::Laws::reads))]
pub(crate) fn at<T: Copy>(cells: &[T], shape: Shape, x: usize, y: usize) -> T
    requires fits { Fits (shaped cells.now shape) }
    requires column { x < shape_width shape }
    requires row { y < shape_height shape }
    ensures pixel { (grid_of (shaped cells.now shape)).pixel x y ≡ Some result }
{
    ImgRef::from_parts(cells, shape)[(x, y)]
}

// The pixel in column `x` of row `y` becomes `value`.
#[inline(always)]
pub(crate) fn put<T: Copy>(cells: &mut [T], shape: Shape, x: usize, y: usize, value: T)
    requires fits { Fits (shaped cells.old shape) }
    requires column { x < shape_width shape }
    requires row { y < shape_height shape }
    ensures grid { grid_of (shaped cells.new shape)
        ≡ patch (grid_of (shaped cells.old shape)) x y (uniform 1 1 value) }
    ensures outside { SameOutside (shaped cells.old shape) (shaped cells.new shape) }
    ensures fits { Fits (shaped cells.new shape) }
{
    let mut image = ImgRefMut::from_parts(cells, shape);
    image.put(x, y, value);
}
