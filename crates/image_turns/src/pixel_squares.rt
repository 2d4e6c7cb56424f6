//! Images of pixels of several cells, next to one another in a row, that are transposed and turned in
//! place.
//!
//! A square goes by pairs of blocks (`block_pairs`).

ghost use Rattle.std.specs.Prelude.{◌≡◌, ◌*◌, ◌<◌, ◌≤◌};
ghost use Rattle.image_model.specs.Layout.{Fits, SameOutside};
ghost use Rattle.image_shape.specs.Shape.{shape_width, shape_height, shaped_grid, shaped};
ghost use Rattle.image_turns.specs.Oriented.{oriented, oriented_width};
ghost use Rattle.image_writes.specs.Written.{Becomes};
ghost use Rattle.image_turns.specs.Sizes.{IsPixelSquare};

use crate::block_pairs::cross_pairs;
use crate::flipping::flip_rows;
use crate::pixel_flips::mirror_pixels;
use crate::pixel_turning::Orientation;
use crate::squares::transpose_square;
use image_shape::Shape;
use std::mem::size_of_val;

// How many bytes a cell may have so that pixels go by blocks. A block has up to 1024 cells, and wider
// ones would take too much of the stack.
const NARROW: usize = 16;

// Columns become rows, and rows columns. Blocks have 16 by 16 pixels, or one where cells are wide.
fn cross_pixels<T: Copy, const N: usize, const WIDTH: usize>(cells: &mut [T], shape: Shape)
    requires some { 1 < N }
    requires few { N ≤ 4 }
    requires wide { WIDTH ≡ 16 * N }
    requires image { IsPixelSquare N cells.old shape }
    ensures { Becomes shape cells.old cells.new
        (oriented N Orientation.Transposed (shaped_grid cells.old shape)) }
{
    // So few cells have one pixel at most.
    if cells.len() < 4 {
        return;
    }
    let cell = cells[0];
    if size_of_val(&cell) <= NARROW {
        let (mut upper, mut lower) = ([cell; 1024], [cell; 1024]);
        let (upper, lower) = (upper.as_mut_slice(), lower.as_mut_slice());
        cross_pairs::<T, N, 16, WIDTH>(cells, shape, upper, lower);
    } else {
        let (mut upper, mut lower) = ([cell; 4], [cell; 4]);
        let (upper, lower) = (upper.as_mut_slice(), lower.as_mut_slice());
        cross_pairs::<T, N, 1, N>(cells, shape, upper, lower);
    }
}

// The same of pixels of `size` cells.
fn transpose_pixel_square<T: Copy>(cells: &mut [T], shape: Shape, size: usize)
    requires some { 1 ≤ size }
    requires few { size ≤ 4 }
    requires image { IsPixelSquare size cells.old shape }
    ensures { Becomes shape cells.old cells.new
        (oriented size Orientation.Transposed (shaped_grid cells.old shape)) }
{
    match size {
        1 => transpose_square(cells, shape),
        2 => cross_pixels::<T, 2, 32>(cells, shape),
        3 => cross_pixels::<T, 3, 48>(cells, shape),
        _ => cross_pixels::<T, 4, 64>(cells, shape),
    }
}

/// The image is transposed or turned in place, and the padding stays. A pixel is `size` cells next to
/// one another in a row, 1 to 4 of them.
///
/// # Requires
///
/// The cells fit (`Shape::fits`). The image has `columns` pixels in a row, and is as wide as it
/// becomes. So it has to be a square, unless it is turned by a half.
pub fn orient_in_place<T: Copy>(
    cells: &mut [T],
    shape: Shape,
    size: usize,
    columns: usize,
    orientation: Orientation,
)
    requires some { 1 ≤ size }
    requires few { size ≤ 4 }
    requires fits { Fits (shaped cells.old shape) }
    requires width { shape_width shape ≡ columns * size }
    requires same_width { oriented_width orientation columns (shape_height shape) ≡ columns }
    ensures grid { shaped_grid cells.new shape
        ≡ oriented size orientation (shaped_grid cells.old shape) }
    ensures outside { SameOutside (shaped cells.old shape) (shaped cells.new shape) }
{
    match orientation {
        Orientation::Transposed => transpose_pixel_square(cells, shape, size),
        Orientation::Right => {
            transpose_pixel_square(cells, shape, size);
            mirror_pixels(cells, shape, size, columns);
        }
        Orientation::Half => {
            mirror_pixels(cells, shape, size, columns);
            flip_rows(cells, shape);
        }
        Orientation::Left => {
            transpose_pixel_square(cells, shape, size);
            flip_rows(cells, shape);
        }
    }
}
