//! Pixels that are inverted by rows and by places, and first pixels that a cursor writes.

ghost use Rattle.std.specs.Prelude.{◌≡◌, ◌<◌, ◌-◌, map, length};
ghost use Rattle.std.specs.Borrow.{sem};
ghost use Rattle.image_model.specs.Layout.{Fits, SameOutside};
ghost use Rattle.image_model.specs.Grid.{patch, one_row};
ghost use Rattle.image_model.specs.Mapped.{mapped};
ghost use Rattle.image_model.specs.Rows.{row};
ghost use Rattle.image_pixels.specs.Marks.{marks_of};
ghost use Rattle.imgref.specs.Image.{buf_of, width_of, height_of, stride_of, grid_by, layout_by, OnlyCellsChange, with_all, vec_grid, vec_layout, mut_grid, mut_layout};
ghost use Rattle.imgref_examples.specs.Pixels.{with_first, first_covered, writes_first};

use image_pixels::PixelsIterMut;
use imgref::{AsMutSlice, Img, ImgRefMut, ImgVec};

// Every pixel of a row becomes 255 less what it was.
fn invert_row(row: &mut [u8])
    ensures { row.new ≡ map (λ p. 255 - p) row.old }
{
    for pixel in row.iter_mut() {
        *pixel = !*pixel;
    }
}

// The same for row `y` of an image.
fn invert_line(image: &mut ImgVec<u8>, y: usize)
    requires fits { Fits (vec_layout image.old) }
    requires row { y < height_of image.old }
    ensures grid { vec_grid image.new
        ≡ patch (vec_grid image.old) 0 y
        (one_row (map (λ p. 255 - p) (row (vec_layout image.old) y))) }
    ensures outside { SameOutside (vec_layout image.old) (vec_layout image.new) }
    ensures fits { Fits (vec_layout image.new) }
    ensures long { length (row (vec_layout image.old) y) ≡ width_of image.old }
{
    invert_row(image.row_mut(y));
}

/// Every pixel `p` becomes `255 - p`, row by row; the padding stays.
#[tactic(auto, using(image_model::proofs::Laws::loops))]
pub fn invert_owner(image: &mut ImgVec<u8>)
    requires fits { Fits (vec_layout image.old) }
    ensures grid { vec_grid image.new ≡ mapped (λ p. 255 - p) (vec_grid image.old) }
    ensures outside { SameOutside (vec_layout image.old) (vec_layout image.new) }
{
    for y in 0..image.height() {
        invert_line(image, y);
    }
}

/// The same for a borrowed image, place by place.
#[tactic(auto, using(image_model::proofs::Laws::loops))]
pub fn invert_lent(image: &mut ImgRefMut<'_, u8>)
    requires fits { Fits (mut_layout image.old) }
    ensures grid { mut_grid image.new ≡ mapped (λ p. 255 - p) (mut_grid image.old) }
    ensures outside { SameOutside (mut_layout image.old) (mut_layout image.new) }
{
    for y in 0..image.height() {
        for x in 0..image.width() {
            let pixel = &mut image[(x, y)];
            *pixel = 255 - *pixel;
        }
    }
}

// The next `count` pixels become `value`, or all where fewer are left.
fn write_next<T: Copy>(pixels: &mut PixelsIterMut<'_, T>, count: usize, value: T)
    ensures* writes { sem 𝓛 (writes_first T.row count value pixels.old pixels.new) }
{
    let mut left = count;
    while left > 0 {
        left -= 1;
        if let Some(pixel) = pixels.next() {
            *pixel = value;
        }
    }
}

// The first `count` pixels become `value`, and every other cell stays.
fn cover_first<'a, C: AsMutSlice>(image: &'a mut Img<C>, count: usize, value: C::Item)
where
    C::Item: Copy + 'a,
    requires fits { Fits (layout_by C.cells image.old) }
    ensures { image.new ≡ with_all C.cells C.with_cells image.old (first_covered count
        (marks_of (width_of image.old) (height_of image.old) (stride_of image.old)) value
        (C.cells (buf_of image.old))) }
{
    let mut pixels = image.exact_pixels_mut();
    write_next(&mut pixels, count, value);
}

/// The first `count` pixels become `value`, row by row and from left to right, through a cursor
/// that is then dropped; every other cell stays. Where the image has fewer pixels, all become
/// `value`. The image must fit (`is_valid`).
pub fn write_first<'a, C: AsMutSlice>(image: &'a mut Img<C>, count: usize, value: C::Item)
where
    C::Item: Copy + 'a,
    requires fits { Fits (layout_by C.cells image.old) }
    ensures grid { grid_by C.cells image.new ≡ with_first (grid_by C.cells image.old) count value }
    ensures outside { SameOutside (layout_by C.cells image.old) (layout_by C.cells image.new) }
    ensures container { OnlyCellsChange C.cells C.with_cells image.old image.new }
{
    let _width = image.width();
    cover_first(image, count, value);
}
