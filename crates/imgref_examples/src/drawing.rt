//! Writes at places, one after the other: the grid afterwards is one patch on another.

ghost use Rattle.std.specs.Prelude.{◌≡◌, ◌<◌, ◌≤◌, Some};
ghost use Rattle.image_model.specs.Grid.{patch, uniform};
ghost use Rattle.image_model.specs.Layout.{Fits, SameOutside};
ghost use Rattle.imgref.specs.Image.{width_of, height_of, vec_grid, vec_layout, mut_grid, mut_layout};
ghost use Rattle.imgref_examples.specs.Stripes.{striped};
ghost use Rattle.imgref_examples.specs.Drawing.{DrawsThree};

use imgref::{ImgRefMut, ImgVec};

/// Writes one pixel of a borrowed image.
pub fn dot(image: &mut ImgRefMut<'_, u8>, x: usize, y: usize)
    requires fits { Fits (mut_layout image.old) }
    requires column { x < width_of image.old }
    requires row { y < height_of image.old }
    ensures grid { mut_grid image.new ≡ patch (mut_grid image.old) x y (uniform 1 1 7) }
    ensures outside { SameOutside (mut_layout image.old) (mut_layout image.new) }
{
    image.put(x, y, 7);
}

/// Writes two pixels and a part of the second row.
pub fn three_places(image: &mut ImgVec<u8>, value: u8)
    requires fits { Fits (vec_layout image.old) }
    requires columns { 3 ≤ width_of image.old }
    requires rows { 2 ≤ height_of image.old }
    ensures { DrawsThree (vec_layout image.old) (vec_layout image.new) value }
{
    image.put(0, 0, 1);
    image.put(1, 0, 2);
    image.fill_window(1, 1, 2, 1, value);
}

/// The same, by index.
pub fn three_by_index(image: &mut ImgVec<u8>, value: u8)
    requires fits { Fits (vec_layout image.old) }
    requires columns { 3 ≤ width_of image.old }
    requires rows { 2 ≤ height_of image.old }
    ensures { DrawsThree (vec_layout image.old) (vec_layout image.new) value }
{
    image[(0usize, 0usize)] = 1;
    image[(1u32, 0u32)] = 2;
    image.fill_window(1, 1, 2, 1, value);
}

/// Each row, one after the other: its pixels become 0 or 1.
#[tactic(auto, using(crate::proofs::StripedRows::striped_rows))]
pub fn stripes(image: &mut ImgVec<u8>)
    requires { Fits (vec_layout image.old) }
    ensures grid { vec_grid image.new ≡ striped (width_of image.old) (height_of image.old) }
    ensures outside { SameOutside (vec_layout image.old) (vec_layout image.new) }
{
    for y in 0..image.height() {
        image.fill_row(y, (y % 2) as u8);
    }
}

/// The result is the pixel that was put, and nothing else has changed.
#[tactic(auto, using(image_model::proofs::Laws::writes))]
pub fn put_then_get(image: &mut ImgVec<u8>, x: usize, y: usize, value: u8) -> Option<u8>
    requires fits { Fits (vec_layout image.old) }
    requires column { x < width_of image.old }
    requires row { y < height_of image.old }
    ensures value { result ≡ Some value }
    ensures grid { vec_grid image.new ≡ patch (vec_grid image.old) x y (uniform 1 1 value) }
    ensures outside { SameOutside (vec_layout image.old) (vec_layout image.new) }
{
    image.put(x, y, value);
    image.get(x, y)
}
