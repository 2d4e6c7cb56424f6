//! Calls that just meet their condition. With one row, column or cell more, or without the test,
//! the check of this crate refuses each of them. The edits of `must-fail/` show that. None of these
//! functions has a clause about its result, so only the condition of the call can refuse it.

ghost use Rattle.std.specs.Prelude.{◌≡◌, ◌≤◌, length};

use imgref::{Img, ImgRef, ImgRefMut, Turn};

/// The first pixel of the lower row of two.
pub fn start_of_last_row(cells: &[u8]) -> u8
    requires { 4 ≤ length cells.now }
{
    let image = Img::new(cells, 2, 2);
    image.row(1)[0]
}

/// Clears the first pixel of the lower row of two.
pub fn clear_start_of_last_row(cells: &mut [u8])
    requires { 4 ≤ length cells.old }
{
    let mut image = Img::new(cells, 2, 2);
    image.row_mut(1)[0] = 0;
}

/// The lower two rows of three are exchanged.
pub fn exchange_last_rows(cells: &mut [u8])
    requires { 6 ≤ length cells.old }
{
    let mut image = Img::new(cells, 2, 3);
    image.swap_rows(1, 2);
}

/// The right two columns of three are exchanged.
pub fn exchange_last_columns(cells: &mut [u8])
    requires { 6 ≤ length cells.old }
{
    let mut image = Img::new(cells, 3, 2);
    image.swap_columns(1, 2);
}

/// Each pixel becomes the exclusive or of the pixels of two images of one size.
pub fn add_same_size(cells: &mut [u8], others: &[u8])
    requires cells { 6 ≤ length cells.old }
    requires others { 6 ≤ length others.now }
{
    let mut image = Img::new(cells, 3, 2);
    image.zip_pixels(Img::new(others, 3, 2), |p: u8, q: u8| p ^ q);
}

/// Three columns of two become three rows of two.
pub fn transpose_three_columns(cells: &[u8], target: &mut [u8])
    requires cells { 6 ≤ length cells.now }
    requires target { 6 ≤ length target.old }
{
    let mut target = Img::new(target, 2, 3);
    Img::new(cells, 3, 2).transpose_into(&mut target);
}

/// A square of two by two is transposed in place.
pub fn transpose_a_square(cells: &mut [u8])
    requires { 4 ≤ length cells.old }
{
    Img::new(cells, 2, 2).transpose();
}

/// An image that is no square is turned by a half in place.
pub fn turn_by_a_half(cells: &mut [u8])
    requires { 6 ≤ length cells.old }
{
    Img::new(cells, 3, 2).turn(Turn::Half);
}

/// Each pixel becomes 255 in the first of two columns, and 0 in the last.
pub fn column_bound(cells: &mut [u8])
    requires { 4 ≤ length cells.old }
{
    let mut image = Img::new(cells, 2, 2);
    image.map_places(|x: usize, _y: usize, _p: u8| (255 - x * 255) as u8);
}

/// The last cell of the buffer, by its place: one past the only pixel.
pub fn last_cell(cells: &[u8]) -> u8
    requires { length cells.now ≡ 2 }
{
    let image = Img::new_stride(cells, 1, 1, 2);
    image[(1u32, 0u32)]
}

/// A cell of the last column, which is padding, by its place: the cell after it is in the buffer
/// too.
pub fn padding_of_first_row(cells: &[u8]) -> u8
    requires { length cells.now ≡ 4 }
{
    let image = Img::new_stride(cells, 1, 2, 2);
    image[(1usize, 0usize)]
}

/// The first pixel of the lower row of two, at a cell number above every `u32`.
pub fn second_row_far_behind(cells: &[u8]) -> u8
    requires { length cells.now ≡ 4294967297 }
{
    let image = Img::new_stride(cells, 1, 2, 4294967296);
    image[(0u32, 1u32)]
}

/// The number of cells of the window of the last two columns.
pub fn cells_of_last_columns(cells: &[u8]) -> usize
    requires { 6 ≤ length cells.now }
{
    let image = Img::new(cells, 3, 2);
    image.sub_image(1, 0, 2, 2).buf().len()
}

/// The number of pixels of an image, or 0 where it doesn't fit.
pub fn pixels_if_it_fits(image: ImgRef<'_, u8>) -> usize {
    if image.is_valid() {
        image.pixels().count()
    } else {
        0
    }
}

/// Halves every pixel of an image where it fits, and otherwise does nothing.
pub fn halve_if_it_fits(image: &mut ImgRefMut<'_, u8>) {
    if !image.is_valid() {
        return;
    }
    image.map_pixels(|p| p / 2);
}

/// An image of height 0, with the least width that needs no stride of its own.
pub fn narrowest(cells: &[u8]) -> ImgRef<'_, u8> {
    Img::new(cells, 1, 0)
}

/// An image of height 0, with the greatest width.
pub fn widest(cells: &[u8]) -> ImgRef<'_, u8> {
    Img::new(cells, 4294967295, 0)
}

/// An image with the greatest height.
pub fn highest(cells: &[u8]) -> ImgRef<'_, u8> {
    Img::new(cells, 1, 4294967295)
}

/// Two other cells in place of the two cells of an image.
pub fn over_other_cells<'a>(first: &[u8], second: &'a [u8]) -> ImgRef<'a, u8>
    requires cells { length first.now ≡ 2 }
    requires others { length second.now ≡ 2 }
{
    let image = Img::new(first, 2, 1);
    image.new_buf(second)
}
