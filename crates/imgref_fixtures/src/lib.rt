//! Cells with which the tests of several crates begin, and calls through one bound.
#![tactic(auto)]

ghost use Rattle.std.specs.Prelude.{IfOk};
ghost use Rattle.image_model.specs.Layout.{Fits};
ghost use Rattle.imgref.specs.Image.{mut_layout, ref_layout, vec_layout};

mod windows;

use imgref::{AsSlice, Img, ImgRef, ImgRefMut, ImgVec};
use std::alloc::{AllocError, Global};
use std::hash::{DefaultHasher, Hash, Hasher};
use std::iter::{ExactSizeIterator, FusedIterator};
pub use windows::{are_cleared, are_filled, numbered, numbers_of, place_in};

// Three by two with one cell of padding after each row, and one more after them.
pub const PADDED: [u8; 9] = [1, 2, 3, 4, 5, 6, 7, 8, 9];

// Three by three with one cell of padding between two rows.
pub const SQUARE: [u8; 11] = [1, 2, 3, 0, 4, 5, 6, 0, 7, 8, 9];

pub fn padded(alloc: Global) -> Result<ImgVec<u8>, AllocError>
    ensures { IfOk result (λ image. Fits (vec_layout image)) }
{
    Ok(Img::new_stride(PADDED.to_vec(alloc)?, 3, 2, 4))
}

// The same, for reading.
pub fn padded_view() -> ImgRef<'static, u8>
    ensures { Fits (ref_layout result) }
{
    Img::new_stride(PADDED.as_slice(), 3, 2, 4)
}

// The same over these cells, for writing.
pub fn padded_mut(cells: &mut [u8; 9]) -> ImgRefMut<'_, u8>
    ensures { Fits (mut_layout result) }
{
    Img::new_stride(cells.as_mut_slice(), 3, 2, 4)
}

pub fn square(alloc: Global) -> Result<ImgVec<u8>, AllocError>
    ensures { IfOk result (λ image. Fits (vec_layout image)) }
{
    Ok(Img::new_stride(SQUARE.to_vec(alloc)?, 3, 3, 4))
}

// The same over these cells, for writing.
pub fn square_mut(cells: &mut [u8; 11]) -> ImgRefMut<'_, u8>
    ensures { Fits (mut_layout result) }
{
    Img::new_stride(cells.as_mut_slice(), 3, 3, 4)
}

// Whether an image has this width, height and stride.
pub fn has_size<C>(image: &Img<C>, size: [usize; 3]) -> bool {
    let [width, height, stride] = size;
    image.width() == width && image.height() == height && image.stride() == stride
}

pub fn cells_of(alloc: Global, count: usize, value: u8) -> Result<Vec<u8>, AllocError> {
    let mut cells = Vec::new(alloc);
    cells.resize(count, value)?;
    Ok(cells)
}

// Each of the 315 images of 1 to 15 columns, 1 to 7 rows and 0 to 2 cells of padding, whose cells
// are 1.
pub fn small_image(alloc: Global, number: usize) -> Result<ImgVec<u8>, AllocError> {
    let (width, height, padding) = (1 + number % 15, 1 + number / 15 % 7, number / 105 % 3);
    let stride = width + padding;
    let cells = cells_of(alloc, stride * height + padding, 1)?;
    Ok(Img::new_stride(cells, width, height, stride))
}

pub fn hash_of<T: Hash>(value: &T) -> u64 {
    let mut hasher = DefaultHasher::new();
    value.hash(&mut hasher);
    hasher.finish()
}

pub fn hash_of_rows<C: AsSlice<Item = u8>>(image: &Img<C>) -> u64 {
    let mut hasher = DefaultHasher::new();
    image.hash_rows(&mut hasher);
    hasher.finish()
}

// Each of these calls one bound alone, as a caller that knows no type does.
pub fn len_of<I: ExactSizeIterator>(items: &I) -> usize {
    items.len()
}

pub fn is_over<I: FusedIterator>(items: &mut I) -> bool
where
    I::Item: Drop,
    requires { I.can_next items.old }
{
    items.next().is_none()
}

// The next item from the front or from the back.
pub fn next_from<I: DoubleEndedIterator>(items: &mut I, is_front: bool) -> Option<I::Item>
    requires front { I.can_next items.old }
    requires back { I.can_next_back items.old }
{
    if is_front {
        items.next()
    } else {
        items.next_back()
    }
}
