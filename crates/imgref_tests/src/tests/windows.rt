//! Windows for reading, and empty ones.

use imgref::{AsMutSlice, AsSlice, Img, ImgRef, ImgVec};
use imgref_fixtures::{PADDED, has_size, padded, padded_mut, padded_view};
use std::alloc::Global;
use std::process::Abort;
use std::test::Fail;

#[test]
fn a_shared_window_has_whole_strides_where_they_are_there(rt: HostRuntime) {
    let image = padded_view();
    assert!(rt; image.has_window(1, 0, 2, 2));
    let window = image.sub_image(1, 0, 2, 2);
    assert!(rt; has_size(&window, [2, 2, 4]));
    assert!(rt; *window.buf() == [2u8, 3, 4, 5, 6, 7, 8, 9].as_slice());
    assert!(rt; image.has_window(0, 1, 3, 1));
    assert!(rt; *image.sub_image(0, 1, 3, 1).buf() == [5u8, 6, 7, 8].as_slice());
}

#[test]
fn a_nested_window_ends_with_the_cells(rt: HostRuntime) {
    let image = padded_view();
    assert!(rt; image.has_window(1, 0, 2, 2));
    let nested = image.sub_image(1, 0, 2, 2).sub_image(1, 0, 1, 2);
    assert!(rt; *nested.buf() == [3u8, 4, 5, 6, 7].as_slice());
    assert!(rt; nested.row(0) == [3u8].as_slice() && nested.row(1) == [7u8].as_slice());
}

// Whether the window of the last row has these cells.
fn shows_last_row<C: AsMutSlice<Item = u8>>(image: &Img<C>) -> bool {
    if !image.is_valid() || !image.has_window(0, 1, 3, 1) {
        return false;
    }
    *image.sub_image(0, 1, 3, 1).buf() == [5u8, 6, 7, 8].as_slice()
}

#[test]
fn each_kind_gives_shared_windows(rt: HostRuntime) -> Result<(), Fail> {
    let mut cells = PADDED;
    let mut owner = padded(rt.alloc())?;
    assert!(rt; shows_last_row(&owner) && owner.as_mut().as_ref().buf().len() == 9);
    let lent = padded_mut(&mut cells);
    assert!(rt; shows_last_row(&lent) && *lent.as_ref().buf() == PADDED.as_slice());
    Ok(())
}

#[test]
fn a_window_of_a_window_is_one_window(rt: HostRuntime) {
    let image = padded_view();
    assert!(rt; image.has_window(0, 0, 2, 1) && image.has_window(1, 0, 1, 1));
    let nested = image.sub_image(0, 0, 2, 1).sub_image(1, 0, 1, 1);
    let one = image.sub_image(1, 0, 1, 1);
    assert!(rt; has_size(&nested, [1, 1, 4]) && has_size(&one, [1, 1, 4]));
    assert!(rt; nested.row(0) == one.row(0));
    assert!(rt; *nested.buf() == [2u8].as_slice() && *one.buf() == [2u8, 3, 4, 5].as_slice());
}

#[test]
fn an_empty_window_has_no_cells(rt: HostRuntime) -> Result<(), Fail> {
    let mut owner: ImgVec<u8> = Img::new_stride([1u8, 2, 3, 4, 5].to_vec(rt.alloc())?, 2, 2, 3);
    assert!(rt; owner.is_valid() && owner.has_window(0, 2, 1, 0));
    let window = owner.sub_image(0, 2, 1, 0);
    assert!(rt; has_size(&window, [1, 0, 3]) && window.buf().len() == 0);
    assert!(rt; owner.sub_image_mut(0, 2, 1, 0).buf().len() == 0);
    Ok(())
}

#[test]
fn the_greatest_stride_has_windows(rt: HostRuntime) -> Result<(), Fail> {
    let cells = [5u8];
    let image = Img::new_stride(cells.as_slice(), 1, 1, usize::MAX);
    assert!(rt; image.is_valid() && image.has_window(0, 0, 1, 1));
    assert!(rt; *image.sub_image(0, 0, 1, 1).buf() == [5u8].as_slice());
    // The corner of this one has no number.
    let tall = Img::new_stride(cells.as_slice(), 0, 4294967295, usize::MAX);
    assert!(rt; tall.is_valid() && tall.has_window(0, 4294967295, 0, 0));
    assert!(rt; tall.sub_image(0, 4294967295, 0, 0).buf().len() == 0);
    Ok(())
}

// Left, top, width and height.
type Numbers = (usize, usize, usize, usize);

// Two empty windows of an image with one cell have none, one for reading and one for writing.
fn check_empty(
    rt: &impl Abort,
    alloc: Global,
    size: (usize, usize),
    shared: Numbers,
    written: Numbers,
) -> Result<(), Fail> {
    assert!(rt; size.0 <= 1 && size.1 <= 1);
    let mut owner: ImgVec<u8> = Img::new_stride([1u8].to_vec(alloc)?, size.0, size.1, 1);
    assert!(rt; shows_nothing(&owner, shared) && lends_nothing(&mut owner, written));
    assert!(rt; *owner.as_ref().buf() == [1u8].as_slice());
    Ok(())
}

// Whether a window is inside and has no cell, for reading.
fn shows_nothing(owner: &ImgVec<u8>, (left, top, width, height): Numbers) -> bool {
    if !owner.is_valid() || !owner.has_window(left, top, width, height) {
        return false;
    }
    owner.sub_image(left, top, width, height).buf().len() == 0
}

// The same for writing.
fn lends_nothing(owner: &mut ImgVec<u8>, (left, top, width, height): Numbers) -> bool {
    if !owner.is_valid() || !owner.has_window(left, top, width, height) {
        return false;
    }
    owner.sub_image_mut(left, top, width, height).buf().len() == 0
}

#[test]
fn zero(rt: HostRuntime) -> Result<(), Fail> {
    check_empty(&rt, rt.alloc(), (0, 0), (0, 0, 0, 0), (0, 0, 0, 0))
}

#[test]
fn zero_width(rt: HostRuntime) -> Result<(), Fail> {
    check_empty(&rt, rt.alloc(), (0, 1), (0, 1, 0, 0), (0, 0, 0, 1))
}

#[test]
fn zero_height(rt: HostRuntime) -> Result<(), Fail> {
    check_empty(&rt, rt.alloc(), (1, 0), (1, 0, 0, 0), (0, 0, 1, 0))
}

// Whether a window has these pixels in its first row.
fn starts_with<C: AsSlice<Item = u8>>(window: &Img<C>, row: &[u8]) -> bool {
    window.is_valid() && window.height() > 0 && window.row(0) == row
}

#[test]
fn sub(rt: HostRuntime) -> Result<(), Fail> {
    let owner = padded(rt.alloc())?;
    assert!(rt; owner.buf().as_slice() == PADDED.as_slice());
    let image: ImgRef<'_, u8> = owner.as_ref();
    let copy = image;
    assert!(rt; *copy.buf() == *image.buf());
    assert!(rt; image.is_valid() && image.has_window(1, 1, 2, 1));
    let window = image.sub_image(1, 1, 2, 1);
    assert!(rt; has_size(&window, [2, 1, 4]) && starts_with(&window, &[6, 7]));
    Ok(())
}

#[test]
fn sub_mut(rt: HostRuntime) -> Result<(), Fail> {
    let mut owner = padded(rt.alloc())?;
    assert!(rt; owner.is_valid() && owner.has_window(1, 1, 2, 1));
    assert!(rt; starts_with(&owner.sub_image_mut(1, 1, 2, 1), &[6, 7]));
    let mut lent = owner.as_mut();
    assert!(rt; lent.is_valid() && lent.has_window(1, 1, 2, 1));
    assert!(rt; starts_with(&lent.sub_image_mut(1, 1, 2, 1), &[6, 7]));
    Ok(())
}

#[test]
fn into_sub(rt: HostRuntime) -> Result<(), Fail> {
    let mut owner = padded(rt.alloc())?;
    let lent = owner.as_mut();
    assert!(rt; lent.is_valid() && lent.has_window(1, 1, 2, 1));
    assert!(rt; starts_with(&lent.into_sub_image_mut(1, 1, 2, 1), &[6, 7]));
    Ok(())
}
