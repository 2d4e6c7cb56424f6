//! Images without pixels at the greatest stride, or of the greatest sizes.

use imgref::{Img, ImgExt, ImgRef, ImgRefMut, ImgVec};
use imgref_fixtures::{PADDED, has_size};
use std::alloc::{AllocError, Global};
use std::process::Abort;
use std::test::Fail;

// The greatest width and height.
const LAST: usize = 4294967295;

// Whether an image of no pixel is compacted to no cell at this stride.
fn is_compacted(image: ImgVec<u8>, width: usize, height: usize, stride: usize) -> bool {
    let mut image = image;
    if !image.is_valid() {
        return false;
    }
    let (joined, found_width, found_height) = image.as_contiguous_buf();
    joined.len() == 0
        && (found_width, found_height) == (width, height)
        && image.stride() == stride
        && image.buf().len() == 0
        && is_joined(image, width, height)
}

// The same where its buffer is taken out.
fn is_joined(image: ImgVec<u8>, width: usize, height: usize) -> bool {
    if !image.is_valid() {
        return false;
    }
    let (joined, found_width, found_height) = image.into_contiguous_buf();
    joined.len() == 0 && (found_width, found_height) == (width, height)
}

// And where its rows are copied.
fn is_copied(
    alloc: Global,
    view: ImgRef<'_, u8>,
    width: usize,
    height: usize,
) -> Result<bool, AllocError> {
    if !view.is_valid() {
        return Ok(false);
    }
    let (joined, found_width, found_height) = view.to_contiguous_buf(alloc)?;
    Ok(joined.as_ref().len() == 0 && (found_width, found_height) == (width, height))
}

#[test]
fn no_pixel_at_the_greatest_stride_is_compacted(rt: HostRuntime) -> Result<(), Fail> {
    for (width, height, stride) in [(LAST, 0, LAST), (0, LAST, 1), (0, 0, 1), (1, 0, 1)] {
        if width > LAST || height > LAST {
            continue;
        }
        let buf = PADDED.to_vec(rt.alloc())?;
        let none: ImgVec<u8> = Img::new_stride(Vec::new(rt.alloc()), width, height, usize::MAX);
        let some: ImgVec<u8> = Img::new_stride(buf, width, height, usize::MAX);
        let view = Img::new_stride(PADDED.as_slice(), width, height, usize::MAX);
        assert!(rt;
            is_compacted(none, width, height, stride)
                && is_compacted(some, width, height, stride)
                && is_copied(rt.alloc(), view, width, height)?
        );
    }
    Ok(())
}

// Without a column there is no pixel to read, however many lines there are.
fn reads_nothing(lent: &mut ImgRefMut<'_, u8>, y: usize) -> bool {
    if !lent.is_valid() || y >= lent.height() {
        return false;
    }
    lent.row(y).len() == 0
        && lent.row_mut(y).len() == 0
        && lent.is_valid()
        && lent.rows().count() == 0
        && lent.pixels().count() == 0
        && lent.rows_mut().count() == 0
        && lent.is_valid()
        && lent.pixels_mut().count() == 0
}

// And none to write.
fn check_rows_of_width_zero(rt: &impl Abort, lent: &mut ImgRefMut<'_, u8>, y: usize) {
    assert!(rt; reads_nothing(lent, y) && lent.is_valid() && y < lent.height());
    lent.fill_row(y, 0);
    lent.swap_rows(y, 0);
    lent.swap_rows(0, y);
    lent.map_pixels(|_| 0);
    lent.fill(0);
}

// The same of a view.
fn shows_nothing(view: ImgRef<'_, u8>, y: usize) -> bool {
    if !view.is_valid() || y >= view.height() {
        return false;
    }
    view.row(y).len() == 0
        && view.rows().rev().count() == 0
        && view.pixels().count() == 0
        && view.pixels_ref().count() == 0
        && view.width_padded() == usize::MAX
        && view.height_padded() == 0
}

#[test]
fn rows_of_width_zero_at_the_greatest_stride(rt: HostRuntime) -> Result<(), Fail> {
    for y in [0, 1, LAST - 1] {
        let mut cells = PADDED;
        let mut lent = Img::new_stride(cells.as_mut_slice(), 0, LAST, usize::MAX);
        check_rows_of_width_zero(&rt, &mut lent, y);
        assert!(rt; cells == PADDED);
        let buf = PADDED.to_vec(rt.alloc())?;
        let mut owner: ImgVec<u8> = Img::new_stride(buf, 0, LAST, usize::MAX);
        check_rows_of_width_zero(&rt, &mut owner.as_mut(), y);
        assert!(rt; owner.buf().as_slice() == PADDED.as_slice());
        assert!(rt; shows_nothing(owner.as_ref(), y));
    }
    Ok(())
}

#[test]
fn sizes_alone_tell_empty_images_apart(rt: HostRuntime) -> Result<(), Fail> {
    let tall = ImgRef::new_stride(PADDED.as_slice(), 0, LAST, usize::MAX);
    let same = ImgRef::new_stride(&[], 0, LAST, 1);
    let lower = ImgRef::new_stride(&[], 0, LAST - 1, usize::MAX);
    let wide = ImgRef::new_stride(PADDED.as_slice(), LAST, 0, usize::MAX);
    assert!(rt;
        tall == same
            && tall.same_pixels(same)
            && tall != lower
            && !tall.same_pixels(lower)
            && tall != wide
            && wide == wide
    );
    assert!(rt; tall.is_valid() && same.is_valid());
    assert!(rt; tall.same_pixels_by(same, |_, _| false));
    assert!(rt; has_size(&tall.to_owned(rt.alloc())?, [0, LAST, usize::MAX]));
    Ok(())
}
