//! Zero-sized pixels in the greatest numbers.

use imgref::{ImgExt, ImgRef, ImgRefMut};
use std::process::Abort;
use std::test::Fail;

// The greatest width and height.
const LAST: usize = 4294967295;

// Whether an image of the greatest size has its last pixel, and no other after it.
fn has_last_pixel(view: ImgRef<'_, ()>) -> bool {
    view.is_valid()
        && view.has_window(LAST - 1, LAST - 1, 1, 1)
        && view.get(LAST - 1, LAST - 1) == Some(())
        && view.get(LAST, LAST - 1) == None
        && view.get(0, LAST) == None
}

// Whether it has its rows.
fn has_rows(view: ImgRef<'_, ()>) -> bool {
    if !view.is_valid() || view.height() != LAST {
        return false;
    }
    let mut rows = view.rows();
    view.row(LAST - 1).len() == LAST
        && rows.len() == LAST
        && rows.next().is_some()
        && rows.next_back().is_some()
        && rows.len() == LAST - 2
}

// Whether it has its pixels, and its last one is a window.
fn has_pixels(view: ImgRef<'_, ()>) -> bool {
    if !view.is_valid() || !view.has_window(LAST - 1, LAST - 1, 1, 1) {
        return false;
    }
    let mut pixels = view.pixels();
    let corner = view.sub_image(LAST - 1, LAST - 1, 1, 1);
    pixels.next().is_some()
        && pixels.len() == 18446744065119617024
        && corner.buf().len() == LAST + 1
        && is_one_pixel(view, corner)
}

// Whether a window is one pixel, and the image more.
fn is_one_pixel(view: ImgRef<'_, ()>, corner: ImgRef<'_, ()>) -> bool {
    view.is_valid()
        && corner.is_valid()
        && corner.pixels().count() == 1
        && view.width() != 1
        && !view.same_pixels_by(corner, |_, _| true)
}

// An image whose number of cells is the greatest. Generic, since the check would count the elements
// of an array of known length one by one.
fn reads_by_the_greatest_numbers<const N: usize>(rt: &impl Abort) -> Result<(), Fail> {
    assert!(rt; N == usize::MAX);
    let cells = [(); N];
    let view = ImgRef::new_stride(cells.as_slice(), LAST, LAST, LAST + 1);
    assert!(rt; has_last_pixel(view) && has_rows(view) && has_pixels(view));
    assert!(rt; view.width_padded() == LAST + 1 && view.height_padded() == LAST);
    Ok(())
}

// Writes the last pixel by each call, and returns whether the image has it.
fn writes_last_pixel(lent: &mut ImgRefMut<'_, ()>) -> bool {
    if !lent.is_valid() || !lent.has_window(LAST - 1, LAST - 1, 1, 1) {
        return false;
    }
    lent.put(LAST - 1, LAST - 1, ());
    lent.fill_window(LAST - 1, LAST - 1, 1, 1, ());
    lent.move_window(LAST - 1, LAST - 1, 0, 0, 1, 1);
    lent.move_window(0, 0, LAST - 1, LAST - 1, 1, 1);
    true
}

// Whether it lends its rows.
fn lends_rows(lent: &mut ImgRefMut<'_, ()>) -> bool {
    if !lent.is_valid() {
        return false;
    }
    let mut rows = lent.rows_mut();
    rows.next_back().is_some() && rows.next().is_some() && rows.len() == LAST - 2
}

// Whether it lends its pixels.
fn lends_pixels(lent: &mut ImgRefMut<'_, ()>) -> bool {
    if !lent.is_valid() {
        return false;
    }
    let mut pixels = lent.pixels_mut();
    pixels.next().is_some() && pixels.len() == 18446744065119617024
}

fn writes_by_the_greatest_numbers<const N: usize>(rt: &impl Abort) -> Result<(), Fail> {
    assert!(rt; N == usize::MAX);
    let mut cells = [(); N];
    let mut lent = ImgRefMut::new_stride(cells.as_mut_slice(), LAST, LAST, LAST + 1);
    assert!(rt; writes_last_pixel(&mut lent));
    assert!(rt; lends_rows(&mut lent) && lends_pixels(&mut lent));
    assert!(rt; lent.is_valid() && lent.has_window(LAST - 1, LAST - 1, 1, 1));
    let cut = lent.into_sub_image_mut(LAST - 1, LAST - 1, 1, 1);
    assert!(rt; cut.buf().len() == LAST + 1 && cut.width() == 1);
    Ok(())
}

#[test]
fn the_greatest_count_of_cells_is_read(rt: HostRuntime) -> Result<(), Fail> {
    reads_by_the_greatest_numbers::<{ usize::MAX }>(&rt)
}

#[test]
fn the_greatest_count_of_cells_is_written(rt: HostRuntime) -> Result<(), Fail> {
    writes_by_the_greatest_numbers::<{ usize::MAX }>(&rt)
}
