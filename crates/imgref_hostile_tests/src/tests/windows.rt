//! Each window of the image of nine cells, by every call of each kind.

use super::fixtures::{cells_of, pixel_at, window_mut};
use imgref::{AsMutSlice, AsSlice, Img, ImgRef, ImgRefMut, Window};
use imgref_fixtures::{
    PADDED, are_cleared, are_filled, has_size, numbered, numbers_of, padded, padded_mut,
    padded_view,
};
use std::process::Abort;
use std::test::Fail;

// The pixel of a place of a window.
fn pixel_in(window: Window, x: usize, y: usize) -> Option<u8> {
    if x < window.width && y < window.height {
        pixel_at(window.left.saturating_add(x), window.top.saturating_add(y))
    } else {
        None
    }
}

// Whether an image has the pixels of a window by their places, and no other.
fn has_pixels(found: ImgRef<'_, u8>, window: Window) -> bool {
    if !found.is_valid() {
        return false;
    }
    for y in 0..4usize {
        for x in 0..4usize {
            if found.get(x, y) != pixel_in(window, x, y) {
                return false;
            }
        }
    }
    true
}

// Whether an image has so many cells, from this one of the nine on.
fn has_cells(found: ImgRef<'_, u8>, first: usize, count: usize) -> bool {
    for (at, cell) in found.iter().enumerate() {
        if Some(cell) != PADDED.get(first.saturating_add(at)) {
            return false;
        }
    }
    found.buf().len() == count
}

// A window has its size, its pixels by their places, and these cells.
fn check_view(rt: &impl Abort, found: ImgRef<'_, u8>, window: Window, count: usize) {
    let (left, top, width, height) = numbers_of(window);
    assert!(rt;
        has_size(&found, [width, height, 4])
            && has_pixels(found, window)
            && has_cells(found, cells_of(window).first, count),
        "{left},{top},{width},{height}"
    );
}

// Whether a window is inside an image, and what is read through it. An image that is only read has
// a `sub_image` of its own.
macro_rules! is_shown {
    ($rt:expr, $image:expr, $window:expr) => {{
        let (left, top, width, height) = numbers_of($window);
        assert!($rt; $image.is_valid());
        let is_inside = $image.has_window(left, top, width, height);
        if is_inside {
            let found = $image.sub_image(left, top, width, height);
            check_view($rt, found, $window, cells_of($window).padded);
        }
        is_inside
    }};
}

fn is_in_view(rt: &impl Abort, image: ImgRef<'_, u8>, window: Window) -> bool {
    is_shown!(rt, image, window)
}

fn is_in_image<C: AsMutSlice<Item = u8>>(rt: &impl Abort, image: &Img<C>, window: Window) -> bool {
    is_shown!(rt, image, window)
}

// Whether a window lies in an image of 3 by 2 pixels.
fn is_in_nine(window: Window) -> bool {
    window.left.saturating_add(window.width) <= 3 && window.top.saturating_add(window.height) <= 2
}

#[test]
fn sixty_windows_for_reading(rt: HostRuntime) -> Result<(), Fail> {
    let mut cells = PADDED;
    let owner = padded(rt.alloc())?;
    let view = padded_view();
    let lent = ImgRefMut::new_stride(cells.as_mut_slice(), 3, 2, 4);
    let mut inside = 0u32;
    for number in 0..256usize {
        let window = numbered(number);
        let is_inside = is_in_nine(window);
        assert!(rt;
            is_in_view(&rt, view, window) == is_inside
                && is_in_image(&rt, &owner, window) == is_inside
                && is_in_image(&rt, &lent, window) == is_inside,
            "window {number}"
        );
        if is_inside {
            inside = inside.saturating_add(1);
        }
    }
    assert!(rt; inside == 60);
    Ok(())
}

// A window for writing shows its pixels, and has so many cells. Its pixels are written.
fn check_pixels<C: AsMutSlice<Item = u8>>(
    rt: &impl Abort,
    image: &mut Img<C>,
    window: Window,
    count: usize,
) {
    let mut found = window_mut(rt, image, window);
    check_view(rt, found.as_ref(), window, count);
    assert!(rt; found.is_valid());
    found.fill(0);
    assert!(rt; are_filled(image.buf().as_slice(), window));
}

// All cells of a window for writing are written.
fn check_cells<C: AsMutSlice<Item = u8>>(
    rt: &impl Abort,
    image: &mut Img<C>,
    window: Window,
    count: usize,
) {
    let (left, top, width, height) = numbers_of(window);
    assert!(rt; image.is_valid() && image.has_window(left, top, width, height));
    let (parts, shape) = image.window_parts_mut(Window::new(left, top, width, height));
    assert!(rt; shape.width() == width && shape.height() == height && shape.stride() == 4);
    parts.fill(0);
    assert!(rt; are_cleared(image.buf().as_slice(), cells_of(window).first, count));
}

// The same of lent cells.
fn check_lent(rt: &impl Abort, window: Window) {
    let padded = cells_of(window).padded;
    let mut cells = PADDED;
    check_pixels(rt, &mut padded_mut(&mut cells), window, padded);
    let mut cells = PADDED;
    check_cells(rt, &mut padded_mut(&mut cells), window, padded);
}

// Cells that are lent are cut down to a window.
fn cut_to<'a>(rt: &impl Abort, cells: &'a mut [u8; 9], window: Window) -> ImgRefMut<'a, u8> {
    let (left, top, width, height) = numbers_of(window);
    let image = padded_mut(cells);
    assert!(rt; image.is_valid() && image.has_window(left, top, width, height));
    image.into_sub_image_mut(left, top, width, height)
}

// Such a window is written in the same two ways.
fn check_cut(rt: &impl Abort, window: Window) {
    let cells = cells_of(window);
    let mut buf = PADDED;
    let mut cut = cut_to(rt, &mut buf, window);
    check_view(rt, cut.as_ref(), window, cells.padded);
    assert!(rt; cut.is_valid());
    cut.fill(0);
    assert!(rt; are_filled(&buf, window));
    let mut buf = PADDED;
    cut_to(rt, &mut buf, window).into_buf().fill(0);
    assert!(rt; are_cleared(&buf, cells.first, cells.padded));
}

// A window of an owner ends at its last pixel, and one of lent cells has whole strides.
#[test]
fn sixty_windows_for_writing(rt: HostRuntime) -> Result<(), Fail> {
    let view = padded_view();
    let mut inside = 0u32;
    for number in 0..256usize {
        let window = numbered(number);
        if view.has_window(window.left, window.top, window.width, window.height) {
            let exact = cells_of(window).exact;
            check_pixels(&rt, &mut padded(rt.alloc())?, window, exact);
            check_cells(&rt, &mut padded(rt.alloc())?, window, exact);
            check_lent(&rt, window);
            check_cut(&rt, window);
            inside = inside.saturating_add(1);
        }
    }
    assert!(rt; inside == 60);
    Ok(())
}
