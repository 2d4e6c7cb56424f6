//! The greatest numbers of a type: windows, places, strides, sizes.

use super::fixtures::pixel_at;
use imgref::{AsSlice, Img, ImgRef, ImgRefMut, ImgVec, Shape, Window};
use imgref_fixtures::{PADDED, numbers_of, padded, padded_mut, padded_view};
use std::alloc::{AllocError, Global};
use std::process::Abort;
use std::test::Fail;

// The greatest width and height.
const LAST: usize = 4294967295;

// Small numbers, those about the greatest size, and those about the type's end and its half.
const NUMBERS: [usize; 10] = [
    0,
    1,
    3,
    LAST - 1,
    LAST,
    LAST + 1,
    9223372036854775807,
    9223372036854775808,
    18446744073709551614,
    18446744073709551615,
];

// Whether a stretch of a side lies within it: no sum of the two overflows.
fn is_within(start: usize, len: usize, side: usize) -> bool {
    match start.checked_add(len) {
        Some(end) => end <= side,
        None => false,
    }
}

// Each window with these numbers, in a size.
fn check_windows(rt: &impl Abort, image: ImgRef<'_, u8>) {
    for left in NUMBERS {
        for width in NUMBERS {
            let is_column = is_within(left, width, image.width());
            for top in NUMBERS {
                for height in NUMBERS {
                    let is_inside = is_column && is_within(top, height, image.height());
                    assert!(rt;
                        image.has_window(left, top, width, height) == is_inside,
                        "{left},{top},{width},{height}"
                    );
                }
            }
        }
    }
}

#[test]
fn windows_are_inside_by_their_sums(rt: HostRuntime) -> Result<(), Fail> {
    check_windows(&rt, Img::new_stride(PADDED.as_slice(), 3, 2, 4));
    check_windows(&rt, Img::new_stride(PADDED.as_slice(), 1, 1, usize::MAX));
    check_windows(&rt, Img::new_stride(&[], LAST, 0, usize::MAX));
    check_windows(&rt, Img::new_stride(&[], 0, LAST, usize::MAX));
    // Images that don't fit have a size too.
    check_windows(&rt, Img::new_stride(&[], LAST, LAST, usize::MAX));
    check_windows(&rt, Img::new_stride(&[], 3, LAST, LAST));
    Ok(())
}

// Whether an image has no cell and this size.
fn is_empty<C: AsSlice>(image: &Img<C>, width: usize, height: usize) -> bool {
    image.buf().as_slice().len() == 0 && image.width() == width && image.height() == height
}

// Whether an empty window at each corner that is there has its size and no cell, by the calls that
// leave the image where it is.
fn has_empty(image: &mut ImgRefMut<'_, u8>, window: Window) -> bool {
    let (left, top, width, height) = numbers_of(window);
    if !image.is_valid() || !image.has_window(left, top, width, height) {
        return false;
    }
    let seen = image.sub_image(left, top, width, height);
    is_empty(&seen, width, height)
        && seen.stride() == usize::MAX
        && has_empty_parts(image, window)
        && has_empty_loan(image, window)
}

fn has_empty_parts(image: &mut ImgRefMut<'_, u8>, window: Window) -> bool {
    let (left, top, width, height) = numbers_of(window);
    if !image.is_valid() || !image.has_window(left, top, width, height) {
        return false;
    }
    let (parts, part) = image.window_parts_mut(Window::new(left, top, width, height));
    parts.len() == 0 && part.width() == width && part.height() == height
}

fn has_empty_loan(image: &mut ImgRefMut<'_, u8>, window: Window) -> bool {
    let (left, top, width, height) = numbers_of(window);
    if !image.is_valid() || !image.has_window(left, top, width, height) {
        return false;
    }
    is_empty(
        &image.sub_image_mut(left, top, width, height),
        width,
        height,
    )
}

// The same by the calls that write it, and by the one that takes the image.
fn check_empty(rt: &impl Abort, shape: Shape, window: Window) {
    let (left, top, width, height) = numbers_of(window);
    let mut cells = [7u8];
    let mut image = ImgRefMut::from_parts(cells.as_mut_slice(), shape);
    assert!(rt; has_empty(&mut image, window));
    assert!(rt; image.is_valid() && image.has_window(left, top, width, height));
    image.fill_window(left, top, width, height, 0);
    assert!(rt; image.is_valid() && image.has_window(left, top, width, height));
    let cut = image.into_sub_image_mut(left, top, width, height);
    assert!(rt; is_empty(&cut, width, height) && cells == [7u8]);
}

#[test]
fn empty_windows_at_corners_without_a_cell(rt: HostRuntime) -> Result<(), Fail> {
    // The corner's cell would have a number past the type's end.
    for (start, len) in [(0, LAST), (1, LAST - 1), (LAST - 1, 1), (LAST, 0), (2, 3)] {
        check_empty(
            &rt,
            Shape::new(0, LAST, usize::MAX),
            Window::new(0, start, 0, len),
        );
        check_empty(
            &rt,
            Shape::new(LAST, 0, usize::MAX),
            Window::new(start, 0, len, 0),
        );
    }
    Ok(())
}

// Whether the image of nine cells has its pixel at a place, as an owner, a view and a lent one.
fn has_pixel(
    rt: &impl Abort,
    owner: &ImgVec<u8>,
    lent: &ImgRefMut<'_, u8>,
    at: (usize, usize),
) -> bool {
    let (x, y) = at;
    let view = padded_view();
    assert!(rt; owner.is_valid() && view.is_valid() && lent.is_valid());
    let pixel = pixel_at(x, y);
    owner.get(x, y) == pixel && view.get(x, y) == pixel && lent.get(x, y) == pixel
}

#[test]
fn places_far_outside_have_no_pixel(rt: HostRuntime) -> Result<(), Fail> {
    let mut cells = PADDED;
    let owner = padded(rt.alloc())?;
    let lent = padded_mut(&mut cells);
    for x in NUMBERS {
        for y in NUMBERS {
            assert!(rt; has_pixel(&rt, &owner, &lent, (x, y)), "({x}, {y})");
        }
    }
    Ok(())
}

// Whether an image of one pixel has it at its place, and images of no pixel have none.
fn has_first(
    one: ImgRef<'_, u8>,
    tall: ImgRef<'_, u8>,
    wide: ImgRef<'_, u8>,
    at: (usize, usize),
) -> bool {
    let (x, y) = at;
    if !one.is_valid() || !tall.is_valid() || !wide.is_valid() {
        return false;
    }
    let first = if x == 0 && y == 0 { Some(1) } else { None };
    one.get(x, y) == first && tall.get(x, y) == None && wide.get(x, y) == None
}

#[test]
fn places_far_outside_small_images_have_no_pixel(rt: HostRuntime) {
    let one = ImgRef::new_stride(PADDED.as_slice(), 1, 1, usize::MAX);
    let tall = ImgRef::new_stride(PADDED.as_slice(), 0, LAST, usize::MAX);
    let wide = ImgRef::new_stride(PADDED.as_slice(), LAST, 0, usize::MAX);
    for x in NUMBERS {
        for y in NUMBERS {
            assert!(rt; has_first(one, tall, wide, (x, y)), "({x}, {y})");
        }
    }
}

// Width, height and stride.
type Size = (usize, usize, usize);

// Whether five cells don't do for these numbers, in each kind of image, where they may be a shape.
fn is_too_large(alloc: Global, (width, height, stride): Size) -> Result<bool, AllocError> {
    if stride < 1 || width > stride || width > LAST || height > LAST {
        return Ok(true);
    }
    let cells = [0u8; 5];
    let mut copy = cells;
    let owned: ImgVec<u8> = Img::new_stride(cells.to_vec(alloc)?, width, height, stride);
    let view = Img::new_stride(cells.as_slice(), width, height, stride);
    let lent = Img::new_stride(copy.as_mut_slice(), width, height, stride);
    Ok(!owned.is_valid() && !view.is_valid() && !lent.is_valid())
}

// Where a product or a sum overflows, so many cells seem enough: 1, 1, 0, 0, 1, 3, 5, and 3
// thrice. The last two overflow nowhere.
#[test]
fn no_product_of_a_stride_wraps(rt: HostRuntime) -> Result<(), Fail> {
    for (width, height, stride) in [
        (1, 3, 9223372036854775808),
        (1, 5, 4611686018427387904),
        (1, 4, 6148914691236517205),
        (1, 2, 18446744073709551615),
        (2, 2, 18446744073709551615),
        (4, 2, 18446744073709551615),
        (6, 2, 18446744073709551615),
        (3, 257, 72057594037927936),
        (3, 65537, 281474976710656),
        (3, 1073741825, 17179869184),
        (LAST, LAST, usize::MAX),
        (LAST, LAST, LAST),
    ] {
        assert!(rt;
            is_too_large(rt.alloc(), (width, height, stride))?,
            "{width} by {height} at {stride}"
        );
    }
    Ok(())
}

// Whether a shape fits each number of cells from the least one on, and none below.
fn fits_from((width, height, stride): Size, least: usize) -> bool {
    if stride < 1 || width > stride || width > LAST || height > LAST {
        return true;
    }
    let shape = Shape::new(width, height, stride);
    for count in NUMBERS {
        if shape.fits(count) != (count >= least) {
            return false;
        }
    }
    shape.fits(least) && shape.fits(least.saturating_sub(1)) == (least == 0)
}

#[test]
fn a_shape_fits_no_less_than_its_last_pixel(rt: HostRuntime) {
    // Width, height, stride, and the least number of cells.
    for (width, height, stride, least) in [
        (3, 2, 4, 7),
        (1, 1, usize::MAX, 1),
        (LAST, 1, usize::MAX, LAST),
        (1, 2, usize::MAX - 1, usize::MAX),
        (1, 3, 9223372036854775807, usize::MAX),
        (LAST, LAST, LAST, 18446744065119617025),
        (0, LAST, usize::MAX, 0),
        (LAST, 0, usize::MAX, 0),
    ] {
        assert!(rt; fits_from((width, height, stride), least), "{least}");
    }
}
