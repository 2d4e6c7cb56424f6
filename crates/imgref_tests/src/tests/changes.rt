//! Pixels changed in place: each by a closure, and rows that are exchanged.

use imgref::{AsMutSlice, Img, ImgRefMut, ImgVec};
use imgref_fixtures::{PADDED, SQUARE, padded, square};
use std::alloc::{AllocError, Global};
use std::cell::Cell;
use std::test::Fail;

// The greatest width and height.
const LAST: usize = u32::MAX as usize;

// Width, height and stride.
type Size = (usize, usize, usize);

#[derive(Clone, Copy)]
enum Change {
    // Each pixel plus a number.
    Add(u8),
    // Two rows change places.
    Swap(usize, usize),
}

// Whether an image that fits has the rows of a change, which is then made.
fn takes<C: AsMutSlice<Item = u8>>(image: &mut Img<C>, change: Change) -> bool {
    if !image.is_valid() {
        return false;
    }
    match change {
        Change::Add(by) => image.map_pixels(|p| p.wrapping_add(by)),
        Change::Swap(y, z) => {
            if y >= image.height() || z >= image.height() {
                return false;
            }
            image.swap_rows(y, z);
        }
    }
    true
}

// Whether an image of these cells takes a change and is left with those, as an owner and as a lent
// one.
fn leaves<const N: usize>(
    alloc: Global,
    (width, height, stride): Size,
    change: Change,
    cells: [u8; N],
    after: [u8; N],
) -> Result<bool, AllocError> {
    if width > LAST || height > LAST || stride == 0 || width > stride {
        return Ok(false);
    }
    let mut owner: ImgVec<u8> = Img::new_stride(cells.to_vec(alloc)?, width, height, stride);
    let mut cells = cells;
    let mut lent = ImgRefMut::new_stride(cells.as_mut_slice(), width, height, stride);
    Ok(
        takes(&mut owner, change)
            && takes(&mut lent, change)
            && owner.into_buf().as_slice() == after.as_slice()
            && cells == after,
    )
}

#[test]
fn pixels_are_mapped_alone(rt: HostRuntime) -> Result<(), Fail> {
    for (size, by, after) in [
        ((3, 2, 4), 10, [11, 12, 13, 4, 15, 16, 17, 8, 9]),
        ((3, 2, 4), 255, [0, 1, 2, 4, 4, 5, 6, 8, 9]),
        ((3, 3, 3), 10, [11, 12, 13, 14, 15, 16, 17, 18, 19]),
        ((1, 3, 4), 10, [11, 2, 3, 4, 15, 6, 7, 8, 19]),
        ((1, 9, 1), 10, [11, 12, 13, 14, 15, 16, 17, 18, 19]),
        ((9, 1, 9), 10, [11, 12, 13, 14, 15, 16, 17, 18, 19]),
        ((2, 1, usize::MAX), 10, [11, 12, 3, 4, 5, 6, 7, 8, 9]),
        ((0, 0, 1), 10, PADDED),
        ((0, 2, 4), 10, PADDED),
        ((3, 0, 4), 10, PADDED),
        ((0, LAST, usize::MAX), 10, PADDED),
        ((LAST, 0, usize::MAX), 10, PADDED),
    ] {
        assert!(rt;
            leaves(rt.alloc(), size, Change::Add(by), PADDED, after)?,
            "{size:?}"
        );
    }
    Ok(())
}

#[test]
fn two_rows_change_places_alone(rt: HostRuntime) -> Result<(), Fail> {
    for (size, (y, z), after) in [
        ((3, 3, 4), (0, 1), [4, 5, 6, 0, 1, 2, 3, 0, 7, 8, 9]),
        ((3, 3, 4), (1, 2), [1, 2, 3, 0, 7, 8, 9, 0, 4, 5, 6]),
        ((3, 3, 4), (2, 0), [7, 8, 9, 0, 4, 5, 6, 0, 1, 2, 3]),
        ((3, 3, 4), (1, 1), SQUARE),
        ((3, 3, 3), (0, 2), [6, 0, 7, 0, 4, 5, 1, 2, 3, 8, 9]),
        ((1, 3, 4), (0, 2), [7, 2, 3, 0, 4, 5, 6, 0, 1, 8, 9]),
        ((2, 2, 9), (0, 1), [8, 9, 3, 0, 4, 5, 6, 0, 7, 1, 2]),
        ((3, 1, 4), (0, 0), SQUARE),
        ((0, 9, 4), (0, 8), SQUARE),
        ((0, 2, usize::MAX), (1, 0), SQUARE),
    ] {
        assert!(rt;
            leaves(rt.alloc(), size, Change::Swap(y, z), SQUARE, after)?,
            "{size:?} {y} {z}"
        );
    }
    Ok(())
}

#[test]
fn a_window_is_mapped_and_its_rows_change_places(rt: HostRuntime) -> Result<(), Fail> {
    let mut owner = padded(rt.alloc())?;
    assert!(rt; owner.has_window(1, 0, 2, 2));
    owner
        .sub_image_mut(1, 0, 2, 2)
        .map_pixels(|p| p.wrapping_mul(10));
    assert!(rt; owner.buf().as_slice() == [1u8, 20, 30, 4, 5, 60, 70, 8, 9].as_slice());
    Ok(())
}

#[test]
fn places_are_filled_alone(rt: HostRuntime) -> Result<(), Fail> {
    let mut owner = padded(rt.alloc())?;
    assert!(rt; owner.is_valid());
    owner.fill_places(|x, y| if x == y { 7 } else { 0 });
    assert!(rt; owner.buf().as_slice() == [7u8, 0, 0, 4, 0, 7, 0, 8, 9].as_slice());
    assert!(rt; owner.has_window(1, 0, 2, 2));
    owner
        .sub_image_mut(1, 0, 2, 2)
        .fill_places(|x, y| if x < y { 1 } else { 2 });
    assert!(rt; owner.buf().as_slice() == [7u8, 2, 2, 4, 0, 1, 2, 8, 9].as_slice());
    Ok(())
}

#[test]
fn pixels_come_from_another_image(rt: HostRuntime) -> Result<(), Fail> {
    let mut owner = padded(rt.alloc())?;
    let source = [300u16, 2, 3, 99, 99, 4, 500, 6];
    let source = Img::new_stride(source.as_slice(), 3, 2, 5);
    assert!(rt; owner.is_valid() && source.is_valid());
    assert!(rt; source.width() == owner.width() && source.height() == owner.height());
    owner.map_from(source, |p| if p > 255 { 255 } else { 1 });
    assert!(rt; owner.buf().as_slice() == [255u8, 1, 1, 4, 1, 255, 1, 8, 9].as_slice());
    Ok(())
}

// The clause says which results are written, and not how often the closure is called.
#[test]
fn a_closure_is_called_once_a_pixel(rt: HostRuntime) -> Result<(), Fail> {
    let mut owner = padded(rt.alloc())?;
    let calls = Cell::new(0usize);
    owner.map_pixels(|p| {
        calls.set(calls.get().wrapping_add(1));
        p
    });
    assert!(rt; calls.get() == 6);
    Ok(())
}

// The same of a comparison, up to the first pair that differs: here the fifth.
#[test]
fn a_closure_is_called_once_a_pair(rt: HostRuntime) {
    let other = [1u8, 2, 3, 0, 5, 0, 7];
    let first = Img::new_stride(PADDED.as_slice(), 3, 2, 4);
    let second = Img::new_stride(other.as_slice(), 3, 2, 4);
    assert!(rt; first.is_valid() && second.is_valid());
    let calls = Cell::new(0usize);
    let same = first.same_pixels_by(second, |p, q| {
        calls.set(calls.get().wrapping_add(1));
        *p == *q
    });
    assert!(rt; !same && calls.get() == 5);
}

#[test]
fn rows_of_a_window_change_places(rt: HostRuntime) -> Result<(), Fail> {
    let mut owner = square(rt.alloc())?;
    assert!(rt; owner.has_window(1, 1, 2, 2));
    let mut window = owner.sub_image_mut(1, 1, 2, 2);
    assert!(rt; window.height() == 2);
    window.swap_rows(0, 1);
    assert!(rt; owner.buf().as_slice() == [1u8, 2, 3, 0, 4, 8, 9, 0, 7, 5, 6].as_slice());
    Ok(())
}
