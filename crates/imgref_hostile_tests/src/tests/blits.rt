//! Pixels copied from another image, and windows moved within one.

use imgref::{AsMutSlice, Img, ImgRef, ImgRefMut, ImgVec};
use imgref_fixtures::{PADDED, SQUARE, padded_view, square, square_mut};
use std::alloc::{AllocError, Global};
use std::process::Abort;
use std::test::Fail;

// Two numbers: column and line, or width and height.
type Pair = (usize, usize);

// Moves a window of an image that fits, and returns whether it is inside before and after.
fn moves<C: AsMutSlice<Item = u8>>(image: &mut Img<C>, from: Pair, to: Pair, size: Pair) -> bool {
    let is_inside = image.has_window(from.0, from.1, size.0, size.1)
        && image.has_window(to.0, to.1, size.0, size.1);
    if !is_inside || !image.is_valid() {
        return false;
    }
    image.move_window(from.0, from.1, to.0, to.1, size.0, size.1);
    true
}

// Whether an image with the cells of `SQUARE` is left with these, as an owner and as a lent one, once
// a window of this size has moved.
fn leaves(
    alloc: Global,
    from: Pair,
    to: Pair,
    size: Pair,
    after: [u8; 11],
) -> Result<bool, AllocError> {
    let mut owner = square(alloc)?;
    let mut cells = SQUARE;
    let mut lent = square_mut(&mut cells);
    let is_moved = moves(&mut owner, from, to, size) && moves(&mut lent, from, to, size);
    Ok(is_moved && owner.buf().as_slice() == after.as_slice() && cells == after)
}

#[test]
fn a_window_moves_within_its_image(rt: HostRuntime) -> Result<(), Fail> {
    for (from, to, size, after) in [
        // Down and up over itself, up and to the right, and nowhere.
        ((0, 0), (1, 1), (2, 2), [1, 2, 3, 0, 4, 1, 2, 0, 7, 4, 5]),
        ((1, 1), (0, 0), (2, 2), [5, 6, 3, 0, 8, 9, 6, 0, 7, 8, 9]),
        ((0, 1), (1, 0), (2, 2), [1, 4, 5, 0, 4, 7, 8, 0, 7, 8, 9]),
        ((1, 1), (1, 1), (2, 2), SQUARE),
        // Empty windows.
        ((3, 3), (0, 0), (0, 0), SQUARE),
        ((0, 0), (3, 3), (0, 0), SQUARE),
        ((0, 3), (0, 0), (3, 0), SQUARE),
        ((0, 0), (0, 3), (3, 0), SQUARE),
        ((3, 0), (0, 0), (0, 3), SQUARE),
        ((0, 0), (3, 0), (0, 3), SQUARE),
        ((2, 3), (0, 0), (1, 0), SQUARE),
        ((0, 0), (2, 3), (1, 0), SQUARE),
    ] {
        assert!(rt;
            leaves(rt.alloc(), from, to, size, after)?,
            "{from:?} {to:?} {size:?}"
        );
    }
    Ok(())
}

#[test]
fn columns_of_one_row_move_by_one(rt: HostRuntime) -> Result<(), Fail> {
    let mut owner: ImgVec<u8> = Img::new(vec![in rt.alloc(); 1u8, 2, 3, 4]?, 4, 1);
    assert!(rt; moves(&mut owner, (0, 0), (1, 0), (2, 1)));
    assert!(rt; owner.buf().as_slice() == [1u8, 1, 2, 4].as_slice());
    assert!(rt; owner.has_window(0, 0, 4, 1) && moves(&mut owner, (2, 0), (1, 0), (2, 1)));
    assert!(rt; owner.buf().as_slice() == [1u8, 2, 4, 4].as_slice());
    Ok(())
}

// The cell of such a corner has a number past the type's end.
#[test]
fn the_corner_of_an_empty_window_is_not_looked_at(rt: HostRuntime) -> Result<(), Fail> {
    let last = u32::MAX as usize;
    let mut cells = [7u8];
    let mut tall: ImgRefMut<'_, u8> = Img::new_stride(cells.as_mut_slice(), 0, last, usize::MAX);
    tall.move_window(0, last, 0, 2, 0, 0);
    tall.move_window(0, 2, 0, last - 5, 0, 5);
    let none: ImgRef<'_, u8> = Img::new_stride(&[], 0, 5, usize::MAX);
    tall.copy_window(0, last - 5, none);
    assert!(rt; cells == [7u8]);
    Ok(())
}

#[test]
fn the_corner_of_a_window_without_lines_is_not_looked_at(rt: HostRuntime) -> Result<(), Fail> {
    let last = u32::MAX as usize;
    let mut cells = [7u8];
    let mut wide: ImgRefMut<'_, u8> = Img::new_stride(cells.as_mut_slice(), last, 0, usize::MAX);
    wide.move_window(last, 0, 3, 0, 0, 0);
    wide.move_window(3, 0, last - 5, 0, 5, 0);
    let none: ImgRef<'_, u8> = Img::new_stride(&[], last, 0, usize::MAX);
    wide.copy_from(none);
    wide.copy_window(0, 0, none);
    assert!(rt; cells == [7u8]);
    Ok(())
}

#[test]
fn an_image_is_copied_and_its_padding_stays(rt: HostRuntime) -> Result<(), Fail> {
    let mut owner: ImgVec<u8> = Img::new_stride(PADDED.to_vec(rt.alloc())?, 3, 2, 4);
    let source = [10u8, 20, 30, 40, 50, 60];
    let packed: ImgRef<'_, u8> = Img::new(source.as_slice(), 3, 2);
    assert!(rt; owner.is_valid() && packed.is_valid());
    owner.copy_from(packed);
    assert!(rt; owner.buf().as_slice() == [10u8, 20, 30, 4, 40, 50, 60, 8, 9].as_slice());
    Ok(())
}

#[test]
fn a_packed_image_gets_no_padding(rt: HostRuntime) -> Result<(), Fail> {
    let mut cells = [0u8; 7];
    let mut packed: ImgRefMut<'_, u8> = Img::new(cells.as_mut_slice(), 3, 2);
    let padded: ImgRef<'_, u8> = Img::new_stride(PADDED.as_slice(), 3, 2, 4);
    assert!(rt; packed.is_valid() && padded.is_valid());
    packed.copy_from(padded);
    assert!(rt; cells == [1u8, 2, 3, 5, 6, 7, 0]);
    Ok(())
}

// The cells of `SQUARE` with four pixels of the padded image.
const WITH_PART: [u8; 11] = [1, 2, 3, 0, 4, 2, 3, 0, 7, 6, 7];

#[test]
fn a_window_gets_an_image(rt: HostRuntime) -> Result<(), Fail> {
    let source = padded_view();
    assert!(rt; source.has_window(1, 0, 2, 2));
    let part = source.sub_image(1, 0, 2, 2);
    let mut owner = square(rt.alloc())?;
    assert!(rt; owner.has_window(1, 1, 2, 2));
    owner.copy_window(1, 1, part);
    assert!(rt; owner.buf().as_slice() == WITH_PART.as_slice());
    // Through a window for writing it is the same.
    let mut cells = SQUARE;
    let mut lent = square_mut(&mut cells);
    assert!(rt; lent.has_window(1, 1, 2, 2));
    lent.sub_image_mut(1, 1, 2, 2).copy_from(part);
    assert!(rt; cells == WITH_PART);
    Ok(())
}

#[test]
fn an_empty_image_is_copied_to_each_corner(rt: HostRuntime) -> Result<(), Fail> {
    let none: ImgRef<'_, u8> = Img::new_stride(&[], 0, 0, 1);
    for (left, top) in [(0, 0), (3, 0), (0, 3), (3, 3)] {
        let mut cells = SQUARE;
        let mut lent: ImgRefMut<'_, u8> = Img::new_stride(cells.as_mut_slice(), 3, 3, 4);
        assert!(rt; lent.is_valid());
        assert!(rt; lent.has_window(left, top, 0, 0));
        lent.copy_window(left, top, none);
        assert!(rt; cells == SQUARE, "{left},{top}");
    }
    Ok(())
}

#[test]
fn pixels_of_no_size_are_copied_and_moved(rt: HostRuntime) -> Result<(), Fail> {
    copies_by_the_greatest_numbers::<{ usize::MAX }>(&rt)
}

// Generic, since the check would count the elements of an array of known length one by one.
fn copies_by_the_greatest_numbers<const N: usize>(rt: &impl Abort) -> Result<(), Fail> {
    assert!(rt; N == usize::MAX);
    let mut cells = [(); N];
    let others = [(); N];
    let mut lent: ImgRefMut<'_, ()> = Img::new_stride(cells.as_mut_slice(), 2, 2, N - 2);
    let source: ImgRef<'_, ()> = Img::new_stride(others.as_slice(), 2, 2, N - 2);
    assert!(rt; lent.is_valid() && source.is_valid());
    lent.copy_from(source);
    lent.move_window(0, 1, 0, 0, 2, 1);
    lent.move_window(0, 0, 1, 0, 1, 2);
    lent.copy_window(1, 1, source.sub_image(0, 0, 1, 1));
    assert!(rt; lent.buf().len() == N);
    Ok(())
}
