//! Equality and hashes: by size and pixels, for all strides, paddings and kinds.

ghost use Rattle.std.specs.Prelude.{◌≡◌, ◌<◌};

use imgref::{Img, ImgRef, ImgVec};
use std::alloc::{AllocError, Global};
use std::collections::HashSet;
use std::test::Fail;

// Two by two: packed, with padding after each row, and with padding between the two rows.
const PACKED: [u8; 4] = [0, 1, 2, 3];

const PADDED: [u8; 6] = [0, 1, 255, 2, 3, 255];

const SHORT: [u8; 5] = [0, 1, 255, 2, 3];

// A pixel of another type.
#[derive(Drop)]
struct Wide(u16);

// Each of these calls one bound alone, as a caller that knows no type does.
fn are_equal<I: PartialEq>(first: &I, second: &I) -> bool {
    first == second
}

// Whether of two keys the second isn't taken beside the first, and takes it out.
fn is_one_key(
    alloc: Global,
    first: ImgRef<'_, u8>,
    second: ImgRef<'_, u8>,
) -> Result<bool, AllocError> {
    let mut set = HashSet::new(alloc);
    let is_new = set.insert(first)?;
    let is_second_new = set.insert(second)?;
    let is_out = set.remove(&second);
    Ok(is_new && !is_second_new && is_out && set.is_empty())
}

#[test]
fn equal_pixels_make_equal_images(rt: HostRuntime) -> Result<(), Fail> {
    let packed: ImgVec<u8> = Img::new(PACKED.to_vec(rt.alloc())?, 2, 2);
    let padded: ImgVec<u8> = Img::new_stride(PADDED.to_vec(rt.alloc())?, 2, 2, 3);
    let short = short(rt.alloc())?;
    let line: ImgVec<u8> = Img::new(PACKED.to_vec(rt.alloc())?, 4, 1);
    assert!(rt; packed == padded && padded == short && packed == short && packed != line);
    assert!(rt; are_equal(&packed, &short) && !are_equal(&packed, &line));
    // Across kinds.
    assert!(rt; packed.same_pixels(padded.as_ref()) && !packed.same_pixels(line.as_ref()));
    Ok(())
}

fn short(alloc: Global) -> Result<ImgVec<u8>, AllocError> {
    Ok(Img::new_stride(SHORT.to_vec(alloc)?, 2, 2, 3))
}

#[test]
fn equal_pixels_make_equal_loans(rt: HostRuntime) -> Result<(), Fail> {
    let mut packed: ImgVec<u8> = Img::new(PACKED.to_vec(rt.alloc())?, 2, 2);
    let mut short = short(rt.alloc())?;
    assert!(rt; packed.as_ref() == short.as_ref() && packed.as_mut() == short.as_mut());
    // Across kinds.
    assert!(rt; packed.as_ref().same_pixels(short.as_ref()));
    assert!(rt; short.as_mut().same_pixels(packed.as_ref()));
    Ok(())
}

#[test]
fn another_pixel_makes_another_image(rt: HostRuntime) -> Result<(), Fail> {
    let packed: ImgVec<u8> = Img::new(PACKED.to_vec(rt.alloc())?, 2, 2);
    let mut short: ImgVec<u8> = Img::new_stride(SHORT.to_vec(rt.alloc())?, 2, 2, 3);
    short[(0usize, 0usize)] = 100;
    assert!(rt; packed != short && !packed.same_pixels(short.as_ref()));
    Ok(())
}

#[test]
fn equal_images_are_one_key(rt: HostRuntime) -> Result<(), Fail> {
    let packed = Img::new(PACKED.as_slice(), 2, 2);
    let padded = Img::new_stride(PADDED.as_slice(), 2, 2, 3);
    let short = Img::new_stride(SHORT.as_slice(), 2, 2, 3);
    let line = Img::new(PACKED.as_slice(), 4, 1);
    assert!(rt; is_one_key(rt.alloc(), packed, padded)?);
    assert!(rt; is_one_key(rt.alloc(), padded, short)?);
    assert!(rt; is_one_key(rt.alloc(), short, packed)?);
    assert!(rt; !is_one_key(rt.alloc(), packed, line)?);
    Ok(())
}

#[test]
fn empty_images_and_short_buffers(rt: HostRuntime) -> Result<(), Fail> {
    let none: [u8; 0] = [];
    let low: ImgRef<'_, u8> = Img::new_stride(none.as_slice(), 0, 3, 1);
    let high: ImgRef<'_, u8> = Img::new_stride(none.as_slice(), 0, 5, 1);
    assert!(rt; low == low && low != high);
    Ok(())
}

#[test]
fn images_that_do_not_fit_are_equal(rt: HostRuntime) -> Result<(), Fail> {
    let none: [u8; 0] = [];
    // Neither of these fits.
    let cells = [7u8];
    let far: ImgRef<'_, u8> = Img::new_stride(cells.as_slice(), 2, 2, usize::MAX);
    let near: ImgRef<'_, u8> = Img::new_stride(none.as_slice(), 2, 2, 2);
    assert!(rt; far == near && is_one_key(rt.alloc(), far, near)?);
    let whole = [1u8, 2, 3, 4];
    assert!(rt; far != Img::new(whole.as_slice(), 2, 2));
    Ok(())
}

#[test]
fn pixels_are_compared_by_a_closure(rt: HostRuntime) -> Result<(), Fail> {
    let wide = [Wide(0), Wide(1), Wide(2), Wide(3)];
    let first = Img::new(PACKED.as_slice(), 2, 2);
    let second = Img::new(wide.as_slice(), 2, 2);
    let line = Img::new(wide.as_slice(), 4, 1);
    assert!(rt; first.is_valid() && second.is_valid() && line.is_valid());
    assert!(rt; first.same_pixels_by(second, |byte, wide| *byte as u16 == wide.0));
    assert!(rt; !first.same_pixels_by(second, |byte, wide| (*byte as u16) < wide.0));
    assert!(rt; !first.same_pixels_by(line, |byte, wide| *byte as u16 == wide.0));
    Ok(())
}
