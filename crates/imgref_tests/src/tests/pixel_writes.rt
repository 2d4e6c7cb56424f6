//! Pixels one after the other, for writing, and fills.

ghost use Rattle.image_model.specs.Layout.{Fits};
ghost use Rattle.imgref.specs.Image.{mut_layout, vec_layout};

use imgref::{AsMutSlice, Img, ImgRef, ImgRefMut, ImgVec, Shape, fill_pixels};
use imgref_examples::write_first;
use imgref_fixtures::{PADDED, cells_of, is_over, len_of, padded, padded_mut};
use std::process::Abort;
use std::test::Fail;

fn add_one(image: &mut ImgVec<u8>)
    requires { Fits (vec_layout image.old) }
{
    for pixel in image.pixels_mut() {
        *pixel = pixel.wrapping_add(1);
    }
}

fn count_lent(image: &ImgRefMut<'_, u8>) -> usize
    requires { Fits (mut_layout image.now) }
{
    image.pixels().count()
}

fn count_seen(image: &ImgRefMut<'_, u8>) -> usize
    requires { Fits (mut_layout image.now) }
{
    image.as_ref().pixels().count()
}

fn count_written(image: &mut ImgRefMut<'_, u8>) -> usize
    requires { Fits (mut_layout image.old) }
{
    image.pixels_mut().count()
}

#[test]
fn a_loop_writes_the_pixels_alone(rt: HostRuntime) -> Result<(), Fail> {
    let mut image = padded(rt.alloc())?;
    assert!(rt; image.is_valid());
    add_one(&mut image);
    assert!(rt; image.buf().as_slice() == [2u8, 3, 4, 4, 6, 7, 8, 8, 9].as_slice());
    Ok(())
}

#[test]
fn pixels_without_size(rt: HostRuntime) -> Result<(), Fail> {
    let cells = [(), (), (), (), ()];
    let image = ImgRef::new_stride(cells.as_slice(), 2, 2, 3);
    assert!(rt; image.is_valid() && image.pixels().count() == 4);
    let mut pixels = image.pixels();
    for left in [4, 3, 2, 1] {
        assert!(rt; len_of(&pixels) == left && pixels.next().is_some());
    }
    assert!(rt; len_of(&pixels) == 0 && is_over(&mut pixels) && is_over(&mut pixels));
    Ok(())
}

#[test]
fn pixels_without_size_are_seen(rt: HostRuntime) {
    let cells = [(), (), (), (), ()];
    let image = ImgRef::new_stride(cells.as_slice(), 2, 2, 3);
    assert!(rt; image.is_valid());
    let mut seen = image.pixels_ref();
    for left in [4, 3, 2, 1] {
        assert!(rt; len_of(&seen) == left && seen.next().is_some());
    }
    assert!(rt; is_over(&mut seen) && is_over(&mut seen));
}

#[test]
fn pixels_without_size_are_lent(rt: HostRuntime) {
    let mut cells = [(), (), (), (), ()];
    let mut writing = ImgRefMut::new_stride(cells.as_mut_slice(), 2, 2, 3);
    assert!(rt; writing.is_valid());
    let mut items = writing.pixels_mut();
    for left in [4, 3, 2, 1] {
        assert!(rt; len_of(&items) == left && items.next().is_some());
    }
    assert!(rt; is_over(&mut items) && is_over(&mut items));
}

// What the nine cells are once so many pixels are 0.
const CLEARED: [(usize, [u8; 9]); 8] = [
    (0, PADDED),
    (1, [0, 2, 3, 4, 5, 6, 7, 8, 9]),
    (2, [0, 0, 3, 4, 5, 6, 7, 8, 9]),
    (3, [0, 0, 0, 4, 5, 6, 7, 8, 9]),
    (4, [0, 0, 0, 4, 0, 6, 7, 8, 9]),
    (5, [0, 0, 0, 4, 0, 0, 7, 8, 9]),
    (6, [0, 0, 0, 4, 0, 0, 0, 8, 9]),
    (7, [0, 0, 0, 4, 0, 0, 0, 8, 9]),
];

// Sets so many pixels to 0, and drops the iterator.
fn clear_first<C: AsMutSlice<Item = u8>>(rt: &impl Abort, image: &mut Img<C>, count: usize) {
    assert!(rt; image.is_valid());
    let mut pixels = image.pixels_mut();
    for _ in 0..count {
        if let Some(pixel) = pixels.next() {
            *pixel = 0;
        }
    }
    drop(pixels);
}

// Also by `write_first`, which drops its cursor too.
#[test]
fn writes_before_a_drop_stand(rt: HostRuntime) -> Result<(), Fail> {
    for (count, left) in CLEARED {
        let (mut image, mut other) = (padded(rt.alloc())?, padded(rt.alloc())?);
        clear_first(&rt, &mut image, count);
        write_first(&mut other, count, 0);
        assert!(rt;
            image.buf().as_slice() == left.as_slice() && other.buf().as_slice() == left.as_slice(),
            "{count}"
        );
        let (mut cells, mut others) = (PADDED, PADDED);
        clear_first(&rt, &mut padded_mut(&mut cells), count);
        write_first(&mut padded_mut(&mut others), count, 0);
        assert!(rt; cells == left && others == left, "{count}");
    }
    Ok(())
}

#[test]
fn one_row_at_the_greatest_stride(rt: HostRuntime) -> Result<(), Fail> {
    let mut cells = [5u8];
    let mut image = ImgRefMut::new_stride(cells.as_mut_slice(), 1, 1, usize::MAX);
    assert!(rt; image.is_valid());
    let mut pixels = image.pixels();
    assert!(rt; pixels.next() == Some(5) && is_over(&mut pixels) && is_over(&mut pixels));
    image.fill(7);
    assert!(rt; cells == [7u8]);
    Ok(())
}

#[test]
fn fills_the_pixels_alone(rt: HostRuntime) -> Result<(), Fail> {
    let filled = [0u8, 0, 0, 4, 0, 0, 0, 8, 9];
    let mut owned = padded(rt.alloc())?;
    let mut cells = PADDED;
    let mut lent = padded_mut(&mut cells);
    assert!(rt; owned.is_valid() && lent.is_valid());
    owned.fill(0);
    lent.fill(0);
    assert!(rt; owned.buf().as_slice() == filled.as_slice() && cells == filled);
    let mut cells = PADDED;
    fill_pixels(&mut cells[1..], Shape::new(2, 2, 4), 0);
    assert!(rt; cells == [1u8, 0, 0, 4, 5, 0, 0, 8, 9]);
    Ok(())
}

// Whether each cursor over a lent image gives so many pixels.
fn has_count(image: &mut ImgRefMut<'_, u8>, count: usize) -> bool
    requires { Fits (mut_layout image.old) }
{
    count_lent(image) == count && count_seen(image) == count && count_written(image) == count
}

#[test]
fn each_kind_has_all_its_pixels(rt: HostRuntime) -> Result<(), Fail> {
    let mut cells = cells_of(rt.alloc(), 10000, 0)?;
    let mut others = cells_of(rt.alloc(), 10000, 0)?;
    for width in 1..10usize {
        for height in 1..15usize {
            let count = width * height;
            let mut owner = ImgVec::new_stride(cells, width, height, 100);
            assert!(rt; owner.is_valid() && owner.pixels_mut().count() == count);
            cells = owner.into_buf();
            let mut lent = ImgRefMut::new_stride(others.as_mut_slice(), width, height, 100);
            assert!(rt; lent.is_valid() && has_count(&mut lent, count));
        }
    }
    Ok(())
}
