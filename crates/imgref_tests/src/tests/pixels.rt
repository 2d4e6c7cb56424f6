//! Pixels one after the other, for reading.

ghost use Rattle.std.specs.Prelude.{◌≡◌, ◌+◌, ◌*◌, ◌%◌, ◌^◌, ◌<◌, ◌↔◌, IsTrue, All, count_by, fold, nat_eq, drop};
ghost use Rattle.image_model.specs.Layout.{Fits};
ghost use Rattle.image_model.specs.Rows.{pixels};
ghost use Rattle.imgref.specs.Image.{width_of, height_of, ref_layout};
ghost use Rattle.imgref.specs.Pixels.{copies_left};

use imgref::{ImgRef, ImgRefMut, ImgVec, PixelsIter, PixelsRefIter};
use imgref_fixtures::{PADDED, is_over, len_of, padded, small_image};
use std::alloc::{AllocError, Global};
use std::test::Fail;

// What a caller learns from a chain over the pixels.
fn count_pixels(image: ImgRef<'_, u8>) -> usize
    requires { Fits (ref_layout image) }
    ensures { result ≡ width_of image.entry * height_of image.entry }
{
    image.pixels().count()
}

fn all_below(image: ImgRef<'_, u8>, limit: u8) -> bool
    requires { Fits (ref_layout image) }
    ensures { IsTrue result ↔ All (λ p. p < limit) (pixels (ref_layout image.entry)) }
{
    image.pixels().all(|pixel| pixel < limit)
}

fn sum_of(image: ImgRef<'_, u64>) -> u64
    requires fits { Fits (ref_layout image) }
    requires small { fold (λ a x. a + x) 0 (pixels (ref_layout image)) < 2 ^ 64 }
    ensures { result ≡ fold (λ a x. a + x) 0 (pixels (ref_layout image.entry)) }
{
    image.pixels().sum()
}

fn wrapping_sum(image: ImgRef<'_, u8>) -> u64
    requires { Fits (ref_layout image) }
    ensures { result ≡ fold (λ a x. (a + x) % 2 ^ 64) 0 (pixels (ref_layout image.entry)) }
{
    image
        .pixels()
        .fold(0u64, |sum, pixel| sum.wrapping_add(pixel as u64))
}

fn whole_weight(image: ImgRef<'_, Bead>) -> u64
    requires { Fits (ref_layout image) }
{
    image
        .pixels_ref()
        .fold(0u64, |sum, bead| sum.wrapping_add(bead.weight as u64))
}

// And from a loop.
fn count_equal(image: ImgRef<'_, u8>, value: u8) -> usize
    requires { Fits (ref_layout image) }
    ensures { result ≡ count_by (λ p. nat_eq p value) (pixels (ref_layout image.entry)) }
{
    let mut count = 0;
    for pixel in image.pixels() {
        if pixel == value {
            count += 1;
        }
    }
    count
}

// A loop over each kind of cursor needs no proof of its own to end.
fn sum_seen(image: ImgRef<'_, u8>) -> u64
    requires { Fits (ref_layout image) }
{
    let mut sum = 0u64;
    for pixel in image.pixels_ref() {
        sum = sum.wrapping_add(*pixel as u64);
    }
    sum
}

// After some steps a cursor still gives the pixels from that number on.
fn skip_pixels(pixels: &mut PixelsIter<'_, u8>, count: usize)
    ensures { copies_left pixels.new ≡ drop count (copies_left pixels.old) }
{
    for _ in 0..count {
        pixels.next();
    }
}

// A pixel that can't be copied.
#[derive(Drop)]
struct Bead {
    weight: u8,
}

// Whether all that an iterator gives is the pixels of `PADDED`.
fn gives_padded(alloc: Global, pixels: PixelsIter<'_, u8>) -> Result<bool, AllocError> {
    let found: Vec<u8> = pixels.collect(alloc)?;
    Ok(found.as_slice() == [1u8, 2, 3, 5, 6, 7].as_slice())
}

// Whether all that a cursor shows is those pixels.
fn shows_padded(pixels: PixelsRefIter<'_, u8>) -> bool {
    let mut pixels = pixels;
    for expected in [1u8, 2, 3, 5, 6, 7] {
        if pixels.next() != Some(&expected) {
            return false;
        }
    }
    pixels.next() == None && pixels.next() == None
}

// Whether these three are the next that an iterator gives.
fn gives(pixels: &mut PixelsIter<'_, u8>, due: [Option<u8>; 3]) -> bool {
    pixels.next() == due[0] && pixels.next() == due[1] && pixels.next() == due[2]
}

#[test]
fn each_kind_gives_its_pixels(rt: HostRuntime) -> Result<(), Fail> {
    let mut cells = PADDED;
    let owned = padded(rt.alloc())?;
    let lent = ImgRefMut::new_stride(cells.as_mut_slice(), 3, 2, 4);
    let view = ImgRef::new_stride(PADDED.as_slice(), 3, 2, 4);
    assert!(rt; owned.is_valid() && lent.is_valid() && view.is_valid());
    assert!(rt; gives_padded(rt.alloc(), owned.pixels())?);
    assert!(rt; gives_padded(rt.alloc(), lent.pixels())?);
    assert!(rt; gives_padded(rt.alloc(), view.pixels())?);
    assert!(rt; shows_padded(view.pixels_ref()));
    Ok(())
}

#[test]
fn chains_and_loops_over_pixels(rt: HostRuntime) -> Result<(), Fail> {
    let view = ImgRef::new_stride(PADDED.as_slice(), 3, 2, 4);
    assert!(rt; view.is_valid());
    assert!(rt;
        (view
            .pixels()
            .map(|pixel| pixel as u64)
            .fold(0, u64::wrapping_add))
            == 24
    );
    assert!(rt; count_pixels(view) == 6 && all_below(view, 8) && !all_below(view, 7));
    assert!(rt; count_equal(view, 5) == 1 && count_equal(view, 4) == 0);
    assert!(rt; sum_seen(view) == 24 && wrapping_sum(view) == 24);
    let mut pixels = view.pixels();
    skip_pixels(&mut pixels, 4);
    assert!(rt; gives(&mut pixels, [Some(6), Some(7), None]));
    Ok(())
}

#[test]
fn pixels_of_a_nested_window(rt: HostRuntime) -> Result<(), Fail> {
    let view = ImgRef::new_stride(PADDED.as_slice(), 3, 2, 4);
    assert!(rt; view.is_valid() && view.has_window(1, 0, 2, 2));
    let outer = view.sub_image(1, 0, 2, 2);
    assert!(rt; outer.is_valid() && outer.has_window(1, 0, 1, 2));
    let inner = outer.sub_image(1, 0, 1, 2);
    assert!(rt; inner.is_valid());
    let found: Vec<u8> = inner.pixels().collect(rt.alloc())?;
    assert!(rt; found.as_slice() == [3u8, 7].as_slice());
    Ok(())
}

#[test]
fn sizes_of_pixels_that_are_no_copies(rt: HostRuntime) -> Result<(), Fail> {
    let beads = [
        Bead { weight: 1 },
        Bead { weight: 2 },
        Bead { weight: 3 },
        Bead { weight: 4 },
        Bead { weight: 5 },
    ];
    let image = ImgRef::new_stride(beads.as_slice(), 2, 2, 3);
    assert!(rt; image.is_valid());
    assert!(rt; whole_weight(image) == 12);
    let mut pixels = image.pixels_ref();
    for (left, weight) in [(4, 1u8), (3, 2), (2, 4), (1, 5)] {
        assert!(rt; pixels.size_hint() == (left, Some(left)));
        assert!(rt; pixels.next().map(|bead| bead.weight) == Some(weight));
    }
    assert!(rt; pixels.size_hint() == (0, Some(0)) && is_over(&mut pixels) && is_over(&mut pixels));
    Ok(())
}

#[test]
fn every_small_size_has_its_pixels(rt: HostRuntime) -> Result<(), Fail> {
    for number in 0..315 {
        let image = small_image(rt.alloc(), number)?;
        let count = image.shape().pixel_count();
        assert!(rt; image.is_valid() && adds_to(&image, count));
        assert!(rt; image.is_valid() && gives_count(image.pixels(), count));
    }
    Ok(())
}

// Whether the pixels are so many, and add to that.
fn adds_to(image: &ImgVec<u8>, count: usize) -> bool {
    if !image.is_valid() {
        return false;
    }
    let sum = image
        .pixels()
        .map(|pixel| pixel as usize)
        .fold(0, usize::wrapping_add);
    sum == count && image.pixels().count() == count
}

// Whether so many pixels are left before each step, down to none.
fn gives_count(pixels: PixelsIter<'_, u8>, count: usize) -> bool {
    let mut pixels = pixels;
    for taken in 0..count {
        if len_of(&pixels) != count - taken || pixels.next().is_none() {
            return false;
        }
    }
    is_over(&mut pixels) && len_of(&pixels) == 0
}

#[test]
fn a_column_gives_its_pixels(rt: HostRuntime) {
    let column = ImgRef::new([1u8, 2].as_slice(), 1, 2);
    assert!(rt; column.is_valid());
    assert!(rt; gives(&mut column.pixels(), [Some(1), Some(2), None]));
}

#[test]
fn no_pixel_has_the_sum_0(rt: HostRuntime) {
    let none: ImgRef<'_, u64> = ImgRef::new_stride(&[], 0, 3, 1);
    assert!(rt; none.is_valid());
    assert!(rt; sum_of(none) == 0);
}
