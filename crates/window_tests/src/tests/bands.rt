//! Bands of full width.

use super::fixtures::{GREATEST, write};
use image_tiles::BandsMut;
use imgref::{Img, ImgRefMut};
use imgref_fixtures::{SQUARE, square_mut};
use std::iter::ExactSizeIterator;
use std::process::Abort;

// The bands of the square.
fn bands_of<'a>(rt: &impl Abort, cells: &'a mut [u8; 11], height: usize) -> BandsMut<'a, u8> {
    let image = square_mut(cells);
    assert!(rt; image.is_valid() && height > 0);
    BandsMut::new(image, height)
}

// The next band, which is there.
fn next_of<'a>(rt: &impl Abort, bands: &mut BandsMut<'a, u8>) -> ImgRefMut<'a, u8> {
    let Some(band) = bands.next() else { panic!(rt) };
    band
}

// Whether a band has these lines of the square and these of its cells: the first one's number, and
// how many.
fn is_band(band: &ImgRefMut<'_, u8>, due: [usize; 3]) -> bool {
    let [lines, first, count] = due;
    (band.width(), band.height(), band.stride()) == (3, lines, 4)
        && SQUARE.get(first..first.saturating_add(count)) == Some(band.as_ref().into_buf())
}

// Whether the bands of the square are the first of these, and end there: each by its lines, the
// number of its first cell, and how many it has.
fn has_bands(height: usize, count: usize, bands: [[usize; 3]; 3]) -> bool {
    let mut cells = SQUARE;
    let image = square_mut(&mut cells);
    if !image.is_valid() || height == 0 {
        return false;
    }
    let mut found = BandsMut::new(image, height);
    let mut left = count;
    for due in bands {
        if found.size_hint() != (left, Some(left)) || found.len() != left {
            return false;
        }
        if left == 0 {
            break;
        }
        let Some(band) = found.next() else {
            return false;
        };
        if !is_band(&band, due) {
            return false;
        }
        left = left.saturating_sub(1);
    }
    found.next().is_none() && found.next().is_none() && found.len() == 0
}

// A band ends at its last pixel, but the last one at the buffer's end.
#[test]
fn bands_have_the_full_width_and_end_at_their_last_pixel(rt: HostRuntime) {
    assert!(rt; has_bands(1, 3, [[1, 0, 3], [1, 4, 3], [1, 8, 3]]));
    assert!(rt; has_bands(2, 2, [[2, 0, 7], [1, 8, 3], [0, 0, 0]]));
    for height in [3, 4, GREATEST] {
        assert!(rt;
            has_bands(height, 1, [[3, 0, 11], [0, 0, 0], [0, 0, 0]]),
            "{height}"
        );
    }
}

#[test]
fn an_image_with_no_pixel_has_no_band(rt: HostRuntime) {
    for (width, height) in [(0usize, 2usize), (2, 0)] {
        let mut cells = [9u8, 9];
        let image: ImgRefMut<'_, u8> = Img::new_stride(cells.as_mut_slice(), width, height, 2);
        assert!(rt; image.is_valid());
        let mut bands = BandsMut::new(image, 1);
        assert!(rt; bands.next().is_none() && cells == [9u8, 9]);
    }
    let mut cells = [9u8, 9];
    let narrow: ImgRefMut<'_, u8> = Img::new_stride(cells.as_mut_slice(), 0, 2, 1);
    assert!(rt; narrow.is_valid() && BandsMut::new(narrow, 1).next().is_none());
}

#[test]
fn two_bands_are_written_in_turn(rt: HostRuntime) {
    let mut cells = SQUARE;
    let mut bands = bands_of(&rt, &mut cells, 2);
    let mut upper = next_of(&rt, &mut bands);
    let mut lower = next_of(&rt, &mut bands);
    assert!(rt; write(&mut lower, 0, 0, 70) && write(&mut upper, 2, 1, 60));
    assert!(rt; write(&mut lower, 2, 0, 90) && write(&mut upper, 0, 0, 10));
    assert!(rt; !write(&mut lower, 0, 1, 0));
    assert!(rt; cells == [10, 2, 3, 0, 4, 5, 60, 0, 70, 8, 90]);
}

#[test]
fn bands_dropped_early_leave_what_was_written(rt: HostRuntime) {
    let mut cells = SQUARE;
    let mut bands = bands_of(&rt, &mut cells, 1);
    let mut first = next_of(&rt, &mut bands);
    assert!(rt; write(&mut first, 1, 0, 20));
    drop(bands);
    assert!(rt; write(&mut first, 2, 0, 30));
    assert!(rt; cells == [1, 20, 30, 0, 4, 5, 6, 0, 7, 8, 9]);
}

#[test]
fn pixels_of_no_size_have_bands(rt: HostRuntime) {
    let mut cells = [(); 5];
    let image: ImgRefMut<'_, ()> = Img::new_stride(cells.as_mut_slice(), 2, 2, 3);
    assert!(rt; image.is_valid());
    let mut bands = BandsMut::new(image, 1);
    let Some(mut band) = bands.next() else {
        panic!(rt)
    };
    assert!(rt; band.buf().len() == 2 && write(&mut band, 1, 0, ()) && bands.count() == 1);
}
