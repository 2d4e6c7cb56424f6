//! Iterators for writing that are dropped before their end: what was written stays, and everything
//! else is as before.

use super::fixtures::{STRETCHES, window_mut};
use imgref::{AsMutSlice, AsSlice, Img, ImgRefMut, PixelsIterMut, RowsIterMut, Window};
use imgref_fixtures::{PADDED, SQUARE, len_of, next_from, padded, padded_mut, place_in, square};
use std::process::Abort;
use std::test::Fail;

// Four rows of three pixels, or of one with two cells of padding after it.
const TWELVE: [u8; 12] = [1, 2, 3, 4, 5, 6, 7, 8, 9, 10, 11, 12];

// What is written in each row that is taken.
const WRITTEN: u8 = 100;

// Writes the next row from the front or from the back, and returns whether there is one.
fn write_next(rows: &mut RowsIterMut<'_, u8>, is_front: bool) -> bool {
    match next_from(rows, is_front) {
        Some(row) => {
            row.fill(WRITTEN);
            true
        }
        None => false,
    }
}

// The numbers of rows taken from the front and from the back, once there is one more.
fn one_more(taken: (usize, usize), is_front: bool) -> (usize, usize) {
    if is_front {
        (taken.0.saturating_add(1), taken.1)
    } else {
        (taken.0, taken.1.saturating_add(1))
    }
}

// Takes so many rows, each from the front where the bit of its step is 0 and from the back
// elsewhere, writes them, and drops the iterator. The numbers of rows taken from each end.
fn take_rows<C: AsMutSlice<Item = u8>>(
    rt: &impl Abort,
    image: &mut Img<C>,
    mix: u32,
    steps: u32,
) -> (usize, usize) {
    assert!(rt; image.is_valid());
    let mut left = image.height();
    let mut rows = image.rows_mut();
    let mut taken = (0usize, 0usize);
    for step in 0..steps {
        let is_front = mix >> (step % 8) & 1 == 0;
        let is_due = left > 0;
        if is_due {
            left = left.saturating_sub(1);
            taken = one_more(taken, is_front);
        }
        assert!(rt;
            write_next(&mut rows, is_front) == is_due && len_of(&rows) == left,
            "step {step} of mix {mix}"
        );
    }
    taken
}

// Whether a place is one of a row that was taken, of so many rows.
fn is_taken(place: Option<(usize, usize)>, height: usize, taken: (usize, usize)) -> bool {
    match place {
        Some((_, y)) => y < taken.0 || y >= height.saturating_sub(taken.1),
        None => false,
    }
}

// A cell is written where it lies in a row that was taken, and no other cell has changed.
fn check_rows(
    rt: &impl Abort,
    cells: &[u8],
    old: &[u8],
    stride: usize,
    window: Window,
    taken: (usize, usize),
) {
    assert!(rt; cells.len() == old.len());
    for (at, cell) in cells.iter().enumerate() {
        let expected = if is_taken(place_in(window, stride, at), window.height, taken) {
            Some(&WRITTEN)
        } else {
            old.get(at)
        };
        assert!(rt; Some(cell) == expected, "cell {at} after {taken:?}");
    }
}

// Takes rows of an image of these cells.
fn check_all_rows<C: AsMutSlice<Item = u8>>(
    rt: &impl Abort,
    image: &mut Img<C>,
    old: &[u8],
    mix: u32,
    steps: u32,
) {
    let whole = Window::new(0, 0, image.width(), image.height());
    let taken = take_rows(rt, image, mix, steps);
    assert!(rt; taken.0.saturating_add(taken.1) == whole.height.min(steps as usize));
    check_rows(
        rt,
        image.buf().as_slice(),
        old,
        image.stride(),
        whole,
        taken,
    );
}

#[test]
fn rows_of_lent_cells_from_each_mix_of_ends(rt: HostRuntime) {
    for mix in 0..32u32 {
        for steps in 0..6u32 {
            let mut cells = TWELVE;
            let mut lent = ImgRefMut::new_stride(cells.as_mut_slice(), 1, 4, 3);
            check_all_rows(&rt, &mut lent, &TWELVE, mix, steps);
        }
    }
}

#[test]
fn rows_of_an_owner_from_each_mix_of_ends(rt: HostRuntime) -> Result<(), Fail> {
    for mix in 0..8u32 {
        for steps in 0..5u32 {
            check_all_rows(&rt, &mut square(rt.alloc())?, &SQUARE, mix, steps);
        }
    }
    Ok(())
}

#[test]
fn rows_of_an_inner_column_from_each_mix_of_ends(rt: HostRuntime) {
    let window = Window::new(1, 1, 2, 3);
    for mix in 0..16u32 {
        for steps in 0..5u32 {
            let mut cells = TWELVE;
            let mut lent = ImgRefMut::new_stride(cells.as_mut_slice(), 3, 4, 3);
            let taken = take_rows(&rt, &mut window_mut(&rt, &mut lent, window), mix, steps);
            check_rows(&rt, cells.as_slice(), TWELVE.as_slice(), 3, window, taken);
        }
    }
}

// Takes rows of a window of the image of nine cells.
fn check_window<C: AsMutSlice<Item = u8>>(
    rt: &impl Abort,
    image: &mut Img<C>,
    window: Window,
    mix: u32,
    steps: u32,
) {
    let taken = take_rows(rt, &mut window_mut(rt, image, window), mix, steps);
    check_rows(rt, image.buf().as_slice(), &PADDED, 4, window, taken);
}

#[test]
fn rows_of_each_window(rt: HostRuntime) -> Result<(), Fail> {
    for ((left, top, width, height), _, _, _) in STRETCHES {
        let window = Window::new(left, top, width, height);
        for mix in 0..4u32 {
            for steps in 0..4u32 {
                check_window(&rt, &mut padded(rt.alloc())?, window, mix, steps);
                let mut cells = PADDED;
                check_window(&rt, &mut padded_mut(&mut cells), window, mix, steps);
            }
        }
    }
    Ok(())
}

// Takes so many pixels, sets them to 0, and drops the iterator.
fn take_pixels(rt: &impl Abort, image: &mut ImgRefMut<'_, u8>, steps: usize) {
    assert!(rt; image.is_valid());
    let mut pixels = image.pixels_mut();
    for step in 0..steps {
        let left = pixels.len();
        assert!(rt; clear_next(&mut pixels) == (left > 0), "step {step}");
    }
}

// Sets the next pixel to 0, and returns whether there is one.
fn clear_next(pixels: &mut PixelsIterMut<'_, u8>) -> bool {
    match pixels.next() {
        Some(pixel) => {
            *pixel = 0;
            true
        }
        None => false,
    }
}

// Whether a cell of this number is 0, or else as it was.
fn is_due(cell: u8, at: usize, is_cleared: bool) -> bool {
    if is_cleared {
        cell == 0
    } else {
        PADDED.get(at) == Some(&cell)
    }
}

// The first so many pixels of a window are 0, and no other cell has changed.
fn check_pixels(rt: &impl Abort, cells: &[u8], window: Window, steps: usize) {
    assert!(rt; cells.len() == 9);
    let mut seen = 0usize;
    for (at, cell) in cells.iter().enumerate() {
        let is_pixel = place_in(window, 4, at).is_some();
        let is_due = is_due(*cell, at, is_pixel && seen < steps);
        assert!(rt; is_due, "cell {at} after {steps}");
        if is_pixel {
            seen = seen.saturating_add(1);
        }
    }
}

#[test]
fn pixels_of_each_window(rt: HostRuntime) -> Result<(), Fail> {
    for ((left, top, width, height), _, _, _) in STRETCHES {
        let window = Window::new(left, top, width, height);
        for steps in 0..8usize {
            let mut owner = padded(rt.alloc())?;
            take_pixels(&rt, &mut window_mut(&rt, &mut owner, window), steps);
            check_pixels(&rt, owner.buf().as_slice(), window, steps);
            let mut cells = PADDED;
            let mut lent = padded_mut(&mut cells);
            take_pixels(&rt, &mut window_mut(&rt, &mut lent, window), steps);
            check_pixels(&rt, &cells, window, steps);
        }
    }
    Ok(())
}

fn clear_three(rt: &impl Abort, image: &mut ImgRefMut<'_, u8>) {
    assert!(rt; image.is_valid());
    for pixel in image.pixels_mut().skip(1).take(3) {
        *pixel = 0;
    }
}

fn fill_last(rt: &impl Abort, image: &mut ImgRefMut<'_, u8>) {
    assert!(rt; image.is_valid());
    for row in image.rows_mut().rev().take(1) {
        row.fill(9);
    }
}

#[test]
fn adapters_that_stop_early_leave_the_rest(rt: HostRuntime) {
    let mut cells = PADDED;
    let mut lent = padded_mut(&mut cells);
    clear_three(&rt, &mut lent);
    fill_last(&rt, &mut lent);
    assert!(rt; cells == [1u8, 0, 0, 4, 9, 9, 9, 8, 9]);
}
