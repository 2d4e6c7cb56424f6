use crate::{
    fill_first_band, fill_next_tile, fill_through_path, mosaic_by_tiles, put_through_path,
};
use image_means::{SampleBytes, blur_samples};
use image_tiles::TilesMut;
use imgref::{Shape, Window};
use imgref_fixtures::{PADDED, padded, padded_mut};
use imgref_replay::window_at;
use std::test::Fail;

// The second window lies at the place (2, 0) of the image, and is one column wide.
const PATH: [Window; 2] = [
    Window {
        left: 1,
        top: 0,
        width: 2,
        height: 2,
    },
    Window {
        left: 1,
        top: 0,
        width: 1,
        height: 2,
    },
];

#[test]
fn tiles_are_filled_one_by_one(rt: HostRuntime) {
    let mut cells = PADDED;
    let mut tiles = TilesMut::new(padded_mut(&mut cells), 2, 1);
    assert!(rt; tiles.remaining() > 0);
    fill_next_tile(&mut tiles, 0);
    assert!(rt; tiles.remaining() > 0);
    fill_next_tile(&mut tiles, 7);
    assert!(rt; tiles.remaining() == 2);
    assert!(rt; cells == [0u8, 0, 7, 4, 5, 6, 7, 8, 9]);
}

#[test]
fn writes_through_a_path(rt: HostRuntime) -> Result<(), Fail> {
    let mut owner = padded(rt.alloc())?;
    assert!(rt; window_at(owner.as_ref(), PATH.as_slice()).is_ok());
    put_through_path(&mut owner, PATH.as_slice(), (0, 1), 0);
    assert!(rt; owner.into_buf().as_slice() == [1u8, 2, 3, 4, 5, 6, 0, 8, 9].as_slice());
    let mut cells = PADDED;
    let mut lent = padded_mut(&mut cells);
    assert!(rt; window_at(lent.as_ref(), PATH.as_slice()).is_ok());
    fill_through_path(&mut lent, PATH.as_slice(), 0);
    assert!(rt; cells == [1u8, 2, 0, 4, 5, 6, 0, 8, 9]);
    Ok(())
}

#[test]
fn a_band_is_filled(rt: HostRuntime) -> Result<(), Fail> {
    let mut owner = padded(rt.alloc())?;
    fill_first_band(&mut owner, 1, 0);
    assert!(rt; owner.into_buf().as_slice() == [0u8, 0, 0, 4, 5, 6, 7, 8, 9].as_slice());
    let mut cells = PADDED;
    let mut lent = padded_mut(&mut cells);
    fill_first_band(&mut lent, 5, 0);
    assert!(rt; cells == [0u8, 0, 0, 4, 0, 0, 0, 8, 9]);
    Ok(())
}

#[test]
fn a_mosaic_goes_tile_by_tile(rt: HostRuntime) {
    let mut cells = PADDED;
    let shape = Shape::new(3, 2, 4);
    assert!(rt; shape.fits(cells.len()));
    mosaic_by_tiles(cells.as_mut_slice(), shape, 2, 2);
    assert!(rt; cells == [1u8, 1, 3, 4, 1, 1, 3, 8, 9]);
}

// Six columns and four lines, and two cells of padding after each line.
const LINES: [u8; 32] = [
    9, 250, 3, 77, 41, 6, 0, 1, 200, 13, 255, 255, 90, 8, 2, 3, 0, 17, 64, 128, 31, 5, 4, 5, 99,
    100, 101, 255, 7, 222, 6, 7,
];

// The window of the image that is blurred.
const BLURRED: Window = Window {
    left: 1,
    top: 0,
    width: 4,
    height: 3,
};

// Whether a place of the window is in the box around another one.
fn is_near(x: usize, y: usize, column: usize, line: usize, across: usize, down: usize) -> bool {
    x.abs_diff(column) <= across && y.abs_diff(line) <= down
}

// The mean of the box around a place of the window, by two loops.
fn plain_mean(column: usize, line: usize, across: usize, down: usize) -> u64 {
    let mut sum = 0u64;
    let mut count = 0u64;
    for y in 0..3 {
        for x in 0..4 {
            if is_near(x, y, column, line, across, down) {
                sum = sum.saturating_add(u64::from(LINES[y * 8 + x + 1]));
                count = count.saturating_add(1);
            }
        }
    }
    sum.saturating_mul(2).saturating_add(count) / count.saturating_mul(2).max(1)
}

#[test]
fn a_blur_is_that_of_two_loops(rt: HostRuntime) {
    for radius in 0..6 {
        let mut cells = LINES;
        let shape = Shape::new(6, 4, 8);
        assert!(rt; shape.fits(cells.len()));
        let down = radius / 2;
        blur_samples(
            SampleBytes::One,
            cells.as_mut_slice(),
            shape,
            BLURRED,
            1,
            radius,
            down,
            [0u8; 32].as_mut_slice(),
            [9u32; 4].as_mut_slice(),
        );
        for k in 0..32 {
            let column = k % 8;
            let is_inside = column > 0 && column < 5 && k < 24;
            let mean = if is_inside {
                plain_mean(column - 1, k / 8, radius, down)
            } else {
                u64::from(LINES[k])
            };
            assert!(rt; u64::from(cells[k]) == mean, "{k} at {radius}");
        }
    }
}

#[test]
fn samples_of_two_bytes_are_blurred_apart(rt: HostRuntime) {
    // Two pixels of two samples: 1 and 256, then 2 and 65535.
    let mut cells = [0u8, 1, 1, 0, 0, 2, 255, 255];
    let shape = Shape::new(8, 1, 8);
    assert!(rt; shape.fits(cells.len()));
    blur_samples(
        SampleBytes::HighFirst,
        cells.as_mut_slice(),
        shape,
        Window {
            left: 0,
            top: 0,
            width: 8,
            height: 1,
        },
        4,
        1,
        0,
        [0u8; 8].as_mut_slice(),
        [0u32; 4].as_mut_slice(),
    );
    assert!(rt; cells == [0u8, 2, 128, 128, 0, 2, 128, 128]);
}
