//! Tiles borrowed one after the other.

use super::fixtures::{GREATEST, write};
use image_tiles::TilesMut;
use imgref::{Img, ImgRefMut};
use imgref_fixtures::{SQUARE, square_mut};
use std::process::Abort;

// The tiles of the square, as wide as high.
fn tiles_of<'a>(rt: &impl Abort, cells: &'a mut [u8; 11], size: usize) -> TilesMut<'a, u8> {
    let image = square_mut(cells);
    assert!(rt; image.is_valid() && size > 0);
    TilesMut::new(image, size, size)
}

// Sets each pixel of the next tile, and returns its width, height, stride and the length of its
// buffer.
fn mark(tiles: &mut TilesMut<'_, u8>, value: u8) -> Option<[usize; 4]> {
    let mut tile = tiles.next_tile()?;
    let size = [tile.width(), tile.height(), tile.stride(), tile.buf().len()];
    for y in 0..tile.height() {
        for x in 0..tile.width() {
            let _ = write(&mut tile, x, y, value);
        }
    }
    Some(size)
}

#[test]
fn tiles_are_lent_one_after_the_other(rt: HostRuntime) {
    let mut cells = SQUARE;
    let mut tiles = tiles_of(&rt, &mut cells, 2);
    let sizes = [
        Some([2, 2, 4, 8]),
        Some([1, 2, 4, 8]),
        Some([2, 1, 4, 2]),
        Some([1, 1, 4, 1]),
        None,
        None,
    ];
    let mut left = 4usize;
    let mut value = 0u8;
    for due in sizes {
        assert!(rt;
            tiles.remaining() == left && mark(&mut tiles, value) == due,
            "tile {value}"
        );
        left = left.saturating_sub(1);
        value = value.saturating_add(1);
    }
    let whole = tiles.into_img();
    assert!(rt; (whole.width(), whole.height(), whole.stride()) == (3, 3, 4));
    let left = [0u8, 0, 1, 0, 0, 0, 1, 0, 2, 2, 3];
    assert!(rt; whole.as_ref().into_buf() == left.as_slice());
}

#[test]
fn tiles_dropped_early_leave_what_was_written(rt: HostRuntime) {
    let mut cells = SQUARE;
    let mut tiles = tiles_of(&rt, &mut cells, 2);
    assert!(rt; mark(&mut tiles, 0).is_some() && mark(&mut tiles, 1).is_some());
    drop(tiles);
    assert!(rt; cells == [0u8, 0, 1, 0, 0, 0, 1, 0, 7, 8, 9]);
}

#[test]
fn tiles_of_other_sizes_are_lent(rt: HostRuntime) {
    for (size, left, first) in [
        (1usize, 9usize, [1, 1, 4, 4]),
        (3, 1, [3, 3, 4, 11]),
        (4, 1, [3, 3, 4, 11]),
        (GREATEST, 1, [3, 3, 4, 11]),
    ] {
        let mut cells = SQUARE;
        let mut tiles = tiles_of(&rt, &mut cells, size);
        assert!(rt;
            tiles.remaining() == left && mark(&mut tiles, 0) == Some(first),
            "{size}"
        );
        assert!(rt; mark(&mut tiles, 1).is_some() == (left > 1), "{size}");
    }
}

#[test]
fn an_image_with_no_pixel_has_no_tile(rt: HostRuntime) {
    let mut cells = [9u8, 9];
    let narrow: ImgRefMut<'_, u8> = Img::new_stride(cells.as_mut_slice(), 0, 2, 1);
    assert!(rt; narrow.is_valid());
    let mut tiles = TilesMut::new(narrow, 1, 1);
    assert!(rt; mark(&mut tiles, 0) == None && tiles.remaining() == 0);
}

#[test]
fn pixels_of_no_size_have_tiles(rt: HostRuntime) {
    let mut cells = [(); 5];
    let image: ImgRefMut<'_, ()> = Img::new_stride(cells.as_mut_slice(), 2, 2, 3);
    assert!(rt; image.is_valid());
    let mut tiles = TilesMut::new(image, 1, 2);
    assert!(rt; tiles.remaining() == 2);
    assert!(rt; tiles.next_tile().is_some() && tiles.next_tile().is_some());
    assert!(rt; tiles.next_tile().is_none());
}
