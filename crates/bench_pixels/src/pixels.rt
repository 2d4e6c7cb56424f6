//! Images turned, mirrored, made mosaics, filled, and pixels counted.

ghost use Rattle.std.specs.Prelude.{◌≡◌};
ghost use Rattle.image_turns.specs.Oriented.{oriented_width, oriented_height};

use crate::digest::Digest;
use crate::numbers::Numbers;
use crate::photos::{CHANNELS, Photo, sizes};
use crate::request::{Fault, Size};
use image_ops::{count_value, mosaic_window_by, repeat_window};
use image_turns::{
    Orientation, flip_window_columns, flip_window_rows, orient_in_place, orient_pixels,
};
use std::alloc::Global;

// All ways in which an image is turned.
const ALL: [Orientation; 4] = [
    Orientation::Transposed,
    Orientation::Right,
    Orientation::Half,
    Orientation::Left,
];

// The width and height that an image gets.
fn turned_size(orientation: Orientation, columns: usize, rows: usize) -> (usize, usize)
    ensures width { result.0 ≡ oriented_width orientation columns rows }
    ensures height { result.1 ≡ oriented_height orientation columns rows }
{
    match orientation {
        Orientation::Half => (columns, rows),
        Orientation::Transposed | Orientation::Right | Orientation::Left => (rows, columns),
    }
}

// Turns an image to another one.
fn turn_to(target: &mut Photo, photo: &Photo, orientation: Orientation) -> Result<(), Fault> {
    let (shape, from) = (target.shape, photo.shape);
    let (columns, rows) = (photo.columns, from.height());
    let (width, height) = turned_size(orientation, columns, rows);
    if !shape.fits(target.cells.len()) || !from.fits(photo.cells.len()) {
        return Err(Fault::Input);
    }
    let (Some(row), Some(cells)) = (columns.checked_mul(3), width.checked_mul(3)) else {
        return Err(Fault::Input);
    };
    if from.width() != row || shape.width() != cells || shape.height() != height {
        return Err(Fault::Input);
    }
    let (cells, source) = (target.cells.as_mut_slice(), photo.cells.as_slice());
    orient_pixels(cells, shape, source, from, 3, columns, orientation);
    Ok(())
}

// Turns an image in place, where it keeps its size.
fn turn_inside(photo: &mut Photo, orientation: Orientation) -> Result<(), Fault> {
    let (shape, columns) = (photo.shape, photo.columns);
    let (width, _height) = turned_size(orientation, columns, shape.height());
    let Some(row) = columns.checked_mul(3) else {
        return Err(Fault::Input);
    };
    if !shape.fits(photo.cells.len()) || shape.width() != row {
        return Err(Fault::Input);
    }
    if width == columns {
        orient_in_place(photo.cells.as_mut_slice(), shape, 3, columns, orientation);
    }
    Ok(())
}

// Mirrors what is inside a border, and turns it upside down.
fn mirror_inside(photo: &mut Photo, border: usize) -> Result<(), Fault> {
    let (shape, window) = (photo.shape, photo.inner(border));
    let columns = window.width / 3;
    if !shape.fits(photo.cells.len()) || !shape.has_window(window) || window.width != columns * 3 {
        return Err(Fault::Input);
    }
    flip_window_columns(photo.cells.as_mut_slice(), shape, window, 3, columns);
    if !shape.fits(photo.cells.len()) {
        return Err(Fault::Input);
    }
    flip_window_rows(photo.cells.as_mut_slice(), shape, window);
    Ok(())
}

// Makes a mosaic of what is inside a border.
fn mosaic_inside(photo: &mut Photo, border: usize, tile: (usize, usize)) -> Result<(), Fault> {
    let (shape, window, (width, height)) = (photo.shape, photo.inner(border), tile);
    if !shape.fits(photo.cells.len()) || !shape.has_window(window) || width == 0 || height == 0 {
        return Err(Fault::Input);
    }
    let cells = photo.cells.as_mut_slice();
    mosaic_window_by(cells, shape, window, CHANNELS, width, height);
    Ok(())
}

// Fills what is inside a border with one pixel, and counts the pixels that have it then.
fn fill_inside(photo: &mut Photo, border: usize, pixel: [u8; 3]) -> Result<usize, Fault> {
    let (shape, window) = (photo.shape, photo.inner(border));
    if !shape.fits(photo.cells.len()) || !shape.has_window(window) {
        return Err(Fault::Input);
    }
    repeat_window(photo.cells.as_mut_slice(), shape, window, pixel.as_slice());
    if !shape.fits(photo.cells.len()) {
        return Err(Fault::Input);
    }
    Ok(count_value(photo.cells.as_slice(), shape, pixel.as_slice()))
}

// Does everything with one image.
fn change(
    alloc: Global,
    numbers: &mut Numbers,
    digest: &mut Digest,
    size: (usize, usize, usize),
    times: usize,
) -> Result<(), Fault> {
    let (columns, rows, padding) = size;
    let mut photo = Photo::new(alloc, numbers, columns, rows, padding)?;
    let mut wide = Photo::new(alloc, numbers, columns, rows, 0)?;
    let mut high = Photo::new(alloc, numbers, rows, columns, padding)?;
    for _ in 0..times {
        for orientation in ALL {
            match orientation {
                Orientation::Half => turn_to(&mut wide, &photo, orientation)?,
                _ => turn_to(&mut high, &photo, orientation)?,
            }
            turn_inside(&mut photo, orientation)?;
        }
        mirror_inside(&mut photo, 1)?;
        mirror_inside(&mut high, 0)?;
        for tile in [(2, 2), (3, 5), (16, 16)] {
            mosaic_inside(&mut wide, 0, tile)?;
        }
        let [red, green, blue, _, _, _, _, _] = numbers.next().to_le_bytes();
        digest.add(fill_inside(&mut high, 1, [red, green, blue])? as u64);
    }
    photo.add_to(digest);
    wide.add_to(digest);
    high.add_to(digest);
    Ok(())
}

/// Turns, mirrors and fills images of each size, makes mosaics of them, and counts pixels.
pub(crate) fn run(
    alloc: Global,
    size: Size,
    numbers: &mut Numbers,
    digest: &mut Digest,
) -> Result<(), Fault> {
    for (columns, rows, padding, times) in sizes(size) {
        change(alloc, numbers, digest, (columns, rows, padding), times)?;
    }
    Ok(())
}
