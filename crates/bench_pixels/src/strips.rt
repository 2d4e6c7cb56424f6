//! Images that are turned by strips of columns.
//!
//! The rows of the photos begin a multiple of 4096 bytes apart, so that few of them stay in the nearest
//! cache. A half turn has no strips. Those of the squares begin a multiple of 256 bytes apart, and fill
//! the cache as far as they may.

ghost use Rattle.std.specs.Prelude.{◌≡◌};

use crate::digest::Digest;
use crate::numbers::Numbers;
use crate::photos::Photo;
use crate::request::{Fault, Size};
use image_shape::Shape;
use image_turns::{Orientation, orient_pixels, transpose_pixels};
use std::alloc::Global;

// Turns an image of pixels of three cells by a half, to another one of its size.
fn turn_half(target: &mut Photo, photo: &Photo) -> Result<(), Fault> {
    let (shape, from, columns) = (target.shape, photo.shape, photo.columns);
    if !shape.fits(target.cells.len()) || !from.fits(photo.cells.len()) {
        return Err(Fault::Input);
    }
    let Some(row) = columns.checked_mul(3) else {
        return Err(Fault::Input);
    };
    if from.width() != row || shape.width() != row || shape.height() != from.height() {
        return Err(Fault::Input);
    }
    let (cells, source) = (target.cells.as_mut_slice(), photo.cells.as_slice());
    orient_pixels(cells, shape, source, from, 3, columns, Orientation::Half);
    Ok(())
}

// Turns an image of so many columns and rows there and back by a half, so many times.
fn turn_photos(
    alloc: Global,
    numbers: &mut Numbers,
    digest: &mut Digest,
    size: (usize, usize, usize),
    times: usize,
) -> Result<(), Fault> {
    let (columns, rows, padding) = size;
    let mut photo = Photo::new(alloc, numbers, columns, rows, padding)?;
    let mut turned = Photo::new(alloc, numbers, columns, rows, padding)?;
    for _ in 0..times {
        turn_half(&mut turned, &photo)?;
        turn_half(&mut photo, &turned)?;
    }
    photo.add_to(digest);
    turned.add_to(digest);
    Ok(())
}

// Transposes a square of bytes at this stride to another one, so many times.
fn transpose(
    alloc: Global,
    byte: u8,
    side: usize,
    stride: usize,
    times: usize,
) -> Result<Vec<u8>, Fault> {
    let Some(shape) = Shape::checked(side, side, stride) else {
        return Err(Fault::Input);
    };
    let source = vec![in alloc; byte; stride.saturating_mul(side)]?;
    let mut target = vec![in alloc; 0u8; stride.saturating_mul(side)]?;
    for _ in 0..times {
        if shape.width() != shape.height()
            || !shape.fits(source.len())
            || !shape.fits(target.len())
        {
            return Err(Fault::Input);
        }
        transpose_pixels(target.as_mut_slice(), shape, &source, shape);
    }
    Ok(target)
}

/// Turns photos by a half, and transposes squares whose rows share few sets of the cache.
pub(crate) fn run(
    alloc: Global,
    size: Size,
    numbers: &mut Numbers,
    digest: &mut Digest,
) -> Result<(), Fault> {
    let (columns, side, times) = match size {
        Size::Full => (1000, 500, 8),
        Size::Small => (20, 40, 1),
    };
    let padding = 4096 - columns * 3;
    turn_photos(alloc, numbers, digest, (columns, 64, padding), times)?;
    for stride in [768, 1280, 640, 1152] {
        let byte = (numbers.next() & 255) as u8;
        digest.add_bytes(&transpose(alloc, byte, side, stride, times)?);
    }
    Ok(())
}
