//! Means of tiles, and blurs.

ghost use Rattle.std.specs.Prelude.{◌≡◌};

use crate::digest::Digest;
use crate::numbers::Numbers;
use crate::photos::{CHANNELS, Photo, sizes};
use crate::request::{Fault, Size};
use image_means::{SampleBytes, blur_samples, mean_window};
use std::alloc::Global;

// Each tile of what is inside a border shows the mean of its pixels.
fn mean_inside(photo: &mut Photo, border: usize, tile: (usize, usize)) -> Result<(), Fault> {
    let (shape, window, (width, height)) = (photo.shape, photo.inner(border), tile);
    if !shape.fits(photo.cells.len()) || !shape.has_window(window) || width == 0 || height == 0 {
        return Err(Fault::Input);
    }
    let cells = photo.cells.as_mut_slice();
    mean_window(cells, shape, window, CHANNELS, width, height);
    Ok(())
}

// Blurs what is inside a border, by so many pixels on each side.
fn blur_inside(
    photo: &mut Photo,
    border: usize,
    reach: (usize, usize),
    copy: &mut Vec<u8>,
    sums: &mut Vec<u32>,
) -> Result<(), Fault> {
    let (shape, window, (across, down)) = (photo.shape, photo.inner(border), reach);
    if !shape.fits(photo.cells.len()) || !shape.has_window(window) || window.width % 3 != 0 {
        return Err(Fault::Input);
    }
    if across >= 32768 || down >= 32768 || copy.len() < photo.cells.len() {
        return Err(Fault::Input);
    }
    let width = window.width;
    let Some(sums) = sums.as_mut_slice().get_mut(..width) else {
        return Err(Fault::Input);
    };
    let (cells, copy) = (photo.cells.as_mut_slice(), copy.as_mut_slice());
    let one = SampleBytes::One;
    blur_samples(one, cells, shape, window, 3, across, down, copy, sums);
    Ok(())
}

// Does everything with one image.
fn change(
    alloc: Global,
    numbers: &mut Numbers,
    digest: &mut Digest,
    size: (usize, usize, usize),
    times: usize,
) -> Result<(), Fault> {
    let (columns, rows, padding) = size;
    let mut photo = Photo::new(alloc, numbers, columns, rows, padding)?;
    let mut copy = vec![in alloc; 0u8; photo.cells.len()]?;
    let mut sums = vec![in alloc; 0u32; photo.shape.width()]?;
    for _ in 0..times {
        for reach in [(1, 1), (5, 3)] {
            blur_inside(&mut photo, 1, reach, &mut copy, &mut sums)?;
        }
        for tile in [(2, 2), (3, 5), (8, 8), (16, 16)] {
            mean_inside(&mut photo, 0, tile)?;
        }
    }
    photo.add_to(digest);
    Ok(())
}

/// Blurs images of each size, and makes mosaics of their means.
pub(crate) fn run(
    alloc: Global,
    size: Size,
    numbers: &mut Numbers,
    digest: &mut Digest,
) -> Result<(), Fault> {
    for (columns, rows, padding, times) in sizes(size) {
        change(alloc, numbers, digest, (columns, rows, padding), times)?;
    }
    Ok(())
}
