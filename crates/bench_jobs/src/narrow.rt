//! Images of few columns and many rows: a call for each row is most of the time. And windows of
//! three pixels.

use crate::digest::Digest;
use crate::numbers::Numbers;
use crate::photos::{Pixel, add_image, photo};
use crate::request::{Fault, Size};
use imgref::{ImgRef, ImgVec};
use std::alloc::Global;

// Fills, copies and moves windows of an image, and mirrors it.
fn change<T: Pixel>(
    numbers: &mut Numbers,
    image: &mut ImgVec<T>,
    source: ImgRef<'_, T>,
) -> Result<(), Fault> {
    let (width, height) = (image.width(), image.height());
    if width == 0 || height < 4 || source.width() != width || source.height() != height {
        return Err(Fault::Input);
    }
    if !image.is_valid() || !source.is_valid() {
        return Err(Fault::Input);
    }
    let (left, top) = (numbers.below(width), numbers.below(3));
    let part = source.sub_image(0, 0, width - left, height - top);
    image.copy_window(left, top, part);
    image.fill_window(
        left,
        top,
        (width - left).min(3),
        height - top,
        T::of(numbers.next()),
    );
    image.move_window(0, 0, 0, top, width, height - top);
    image.move_window(0, 0, left, 0, width - left, height);
    image.flip_columns();
    image.flip_rows();
    image.mosaic_inside(imgref::Window::new(0, 0, width, height / 2), 3, 3);
    Ok(())
}

// Reads and writes each pixel of an image, by cursors and by a closure.
fn pass<T: Pixel>(digest: &mut Digest, image: &mut ImgVec<T>, key: u64) -> Result<(), Fault> {
    if !image.is_valid() {
        return Err(Fault::Input);
    }
    image.map_pixels(|pixel| T::of(pixel.number() ^ key));
    let mut sum = 0u64;
    for pixel in image.pixels() {
        sum = sum.wrapping_add(pixel.number());
    }
    for row in image.rows() {
        if let Some(first) = row.first() {
            sum = sum.rotate_left(1) ^ first.number();
        }
    }
    digest.add(sum);
    Ok(())
}

// Writes through a cursor over all pixels.
fn number_all<T: Pixel>(image: &mut ImgVec<T>, first: u64) -> Result<(), Fault> {
    if !image.is_valid() {
        return Err(Fault::Input);
    }
    let mut number = first;
    for pixel in image.pixels_mut() {
        *pixel = T::of(number);
        number = number.wrapping_add(7);
    }
    Ok(())
}

// Changes, reads, compares and compacts two images of this size, and transposes one to the other's
// turned size.
fn go_through<T: Pixel>(
    alloc: Global,
    numbers: &mut Numbers,
    digest: &mut Digest,
    width: usize,
    height: usize,
    stride: usize,
) -> Result<(), Fault> {
    let mut image: ImgVec<T> = photo(alloc, numbers, width, height, stride)?;
    let mut other: ImgVec<T> = photo(alloc, numbers, width, height, stride.saturating_add(1))?;
    change(numbers, &mut image, other.as_ref())?;
    pass(digest, &mut image, numbers.next())?;
    number_all(&mut other, numbers.next())?;
    if !image.is_valid() || !other.is_valid() {
        return Err(Fault::Input);
    }
    if image.width() != other.width() || image.height() != other.height() {
        return Err(Fault::Input);
    }
    digest.add(u64::from(image == other));
    other.copy_from(image.as_ref());
    if !other.is_valid() {
        return Err(Fault::Input);
    }
    digest.add(u64::from(image.same_pixels(other.as_ref())));
    other.as_contiguous_buf();
    add_image(digest, &image);
    add_image(digest, &other);
    Ok(())
}

// Copies the rows of an image, one after the other, to a buffer of its own.
fn join(
    alloc: Global,
    numbers: &mut Numbers,
    digest: &mut Digest,
    width: usize,
    height: usize,
) -> Result<(), Fault> {
    let image: ImgVec<u8> = photo(alloc, numbers, width, height, width.saturating_add(5))?;
    let (buf, _, _) = image.as_ref().to_contiguous_buf(alloc)?;
    digest.add_bytes(&buf);
    Ok(())
}

/// Goes through images of 1 to 16 columns and 100,000 rows, and of rows that have no padding.
pub(crate) fn run(
    alloc: Global,
    size: Size,
    numbers: &mut Numbers,
    digest: &mut Digest,
) -> Result<(), Fault> {
    let height = size.pick(100_000, 30);
    for _ in 0..size.pick(4, 1) {
        for width in 1..17 {
            go_through::<u8>(alloc, numbers, digest, width, height, width + 3)?;
            join(alloc, numbers, digest, width, height)?;
        }
        for width in [1, 3, 16] {
            go_through::<[u8; 3]>(alloc, numbers, digest, width, height, width + 1)?;
        }
        for width in [1, 2, 3, 5, 8, 16] {
            go_through::<u32>(alloc, numbers, digest, width, height, width)?;
        }
    }
    Ok(())
}
