//! Photos turned, transposed and mirrored, in place and to another image.

use crate::digest::Digest;
use crate::numbers::Numbers;
use crate::photos::{Pixel, add_image, photo};
use crate::request::{Fault, Size};
use imgref::{ImgVec, Turn};
use std::alloc::Global;

// Turns one image of `width` by `height` pixels to another and back by a quarter, so that each turn
// has other pixels, transposes it both ways, and turns it by a half.
fn turn_both_ways<T: Pixel>(
    alloc: Global,
    numbers: &mut Numbers,
    digest: &mut Digest,
    sizes: (usize, usize),
    strides: (usize, usize),
) -> Result<(), Fault> {
    let (width, height) = sizes;
    let mut wide: ImgVec<T> = photo(alloc, numbers, width, height, strides.0)?;
    let mut high: ImgVec<T> = photo(alloc, numbers, height, width, strides.1)?;
    let mut half: ImgVec<T> = photo(alloc, numbers, width, height, strides.0)?;
    wide.turn_into(&mut high, Turn::Right);
    high.transpose_into(&mut wide);
    wide.flip_rows();
    wide.turn_into(&mut high, Turn::Left);
    high.flip_columns();
    high.turn_into(&mut wide, Turn::Left);
    wide.transpose_into(&mut high);
    high.turn_into(&mut wide, Turn::Right);
    wide.turn_into(&mut half, Turn::Half);
    add_image(digest, &half);
    add_image(digest, &high);
    Ok(())
}

// Turns a square image in place.
fn turn_in_place<T: Pixel>(
    alloc: Global,
    numbers: &mut Numbers,
    digest: &mut Digest,
    side: usize,
    stride: usize,
) -> Result<(), Fault> {
    let mut image: ImgVec<T> = photo(alloc, numbers, side, side, stride)?;
    image.transpose();
    image.turn(Turn::Half);
    image.turn(Turn::Right);
    image.flip_columns();
    image.turn(Turn::Left);
    add_image(digest, &image);
    Ok(())
}

/// Turns photos of 2 to 16 megapixels, of bytes and of words of four bytes.
pub(crate) fn run(
    alloc: Global,
    size: Size,
    numbers: &mut Numbers,
    digest: &mut Digest,
) -> Result<(), Fault> {
    if size == Size::Small {
        turn_both_ways::<u8>(alloc, numbers, digest, (70, 33), (80, 33))?;
        turn_both_ways::<u32>(alloc, numbers, digest, (35, 50), (35, 64))?;
        turn_in_place::<u8>(alloc, numbers, digest, 67, 70)?;
        return turn_in_place::<u32>(alloc, numbers, digest, 40, 40);
    }
    turn_both_ways::<u8>(alloc, numbers, digest, (4088, 2000), (4096, 2048))?;
    turn_both_ways::<u8>(alloc, numbers, digest, (1920, 1080), (1984, 1080))?;
    turn_both_ways::<u8>(alloc, numbers, digest, (3000, 4000), (3000, 4000))?;
    turn_both_ways::<u32>(alloc, numbers, digest, (2048, 2048), (2048, 2048))?;
    turn_both_ways::<u32>(alloc, numbers, digest, (1500, 2100), (1504, 2100))?;
    turn_in_place::<u8>(alloc, numbers, digest, 4088, 4096)?;
    turn_in_place::<u8>(alloc, numbers, digest, 2000, 2000)?;
    turn_in_place::<u32>(alloc, numbers, digest, 2048, 2048)?;
    turn_in_place::<u32>(alloc, numbers, digest, 1500, 1510)
}
