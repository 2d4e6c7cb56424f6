//! Frames composed of sprites, filtered, cut into tiles, and edited as video and pictures.

use crate::digest::Digest;
use crate::numbers::Numbers;
use crate::photos::{add_image, photo};
use crate::planes::{pictures, videos};
use crate::request::{Fault, Size};
use image_tiles::{TilesMut, Tiling};
use imgref::{ImgRef, ImgVec};
use imgref_examples::{
    blend, box_blur_3x3, brighten, checksum, count_above, halve, histogram, paste_sprite,
};
use std::alloc::Global;
use std::hash::{DefaultHasher, Hash, Hasher};

// Pastes so many sprites of 8 to 64 columns at random places.
fn paste_all(
    alloc: Global,
    numbers: &mut Numbers,
    frame: &mut ImgVec<u8>,
    count: usize,
) -> Result<(), Fault> {
    for side in 0..8 {
        let side = 8 + 8 * side;
        let sprite: ImgVec<u8> = photo(alloc, numbers, side, side, side + 4)?;
        for _ in 0..count {
            let x = numbers.below(frame.width().max(1));
            let y = numbers.below(frame.height().max(1));
            if !frame.is_valid() {
                return Err(Fault::Input);
            }
            paste_sprite(frame, sprite.as_ref(), x, y);
        }
    }
    Ok(())
}

// Adds what is counted in a frame.
fn add_counts(digest: &mut Digest, frame: ImgRef<'_, u8>) -> Result<(), Fault> {
    if !frame.is_valid() {
        return Err(Fault::Input);
    }
    digest.add(checksum(frame));
    digest.add(count_above(frame, 128) as u64);
    for count in histogram(frame) {
        digest.add(count);
    }
    Ok(())
}

// Fills each tile of a frame that begins with a bright pixel, one tile at a time.
fn fill_tiles(frame: &mut ImgVec<u8>, side: usize) -> Result<(), Fault> {
    if !frame.is_valid() || side == 0 {
        return Err(Fault::Input);
    }
    let mut tiles = TilesMut::new(frame.as_mut(), side, side);
    for _ in 0..usize::MAX {
        let Some(mut tile) = tiles.next_tile() else {
            break;
        };
        if tile.is_valid()
            && let Some(corner) = tile.get(0, 0)
            && corner >= 128
        {
            tile.fill(corner);
        }
    }
    Ok(())
}

// Compares the tiles of two frames of one size, and adds the hashes of those that differ.
fn compare_tiles(
    digest: &mut Digest,
    frame: ImgRef<'_, u8>,
    other: ImgRef<'_, u8>,
    side: usize,
) -> Result<(), Fault> {
    if side == 0 || !frame.is_valid() || !other.is_valid() {
        return Err(Fault::Input);
    }
    let mut equal = 0u64;
    for window in Tiling::new(frame.width(), frame.height(), side, side) {
        if !frame.shape().has_window(window) || !other.shape().has_window(window) {
            return Err(Fault::Input);
        }
        let tile = frame.window(window);
        if tile == other.window(window) {
            equal = equal.wrapping_add(1);
        } else {
            let mut hasher = DefaultHasher::new();
            tile.hash(&mut hasher);
            digest.add(hasher.finish());
        }
    }
    digest.add(equal);
    Ok(())
}

// Composes a frame of sprites, filters it, and compares its tiles with those before.
fn compose(
    alloc: Global,
    numbers: &mut Numbers,
    digest: &mut Digest,
    width: usize,
    height: usize,
    count: usize,
) -> Result<(), Fault> {
    let mut frame: ImgVec<u8> = photo(alloc, numbers, width, height, width.saturating_add(64))?;
    let over: ImgVec<u8> = photo(alloc, numbers, width, height, width)?;
    paste_all(alloc, numbers, &mut frame, count)?;
    if !frame.is_valid() || frame.width() != over.width() || frame.height() != over.height() {
        return Err(Fault::Input);
    }
    blend(&mut frame, over.as_ref(), (numbers.next() & 255) as u8);
    if !frame.is_valid() {
        return Err(Fault::Input);
    }
    brighten(&mut frame, (numbers.next() & 31) as u8);
    add_counts(digest, frame.as_ref())?;
    let mut blurred: ImgVec<u8> = photo(alloc, numbers, width, height, width)?;
    if !frame.is_valid() || frame.width() != width || frame.height() != height {
        return Err(Fault::Input);
    }
    box_blur_3x3(frame.as_ref(), &mut blurred);
    add_image(digest, &blurred);
    add_image(digest, &halve(alloc, frame.as_ref())?);
    for side in [8, 16, 64] {
        let before = frame.to_owned(alloc)?;
        fill_tiles(&mut frame, side)?;
        compare_tiles(digest, frame.as_ref(), before.as_ref(), side)?;
    }
    if !frame.is_valid() {
        return Err(Fault::Input);
    }
    digest.add_bytes(&frame.into_contiguous_buf().0);
    Ok(())
}

/// Composes, filters and edits frames of 1920 by 1080 pixels.
pub(crate) fn run(
    alloc: Global,
    size: Size,
    numbers: &mut Numbers,
    digest: &mut Digest,
) -> Result<(), Fault> {
    for _ in 0..size.pick(20, 1) {
        let (width, height) = (size.pick(1920, 100), size.pick(1080, 80));
        compose(alloc, numbers, digest, width, height, size.pick(2000, 3))?;
    }
    videos(alloc, size, numbers, digest)?;
    pictures(alloc, size, numbers, digest)
}
