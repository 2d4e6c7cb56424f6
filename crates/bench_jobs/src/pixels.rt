//! A script of large images: their text is written, read, run and written again.

ghost use Rattle.imgref.specs.Lists.{AllFit};

use crate::digest::Digest;
use crate::numbers::Numbers;
use crate::photos::photo;
use crate::request::{Fault, Size};
use crate::scripts::{push_number, push_numbers, replay_text};
use imgref::ImgVec;
use script_text::push_images;
use std::alloc::{AllocError, Global};

// The text of images alone, and of a few commands over the first of them.
fn script_of(
    alloc: Global,
    numbers: &mut Numbers,
    width: usize,
    height: usize,
) -> Result<Vec<u8>, Fault> {
    let image: ImgVec<u8> = photo(alloc, numbers, width, height, width.saturating_add(24))?;
    let mut images = Vec::new(alloc);
    images.push(image)?;
    let mut text = Vec::new(alloc);
    push_images(&mut text, &images)?;
    for word in [b"count".as_slice(), b"fill".as_slice(), b"count".as_slice()] {
        push_command(&mut text, word, numbers)?;
    }
    Ok(text)
}

// Adds the line of a command over a window of the first image, with a value.
fn push_command(text: &mut Vec<u8>, word: &[u8], numbers: &mut Numbers) -> Result<(), AllocError> {
    text.extend_from_slice(word)?;
    text.extend_from_slice(b" 0 ")?;
    let corner = [numbers.below(10), numbers.below(10)];
    push_numbers(text, b',', &[corner[0], corner[1], 10, 10])?;
    text.extend_from_slice(b" ")?;
    push_number(text, numbers.below(256))?;
    text.extend_from_slice(b"\n")
}

/// Writes and reads the text of images of bytes from 0 to 255.
pub(crate) fn run(
    alloc: Global,
    size: Size,
    numbers: &mut Numbers,
    digest: &mut Digest,
) -> Result<(), Fault> {
    for _ in 0..size.pick(9, 1) {
        let script = script_of(alloc, numbers, size.pick(1000, 30), size.pick(4000, 20))?;
        let mut images = Vec::new(alloc);
        let mut output = Vec::new(alloc);
        replay_text(alloc, &script, &mut images, &mut output)?;
        push_images(&mut output, &images)?;
        digest.add_bytes(&output);
    }
    Ok(())
}
