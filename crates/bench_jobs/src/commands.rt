//! A script of many short commands, over sprites and over images of a megapixel.

ghost use Rattle.std.specs.Prelude.{IfOk};
ghost use Rattle.imgref.specs.Lists.{AllFit};

use crate::digest::Digest;
use crate::numbers::Numbers;
use crate::photos::{add_image, photo};
use crate::request::{Fault, Size};
use crate::scripts::{push_numbers, replay_text};
use imgref::ImgVec;
use std::alloc::{AllocError, Global};

// Pieces of lines, one after the other in one text. A line is made of a few of them, so that making
// a script takes little of the time.
#[derive(Drop)]
struct Pieces {
    text: Vec<u8>,
    ends: Vec<usize>,
}

// How many pieces of a kind there are.
const KINDS: usize = 1024;
// How many sprites there are. Two images of a megapixel come after them.
const SPRITES: usize = 8;
// The width and height of a sprite, and of a large image.
const SPRITE: usize = 8;

const LARGE: usize = 1024;

impl Pieces {
    fn new(alloc: Global) -> Self {
        Pieces {
            text: Vec::new(alloc),
            ends: Vec::new(alloc),
        }
    }

    // The piece that was begun last ends here.
    fn end(&mut self) -> Result<(), Fault> {
        let end = self.text.len();
        self.ends.push(end)?;
        Ok(())
    }

    // Adds one of the pieces to a text.
    fn push_to(&self, text: &mut Vec<u8>, number: u64) -> Result<(), AllocError> {
        let at = (number % KINDS as u64) as usize;
        if at + 1 >= self.ends.len() {
            return Ok(());
        }
        let (start, end) = (self.ends[at], self.ends[at + 1]);
        if start <= end && end <= self.text.len() {
            text.extend_from_slice(&self.text[start..end])?;
        }
        Ok(())
    }
}

// Adds a window inside a size, at a random corner. Now and then it is one column too far.
fn push_window(
    text: &mut Vec<u8>,
    numbers: &mut Numbers,
    outer: (usize, usize),
    inner: (usize, usize),
) -> Result<(), AllocError> {
    let left = numbers.below((outer.0.saturating_sub(inner.0)).saturating_add(1).max(1));
    let top = numbers.below((outer.1.saturating_sub(inner.1)).saturating_add(1).max(1));
    push_numbers(text, b',', &[left, top, inner.0, inner.1])
}

// Adds the path of one to three windows from a size of `outer` columns and rows to one of `inner`.
fn push_path(
    text: &mut Vec<u8>,
    numbers: &mut Numbers,
    outer: usize,
    inner: usize,
) -> Result<(), AllocError> {
    let mut size = outer;
    for _ in 0..numbers.below(3) {
        let narrower = size - size.saturating_sub(inner).min(size) / 2;
        push_window(text, numbers, (size, size), (narrower, narrower))?;
        text.push(b'/')?;
        size = narrower;
    }
    // One of 64 windows is outside.
    let height = match numbers.below(64) {
        0 => inner.saturating_add(size),
        _ => inner,
    };
    push_window(text, numbers, (size, size), (inner, height))
}

// Places whose last window has `inner` columns and rows, in images of `outer` columns and rows.
fn places(
    alloc: Global,
    numbers: &mut Numbers,
    first: usize,
    count: usize,
    outer: usize,
    inner: usize,
) -> Result<Pieces, Fault> {
    let mut pieces = Pieces::new(alloc);
    pieces.end()?;
    for _ in 0..KINDS {
        pieces.text.push(b' ')?;
        let image = first.wrapping_add(numbers.below(count.max(1)));
        push_numbers(&mut pieces.text, b' ', &[image])?;
        pieces.text.push(b' ')?;
        push_path(&mut pieces.text, numbers, outer, inner)?;
        pieces.end()?;
    }
    Ok(pieces)
}

// Places of long paths, and of numbers of 20 digits, which are outside.
fn odd_places(alloc: Global, numbers: &mut Numbers) -> Result<Pieces, Fault> {
    let mut pieces = Pieces::new(alloc);
    pieces.end()?;
    for kind in 0..KINDS {
        pieces.text.push(b' ')?;
        push_numbers(&mut pieces.text, b' ', &[numbers.below(SPRITES)])?;
        pieces.text.push(b' ')?;
        if kind % 2 == 0 {
            let far = usize::MAX - numbers.below(1000);
            push_numbers(&mut pieces.text, b',', &[far, 0, 1, 1])?;
        } else {
            for _ in 0..20 + numbers.below(180) {
                pieces.text.extend_from_slice(b"0,0,8,8/")?;
            }
            push_path(&mut pieces.text, numbers, SPRITE, 4)?;
        }
        pieces.end()?;
    }
    Ok(pieces)
}

// What comes after the place: so many numbers, each below its bound.
fn ends_of_lines(alloc: Global, numbers: &mut Numbers, bounds: &[usize]) -> Result<Pieces, Fault> {
    let mut pieces = Pieces::new(alloc);
    pieces.end()?;
    for _ in 0..KINDS {
        for bound in bounds {
            pieces.text.push(b' ')?;
            push_numbers(&mut pieces.text, b' ', &[numbers.below((*bound).max(1))])?;
        }
        pieces.text.push(b'\n')?;
        pieces.end()?;
    }
    Ok(pieces)
}

// The pieces of a script.
#[derive(Drop)]
struct Lines {
    sprites: Pieces,
    large: Pieces,
    odd: Pieces,
    // A column and a row; these and a value; a value; nothing.
    points: Pieces,
    points_with_value: Pieces,
    values: Pieces,
    nothing: Pieces,
}

fn line_parts(alloc: Global, numbers: &mut Numbers) -> Result<Lines, Fault> {
    Ok(Lines {
        sprites: places(alloc, numbers, 0, SPRITES, SPRITE, 4)?,
        large: places(alloc, numbers, SPRITES, 2, LARGE, 8)?,
        odd: odd_places(alloc, numbers)?,
        points: ends_of_lines(alloc, numbers, &[4, 4])?,
        points_with_value: ends_of_lines(alloc, numbers, &[4, 4, 256])?,
        values: ends_of_lines(alloc, numbers, &[256])?,
        nothing: ends_of_lines(alloc, numbers, &[])?,
    })
}

// Adds the line of a command that the bits of a number choose.
fn push_command(text: &mut Vec<u8>, parts: &Lines, number: u64) -> Result<(), AllocError> {
    let places = match number >> 4 & 127 {
        0 => &parts.odd,
        1..=63 => &parts.sprites,
        _ => &parts.large,
    };
    let (place, other, end) = (number >> 11, number >> 22, number >> 33);
    match number & 15 {
        0..=4 => {
            text.extend_from_slice(b"get")?;
            places.push_to(text, place)?;
            parts.points.push_to(text, end)
        }
        5..=9 => {
            text.extend_from_slice(b"put")?;
            places.push_to(text, place)?;
            parts.points_with_value.push_to(text, end)
        }
        10..=11 => {
            text.extend_from_slice(b"fill")?;
            places.push_to(text, place)?;
            parts.values.push_to(text, end)
        }
        12 => {
            text.extend_from_slice(b"count")?;
            places.push_to(text, place)?;
            parts.values.push_to(text, end)
        }
        13 => {
            text.extend_from_slice(b"same")?;
            places.push_to(text, place)?;
            places.push_to(text, other)?;
            parts.nothing.push_to(text, end)
        }
        _ => {
            text.extend_from_slice(b"blit")?;
            places.push_to(text, place)?;
            places.push_to(text, other)?;
            parts.nothing.push_to(text, end)
        }
    }
}

// A script of so many commands.
fn script_of(alloc: Global, numbers: &mut Numbers, count: usize) -> Result<Vec<u8>, Fault> {
    let parts = line_parts(alloc, numbers)?;
    let mut text = Vec::new(alloc);
    for _ in 0..count {
        push_command(&mut text, &parts, numbers.next())?;
    }
    Ok(text)
}

// Eight sprites, and two large images.
fn all_images(alloc: Global, numbers: &mut Numbers) -> Result<Vec<ImgVec<u8>>, Fault>
    ensures { IfOk result (λ images. AllFit images.items) }
{
    let mut images = Vec::new(alloc);
    for number in 0..SPRITES + 2 {
        let side = if number < SPRITES { SPRITE } else { LARGE };
        images.push(photo(alloc, numbers, side, side, side + number)?)?;
    }
    Ok(images)
}

/// Reads and runs scripts of short commands through one to three nested windows, and now and then
/// through more than a hundred.
pub(crate) fn run(
    alloc: Global,
    size: Size,
    numbers: &mut Numbers,
    digest: &mut Digest,
) -> Result<(), Fault> {
    for _ in 0..size.pick(9, 1) {
        let mut images = all_images(alloc, numbers)?;
        let script = script_of(alloc, numbers, size.pick(400_000, 300))?;
        let mut replies = Vec::new(alloc);
        replay_text(alloc, &script, &mut images, &mut replies)?;
        digest.add_bytes(&replies);
        for image in &images {
            add_image(digest, image);
        }
    }
    Ok(())
}
