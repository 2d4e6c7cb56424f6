//! The edit that words name.

ghost use Rattle.std.specs.Prelude.{◌≡◌, ◌+◌, ◌<◌, ◌≤◌, map, IfSome, length};
ghost use Rattle.texts.specs.Parts.{parts_of, parts_left};
ghost use Rattle.frame_edits.specs.Words.{pair_of, radius_of, colour_in, paint_of, axes_of, quarter_of, change_of, way_of, pad_of, framing_at, margin_in, rectangle_of, cover_at, change_at, step_at, ranged_at};

use crate::framing::Framing;
use crate::paint::Paint;
use frame_texts::{Range, read_range};
use image_commands::{Axes, Change, Quarter, SampleBytes, Window};
use texts::{Field, Parts, next};

/// Which pixels of a frame the window of an edit has.
#[derive(Clone, Copy, PartialEq, Eq)]
pub enum Scope {
    /// Its own.
    Exact,
    /// Those of a box, with a margin, of which a part may be outside the frame. Columns and rows
    /// count from 2^32 before those of the frame. The margin is in pixels. Without a number it is 2,
    /// and at least a sample.
    Boxed { margin: Option<usize> },
}

/// A change, and the frames that it is for.
#[derive(Clone, Copy, PartialEq, Eq)]
pub struct Edit {
    pub range: Range,
    pub change: Change<Paint>,
    pub scope: Scope,
}

// Two numbers with a comma between them.
#[tactic(auto, unfolding(crate::specs::Words::pair_in))]
fn read_pair(piece: &[u8]) -> Option<(usize, usize)>
    ensures { result ≡ pair_of piece.now }
{
    let mut numbers = Parts::new(piece, b',');
    let first = next(&mut numbers)?;
    let second = next(&mut numbers)?;
    numbers.is_done().then_some((first, second))
}

// The radius of a box: a number below 2^15.
fn read_radius(piece: &[u8]) -> Option<usize>
    ensures { result ≡ radius_of piece.now }
{
    let radius = usize::read(piece)?;
    (radius <= i16::MAX as usize).then_some(radius)
}

// A colour: three numbers with commas between them.
#[tactic(auto, unfolding(crate::specs::Words::colour_in))]
fn read_colour(piece: &[u8]) -> Option<Paint>
    ensures { result ≡ colour_in (parts_of 44 piece.now) }
{
    let mut values = Parts::new(piece, b',');
    let red = next(&mut values)?;
    let green = next(&mut values)?;
    let blue = next(&mut values)?;
    values
        .is_done()
        .then_some(Paint::Colour { red, green, blue })
}

// A brightness, or a colour.
fn read_paint(piece: &[u8]) -> Option<Paint>
    ensures { result ≡ paint_of piece.now }
{
    match usize::read(piece) {
        Some(value) => Some(Paint::Grey(value)),
        None => read_colour(piece),
    }
}

// A change by its word, its window and what follows it.
#[tactic(auto, unfolding(crate::specs::Words::change_of))]
fn read_change(word: &[u8], window: Window, last: &[u8]) -> Option<Change<Paint>>
    ensures { result ≡ change_of word.now window last.now }
{
    if word == b"fill".as_slice() {
        let value = read_paint(last)?;
        Some(Change::Fill { window, value })
    } else if word == b"mosaic".as_slice() {
        let (tile_width, tile_height) = read_pair(last)?;
        Some(Change::Mosaic {
            window,
            tile_width,
            tile_height,
        })
    } else if word == b"means".as_slice() {
        let (tile_width, tile_height) = read_pair(last)?;
        Some(Change::Mean {
            window,
            tile_width,
            tile_height,
            bytes: SampleBytes::One,
        })
    } else if word == b"blur".as_slice() {
        let radius = read_radius(last)?;
        Some(Change::Blur {
            window,
            across: radius,
            down: radius,
            bytes: SampleBytes::One,
        })
    } else if word == b"move".as_slice() {
        let (left, top) = read_pair(last)?;
        Some(Change::Move { window, left, top })
    } else {
        None
    }
}

/// What is to become of each box, by two words: `fill V`, `fill R,G,B`, `mosaic TW,TH`, `means TW,TH`
/// or `blur R`. Its window is empty.
pub fn read_way(word: &[u8], last: &[u8]) -> Option<Change<Paint>>
    ensures { result ≡ way_of word.now last.now }
{
    let is_move = word == b"move".as_slice();
    if is_move {
        return None;
    }
    read_change(word, Window::new(0, 0, 0, 0), last)
}

// A border by the four numbers of its sides and what follows them.
#[tactic(auto, unfolding(crate::specs::Words::pad_of))]
fn read_pad(sides: Window, last: &[u8]) -> Option<Framing>
    ensures { result ≡ pad_of sides last.now }
{
    Some(Framing::Pad {
        left: sides.left,
        top: sides.top,
        right: sides.width,
        bottom: sides.height,
        value: usize::read(last)?,
    })
}

fn read_quarter(word: &[u8], side: &[u8]) -> Option<Quarter>
    ensures { result ≡ quarter_of word.now side.now }
{
    if word == b"turn".as_slice() && side == b"right".as_slice() {
        Some(Quarter::Right)
    } else if word == b"turn".as_slice() && side == b"left".as_slice() {
        Some(Quarter::Left)
    } else {
        None
    }
}

/// What becomes of the size, by the words at the front, and how many they are.
#[tactic(auto, unfolding(crate::specs::Words::framing_at))]
pub(crate) fn read_framing(words: &[&[u8]]) -> Option<(Framing, usize)>
    ensures framing { result ≡ framing_at (map (λ w. w.now) words.now) }
    ensures some { IfSome result (λ f. 0 < f.1) }
    ensures there { IfSome result (λ f. f.1 ≤ length words.now) }
{
    let (word, others) = words.split_first()?;
    let (numbers, others) = others.split_first()?;
    if let Some(quarter) = read_quarter(word, numbers) {
        return Some((Framing::Turn(quarter), 2));
    }
    let window = Window::read(numbers)?;
    if *word == b"crop".as_slice() {
        Some((Framing::Crop(window), 2))
    } else if *word == b"pad".as_slice() {
        let (last, _) = others.split_first()?;
        Some((read_pad(window, last)?, 3))
    } else {
        None
    }
}

// The margin that is left of a rectangle, or none.
fn read_margin(parts: Parts<'_>) -> Option<Option<usize>>
    ensures { result ≡ margin_in (parts_left parts.entry) }
{
    let mut rest = parts;
    let Some(margin) = rest.next_part() else {
        return Some(None);
    };
    if !rest.is_done() {
        return None;
    }
    Some(Some(usize::read(margin)?))
}

// A window and the margin around it.
#[tactic(auto, unfolding(crate::specs::Words::rectangle_in))]
fn read_rectangle(piece: &[u8]) -> Option<(Window, Option<usize>)>
    ensures { result ≡ rectangle_of piece.now }
{
    let mut parts = Parts::new(piece, b'+');
    let window = next(&mut parts)?;
    let margin = read_margin(parts)?;
    Some((window, margin))
}

// A cover by the words after its rectangle, and how many words it has with its own two.
fn read_cover(window: Window, margin: Option<usize>, words: &[&[u8]]) -> (Change<Paint>, usize)
    ensures cover { result ≡ cover_at window margin (map (λ w. w.now) words.now) }
    ensures some { 0 < result.1 }
    ensures there { result.1 ≤ length words.now + 2 }
{
    let value = match words {
        [] => None,
        [last, ..] => usize::read(last),
    };
    let count = if value.is_some() { 3 } else { 2 };
    let value = Paint::Around { value, margin };
    (Change::Fill { window, value }, count)
}

// What changes places in the whole frame.
fn read_axes(word: &[u8], which: &[u8]) -> Option<Axes>
    ensures { result ≡ axes_of word.now which.now }
{
    if word == b"flip".as_slice() && which == b"rows".as_slice() {
        Some(Axes::Rows)
    } else if word == b"flip".as_slice() && which == b"columns".as_slice() {
        Some(Axes::Columns)
    } else if word == b"turn".as_slice() && which == b"half".as_slice() {
        Some(Axes::Both)
    } else {
        None
    }
}

// A change by its word, its numbers and the words after them, and how many words it has.
fn read_changed(word: &[u8], numbers: &[u8], words: &[&[u8]]) -> Option<(Change<Paint>, usize)>
    ensures change { result ≡ change_at word.now numbers.now (map (λ w. w.now) words.now) }
    ensures some { IfSome result (λ c. 0 < c.1) }
    ensures there { IfSome result (λ c. c.1 ≤ length words.now + 2) }
{
    if word == b"cover".as_slice() {
        let (window, margin) = read_rectangle(numbers)?;
        return Some(read_cover(window, margin, words));
    }
    if let Some(axes) = read_axes(word, numbers) {
        return Some((Change::Flip(axes), 2));
    }
    let window = Window::read(numbers)?;
    let (last, _) = words.split_first()?;
    Some((read_change(word, window, last)?, 3))
}

// A change of the frames of a range, by the words at the front, and how many words it has.
#[tactic(auto, unfolding(crate::specs::Words::step_at))]
fn read_step(range: Range, words: &[&[u8]]) -> Option<(Edit, usize)>
    ensures step { result ≡ step_at range (map (λ w. w.now) words.now) }
    ensures some { IfSome result (λ s. 0 < s.1) }
    ensures there { IfSome result (λ s. s.1 ≤ length words.now) }
{
    let (word, others) = words.split_first()?;
    let (numbers, others) = others.split_first()?;
    let (change, count) = read_changed(word, numbers, others)?;
    let edit = Edit {
        range,
        change,
        scope: Scope::Exact,
    };
    Some((edit, count))
}

/// The same with a range at the front or none, and how many words there are.
#[tactic(auto, unfolding(crate::specs::Words::ranged_at))]
pub(crate) fn read_ranged(words: &[&[u8]]) -> Option<(Edit, usize)>
    ensures step { result ≡ ranged_at (map (λ w. w.now) words.now) }
    ensures some { IfSome result (λ s. 0 < s.1) }
    ensures there { IfSome result (λ s. s.1 ≤ length words.now) }
{
    let (front, others) = words.split_first()?;
    match read_range(front) {
        Some(range) => {
            let (edit, count) = read_step(range, others)?;
            Some((edit, count + 1))
        }
        None => {
            let (first, end) = (0, u64::MAX);
            read_step(Range::Frames { first, end }, words)
        }
    }
}
