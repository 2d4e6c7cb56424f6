//! The boxes of a tracker's list.

ghost use Rattle.std.specs.Prelude.{◌≡◌, ◌≢◌, ◌<◌, ◌+◌, ◌*◌, ◌^◌, All, Some, None, IfSome, IfOk, IfErr, OnOk, true, false, [], ◌-◌};
ghost use Rattle.std.specs.List.{list_all};
ghost use Rattle.std.specs.Option.{is_some};
ghost use Rattle.texts.specs.Parts.{parts_of, parts_left};
ghost use Rattle.texts.specs.Reading.{Finds, first_of_parts};
ghost use Rattle.frame_texts.specs.Boxes.{without_white, ended, box_text, part_of, part_in, unsigned_in, signed_of, decimal_of, frame_of, box_of, IsDecimal, IsBox, place_of, side_of, with_box, HasBoxes, IsBoxLine, TouchesExactly, window_of_box, each_box, line_boxes};
ghost use Rattle.frame_texts.specs.Lines.{is_white};

use crate::digits::read_worth;
use crate::fault::WordsFault;
use crate::lines::{before_comment, before_return, is_white};
use image_shape::Window;
use std::alloc::Global;
use texts::{Field, Parts, next};

/// A number of a tracker's list, in pixels: a sign, a whole number, and a fraction in units of
/// 10^-20 pixels.
#[derive(Clone, Copy, PartialEq, Eq)]
pub struct Decimal {
    pub minus: bool,
    pub whole: usize,
    pub part: u128,
}

/// A box of a tracker's list: its frame, the identity of what is tracked, its corner and its size.
/// It may reach outside the frame.
#[derive(Clone, Copy, PartialEq, Eq)]
pub struct Tracked {
    /// From 1.
    pub frame: usize,
    pub id: Decimal,
    pub left: Decimal,
    pub top: Decimal,
    pub width: Decimal,
    pub height: Decimal,
}

// How many units a pixel has.
pub(crate) const PIXEL: u128 = 100_000_000_000_000_000_000;

// What the first digit of a fraction counts, in units.
const TENTH: u64 = 10_000_000_000_000_000_000;

// A field without the white space before it.
#[inline(always)]
fn without_white(field: &[u8]) -> &[u8]
    ensures { result.now ≡ without_white field.now }
{
    let mut rest = field;
    while let [byte, others @ ..] = rest {
        if !is_white(*byte) {
            return rest;
        }
        rest = others;
    }
    rest
}

// A line without the white space at its end.
#[tactic(auto, using(crate::proofs::LineEnds::white_end, crate::proofs::LineEnds::other_end))]
fn before_white(line: &[u8]) -> &[u8]
    ensures { result.now ≡ ended line.now }
{
    let mut rest = line;
    while let [others @ .., byte] = rest {
        if !is_white(*byte) {
            return rest;
        }
        rest = others;
    }
    rest
}

/// A line of a list without its end, its comment, and the white space before them.
pub fn box_text(line: &[u8]) -> &[u8]
    ensures { result.now ≡ box_text line.now }
{
    before_white(before_comment(before_return(line)))
}

// What one to twenty digits after a point are worth.
#[inline(always)]
fn read_part(digits: &[u8]) -> Option<u128>
    ensures part { result ≡ part_of digits.now }
    ensures small { IfSome result (λ part. part < 100000000000000000000) }
{
    read_worth(TENTH, 20, digits)
}

// The fraction that is left of a number, or none.
#[inline(always)]
fn next_part_of(parts: Parts<'_>) -> Option<u128>
    ensures part { result ≡ part_in (parts_left parts.entry) }
    ensures small { IfSome result (λ part. part < 100000000000000000000) }
{
    let mut rest = parts;
    let Some(digits) = rest.next_part() else {
        return Some(0);
    };
    if !rest.is_done() {
        return None;
    }
    read_part(digits)
}

// A number by its sign and what follows the sign.
#[inline(always)]
#[tactic(auto, unfolding(crate::specs::Boxes::unsigned_in))]
fn read_unsigned(minus: bool, piece: &[u8]) -> Option<Decimal>
    ensures number { result ≡ unsigned_in minus (parts_of 46 piece.now) }
    ensures exact { IfSome result (IsDecimal 32) }
{
    let mut parts = Parts::new(piece, b'.');
    let whole: usize = next(&mut parts)?;
    let part = next_part_of(parts)?;
    (whole <= u32::MAX as usize).then_some(Decimal { minus, whole, part })
}

#[inline(always)]
fn read_signed(piece: &[u8]) -> Option<Decimal>
    ensures number { result ≡ signed_of piece.now }
    ensures exact { IfSome result (IsDecimal 32) }
{
    match piece {
        [] => None,
        [b'-', others @ ..] => read_unsigned(true, others),
        _ => read_unsigned(false, piece),
    }
}

/// The number that a field is, with white space before it.
#[inline(always)]
pub fn read_decimal(field: &[u8]) -> Option<Decimal>
    ensures number { result ≡ decimal_of field.now }
    ensures exact { IfSome result (IsDecimal 32) }
{
    read_signed(without_white(field))
}

// The number that the next field is.
#[tactic(auto, unfolding(texts::specs::Reading::first_of_parts))]
fn next_decimal(fields: &mut Parts<'_>) -> Option<Decimal>
    ensures number { Finds (λ x. (x, parts_left fields.new)) result
        (first_of_parts decimal_of (parts_left fields.old)) }
    ensures exact { IfSome result (IsDecimal 32) }
{
    read_decimal(fields.next_part()?)
}

/// The number of a frame that a field is, from 1.
pub fn read_frame(field: &[u8]) -> Option<usize>
    ensures { result ≡ frame_of field.now }
{
    let number = usize::read(without_white(field))?;
    (number > 0).then_some(number)
}

// The number of a frame that the next field is.
#[tactic(auto, unfolding(texts::specs::Reading::first_of_parts))]
fn next_frame(fields: &mut Parts<'_>) -> Option<usize>
    ensures { Finds (λ x. (x, parts_left fields.new)) result
        (first_of_parts frame_of (parts_left fields.old)) }
{
    read_frame(fields.next_part()?)
}

/// The box that a line is, without its comment and its end (`box_text`). It takes no memory.
#[inline(always)]
#[tactic(auto, unfolding(crate::specs::Boxes::box_in), using(crate::proofs::BoxSizes::is_box))]
pub fn read_box(line: &[u8]) -> Option<Tracked>
    ensures tracked { result ≡ box_of line.now }
    ensures exact { IfSome result (IsBox 32) }
    ensures wide { IfSome result (IsBox 34) }
{
    let mut fields = Parts::new(line, b',');
    let frame = next_frame(&mut fields)?;
    let id = next_decimal(&mut fields)?;
    let left = next_decimal(&mut fields)?;
    let top = next_decimal(&mut fields)?;
    let width = next_decimal(&mut fields)?;
    let height = next_decimal(&mut fields)?;
    (!width.minus && !height.minus).then_some(Tracked {
        frame,
        id,
        left,
        top,
        width,
        height,
    })
}

// The pixel that a place is in, from 2^32 before the frame, and how far it is after its beginning.
fn pixel_of(start: Decimal) -> (usize, u128)
    requires { IsDecimal 32 start }
    ensures place { place_of start ≡ result.0 * 100000000000000000000 + result.1 }
    ensures part { result.1 < 100000000000000000000 }
    ensures small { result.0 < 2 ^ 33 }
{
    if !start.minus {
        (BEFORE + start.whole, start.part)
    } else if start.part == 0 {
        (BEFORE - start.whole, 0)
    } else {
        (BEFORE - 1 - start.whole, PIXEL - start.part)
    }
}

// The first pixel that a side touches, and how many it touches.
fn side_of(start: Decimal, extent: Decimal) -> (usize, usize)
    requires start { IsDecimal 32 start }
    requires extent { IsDecimal 34 extent }
    ensures { result ≡ side_of start extent }
{
    let (first, part) = pixel_of(start);
    let part = part + extent.part;
    let more = if part == 0 {
        0
    } else if part <= PIXEL {
        1
    } else {
        2
    };
    (first, extent.whole + more)
}

/// The whole pixels that a box touches. Columns and rows count from 2^32 before those of the frame.
#[tactic(auto, using(crate::proofs::Touched::touches_exactly))]
pub fn window_of_box(tracked: Tracked) -> Window
    requires { IsBox 34 tracked }
    ensures window { result ≡ window_of_box tracked }
    ensures touched { TouchesExactly tracked result }
{
    let (left, width) = side_of(tracked.left, tracked.width);
    let (top, height) = side_of(tracked.top, tracked.height);
    Window::new(left, top, width, height)
}

// Whether a line has no word.
fn is_blank(line: &[u8]) -> bool
    ensures { result ≡ list_all is_white line.now }
{
    line.iter().all(|b| is_white(*b))
}

// Passes over a line that is no box: it has no word.
fn pass_over(line: &[u8]) -> Result<(), WordsFault>
    ensures blank { OnOk result (list_all is_white line.now ≡ true) }
    ensures none { IfErr result (λ _. list_all is_white line.now ≡ false) }
    ensures fault { IfErr result (λ e. e ≡ WordsFault.NoEdit) }
{
    if is_blank(line) {
        Ok(())
    } else {
        Err(WordsFault::NoEdit)
    }
}

// Adds the box that a line is, where it has a word.
fn take_box(boxes: &mut Vec<Tracked>, line: &[u8]) -> Result<(), WordsFault>
    requires { All (IsBox 32) boxes.old.items }
    ensures taken { OnOk result
        (with_box boxes.old.items line.now ≡ Some boxes.new.items) }
    ensures exact { OnOk result (All (IsBox 32) boxes.new.items) }
    ensures none { IfErr result
        (λ e. e ≡ WordsFault.NoEdit → with_box boxes.old.items line.now ≡ None) }
    ensures memory { IfErr result (λ e. e ≡ WordsFault.Memory → IsBoxLine line.now) }
{
    let line = box_text(line);
    match read_box(line) {
        Some(tracked) => match boxes.push(tracked) {
            Ok(()) => Ok(()),
            Err(_) => Err(WordsFault::Memory),
        },
        None => pass_over(line),
    }
}

// Whether a line is a box, or has no word.
fn adds_boxes(line: &[u8]) -> bool
    ensures { result ≡ is_some (line_boxes line.now) }
{
    let line = box_text(line);
    read_box(line).is_some() || is_blank(line)
}

/// Whether each line of a text with a word is a box. It takes no memory.
#[tactic(auto, using(crate::proofs::BoxLines::good_line, crate::proofs::BoxLines::bad_line))]
pub fn are_boxes(text: &[u8]) -> bool
    ensures { result ≡ is_some (each_box text.now) }
{
    let mut lines = Parts::new(text, b'\n');
    while let Some(line) = lines.next_part() {
        if !adds_boxes(line) {
            return false;
        }
    }
    true
}

// The boxes of a text up to the first line that is no box, or for which there is no room.
#[tactic(auto, using(crate::proofs::BoxLines::never_empty))]
fn read_lines(alloc: Global, text: &[u8]) -> Result<Vec<Tracked>, WordsFault>
    ensures boxes { IfOk result (λ boxes. each_box text.now ≡ Some boxes.items) }
    ensures exact { IfOk result (λ boxes. All (IsBox 32) boxes.items) }
    ensures none { IfErr result (λ e. e ≡ WordsFault.NoEdit → each_box text.now ≡ None) }
    ensures memory { IfErr result
        (λ e. e ≡ WordsFault.Memory → each_box text.now ≢ Some []) }
{
    let mut boxes = Vec::new(alloc);
    let mut lines = Parts::new(text, b'\n');
    while let Some(line) = lines.next_part() {
        if let Err(fault) = take_box(&mut boxes, line) {
            return Err(fault);
        }
    }
    Ok(boxes)
}

/// The boxes that the lines of a text are, in their order, as `read_boxes` has them.
///
/// # Errors
///
/// `NoEdit` where a line is no box, whatever memory there is. `Memory` only where each line with a
/// word is a box, and there is one.
#[tactic(auto, using(crate::proofs::BoxLines::has_boxes, crate::proofs::BoxLines::no_boxes, crate::proofs::BoxSizes::are_boxes))]
pub fn read_tracked(alloc: Global, text: &[u8]) -> Result<Vec<Tracked>, WordsFault>
    ensures boxes { IfOk result (λ boxes. each_box text.now ≡ Some boxes.items) }
    ensures exact { IfOk result (λ boxes. All (IsBox 32) boxes.items) }
    ensures wide { IfOk result (λ boxes. All (IsBox 34) boxes.items) }
    ensures none { IfErr result (λ e. e ≡ WordsFault.NoEdit → each_box text.now ≡ None) }
    ensures memory { IfErr result (λ e. e ≡ WordsFault.Memory → HasBoxes text.now) }
{
    match read_lines(alloc, text) {
        // Without room the lines are read once more: a bad one is told all the same.
        Err(WordsFault::Memory) if !are_boxes(text) => Err(WordsFault::NoEdit),
        told => told,
    }
}

/// How many pixels before a frame the numbers of boxes begin.
pub const BEFORE: usize = 1 << 32;
