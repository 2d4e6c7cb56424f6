//! Fields: pieces of text that denote a number, a pixel or a window.

ghost use Rattle.std.specs.Prelude.{◌≡◌, ◌+◌, ◌*◌, ◌^◌, ◌<◌, ◌≤◌, ℕ, List, Option, Some, None};
ghost use Rattle.texts.specs.Reading.{Finds, digits_of, number_of, pixel_of, window_of, first_of_parts};
ghost use Rattle.texts.specs.Parts.{parts_left};

use crate::parts::{Parts, value};
use image_shape::Window;

/// A value that one piece of text denotes.
pub trait Field: Copy {
    // The value that the piece is the text of, where there is one.
    ghost reading: { List ℕ → Option Self };

    fn read(piece: &[u8]) -> Option<Self>
        ensures { result ≡ reading piece.now };

    // The value that the next part denotes.
    #[tactic(auto, unfolding(crate::specs::Reading::first_of_parts))]
    fn next(parts: &mut Parts<'_>) -> Option<Self>
        ensures { Finds (λ x. (x, parts_left parts.new)) result
            (first_of_parts reading (parts_left parts.old)) }
    {
        Self::read(parts.next_part()?)
    }
}

// `next` is inlined here and below: a call for each number takes a quarter of the time of a window.

/// A number: each has one text, without a sign and without leading zeros.
impl Field for usize {
    ghost reading = { number_of };

    #[tactic(auto, unfolding(crate::specs::Reading::number_of))]
    fn read(piece: &[u8]) -> Option<usize> {
        match piece {
            [b'0', _, ..] | [b'+', ..] => None,
            _ => digits(piece),
        }
    }

    #[inline(always)]
    #[tactic(auto, unfolding(crate::specs::Reading::first_of_parts))]
    fn next(parts: &mut Parts<'_>) -> Option<usize> {
        match parts.next_short() {
            Some(number) => Some(number),
            None => Self::read(parts.next_part()?),
        }
    }
}

// The number that the digits write, which may have zeros in front. Most numbers of a script have at
// most three digits, and the library's `parse` asks of each byte more than that it is one.
#[tactic(auto, unfolding(crate::specs::Reading::digits_of))]
fn digits(piece: &[u8]) -> Option<usize>
    ensures { result ≡ digits_of piece.now }
{
    match piece {
        [a @ b'0'..=b'9'] => Some(value(*a)),
        [a @ b'0'..=b'9', b @ b'0'..=b'9'] => Some(value(*a) * 10 + value(*b)),
        [a @ b'0'..=b'9', b @ b'0'..=b'9', c @ b'0'..=b'9'] => {
            Some((value(*a) * 10 + value(*b)) * 10 + value(*c))
        }
        _ => more_digits(piece),
    }
}

// A number that is less has room for one digit more.
const LONG: usize = 1_000_000_000_000_000_000;

// The number with one digit more, where that is a `usize`.
#[inline(always)]
fn with_digit(number: usize, digit: usize) -> Option<usize>
    requires { digit < 10 }
    ensures too_great { result ≡ None → 2 ^ 64 ≤ number * 10 + digit }
    ensures value { (more : ℕ) → result ≡ Some more → more ≡ number * 10 + digit }
    ensures small { (more : ℕ) → result ≡ Some more → more < 2 ^ 64 }
{
    if number < LONG {
        Some(number * 10 + digit)
    } else {
        number.checked_mul(10)?.checked_add(digit)
    }
}

// The same of any number of digits. To see them as a text first and parse that takes four times as
// long, and coordinates of large images have four digits.
fn more_digits(piece: &[u8]) -> Option<usize>
    ensures { result ≡ digits_of piece.now }
{
    let mut number = 0;
    for byte in piece {
        if !byte.is_ascii_digit() {
            return None;
        }
        number = with_digit(number, value(*byte))?;
    }
    if piece.is_empty() {
        return None;
    }
    Some(number)
}

/// A pixel: a number up to 255.
impl Field for u8 {
    ghost reading = { pixel_of };

    #[tactic(auto, unfolding(crate::specs::Reading::pixel_of))]
    fn read(piece: &[u8]) -> Option<u8> {
        u8::try_from(usize::read(piece)?).ok()
    }

    #[inline(always)]
    #[tactic(auto, unfolding(crate::specs::Reading::first_of_parts, crate::specs::Reading::pixel_of))]
    fn next(parts: &mut Parts<'_>) -> Option<u8> {
        u8::try_from(usize::next(parts)?).ok()
    }
}

/// A window: four numbers with commas between them.
impl Field for Window {
    ghost reading = { window_of };

    // Both calls are inlined: a window that is returned goes by memory, and is waited for there. The
    // trait's own `next` isn't inlined, so it is written again.
    #[inline(always)]
    #[tactic(auto, unfolding(crate::specs::Reading::window_in))]
    fn read(piece: &[u8]) -> Option<Window> {
        let mut numbers = Parts::new(piece, b',');
        let left = next(&mut numbers)?;
        let top = next(&mut numbers)?;
        let width = next(&mut numbers)?;
        let height = next(&mut numbers)?;
        let window = Window::new(left, top, width, height);
        numbers.is_done().then_some(window)
    }

    #[inline(always)]
    #[tactic(auto, unfolding(crate::specs::Reading::first_of_parts))]
    fn next(parts: &mut Parts<'_>) -> Option<Window> {
        Self::read(parts.next_part()?)
    }
}

/// The value that the next part denotes.
#[inline(always)]
pub fn next<T: Field>(parts: &mut Parts<'_>) -> Option<T>
    ensures { Finds (λ x. (x, parts_left parts.new)) result
        (first_of_parts T.reading (parts_left parts.old)) }
{
    T::next(parts)
}
