//! Ranges of frames: by their numbers, or by times where a video names its rate.

ghost use Rattle.std.specs.Prelude.{◌≡◌, ◌<◌, IfSome};
ghost use Rattle.texts.specs.Reading.{Finds, first_of_parts};
ghost use Rattle.texts.specs.Parts.{parts_left};
ghost use Rattle.frame_texts.specs.Ranges.{end_of, after_gap, span_of, two_digits, clock_of, fraction_of, time_at, end_time_at, times_of, range_of, frame_at, frames_in, AreExactly};

use crate::digits::{is_digit, read_worth};
use crate::rate::Rate;
use texts::{Field, Parts, next};

/// The frames that an edit is for.
#[derive(Clone, Copy, PartialEq, Eq)]
pub enum Range {
    /// By their numbers from 0: the first, and the first after them.
    Frames { first: u64, end: u64 },
    /// By their times in nanoseconds, where the first frame is at 0: from one time on, up to another
    /// or to the end.
    Times { from: u64, to: Option<u64> },
}

// How many nanoseconds a second has.
const SECOND: u64 = 1_000_000_000;

// The end of a range. Without one it is greater than the number of each frame.
fn read_end(text: &[u8]) -> Option<usize>
    ensures { result ≡ end_of text.now }
{
    if text.is_empty() {
        Some(usize::MAX)
    } else {
        usize::read(text)
    }
}

// The end that the next part is.
#[tactic(auto, unfolding(texts::specs::Reading::first_of_parts))]
fn next_end(parts: &mut Parts<'_>) -> Option<usize>
    ensures { Finds (λ x. (x, parts_left parts.new)) result
        (first_of_parts end_of (parts_left parts.old)) }
{
    read_end(parts.next_part()?)
}

// Passes over the empty part that two dots have between them.
fn skip_gap(parts: &mut Parts<'_>) -> Option<()>
    ensures { Finds (λ _. parts_left parts.new) result (after_gap (parts_left parts.old)) }
{
    parts.next_part()?.is_empty().then_some(())
}

// The numbers of the first frame and of the first after the last one, as in `12..80`.
#[tactic(auto, unfolding(crate::specs::Ranges::span_in))]
fn read_span(word: &[u8]) -> Option<(usize, usize)>
    ensures { result ≡ span_of word.now }
{
    let mut parts = Parts::new(word, b'.');
    let first = next(&mut parts)?;
    skip_gap(&mut parts)?;
    let end = next_end(&mut parts)?;
    parts.is_done().then_some((first, end))
}

// The number that two digits are.
fn read_two(piece: &[u8]) -> Option<u64>
    ensures number { result ≡ two_digits piece.now }
    ensures small { IfSome result (λ number. number < 100) }
{
    let [tens, ones] = piece else {
        return None;
    };
    if !is_digit(*tens) || !is_digit(*ones) {
        return None;
    }
    Some((*tens - b'0') as u64 * 10 + (*ones - b'0') as u64)
}

// The number that the next part is in two digits.
#[tactic(auto, unfolding(texts::specs::Reading::first_of_parts))]
fn next_two(parts: &mut Parts<'_>) -> Option<u64>
    ensures number { Finds (λ x. (x, parts_left parts.new)) result
        (first_of_parts two_digits (parts_left parts.old)) }
    ensures small { IfSome result (λ number. number < 100) }
{
    read_two(parts.next_part()?)
}

// The seconds of hours, minutes and seconds, as in `00:01:02`.
#[tactic(auto, unfolding(crate::specs::Ranges::clock_in))]
fn read_clock(piece: &[u8]) -> Option<u64>
    ensures seconds { result ≡ clock_of piece.now }
    ensures small { IfSome result (λ seconds. seconds < 360000) }
{
    let mut parts = Parts::new(piece, b':');
    let hours = next_two(&mut parts)?;
    let minutes = next_two(&mut parts)?;
    let seconds = next_two(&mut parts)?;
    if !parts.is_done() || minutes > 59 || seconds > 59 {
        return None;
    }
    Some((hours * 60 + minutes) * 60 + seconds)
}

// The nanoseconds of one to nine digits after a dot.
fn read_fraction(digits: &[u8]) -> Option<u64>
    ensures nanoseconds { result ≡ fraction_of digits.now }
    ensures small { IfSome result (λ nanoseconds. nanoseconds < 1000000001) }
{
    Some(read_worth(SECOND / 10, 9, digits)? as u64)
}

// The time in nanoseconds that the parts between dots begin with: a clock, and after a dot there may
// be digits.
#[tactic(auto, unfolding(crate::specs::Ranges::time_at))]
fn next_time(parts: &mut Parts<'_>) -> Option<u64>
    ensures { Finds (λ x. (x, parts_left parts.new)) result (time_at (parts_left parts.old)) }
{
    let whole = read_clock(parts.next_part()?)? * SECOND;
    let mut others = *parts;
    let Some(digits) = others.next_part() else {
        return Some(whole);
    };
    if digits.is_empty() {
        return Some(whole);
    }
    let part = read_fraction(digits)?;
    *parts = others;
    Some(whole + part)
}

// The same, or an empty part, which is no time.
#[tactic(auto, unfolding(crate::specs::Ranges::end_time_at))]
fn next_end_time(parts: &mut Parts<'_>) -> Option<Option<u64>>
    ensures { Finds (λ x. (x, parts_left parts.new)) result (end_time_at (parts_left parts.old)) }
{
    let mut others = *parts;
    let part = others.next_part()?;
    if part.is_empty() {
        *parts = others;
        return Some(None);
    }
    Some(Some(next_time(parts)?))
}

// A range of times, as in `00:01:02.5..00:01:04`.
#[tactic(auto, unfolding(crate::specs::Ranges::times_in))]
fn read_times(word: &[u8]) -> Option<Range>
    ensures { result ≡ times_of word.now }
{
    let mut parts = Parts::new(word, b'.');
    let from = next_time(&mut parts)?;
    skip_gap(&mut parts)?;
    let to = next_end_time(&mut parts)?;
    parts.is_done().then_some(Range::Times { from, to })
}

/// The range that a word is.
pub fn read_range(word: &[u8]) -> Option<Range>
    ensures { result ≡ range_of word.now }
{
    match read_span(word) {
        Some((first, end)) => Some(Range::Frames {
            first: first as u64,
            end: end as u64,
        }),
        None => read_times(word),
    }
}

// The number of the first frame that isn't before a time.
fn frame_at(rate: Rate, time: u64) -> u64
    requires { 0 < rate.seconds }
    ensures { result ≡ frame_at rate time }
{
    let step = rate.seconds as u128 * SECOND as u128;
    let number = (time as u128 * rate.frames as u128 + (step - 1)) / step;
    number.min(u64::MAX as u128) as u64
}

impl Range {
    /// The numbers of the first frame and of the first after them, in a video of this rate. `None`
    /// where times have no rate or no frame. A rate has no number that is 0. Those of times are the
    /// frames whose time is in the range.
    pub fn frames(self, rate: Option<Rate>) -> Option<(u64, u64)>
        ensures frames { result ≡ frames_in rate self }
        ensures exact { AreExactly rate self result }
    {
        match self {
            Range::Frames { first, end } => Some((first, end)),
            Range::Times { from, to } => {
                let rate = rate?;
                if rate.frames == 0 || rate.seconds == 0 {
                    return None;
                }
                let first = frame_at(rate, from);
                let end = match to {
                    Some(time) => frame_at(rate, time),
                    None => u64::MAX,
                };
                (first < end).then_some((first, end))
            }
        }
    }
}
