//! Edits that did nothing: ranges that the input didn't reach, ranges of times that have no frame, and
//! covers that cover nothing.

ghost use Rattle.std.specs.Prelude.{◌≡◌, ◌≤◌, ℕ, List, true, false};
ghost use Rattle.std.specs.List.{list_any};
ghost use Rattle.frame_messages.specs.Unreached.{is_unreached, unreached};
ghost use Rattle.frame_requests.specs.Seen.{IsAnyUncovered, Sees, last_seen};
ghost use Rattle.frame_requests.specs.declared.seen.Shape.{Shape};

use crate::notes::Notes;
use crate::places::{Place, Texts, say_place};
use frame_edits::Edit;
use frame_requests::Seen;
use frame_texts::Rate;
use std::alloc::Global;
use std::io;
use std::io::Write;

/// The edits of a run and where each is named, for what is said of those that did nothing.
#[derive(Clone, Copy)]
pub struct Noted<'a> {
    pub alloc: Global,
    pub steps: &'a [Edit],
    pub texts: Texts<'a>,
    /// Whether it is a fault.
    pub strict: bool,
}

// The frames of an edit, where an input of so many ends before them. All frames are those that there
// are.
fn unreached(edit: &Edit, count: u64, rate: Option<Rate>) -> Option<(u64, u64)>
    ensures { result ≡ unreached count rate edit.now }
{
    let (first, end) = edit.range.frames(rate)?;
    if first < count || (first == 0 && end == u64::MAX) {
        return None;
    }
    Some((first, end))
}

impl Noted<'_> {
    /// Whether the input, which had so many frames, ends before a range.
    pub fn is_any_unreached(self, count: u64, rate: Option<Rate>) -> bool
        ensures unreached { result
            ≡ list_any (λ e. is_unreached count rate e) self.entry.steps.now }
    {
        self.steps
            .iter()
            .any(|edit| unreached(edit, count, rate).is_some())
    }

    /// Prints each range of frames that the input, which had so many, didn't reach.
    pub fn say_unreached<W: Write>(
        self,
        count: u64,
        rate: Option<Rate>,
        writer: &mut W,
    ) -> io::Result<()> {
        let mut notes = Notes::new(self.strict, "fault range");
        // The numbers only grow, so all lines are read once.
        let mut places = self.texts.places(self.alloc);
        for number in 0..self.steps.len() {
            let Some((first, end)) = unreached(&self.steps[number], count, rate) else {
                continue;
            };
            if !notes.begin(writer)? {
                continue;
            }
            let place = places.find(number);
            write!(
                writer,
                "{place}: the input has {count} frames, and ends before "
            )?;
            match place {
                Place::Box(_) => writeln!(writer, "frame {} of the list", first.saturating_add(1))?,
                _ if end < u64::MAX => writeln!(writer, "its range {first}..{end}")?,
                _ => writeln!(writer, "its range {first}..")?,
            }
        }
        notes.end(writer)
    }

    /// Whether a cover covers nothing in a frame of so many.
    pub fn is_any_uncovered(self, seen: &Seen, count: u64) -> bool
        ensures some { (shapes : List (ℕ × Shape)) → Sees self.entry.steps.now shapes seen.now
            → last_seen seen.now ≤ count → result ≡ true
            → IsAnyUncovered shapes self.entry.steps.now count }
        ensures none { (shapes : List (ℕ × Shape)) → Sees self.entry.steps.now shapes seen.now
            → last_seen seen.now ≤ count → result ≡ false
            → IsAnyUncovered shapes self.entry.steps.now count → ⊥ }
    {
        for number in 0..self.steps.len() {
            if seen.uncovered(number, &self.steps[number], count).is_some() {
                return true;
            }
        }
        false
    }

    /// Prints each cover that covers nothing in a frame of so many.
    pub fn say_uncovered<W: Write>(
        self,
        seen: &Seen,
        count: u64,
        writer: &mut W,
    ) -> io::Result<()> {
        let mut notes = Notes::new(self.strict, "fault cover");
        let mut places = self.texts.places(self.alloc);
        for number in 0..self.steps.len() {
            let Some(found) = seen.uncovered(number, &self.steps[number], count) else {
                continue;
            };
            if !notes.begin(writer)? {
                continue;
            }
            let place = places.find(number);
            write!(writer, "{place}: it covers nothing in frame ")?;
            match place {
                Place::Box(_) => write!(writer, "{} of the list", found.frame.saturating_add(1))?,
                _ => write!(writer, "{}", found.frame)?,
            }
            writeln!(
                writer,
                ", which has {} by {} pixels",
                found.width, found.height
            )?;
        }
        notes.end(writer)
    }
}

/// Prints the first range of times that has no frame, and why. Returns whether there is one.
pub(crate) fn say_no_frames(
    rt: &HostRuntime,
    rate: Option<Rate>,
    steps: &[Edit],
    texts: Texts<'_>,
) -> bool {
    for number in 0..steps.len() {
        if steps[number].range.frames(rate).is_some() {
            continue;
        }
        say_place(rt, texts.places(rt.alloc()).find(number));
        let _ = match rate {
            Some(rate) if rate.frames > 0 && rate.seconds > 0 => eprintln!(rt;
                "no frame is in its range of times, with F{}:{}",
                rate.frames, rate.seconds
            ),
            _ => eprintln!(rt;
                "its range is of times, and the input names no rate of frames, as F25:1 does"
            ),
        };
        return true;
    }
    false
}
