//! The edits that the words after the program's name denote, or the lines of the file that they
//! name.

ghost use Rattle.std.specs.Prelude.{◌≡◌, IfOk, IfErr, IfSome, OnOk, Some, None, map, []};
ghost use Rattle.frame_edits.specs.Edits.{edits};
ghost use Rattle.frame_edits.specs.Lists.{with_lines, plain};
ghost use Rattle.frame_requests.specs.Words.{AreWords, AreUsable, AreRefused, HaveFrames, IsFirstEmpty, RefusesLines, RefusesWords, has_blur, has_span, refusal_of};
ghost use Rattle.texts.specs.Parts.{parts_of};

use crate::options::Misread;
use frame_edits::{Edit, Edits};
use frame_texts::{Range, WordsFault};
use image_commands::Change;
use std::alloc::Global;
use std::{env, io};

/// Why the words are refused.
#[derive(Clone, Copy, PartialEq, Eq)]
pub enum Refusal {
    /// They are no edits.
    NoEdits,
    /// One of them isn't UTF-8.
    NoText,
    /// There is no edit.
    Empty,
    /// The range of the edit of this number, counted from 0, has no frame.
    NoFrame(usize),
    /// A line of the tracker's list is no box.
    NoBoxes,
    /// The tracker's list has no box.
    EmptyBoxes,
    /// The words before the edits are no options.
    NoOption(Misread),
    /// The edits are in a file, and this word comes after it.
    Beside(usize),
    /// Standard input is to be the edits or the boxes, and something else too.
    OneInput,
    /// Out of memory.
    Memory,
}

/// Why words could not be had: there was no memory for them, or this.
pub(crate) fn fault_of(error: io::Error, other: Refusal) -> Refusal {
    if error.kind() == io::ErrorKind::OutOfMemory {
        Refusal::Memory
    } else {
        other
    }
}

fn refusal_of(fault: WordsFault) -> Refusal
    ensures { result ≡ refusal_of fault }
{
    match fault {
        WordsFault::NoEdit => Refusal::NoEdits,
        WordsFault::Memory => Refusal::Memory,
    }
}

/// The words of the command line, the program's name first.
pub fn words_of(rt: &HostRuntime) -> Result<Vec<String>, Refusal> {
    let words = match env::args(rt) {
        Ok(words) => words,
        Err(error) => return Err(fault_of(error, Refusal::NoText)),
    };
    // One by one: `collect` asks for less where it is refused the room for all.
    let mut all = Vec::new(rt.alloc());
    for word in words {
        if all.push(word).is_err() {
            return Err(Refusal::Memory);
        }
    }
    Ok(all)
}

// Whether a range begins before its end.
fn has_span(range: Range) -> bool
    ensures { result ≡ has_span range }
{
    match range {
        Range::Frames { first, end } => first < end,
        Range::Times { from: _, to: None } => true,
        Range::Times { from, to: Some(to) } => from < to,
    }
}

// The first edit whose range has no frame.
fn find_no_frame(edits: &[Edit]) -> Option<usize>
    ensures first { IfSome result (IsFirstEmpty edits.now) }
    ensures none { result ≡ None → HaveFrames edits.now }
{
    for at in 0..edits.len() {
        if !has_span(edits[at].range) {
            return Some(at);
        }
    }
    None
}

// Refuses a list with no edit, and a range with no frame: both would show what was to be covered.
fn refuse_unusable(edits: &Edits) -> Result<(), Refusal>
    ensures usable { OnOk result (AreUsable (plain edits.now)) }
    ensures refused { IfErr result (AreRefused (plain edits.now)) }
{
    if edits.steps.is_empty() && edits.framing.is_none() {
        return Err(Refusal::Empty);
    }
    match find_no_frame(&edits.steps) {
        None => Ok(()),
        Some(at) => Err(Refusal::NoFrame(at)),
    }
}

/// The edits that the words are, one after the other.
///
/// # Errors
///
/// Where the words are no edits, there is none, or a range has no frame.
#[tactic(auto, using(crate::proofs::Refusals::no_words, crate::proofs::Refusals::words_refused))]
pub fn edits_of_words(alloc: Global, words: &[&[u8]]) -> Result<Edits, Refusal>
    ensures are { IfOk result (λ made. AreWords (map (λ w. w.now) words.now) (plain made)) }
    ensures usable { IfOk result (λ made. AreUsable (plain made)) }
    ensures refused { IfErr result (RefusesWords (map (λ w. w.now) words.now)) }
{
    let mut edits = Edits::new(alloc);
    match edits.take_all(words) {
        Ok(()) => {}
        Err(fault) => return Err(refusal_of(fault)),
    }
    match refuse_unusable(&edits) {
        Ok(()) => Ok(edits),
        Err(refusal) => Err(refusal),
    }
}

/// The edits that the lines of a text are.
///
/// # Errors
///
/// Where a line is no edit, there is none, or a range has no frame.
#[tactic(auto, using(crate::proofs::Refusals::no_lines, crate::proofs::Refusals::lines_refused))]
pub fn edits_of_lines(alloc: Global, text: &[u8]) -> Result<Edits, Refusal>
    ensures are { IfOk result
        (λ made. with_lines (edits [] None) (parts_of 10 text.now) ≡ Some (plain made)) }
    ensures usable { IfOk result (λ made. AreUsable (plain made)) }
    ensures refused { IfErr result (RefusesLines text.now) }
{
    let mut edits = Edits::new(alloc);
    match edits.take_lines(alloc, text) {
        Ok(()) => {}
        Err(fault) => return Err(refusal_of(fault)),
    }
    match refuse_unusable(&edits) {
        Ok(()) => Ok(edits),
        Err(refusal) => Err(refusal),
    }
}

/// Whether a step is a blur, which hides nothing.
pub fn has_blur(steps: &[Edit]) -> bool
    ensures { result ≡ has_blur steps.now }
{
    steps
        .iter()
        .any(|step| matches!(step.change, Change::Blur { .. }))
}
