//! The edits that a person asks for: those of a file or of words, after the boxes of a list.

ghost use Rattle.std.specs.Prelude.{◌≡◌, IfErr, IfOk, Some, false, map};
ghost use Rattle.std.specs.Option.{option_map};
ghost use Rattle.frame_edits.specs.Lists.{plain};
ghost use Rattle.frame_requests.specs.Asked.{AreAfterBoxes, AreAsked, AreNamed, AreSaid, AskedIsRefused, NamedAreRefused, SaidAreRefused, told};
ghost use Rattle.frame_requests.specs.Words.{AreUsable, HaveFrames};

use crate::boxes::with_boxes;
use crate::words::{Refusal, edits_of_lines, edits_of_words};
use frame_edits::{BoxStyle, Edits};
use frame_texts::are_boxes;
use std::alloc::Global;

// The edits of words. Beside a list of boxes there may be no word.
fn said_edits(alloc: Global, words: &[&[u8]], boxed: bool) -> Result<Edits, Refusal>
    ensures are { IfOk result (λ made. AreSaid (map (λ w. w.now) words.now) boxed (plain made)) }
    ensures frames { IfOk result (λ made. HaveFrames made.steps.items) }
    ensures usable { boxed ≡ false → IfOk result (λ made. AreUsable (plain made)) }
    ensures refused { IfErr result (SaidAreRefused (map (λ w. w.now) words.now) boxed) }
{
    if boxed && words.is_empty() {
        return Ok(Edits::new(alloc));
    }
    edits_of_words(alloc, words)
}

// The edits of the lines of a file, or else those of words.
fn named_edits(
    alloc: Global,
    file: Option<&[u8]>,
    words: &[&[u8]],
    boxed: bool,
) -> Result<Edits, Refusal>
    ensures are { IfOk result (λ made. AreNamed (option_map (λ text. text.now) file.entry)
        (map (λ w. w.now) words.now) boxed (plain made)) }
    ensures frames { IfOk result (λ made. HaveFrames made.steps.items) }
    ensures usable { boxed ≡ false → IfOk result (λ made. AreUsable (plain made)) }
    ensures refused { IfErr result (NamedAreRefused (option_map (λ text. text.now) file.entry)
        (map (λ w. w.now) words.now) boxed) }
{
    match file {
        Some(text) => edits_of_lines(alloc, text),
        None => said_edits(alloc, words, boxed),
    }
}

// What is told where edits beside a list of boxes are refused.
fn told(refusal: Refusal, boxes: &[u8]) -> Refusal
    ensures { result ≡ told refusal boxes.now }
{
    match refusal {
        Refusal::Memory => {
            if are_boxes(boxes) {
                Refusal::Memory
            } else {
                Refusal::NoBoxes
            }
        }
        _ => refusal,
    }
}

// The edits after the boxes of a list.
#[tactic(auto, using(crate::proofs::BesideBoxes::refused_beside))]
fn edits_beside(
    alloc: Global,
    style: BoxStyle,
    boxes: &[u8],
    hold: Option<usize>,
    file: Option<&[u8]>,
    words: &[&[u8]],
) -> Result<Edits, Refusal>
    ensures asked { IfOk result (λ made. AreAfterBoxes style boxes.now hold
        (option_map (λ text. text.now) file.entry) (map (λ w. w.now) words.now) (plain made)) }
    ensures usable { IfOk result (λ made. AreUsable (plain made)) }
    ensures refused { IfErr result (AskedIsRefused style (Some boxes.now) hold
        (option_map (λ text. text.now) file.entry) (map (λ w. w.now) words.now)) }
{
    match named_edits(alloc, file, words, true) {
        Ok(edits) => with_boxes(alloc, boxes, style, hold, &edits),
        Err(refusal) => Err(told(refusal, boxes)),
    }
}

/// The edits of the lines of a file, or else those of words. Where there is the text of a list of
/// boxes, what these become comes first, and there may be no word.
///
/// # Errors
///
/// Where the boxes or the edits are refused, or there is none. Out of memory only where no word and
/// no line is bad.
pub fn edits_asked(
    alloc: Global,
    style: BoxStyle,
    boxes: Option<&[u8]>,
    hold: Option<usize>,
    file: Option<&[u8]>,
    words: &[&[u8]],
) -> Result<Edits, Refusal>
    ensures asked { IfOk result (λ made. AreAsked style (option_map (λ text. text.now) boxes.entry)
        hold (option_map (λ text. text.now) file.entry) (map (λ w. w.now) words.now) (plain made)) }
    ensures usable { IfOk result (λ made. AreUsable (plain made)) }
    ensures refused { IfErr result (AskedIsRefused style (option_map (λ text. text.now) boxes.entry)
        hold (option_map (λ text. text.now) file.entry) (map (λ w. w.now) words.now)) }
{
    match boxes {
        Some(text) => edits_beside(alloc, style, text, hold, file, words),
        None => named_edits(alloc, file, words, false),
    }
}
