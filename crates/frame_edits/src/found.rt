//! The edit at the front of words, or that a line is, before it is added to others. Nothing here takes
//! memory.

ghost use Rattle.std.specs.Prelude.{◌≡◌, ◌<◌, ◌≤◌, map, [], true, false, IfSome, length};
ghost use Rattle.std.specs.Option.{is_some, option_map};
ghost use Rattle.texts.specs.Parts.{parts_of};
ghost use Rattle.frame_edits.specs.Edits.{edits};
ghost use Rattle.frame_edits.specs.Lists.{AreEdits, HaveEdits, WordsAre, framing_of, named_of, with_lines};
ghost use Rattle.frame_edits.specs.Words.{Named, edit_at};
ghost use Rattle.std.specs.Prelude.{List};
ghost use Rattle.frame_texts.specs.Lines.{line_words};

use crate::framing::Framing;
use crate::words::{Edit, read_framing, read_ranged};
use frame_texts::Words;
use texts::Parts;

/// The edit at the front of words.
#[derive(Clone, Copy)]
pub(crate) enum Found {
    /// A change of the pixels of some frames.
    Step(Edit),
    /// What becomes of the size of all frames.
    Size(Framing),
}

/// What all words of a line are.
#[derive(Clone, Copy)]
pub(crate) enum Line {
    /// There is no word.
    Blank,
    Edit(Found),
    Bad,
}

// What becomes of the size.
fn framing_of(found: Found) -> Option<Framing>
    ensures { result ≡ framing_of found }
{
    match found {
        Found::Step(_) => None,
        Found::Size(framing) => Some(framing),
    }
}

/// The edit at the front of words, and how many words it has.
pub(crate) fn read_edit(words: &[&[u8]]) -> Option<(Found, usize)>
    ensures edit { option_map (λ f. named_of f.0 f.1) result ≡ edit_at (map (λ w. w.now) words.now) }
    ensures some { IfSome result (λ f. 0 < f.1) }
    ensures there { IfSome result (λ f. f.1 ≤ length words.now) }
{
    if let Some((framing, count)) = read_framing(words) {
        return Some((Found::Size(framing), count));
    }
    let (step, count) = read_ranged(words)?;
    Some((Found::Step(step), count))
}

/// Whether words are edits, one after the other, where this became of the size before.
pub(crate) fn are_edits(framing: Option<Framing>, words: &[&[u8]]) -> bool
    ensures are { result ≡ true → HaveEdits framing (map (λ w. w.now) words.now) }
    ensures none { result ≡ false
        → (es : List Named) → AreEdits es framing (map (λ w. w.now) words.now) → ⊥ }
{
    let (mut before, mut at) = (framing, 0);
    while at < words.len() {
        if before.is_some() {
            return false;
        }
        let Some((found, count)) = read_edit(&words[at..]) else {
            return false;
        };
        before = framing_of(found);
        at += count;
    }
    true
}

// What words are, all of them.
#[tactic(auto, using(crate::proofs::EditsEach::words_one, crate::proofs::EditsEach::words_fewer, crate::proofs::EditsEach::words_none))]
fn read_one(words: &[&[u8]]) -> Line
    requires { 0 < length words.now }
    ensures { WordsAre (map (λ w. w.now) words.now) result }
{
    match read_edit(words) {
        Some((found, count)) => {
            if count == words.len() {
                Line::Edit(found)
            } else {
                Line::Bad
            }
        }
        None => Line::Bad,
    }
}

/// What a line of a list is. No edit has more than four words.
#[tactic(auto, using(crate::proofs::FewWords::too_many))]
pub(crate) fn read_line(line: &[u8]) -> Line
    ensures { WordsAre (line_words line.now) result }
{
    let mut words = Words::new(line);
    let Some(first) = words.next_word() else {
        return Line::Blank;
    };
    let Some(second) = words.next_word() else {
        return read_one(&[first]);
    };
    let Some(third) = words.next_word() else {
        return read_one(&[first, second]);
    };
    let Some(fourth) = words.next_word() else {
        return read_one(&[first, second, third]);
    };
    if let Some(_fifth) = words.next_word() {
        return Line::Bad;
    }
    read_one(&[first, second, third, fourth])
}

/// Whether each line of a text with a word is an edit that may come after those before it. This became
/// of the size before the lines.
#[tactic(auto, using(crate::proofs::EditLines::pass_blank, crate::proofs::EditLines::pass_edit, crate::proofs::EditLines::stops_late, crate::proofs::EditLines::stops_bad))]
pub(crate) fn are_lines(framing: Option<Framing>, text: &[u8]) -> bool
    ensures { result ≡ is_some (with_lines (edits [] framing) (parts_of 10 text.now)) }
{
    let mut before = framing;
    let mut lines = Parts::new(text, b'\n');
    while let Some(line) = lines.next_part() {
        match read_line(line) {
            Line::Blank => {}
            Line::Edit(found) => {
                if before.is_some() {
                    return false;
                }
                before = framing_of(found);
            }
            Line::Bad => return false,
        }
    }
    true
}
