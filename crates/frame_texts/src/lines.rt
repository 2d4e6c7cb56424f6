//! The lines of a list: their ends, their comments and their words.

ghost use Rattle.std.specs.Prelude.{◌≡◌, IfSome, ◌≢◌, ◌<◌, map, [], ◌∷◌, position, Some, None, IfOk, IfErr};
ghost use Rattle.std.specs.List.{slice_split};
ghost use Rattle.std.specs.Str.Lines.{strip_carriage_return};
ghost use Rattle.frame_texts.specs.Lines.{words_left, is_white, pieces_left, uncommented, line_words};

use std::alloc::{AllocError, Global};
use texts::Parts;

// A line without the carriage return that it may end with.
pub(crate) fn before_return(line: &[u8]) -> &[u8]
    ensures { result.now ≡ strip_carriage_return line.now }
{
    let len = line.len();
    if len > 0 && line[len - 1] == b'\r' {
        return &line[..len - 1];
    }
    line
}

// A line without its comment.
pub(crate) fn before_comment(line: &[u8]) -> &[u8]
    ensures { result.now ≡ uncommented line.now }
{
    match Parts::new(line, b'#').next_part() {
        Some(front) => front,
        None => &[],
    }
}

pub(crate) fn is_white(byte: u8) -> bool
    ensures { result ≡ is_white byte }
{
    byte == b' ' || byte == b'\t'
}

// Where the first white space is.
fn find_white(line: &[u8]) -> Option<usize>
    ensures { result ≡ position is_white line.now }
{
    line.iter().position(|b| is_white(*b))
}

// The bytes before the first white space, and those after it.
fn next_piece(line: &[u8]) -> (&[u8], Option<&[u8]>)
    ensures { slice_split is_white line.now ≡ result.0.now ∷ pieces_left result.1 }
{
    match find_white(line) {
        Some(at) => (&line[..at], Some(&line[at + 1..])),
        None => (line, None),
    }
}

/// The words of a line that are left, without its comment. No memory is allocated.
#[derive(Clone, Copy)]
pub struct Words<'a> {
    // The bytes after the white space that was passed; `None` at the end of the line.
    rest: Option<&'a [u8]>,
}

impl<'a> Words<'a> {
    /// All words of a line.
    pub fn new(line: &'a [u8]) -> Self
        ensures { words_left result ≡ line_words line.now }
    {
        Words {
            rest: Some(before_comment(before_return(line))),
        }
    }

    /// The next word.
    pub fn next_word(&mut self) -> Option<&'a [u8]>
        ensures some { IfSome result (λ word.
            words_left self.old ≡ word.now ∷ words_left self.new) }
        ensures none { result ≡ None → words_left self.old ≡ [] }
    {
        while let Some(bytes) = self.rest {
            let (word, others) = next_piece(bytes);
            self.rest = others;
            if !word.is_empty() {
                return Some(word);
            }
        }
        None
    }
}

/// The words of a line of edits, without its comment. Without a word no memory is allocated.
#[tactic(auto, using(crate::proofs::LineWords::word_there))]
pub fn line_words<'a>(alloc: Global, line: &'a [u8]) -> Result<Vec<&'a [u8]>, AllocError>
    ensures words { IfOk result (λ words. map (λ w. w.now) words.items ≡ line_words line.now) }
    ensures memory { IfErr result (λ _. line_words line.now ≢ []) }
{
    let mut words = Vec::new(alloc);
    let mut rest = Words::new(line);
    while let Some(word) = rest.next_word() {
        words.push(word)?;
    }
    Ok(words)
}
