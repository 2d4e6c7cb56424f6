//! The lines and the words on which edits are, for messages.

use frame_edits::Edits;
use std::alloc::Global;
use texts::Parts;

/// The first word with which no edit begins, counted from 0.
pub(crate) fn find_bad_word(alloc: Global, words: &[&[u8]]) -> Option<usize> {
    let mut edits = Edits::new(alloc);
    let mut at = 0;
    while at < words.len() {
        match edits.take(&words[at..]) {
            Ok(count) => at += count,
            Err(_) => return Some(at),
        }
    }
    None
}

/// The lines of a text of edits, to tell on which line an edit is.
#[derive(Drop)]
pub(crate) struct Lines<'a> {
    alloc: Global,
    edits: Edits,
    lines: Parts<'a>,
    number: usize,
}

impl<'a> Lines<'a> {
    pub(crate) fn new(alloc: Global, text: &'a [u8]) -> Self {
        Lines {
            alloc,
            edits: Edits::new(alloc),
            lines: Parts::new(text, b'\n'),
            number: 0,
        }
    }

    /// The line of the edit that has this number among those with ranges, or the first line that is
    /// no edit. Lines count from 1. The next call goes on after that line.
    pub(crate) fn find(&mut self, edit: Option<usize>) -> Option<usize> {
        while let Some(line) = self.lines.next_part() {
            self.number = self.number.saturating_add(1);
            if self.edits.take_lines(self.alloc, line).is_err() {
                return Some(self.number);
            }
            if let Some(edit) = edit {
                if self.edits.steps.len() > edit {
                    return Some(self.number);
                }
            }
        }
        None
    }
}
