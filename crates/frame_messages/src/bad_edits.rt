//! Why words are no edit, in words for standard error. Nothing here changes what is written or the
//! status.

ghost use Rattle.std.specs.Prelude.{◌≡◌, ◌-◌};
ghost use Rattle.texts.specs.Parts.{parts_of};
ghost use Rattle.frame_messages.specs.Lines.{line_of};

use crate::beginnings::shown;
use crate::lines::{Lines, find_bad_word};
use frame_edits::Edits;
use frame_texts::line_words;
use std::alloc::Global;
use texts::Parts;

// How an edit is written: its word, its numbers, and what follows them. With the samples it is one.
#[derive(Clone, Copy)]
struct Form {
    word: &'static [u8],
    numbers: &'static str,
    last: &'static str,
    sample: &'static [u8],
}

impl Form {
    // What is said of other words in the place of its numbers.
    fn other(&self) -> &'static str {
        if self.word == b"flip".as_slice() || self.word == b"turn".as_slice() {
            "that"
        } else {
            "one. A number has no sign and no zero in front"
        }
    }
}

const RECTANGLE: &str = "a rectangle L,T,W,H";

// How an edit with this word is written.
fn form_of(word: &[u8]) -> Option<Form> {
    let forms = [
        Form {
            word: b"cover",
            numbers: "a rectangle L,T,W,H, or one with a margin L,T,W,H+M",
            last: "",
            sample: b"0",
        },
        Form {
            word: b"fill",
            numbers: RECTANGLE,
            last: "a brightness V, or a colour R,G,B",
            sample: b"0",
        },
        Form {
            word: b"mosaic",
            numbers: RECTANGLE,
            last: "the size of its tiles TW,TH",
            sample: b"1,1",
        },
        Form {
            word: b"means",
            numbers: RECTANGLE,
            last: "the size of its tiles TW,TH",
            sample: b"1,1",
        },
        Form {
            word: b"blur",
            numbers: RECTANGLE,
            last: "a radius R from 0 to 32767",
            sample: b"0",
        },
        Form {
            word: b"move",
            numbers: RECTANGLE,
            last: "a place X,Y",
            sample: b"0,0",
        },
        Form {
            word: b"flip",
            numbers: "rows or columns",
            last: "",
            sample: b"0",
        },
        Form {
            word: b"turn",
            numbers: "right, half or left",
            last: "",
            sample: b"0",
        },
        Form {
            word: b"crop",
            numbers: RECTANGLE,
            last: "",
            sample: b"0",
        },
        Form {
            word: b"pad",
            numbers: "the sizes of its sides L,T,R,B",
            last: "a brightness V",
            sample: b"0",
        },
    ];
    for form in forms {
        if word == form.word {
            return Some(form);
        }
    }
    None
}

// Whether there is an edit at the front of the words.
fn begins_edit(alloc: Global, words: &[&[u8]]) -> bool {
    Edits::new(alloc).take(words).is_ok()
}

fn has_dots(word: &[u8]) -> bool {
    let mut parts = Parts::new(word, b'.');
    let _front = parts.next_part();
    match parts.next_part() {
        Some(gap) => gap.is_empty() && !parts.is_done(),
        None => false,
    }
}

// The same of a word and the two after it.
fn is_edit_of<'a>(alloc: Global, word: &'a [u8], numbers: &'a [u8], last: &'a [u8]) -> bool {
    begins_edit(alloc, &[word, numbers, last])
}

// Whether a word is a range.
fn is_range<'a>(alloc: Global, word: &'a [u8]) -> bool {
    let (fill, nothing, value): (&'a [u8], &'a [u8], &'a [u8]) = (b"fill", b"0,0,0,0", b"0");
    begins_edit(alloc, &[word, fill, nothing, value])
}

// Prints why no edit begins with the words.
fn say_no_edit(rt: &HostRuntime, words: &[&[u8]]) {
    if begins_edit(rt.alloc(), words) {
        let _ = eprintln!(rt; "no edit may come after a crop or a pad, nor after a quarter turn");
        return;
    }
    let Some((range, others)) = words.split_first() else {
        return;
    };
    if !has_dots(range) {
        say_no_change(rt, words, false);
    } else if is_range(rt.alloc(), range) {
        say_no_change(rt, others, true);
    } else {
        let _ = eprintln!(rt;
            "{} is no range: A..B, A.., or times as 00:00:01..00:00:02.5",
            shown(range)
        );
    }
}

// The same of words without their range.
fn say_no_change(rt: &HostRuntime, words: &[&[u8]], has_range: bool) {
    let Some((word, others)) = words.split_first() else {
        let _ = eprintln!(rt; "no edit comes after the range");
        return;
    };
    match form_of(word) {
        Some(form) => say_bad_form(rt, form, others, has_range),
        None => {
            let _ = eprintln!(rt;
                "{} isn't one of cover, fill, mosaic, means, blur, move, flip, turn, crop and pad",
                shown(word)
            );
        }
    }
}

// The same of an edit by what follows its word.
fn say_bad_form(rt: &HostRuntime, form: Form, words: &[&[u8]], has_range: bool) {
    let name = shown(form.word);
    let Some((numbers, more)) = words.split_first() else {
        let _ = eprintln!(rt; "{name} needs {}", form.numbers);
        return;
    };
    if !is_edit_of(rt.alloc(), form.word, numbers, form.sample) {
        let _ = eprintln!(rt;
            "{name} needs {}, and {} isn't {}",
            form.numbers,
            shown(numbers),
            form.other()
        );
        return;
    }
    if has_range && form.last.is_empty() {
        let _ = if form.word == b"turn".as_slice() {
            eprintln!(rt; "turn right and turn left take no range")
        } else {
            eprintln!(rt; "{name} takes no range")
        };
        return;
    }
    let _ = match more.split_first() {
        Some((last, _)) => eprintln!(rt;
            "{name} needs {}, and {} isn't one",
            form.last,
            shown(last)
        ),
        None => eprintln!(rt; "{name} needs {} after {}", form.last, form.numbers),
    };
}

/// Prints at which word the words stop being edits, and why.
pub(crate) fn say_bad_word(rt: &HostRuntime, words: &[&[u8]]) {
    let Some(at) = find_bad_word(rt.alloc(), words) else {
        let _ = eprintln!(rt; "these are no edits");
        return;
    };
    let _ = eprint!(rt; "at word {}: ", at.saturating_add(1));
    say_no_edit(rt, &words[at.min(words.len())..]);
}

// The line of this number, from 1.
fn line_at(text: &[u8], number: usize) -> &[u8]
    ensures { result.now ≡ line_of (parts_of 10 text.now) (number - 1) }
{
    let mut lines = Parts::new(text, b'\n');
    let mut before = number.saturating_sub(1);
    while let Some(line) = lines.next_part() {
        if before == 0 {
            return line;
        }
        before -= 1;
    }
    &[]
}

/// Prints which line of a text is no edit, and why.
pub(crate) fn say_bad_line(rt: &HostRuntime, text: &[u8]) {
    let alloc = rt.alloc();
    let Some(number) = Lines::new(alloc, text).find(None) else {
        let _ = eprintln!(rt; "these are no edits");
        return;
    };
    let Ok(words) = line_words(alloc, line_at(text, number)) else {
        return;
    };
    let _ = eprint!(rt; "at line {number}: ");
    match Edits::new(alloc).take(&words) {
        Ok(count) if count < words.len() => {
            let _ = eprintln!(rt;
                "a line has one edit, and {} comes after it",
                shown(words[count])
            );
        }
        _ => say_no_edit(rt, &words),
    }
}
