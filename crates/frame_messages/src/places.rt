//! Where edits are named, for messages: on lines of a tracker's list, on lines of a file of edits, or
//! among the words.

use crate::lines::Lines;
use frame_edits::{BoxStyle, first_frame, held_at};
use frame_texts::{box_text, put_by_tracks, read_box, read_tracked, track_of};
use std::alloc::{AllocError, Global};
use std::fmt;
use texts::Parts;

/// The texts of the files that name edits. The boxes come first.
#[derive(Clone, Copy)]
pub struct Texts<'a> {
    pub boxes: Option<&'a [u8]>,
    /// For how many frames a box is held.
    pub hold: Option<usize>,
    pub edits: Option<&'a [u8]>,
}

/// Where an edit is: on this line, or it is the one of this number among the words. Both count from 1.
#[derive(Clone, Copy)]
pub(crate) enum Place {
    Box(usize),
    Line(usize),
    Edit(usize),
}

// A box of a tracker's list: its track, its frame and its line.
#[derive(Clone, Copy)]
struct Listed {
    track: u128,
    frame: usize,
    line: usize,
}

// The boxes of a tracker's list, in their order.
fn list_boxes(alloc: Global, text: &[u8]) -> Result<Vec<Listed>, AllocError> {
    let mut found = Vec::new(alloc);
    let mut lines = Parts::new(text, b'\n');
    let mut number: usize = 0;
    while let Some(line) = lines.next_part() {
        number = number.saturating_add(1);
        if let Some(tracked) = read_box(box_text(line)) {
            found.push(Listed {
                track: track_of(&tracked),
                frame: tracked.frame,
                line: number,
            })?;
        }
    }
    Ok(found)
}

// The first frames and the lines of covers that are held, in the order of their tracks.
fn held_lines(
    alloc: Global,
    text: &[u8],
    hold: usize,
    lines: &[Listed],
) -> Result<Vec<(u64, usize)>, AllocError> {
    let mut found = Vec::new(alloc);
    // (the text is a list: it was read before)
    let Ok(mut boxes) = read_tracked(alloc, text) else {
        return Err(AllocError);
    };
    put_by_tracks(&mut boxes)?;
    for at in 0..boxes.len() {
        let line = match lines.get(at) {
            Some(listed) => listed.line,
            None => 0,
        };
        let (cover, gap) = held_at(BoxStyle::cover(None), hold, &boxes, at);
        found.push((first_frame(&cover), line))?;
        if let Some(gap) = gap {
            found.push((first_frame(&gap), line))?;
        }
    }
    Ok(found)
}

// The lines of the covers of a tracker's list, in the order of the covers: by their frames. The
// cover of a gap has the line before it.
fn lines_of_boxes(
    alloc: Global,
    text: &[u8],
    hold: Option<usize>,
) -> Result<Vec<usize>, AllocError> {
    let mut lines = list_boxes(alloc, text)?;
    lines.sort_by_key(|listed| listed.frame)?;
    let mut numbers = Vec::new(alloc);
    let Some(hold) = hold else {
        for listed in &lines {
            numbers.push(listed.line)?;
        }
        return Ok(numbers);
    };
    lines.sort_by_key(|listed| listed.track)?;
    let mut found = held_lines(alloc, text, hold, &lines)?;
    found.sort_by_key(|cover| cover.0)?;
    for (_, line) in &found {
        numbers.push(*line)?;
    }
    Ok(numbers)
}

/// Finds the places of edits. Where their numbers only grow, all lines are read once.
#[derive(Drop)]
pub(crate) struct Places<'a> {
    texts: Texts<'a>,
    alloc: Global,
    // The last number, and its place.
    last: Option<(usize, Place)>,
    // Those of the boxes, once one is looked for.
    boxes: Option<Vec<usize>>,
    lines: Option<Lines<'a>>,
}

impl<'a> Texts<'a> {
    pub(crate) fn places(self, alloc: Global) -> Places<'a> {
        Places {
            texts: self,
            alloc,
            last: None,
            boxes: None,
            lines: self.lines(alloc),
        }
    }

    // The lines of the file of edits, from the first on.
    fn lines(self, alloc: Global) -> Option<Lines<'a>> {
        match self.edits {
            Some(text) => Some(Lines::new(alloc, text)),
            None => None,
        }
    }
}

impl Places<'_> {
    /// The place of the edit of this number, counted from 0 with the boxes first.
    pub(crate) fn find(&mut self, number: usize) -> Place {
        if let Some((last, place)) = self.last {
            if number == last {
                return place;
            }
            if number < last {
                self.lines = self.texts.lines(self.alloc);
            }
        }
        let place = self.look_for(number);
        self.last = Some((number, place));
        place
    }

    // The same for a number that is greater than the one before.
    fn look_for(&mut self, number: usize) -> Place {
        if self.boxes.is_none() {
            let text = self.texts.boxes.unwrap_or(&[]);
            self.boxes = lines_of_boxes(self.alloc, text, self.texts.hold).ok();
        }
        let boxes: &[usize] = match &self.boxes {
            Some(boxes) => boxes,
            None => &[],
        };
        if number < boxes.len() {
            return Place::Box(boxes[number]);
        }
        let edit = number - boxes.len();
        let line = match &mut self.lines {
            Some(lines) => lines.find(Some(edit)),
            None => None,
        };
        match line {
            Some(line) => Place::Line(line),
            None => Place::Edit(edit.saturating_add(1)),
        }
    }
}

impl fmt::Display for Place {
    fn fmt<W: fmt::Write>(&self, f: &mut fmt::Formatter<W>) -> fmt::Result {
        match self {
            Place::Box(line) => write!(f, "line {line} of the boxes"),
            Place::Line(line) => write!(f, "line {line}"),
            Place::Edit(number) => write!(f, "edit {number}"),
        }
    }
}

/// Prints the place of an edit, before what is said of it.
pub(crate) fn say_place(rt: &HostRuntime, place: Place) {
    let _ = eprint!(rt; "{place}: ");
}
