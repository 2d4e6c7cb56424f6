//! Why a run ended, in words for standard error. Nothing here changes what is written or the status.
//!
//! Which edit is bad is decided by the crate that makes plans. Here it is only told why.

use crate::bad_boxes::say_bad_box;
use crate::bad_edits::{say_bad_line, say_bad_word};
use crate::beginnings::shown;
use crate::places::{Texts, say_place};
use crate::ranges::say_no_frames;
use frame_edits::{Edit, Edits, Framing, Paint, Scope, Unsuited, turns_over};
use frame_requests::{Misread, Refusal, RunFault, Seen, Shape};
use frame_texts::{Format, Kind, Picture};
use image_commands::{Change, Window};

// A frame: its size, how many columns and rows of pixels share a chroma sample, and the greatest
// value of a sample.
#[derive(Clone, Copy)]
struct Frame {
    width: usize,
    height: usize,
    across: usize,
    down: usize,
    has_colours: bool,
    interlaced: bool,
    square: bool,
    greatest: usize,
}

impl Frame {
    fn of_video(format: Format) -> Frame {
        let (across, down) = format.chroma.sampling();
        Frame {
            width: format.width,
            height: format.height,
            across,
            down,
            has_colours: false,
            interlaced: format.interlaced,
            square: format.square,
            greatest: format.pixel.greatest as usize,
        }
    }

    fn of(shape: Shape) -> Frame {
        match shape {
            Shape::Video(format, _) => Frame::of_video(format),
            Shape::Picture(picture) => Frame {
                width: picture.width,
                height: picture.height,
                across: 1,
                down: 1,
                has_colours: match picture.kind {
                    Kind::Plain { colour } => colour,
                    Kind::Pam(tuples) => tuples.colour,
                },
                interlaced: false,
                square: true,
                greatest: picture.greatest as usize,
            },
        }
    }
}

// What is wrong with numbers in one direction.
#[derive(Clone, Copy)]
enum Wrong {
    Outside,
    NoSize,
    Colour,
    TooLarge,
    // A quarter turn where as many columns as rows don't share a chroma sample.
    Sampling(usize, usize),
    // A quarter turn of pixels that aren't square.
    NotSquare,
    // The rows of one field would be where those of the other were.
    Fields,
    // This number of these is no multiple of that.
    Uneven(&'static str, usize, usize),
    // This value is above the greatest.
    Value(usize, usize),
}

fn check_corner(name: &'static str, at: usize, step: usize) -> Option<Wrong> {
    if step > 1 && at % step != 0 {
        return Some(Wrong::Uneven(name, at, step));
    }
    None
}

// So many pixels from a place on: they go by whole samples, or end where the frame ends.
fn check_count(
    name: &'static str,
    at: usize,
    count: usize,
    whole: usize,
    step: usize,
) -> Option<Wrong> {
    if at > whole || whole - at < count {
        return Some(Wrong::Outside);
    }
    if step > 1 && count % step != 0 && whole - at != count {
        return Some(Wrong::Uneven(name, count, step));
    }
    None
}

fn check_window(frame: Frame, window: Window) -> Option<Wrong> {
    let left = check_corner("column", window.left, frame.across);
    let top = check_corner("row", window.top, frame.down);
    let width = check_count(
        "width",
        window.left,
        window.width,
        frame.width,
        frame.across,
    );
    let height = check_count(
        "height",
        window.top,
        window.height,
        frame.height,
        frame.down,
    );
    left.or(top).or(width).or(height)
}

fn check_value(frame: Frame, value: usize) -> Option<Wrong> {
    (value > frame.greatest).then_some(Wrong::Value(value, frame.greatest))
}

// The same of the tiles of a change, where it has tiles.
fn check_tiles(frame: Frame, change: Change<Paint>) -> Option<Wrong> {
    let (width, height) = match change {
        Change::Mosaic {
            tile_width,
            tile_height,
            ..
        }
        | Change::Mean {
            tile_width,
            tile_height,
            ..
        } => (tile_width, tile_height),
        _ => return None,
    };
    if width == 0 || height == 0 {
        return Some(Wrong::NoSize);
    }
    let wide = check_corner("tile width", width, frame.across);
    wide.or(check_corner("tile height", height, frame.down))
}

fn check_change(frame: Frame, change: Change<Paint>) -> Option<Wrong> {
    match change {
        Change::Fill { window, value } => match value {
            Paint::Around { value, .. } => check_value(frame, value?),
            Paint::Grey(value) => check_value(frame, value).or(check_window(frame, window)),
            Paint::Black => check_window(frame, window),
            Paint::Colour { .. } if !frame.has_colours => Some(Wrong::Colour),
            Paint::Colour { red, green, blue } => {
                let value = red.max(green).max(blue);
                check_value(frame, value).or(check_window(frame, window))
            }
        },
        Change::Mosaic { window, .. } | Change::Mean { window, .. } => {
            let tiles = check_tiles(frame, change);
            if matches!(tiles, Some(Wrong::NoSize)) {
                return tiles;
            }
            check_window(frame, window).or(tiles)
        }
        Change::Blur { window, .. } => check_window(frame, window),
        Change::Move { window, left, top } => {
            let goal = Window::new(left, top, window.width, window.height);
            check_window(frame, window).or(check_window(frame, goal))
        }
        Change::Flip(_) => (frame.interlaced && turns_over(change)).then_some(Wrong::Fields),
    }
}

// The same of a change of boxes, which are cut where the frame ends.
fn check_boxed(frame: Frame, change: Change<Paint>) -> Option<Wrong> {
    match change {
        Change::Fill { value, .. } => match value {
            Paint::Grey(value) => check_value(frame, value),
            Paint::Colour { .. } if !frame.has_colours => Some(Wrong::Colour),
            Paint::Colour { red, green, blue } => check_value(frame, red.max(green).max(blue)),
            _ => None,
        },
        _ => check_tiles(frame, change),
    }
}

fn check_edit(frame: Frame, edit: Edit) -> Option<Wrong> {
    match edit.scope {
        Scope::Exact => check_change(frame, edit.change),
        Scope::Boxed { .. } => check_boxed(frame, edit.change),
    }
}

// Why a frame can't be turned by a quarter.
fn check_turn(frame: Frame) -> Option<Wrong> {
    if frame.interlaced {
        Some(Wrong::Fields)
    } else if !frame.square {
        Some(Wrong::NotSquare)
    } else if frame.across != frame.down {
        Some(Wrong::Sampling(frame.across, frame.down))
    } else {
        Some(Wrong::TooLarge)
    }
}

fn check_framing(frame: Frame, framing: Framing) -> Option<Wrong> {
    match framing {
        Framing::Turn(_) => check_turn(frame),
        Framing::Crop(window) => {
            if window.width == 0 || window.height == 0 {
                return Some(Wrong::NoSize);
            }
            check_window(frame, window)
        }
        Framing::Pad {
            left,
            top,
            value,
            ..
        } => {
            let above = check_value(frame, value);
            let column = check_corner("left side", left, frame.across);
            let row = check_corner("upper side", top, frame.down);
            Some(above.or(column).or(row).unwrap_or(Wrong::TooLarge))
        }
    }
}

fn say_wrong(rt: &HostRuntime, wrong: Option<Wrong>) {
    let Some(wrong) = wrong else {
        let _ = eprintln!(rt; "a frame of this size can't be edited");
        return;
    };
    let _ = match wrong {
        Wrong::Outside => eprintln!(rt; "it reaches outside the frame"),
        Wrong::NoSize => eprintln!(rt; "its size is 0"),
        Wrong::Colour => eprintln!(rt; "a colour is only for pictures in colour"),
        Wrong::Fields => eprintln!(rt;
            "the video is interlaced, and its fields would be mixed up. Deinterlace it first"
        ),
        Wrong::Sampling(across, down) => eprintln!(rt;
            "{across} by {down} pixels share a chroma sample, and {down} by {across} would after the turn. Convert it to yuv420p or yuv444p first"
        ),
        Wrong::NotSquare => eprintln!(rt;
            "its pixels aren't square (field A), and the turn would change their sides. Scale it first"
        ),
        Wrong::Value(value, greatest) => eprintln!(rt;
            "value {value} is above {greatest}, the greatest of a sample"
        ),
        Wrong::TooLarge => eprintln!(rt;
            "the frame inside its border is too large, or ends within a chroma sample"
        ),
        Wrong::Uneven(name, number, step) => eprintln!(rt;
            "{name} {number} is no multiple of {step}, and chroma samples have {step} pixels there"
        ),
    };
}

// Prints what is wrong with the edit of this number.
fn say_bad_edit(rt: &HostRuntime, frame: Frame, number: usize, edits: &Edits, texts: Texts<'_>) {
    say_place(rt, texts.places(rt.alloc()).find(number));
    let wrong = match edits.steps.get(number) {
        Some(edit) => check_edit(frame, *edit),
        None => None,
    };
    say_wrong(rt, wrong);
}

// Prints what is wrong with what becomes of the size.
fn say_bad_size(rt: &HostRuntime, frame: Frame, framing: Framing) {
    let _ = match framing {
        Framing::Turn(_) => eprint!(rt; "the turn: "),
        _ => eprint!(rt; "the crop or pad: "),
    };
    say_wrong(rt, check_framing(frame, framing));
}

/// Prints what isn't one of the frame, the size of the frame, and what is wrong.
pub fn say_outside(
    rt: &HostRuntime,
    seen: &Seen,
    unsuited: Option<Unsuited>,
    edits: &Edits,
    texts: Texts<'_>,
) {
    if say_no_frames(rt, seen.rate(), &edits.steps, texts) {
        return;
    }
    let Some(shape) = seen.shape() else {
        return;
    };
    let frame = Frame::of(shape);
    let _ = eprintln!(rt; "the frame has {} by {} pixels", frame.width, frame.height);
    match (unsuited, edits.framing) {
        (Some(Unsuited::Edit(number)), _) => say_bad_edit(rt, frame, number, edits, texts),
        (Some(Unsuited::Size), Some(framing)) => say_bad_size(rt, frame, framing),
        _ => say_wrong(rt, None),
    }
}

/// Prints why the run ended, where no edit is the reason.
pub fn say_reason(rt: &HostRuntime, fault: RunFault, seen: &Seen, limit: usize) {
    let _ = match fault {
        // `say_outside` tells it.
        RunFault::Outside => Ok(()),
        RunFault::Memory(_) => {
            if let Some(shape) = seen.shape() {
                let (width, height) = shape.size();
                let _ = eprintln!(rt; "the frame has {width} by {height} pixels");
            }
            eprintln!(rt;
                "the buffers would have more than {limit} bytes (--limit), or there is no memory for them"
            )
        }
        // `say_no_head` of beginnings.rt tells it.
        RunFault::Header => Ok(()),
        RunFault::Frame(number) => eprintln!(rt;
            "after {number} frames or pictures the input goes on, and not with a whole one"
        ),
        // The caller tells the file and the cause.
        RunFault::Input | RunFault::Output => Ok(()),
    };
}

// The word at this place.
fn word_at<'a>(words: &'a [&'a [u8]], at: usize) -> &'a str {
    match words.get(at) {
        Some(word) => shown(word),
        None => "a word",
    }
}

// Prints why a word before the edits is no option, or no number.
fn say_no_option(rt: &HostRuntime, misread: Misread, words: &[&[u8]]) {
    let _ = match misread {
        Misread::Lacks(at) => eprintln!(rt; "nothing follows {}", word_at(words, at)),
        Misread::NoNumber(at) => eprintln!(rt;
            "{} needs a whole number, and {} isn't one: it has no sign, no unit and no zero in front, and is below 18446744073709551616",
            word_at(words, at.saturating_sub(1)),
            word_at(words, at)
        ),
        Misread::NoWay(at) => eprintln!(rt;
            "--with needs fill V, fill R,G,B, mosaic TW,TH, means TW,TH or blur R, and not {} {}",
            word_at(words, at),
            word_at(words, at.saturating_add(1))
        ),
        Misread::NoName(at) => eprintln!(rt; "{} needs the name of a file", word_at(words, at)),
        Misread::Unknown(at) => eprintln!(rt; "{} is no option", word_at(words, at)),
    };
}

/// Prints why the words are no edits.
pub fn say_no_words(rt: &HostRuntime, refusal: Refusal, words: &[&[u8]], texts: Texts<'_>) {
    match refusal {
        Refusal::Memory => {}
        Refusal::Empty => {
            let _ = eprintln!(rt; "there is no edit, so nothing would be covered");
        }
        Refusal::EmptyBoxes => {
            let _ = eprintln!(rt; "the file of boxes has no box, so nothing would be covered");
        }
        Refusal::NoBoxes => say_bad_box(rt, texts.boxes),
        Refusal::NoOption(misread) => say_no_option(rt, misread, words),
        Refusal::Beside(at) => {
            let _ = eprintln!(rt;
                "{} comes after --edits, which has all edits in its file",
                word_at(words, at)
            );
        }
        Refusal::OneInput => {
            let _ = eprintln!(rt;
                "- reads standard input once, so -i has to name the input, and the other list a file"
            );
        }
        Refusal::NoFrame(number) => {
            let edits = Texts {
                boxes: None,
                ..texts
            };
            say_place(rt, edits.places(rt.alloc()).find(number));
            let _ = eprintln!(rt; "its range has no frame: the second number must be greater");
        }
        Refusal::NoText => {
            let _ = eprintln!(rt;
                "a word isn't UTF-8. Of a file with such a name the shell makes the input or the output: < or >"
            );
        }
        Refusal::NoEdits => match texts.edits {
            Some(text) => say_bad_line(rt, text),
            None => say_bad_word(rt, words),
        },
    }
}
