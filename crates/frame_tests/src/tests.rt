//! What is bad is told whatever memory there is. Each test is also run with each allocation refused,
//! and has the same result then.

use frame_edits::{BoxStyle, Edit, Edits, Paint, Scope, read_boxes, read_held};
use frame_formats::{Plan, PlanFault};
use frame_requests::{Refusal, edits_asked};
use frame_texts::{Kind, Picture, Range, WordsFault, are_boxes, read_format, read_tracked};
use image_planes::{Change, Window};
use std::alloc::Global;

// A box, and a bad line.
const BOXES: &[u8] = b"1,1,0,0,1,1\nx";

// An edit, and a bad line.
const LINES: &[u8] = b"fill 0,0,1,1 0\nx\n";

#[test]
fn a_typo_after_a_box_is_told(rt: HostRuntime) {
    let alloc = rt.alloc();
    let style = BoxStyle::cover(None);
    assert!(rt; are_boxes(b"\n1,1,0,0,1,1\n") && !are_boxes(BOXES));
    assert!(rt; matches!(read_tracked(alloc, BOXES), Err(WordsFault::NoEdit)));
    assert!(rt; matches!(read_boxes(alloc, BOXES, style), Err(WordsFault::NoEdit)));
    assert!(rt; matches!(read_held(alloc, BOXES, style, 2), Err(WordsFault::NoEdit)));
}

// What lines add to no edits.
fn add_lines(alloc: Global, text: &[u8]) -> Result<(), WordsFault> {
    let mut edits = Edits::new(alloc);
    edits.take_lines(alloc, text)
}

// What words add to no edits.
fn add_words(alloc: Global, words: &[&[u8]]) -> Result<(), WordsFault> {
    let mut edits = Edits::new(alloc);
    edits.take_all(words)
}

#[test]
fn a_typo_after_an_edit_is_told(rt: HostRuntime) {
    let alloc = rt.alloc();
    let after = b"crop 0,0,1,1\nfill 0,0,1,1 0";
    assert!(rt; matches!(add_lines(alloc, LINES), Err(WordsFault::NoEdit)));
    assert!(rt; matches!(add_lines(alloc, after), Err(WordsFault::NoEdit)));
    let words: [&[u8]; 4] = [b"fill", b"0,0,1,1", b"0", b"x"];
    assert!(rt; matches!(add_words(alloc, &words), Err(WordsFault::NoEdit)));
}

// Why words beside a list are refused.
fn refusal_of(alloc: Global, list: &[u8], words: &[&[u8]]) -> Option<Refusal> {
    match edits_asked(alloc, BoxStyle::cover(None), Some(list), None, None, words) {
        Ok(_) => None,
        Err(refusal) => Some(refusal),
    }
}

#[test]
fn a_typo_in_a_list_beside_edits_is_told(rt: HostRuntime) {
    let alloc = rt.alloc();
    let words: [&[u8]; 3] = [b"fill", b"0,0,1,1", b"0"];
    assert!(rt; refusal_of(alloc, BOXES, &words) == Some(Refusal::NoBoxes));
    assert!(rt; refusal_of(alloc, BOXES, &[]) == Some(Refusal::NoBoxes));
    assert!(rt; refusal_of(alloc, b"# none\n", &[]) == Some(Refusal::EmptyBoxes));
}

// A fill of one pixel in this column.
fn fill_at(left: usize) -> Edit {
    Edit {
        range: Range::Frames { first: 0, end: 1 },
        change: Change::Fill {
            window: Window::new(left, 0, 1, 1),
            value: Paint::Grey(0),
        },
        scope: Scope::Exact,
    }
}

#[test]
fn an_edit_outside_after_a_good_one_is_told(rt: HostRuntime) {
    let alloc = rt.alloc();
    let steps = [fill_at(0), fill_at(2)];
    let picture = Picture {
        width: 2,
        height: 1,
        kind: Kind::Plain { colour: false },
        greatest: 255,
    };
    let made = Plan::for_picture(alloc, picture, &steps, None);
    assert!(rt; matches!(made, Err(PlanFault::Outside)));
    let line = b"YUV4MPEG2 W2 H1 Cmono";
    if let Some(format) = read_format(line) {
        let made = Plan::for_video(alloc, line, format, &steps, None);
        assert!(rt; matches!(made, Err(PlanFault::Outside)));
    } else {
        assert!(rt; false);
    }
}
