//! Why a line is no box, in words for standard error. Nothing here changes what is written or the
//! status.

use frame_texts::{Tracked, are_boxes, box_text, read_box, read_decimal, read_frame};
use std::str;
use texts::Parts;

// The fields of a box, in their order.
const FIELDS: [&str; 6] = ["frame", "id", "left", "top", "width", "height"];

/// Prints which line is no box, and why.
pub(crate) fn say_bad_box(rt: &HostRuntime, text: Option<&[u8]>) {
    let mut lines = Parts::new(text.unwrap_or(&[]), b'\n');
    let mut number: usize = 0;
    while let Some(line) = lines.next_part() {
        number = number.saturating_add(1);
        if are_boxes(line) {
            continue;
        }
        let _ = eprint!(rt; "at line {number} of the boxes: ");
        say_bad_fields(rt, box_text(line));
        return;
    }
    let _ = eprintln!(rt; "these are no boxes");
}

// Whether a field is what it is to be at this place.
fn is_field(at: usize, field: &[u8]) -> bool {
    if at == 0 {
        return read_frame(field).is_some();
    }
    match read_decimal(field) {
        Some(number) => at < 4 || !number.minus,
        None => false,
    }
}

// So many bytes of a field are printed.
const SHOWN: usize = 80;

// Prints bytes unchanged. Those that no terminal is to get are printed by their numbers.
fn say_bytes(rt: &HostRuntime, bytes: &[u8]) {
    if let Ok(text) = str::from_utf8(bytes) {
        if !text.chars().any(|letter| letter.is_control()) {
            let _ = eprint!(rt; "{text}");
            return;
        }
    }
    for byte in bytes {
        let _ = match str::from_utf8(&[*byte]) {
            Ok(letter) if b' ' <= *byte && *byte <= b'~' => eprint!(rt; "{letter}"),
            _ => eprint!(rt; "\\x{byte:02x}"),
        };
    }
}

// Prints the beginning of a field, and how long the rest is.
fn say_front(rt: &HostRuntime, field: &[u8]) {
    match field.get(..SHOWN) {
        Some(front) if field.len() > SHOWN => {
            say_bytes(rt, front);
            let _ = eprint!(rt; " and {} bytes more", field.len() - SHOWN);
        }
        _ => say_bytes(rt, field),
    }
}

// A number without its sign and without white space before it.
fn unsigned(field: &[u8]) -> &[u8] {
    let mut rest = field;
    while let [byte, others @ ..] = rest {
        if *byte != b' ' && *byte != b'\t' && *byte != b'-' {
            break;
        }
        rest = others;
    }
    rest
}

fn are_digits(bytes: &[u8]) -> bool {
    !bytes.is_empty() && bytes.iter().all(|byte| b'0' <= *byte && *byte <= b'9')
}

// What is wrong with the number of digits of a field that is a number otherwise.
fn too_long(at: usize, field: &[u8]) -> Option<&'static str> {
    let mut parts = Parts::new(unsigned(field), b'.');
    let whole = parts.next_part().unwrap_or(&[]);
    if !are_digits(whole) || (whole.len() > 1 && whole[0] == b'0') {
        return None;
    }
    if at == 0 {
        return (whole.len() > 19).then_some(
            "above 18446744073709551615, the greatest number of a frame",
        );
    }
    if whole.len() > 9 && read_decimal(whole).is_none() {
        return Some("above 4294967295, the greatest number of a field");
    }
    match parts.next_part() {
        Some(digits) if are_digits(digits) && digits.len() > 20 => {
            Some("longer than 20 digits after the point")
        }
        _ => None,
    }
}

// Prints the first field that is missing or wrong.
fn say_bad_fields(rt: &HostRuntime, line: &[u8]) {
    let mut fields = Parts::new(line, b',');
    for at in 0..FIELDS.len() {
        let name = FIELDS[at];
        let Some(field) = fields.next_part() else {
            let _ = eprintln!(rt; "the {name} is missing: frame,id,left,top,width,height");
            return;
        };
        if is_field(at, field) {
            continue;
        }
        let _ = eprint!(rt; "the {name} is ");
        say_front(rt, field);
        if let Some(long) = too_long(at, field) {
            let _ = eprintln!(rt; ", which is {long}");
            return;
        }
        let wanted = match at {
            0 => "no whole number from 1 on",
            1 | 2 | 3 => "no number such as 12 or -3.5",
            _ => "no number such as 12 or 3.5",
        };
        let _ = eprintln!(rt; ", which is {wanted}");
        return;
    }
    let _ = eprintln!(rt; "it is no box");
}

// ---- lists that are read, and look as if they were meant otherwise

// After so many frames the first box is noted.
const FIRST: usize = 10;

// Whether a number is from 0 to 1.
fn is_share(minus: bool, whole: usize, part: u128) -> bool {
    !minus && (whole == 0 || (whole == 1 && part == 0))
}

// Whether the corner and the size of a box are from 0 to 1.
fn is_small(tracked: &Tracked) -> bool {
    [tracked.left, tracked.top, tracked.width, tracked.height]
        .iter()
        .all(|number| is_share(number.minus, number.whole, number.part))
}

/// Prints what a list of boxes looks as if it were meant otherwise. It takes no memory, so that no
/// note is lost.
pub fn say_odd_boxes(rt: &HostRuntime, text: &[u8]) {
    let mut lines = Parts::new(text, b'\n');
    let mut first = usize::MAX;
    let mut are_small = true;
    while let Some(line) = lines.next_part() {
        let Some(tracked) = read_box(box_text(line)) else {
            continue;
        };
        first = first.min(tracked.frame);
        are_small = are_small && is_small(&tracked);
    }
    if are_small {
        let _ = eprintln!(rt;
            "note: all boxes are from 0 to 1, and are read as pixels: imgref-boxes --size makes pixels of shares of a frame"
        );
    }
    if first > FIRST {
        let _ = eprintln!(rt;
            "note: the first box is in frame {first} of the list: imgref-boxes --first-frame counts frames anew"
        );
    }
}
