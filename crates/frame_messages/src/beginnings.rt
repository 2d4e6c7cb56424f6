//! Why an input begins with no supported video and no header of a picture, in words for standard
//! error. Nothing here changes what is written or the status.

use frame_texts::{Fields, Head, Key, Lines, Place, Scan, read_size};
use std::str;
use texts::Parts;

/// The bytes as a text, where all of them can be printed.
pub(crate) fn shown(bytes: &[u8]) -> &str {
    for byte in bytes {
        if *byte < b'!' || *byte > b'~' {
            return "..";
        }
    }
    match str::from_utf8(bytes) {
        Ok(text) => text,
        Err(_) => "..",
    }
}

/// Prints what is wrong with the bytes at the front of an input.
pub fn say_no_head(rt: &HostRuntime, front: &[u8]) {
    match front {
        [] => {
            let _ = eprintln!(rt; "the input is empty");
        }
        [b'P', kind, ..] => say_no_picture(rt, *kind, front),
        _ => say_no_video(rt, front),
    }
}

// ---- videos

fn say_no_video(rt: &HostRuntime, front: &[u8]) {
    let mut lines = Parts::new(front, b'\n');
    let line = lines.next_part().unwrap_or(front);
    let mut fields = Parts::new(line, b' ');
    if fields.next_part().unwrap_or(front) != b"YUV4MPEG2".as_slice() {
        let _ = eprintln!(rt;
            "the input begins with none of YUV4MPEG2, P5, P6 and P7. Other videos need ffmpeg with -f yuv4mpegpipe"
        );
    } else if lines.is_done() || line.len() > 255 {
        let _ = eprintln!(rt; "the first line has no end, or has more than 256 bytes");
    } else if !say_no_size(rt, fields, b'W', "W") && !say_no_size(rt, fields, b'H', "H") {
        let (_, word) = tagged(fields, b'C');
        let _ = eprintln!(rt;
            "the sampling C{} isn't supported: only C420, C422, C444, Cmono at 8 to 16 bits, C411 and C444alpha at 8, or ffmpeg with -pix_fmt yuv420p",
            shown(word.unwrap_or(b""))
        );
    }
}

// How many fields begin with the letter, and what follows it in the first of them.
fn tagged<'a>(fields: Parts<'a>, letter: u8) -> (usize, Option<&'a [u8]>) {
    let mut rest = fields;
    let mut count: usize = 0;
    let mut found = None;
    while let Some(field) = rest.next_part() {
        if let Some((first, text)) = field.split_first() {
            if *first == letter {
                count = count.saturating_add(1);
                found = found.or(Some(text));
            }
        }
    }
    (count, found)
}

// Prints what is wrong with a size, and returns whether something is.
fn say_no_size(rt: &HostRuntime, fields: Parts<'_>, letter: u8, name: &str) -> bool {
    let (count, text) = tagged(fields, letter);
    let Some(text) = text else {
        let _ = eprintln!(rt; "the first line has no field {name}");
        return true;
    };
    if count > 1 {
        let _ = eprintln!(rt; "the field {name} occurs twice in the first line");
        return true;
    }
    if read_size(text).is_none() {
        let _ = eprintln!(rt;
            "the field {name} of the first line has to be a number from 1 to 4294967295"
        );
        return true;
    }
    false
}

// ---- pictures

fn say_no_picture(rt: &HostRuntime, kind: u8, front: &[u8]) {
    let _ = match kind {
        b'1' | b'4' => eprintln!(rt;
            "P1 and P4 have bits for pixels: pnmdepth 255 makes P5 of them"
        ),
        b'2' | b'3' => eprintln!(rt;
            "P2 and P3 have samples in digits: pnmtopnm makes P5 or P6 of them"
        ),
        b'5' | b'6' | b'7' => {
            say_no_numbers(rt, front);
            Ok(())
        }
        _ => eprintln!(rt; "of the kinds of pictures P5, P6 and P7 are supported"),
    };
}

// The header before the first byte that is bad, that byte, and its place.
fn find_bad(front: &[u8]) -> Option<(Head, u8, usize)> {
    let mut scan = Scan::new();
    for at in 0..front.len() {
        let byte = front[at];
        let head = match scan {
            Scan::More { head, .. } => head,
            Scan::Done(_) | Scan::Bad => return None,
        };
        scan = scan.push(byte);
        if scan == Scan::Bad {
            return Some((head, byte, at));
        }
    }
    None
}

fn is_white(byte: u8) -> bool {
    byte <= b' '
}

// The word at this place, or before it.
fn word_at(front: &[u8], at: usize) -> &[u8] {
    let mut start = 0;
    for place in 0..at.min(front.len()) {
        if is_white(front[place]) {
            start = place;
        }
    }
    let (_, rest) = front.split_at(start.min(front.len()));
    let word = match rest.split_first() {
        Some((first, others)) if is_white(*first) => others,
        _ => rest,
    };
    match word.iter().position(|byte| is_white(*byte)) {
        Some(end) => &word[..end],
        None => word,
    }
}

fn say_no_numbers(rt: &HostRuntime, front: &[u8]) {
    match find_bad(front) {
        Some((Head::Width { .. }, byte, _)) => say_no_number(rt, "the width", 4294967295, byte),
        Some((Head::Height { .. }, byte, _)) => say_no_number(rt, "the height", 4294967295, byte),
        Some((Head::Greatest { .. }, byte, _)) => {
            say_no_number(rt, "the greatest value of a sample", 65535, byte)
        }
        Some((Head::Lines(lines), byte, at)) => say_no_line(rt, lines, byte, word_at(front, at)),
        Some(_) => {
            let _ = eprintln!(rt; "after the kind of the picture there is no white space");
        }
        None => {
            let _ = eprintln!(rt; "the header of the picture has no end, or more than 65536 bytes");
        }
    }
}

// The byte follows a number that is out of range, or isn't a part of one.
fn say_no_number(rt: &HostRuntime, name: &str, most: u32, byte: u8) {
    let _ = if byte > b' ' && !(b'0' <= byte && byte <= b'9') {
        eprintln!(rt; "{name} has the byte {byte}, which is no digit and no white space")
    } else {
        eprintln!(rt; "{name} has to be from 1 to {most}")
    };
}

fn key_name(key: Key) -> &'static str {
    match key {
        Key::Width => "WIDTH",
        Key::Height => "HEIGHT",
        Key::Depth => "DEPTH",
        Key::Greatest => "MAXVAL",
        Key::Tupltype => "TUPLTYPE",
        Key::End => "ENDHDR",
    }
}

// The byte, of this word, is bad after these lines.
fn say_no_line(rt: &HostRuntime, lines: Lines, byte: u8, word: &[u8]) {
    let _ = match lines.place {
        _ if byte == b'\r' => eprintln!(rt;
            "a line of the header has a carriage return, and must end with a line feed alone"
        ),
        Place::Kind => eprintln!(rt; "after P7 there is no line feed"),
        Place::Number(key, Some(_)) if byte == b'\n' => {
            eprintln!(rt; "{} occurs twice in the header", key_name(key))
        }
        Place::Number(key, _) => {
            eprintln!(rt;
                "{} needs a number up to 4294967295, and a line feed",
                key_name(key)
            )
        }
        Place::Word(key, count) if count == key_name(key).len() && byte <= b' ' => {
            say_no_value(rt, lines.fields, key, byte);
            Ok(())
        }
        Place::Gap if byte == b'\n' => eprintln!(rt; "TUPLTYPE needs a type on its line"),
        Place::Gap | Place::Letters(..) => {
            eprintln!(rt;
                "TUPLTYPE {} isn't supported, or occurs twice: only GRAYSCALE, RGB, GRAYSCALE_ALPHA and RGB_ALPHA. pnmdepth 255 makes one of them of black and white, and pamtopnm -assume makes P5 or P6 of others",
                shown(word)
            )
        }
        _ => eprintln!(rt;
            "{} isn't one of WIDTH, HEIGHT, DEPTH, MAXVAL, TUPLTYPE and ENDHDR, alone on a line or with a value",
            shown(word)
        ),
    };
}

// The byte is bad after this word.
fn say_no_value(rt: &HostRuntime, fields: Fields, key: Key, byte: u8) {
    let _ = match key {
        Key::End if byte == b'\n' => {
            say_no_picture_in(rt, fields);
            Ok(())
        }
        Key::End => eprintln!(rt; "ENDHDR has the byte {byte} after it, and needs a line feed"),
        Key::Tupltype => eprintln!(rt; "TUPLTYPE needs a type on its line"),
        _ => eprintln!(rt;
            "{} needs a number up to 4294967295 on its line",
            key_name(key)
        ),
    };
}

// The fields at the end of the header name no picture.
fn say_no_picture_in(rt: &HostRuntime, fields: Fields) {
    let (Some(width), Some(height), Some(depth), Some(greatest), Some(_)) = (
        fields.width,
        fields.height,
        fields.depth,
        fields.greatest,
        fields.tuples,
    ) else {
        let _ = eprintln!(rt;
            "the header needs WIDTH, HEIGHT, DEPTH, MAXVAL and TUPLTYPE before ENDHDR"
        );
        return;
    };
    let _ = if width == 0 || height == 0 {
        eprintln!(rt; "the width and the height have to be from 1 to 4294967295")
    } else if greatest == 0 || greatest > 65535 {
        eprintln!(rt; "MAXVAL has to be from 1 to 65535")
    } else {
        eprintln!(rt; "DEPTH {depth} isn't that of its TUPLTYPE")
    };
}
