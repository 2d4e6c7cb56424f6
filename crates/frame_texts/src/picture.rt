//! The header of a picture: its kind, its size and the greatest value of a pixel.

ghost use Rattle.std.specs.Prelude.{◌≡◌};
ghost use Rattle.std.specs.Option.{is_some};
ghost use Rattle.frame_texts.specs.Digits.{with_digit};
ghost use Rattle.frame_texts.specs.Heads.{ReadsBack};
ghost use Rattle.frame_texts.specs.Picture.{is_white, after_white, after_digit, picture_in, scan_of, at_byte, pushed, start, ApartHeads, OneByteMore, BadStays, BeginsWithLetter};

use crate::digits::with_digit;
use crate::pam::{Fields, Lines, Place, Tuples};

/// What the samples of a pixel are, and how the header tells it.
#[derive(Clone, Copy, PartialEq, Eq)]
pub enum Kind {
    /// One brightness (`P5`), or red, green and blue (`P6`).
    Plain { colour: bool },
    /// The header has lines (`P7`).
    Pam(Tuples),
}

/// The size of a picture, and its pixels.
#[derive(Clone, Copy, PartialEq, Eq)]
pub struct Picture {
    pub width: usize,
    pub height: usize,
    pub kind: Kind,
    /// The greatest value of a sample. Above 255 a sample has two bytes, the high one first.
    pub greatest: u16,
}

/// What has been read of a header that isn't complete. A number is `None` before its first digit.
#[derive(Clone, Copy, PartialEq, Eq)]
pub enum Head {
    /// Nothing.
    Start,
    /// The letter `P`.
    Letter,
    /// The two bytes of the kind. White space must follow.
    Kind {
        colour: bool,
    },
    /// Digits of the width, or white space before it.
    Width {
        colour: bool,
        width: Option<usize>,
    },
    /// The same for the height.
    Height {
        colour: bool,
        width: usize,
        height: Option<usize>,
    },
    /// The same for the greatest value.
    Greatest {
        colour: bool,
        width: usize,
        height: usize,
        greatest: Option<usize>,
    },
    /// The lines after `P7`.
    Lines(Lines),
}

/// The result of reading bytes, one after the other, as the header of a picture.
#[derive(Clone, Copy, PartialEq, Eq)]
pub enum Scan {
    /// The header isn't complete; the last byte may be in a comment.
    More { head: Head, comment: bool },
    /// The bytes are the header of this picture.
    Done(Picture),
    /// The bytes aren't a header, and no header begins with them.
    Bad,
}

fn is_white(byte: u8) -> bool
    ensures { result ≡ is_white byte }
{
    byte == b' ' || (byte >= 9 && byte <= 13)
}

// Adds a digit, and returns whether the number is then in range.
fn push_digit(number: &mut Option<usize>, digit: usize) -> bool
    ensures number { number.new ≡ with_digit number.old digit }
    ensures fits { result ≡ is_some (with_digit number.old digit) }
{
    *number = with_digit(*number, digit);
    number.is_some()
}

// The picture that fields name.
#[tactic(auto, unfolding(crate::specs::Picture::picture_in))]
fn picture_in(fields: Fields) -> Option<Picture>
    ensures { result ≡ picture_in fields }
{
    let (width, height) = (fields.width?, fields.height?);
    let (depth, greatest, tuples) = (fields.depth?, fields.greatest?, fields.tuples?);
    if width == 0 || height == 0 || greatest == 0 || greatest > u16::MAX as usize {
        return None;
    }
    (depth == tuples.depth()).then_some(Picture {
        width,
        height,
        kind: Kind::Pam(tuples),
        greatest: greatest as u16,
    })
}

// What lines are: at their end, the header of a picture or bad.
fn scan_of(lines: Option<Lines>) -> Scan
    ensures { result ≡ scan_of lines }
{
    let Some(lines) = lines else {
        return Scan::Bad;
    };
    if lines.place == Place::Ended {
        return match picture_in(lines.fields) {
            Some(picture) => Scan::Done(picture),
            None => Scan::Bad,
        };
    }
    Scan::More {
        head: Head::Lines(lines),
        comment: false,
    }
}

impl Head {
    // What it is after white space, or after a comment.
    fn after_white(self) -> Scan
        ensures { result ≡ after_white self }
    {
        let head = match self {
            Head::Start | Head::Letter | Head::Lines(_) => return Scan::Bad,
            Head::Width { width: Some(0), .. } => return Scan::Bad,
            Head::Height {
                height: Some(0),
                ..
            } => return Scan::Bad,
            Head::Kind { colour } => Head::Width {
                colour,
                width: None,
            },
            Head::Width {
                colour,
                width: Some(width),
            } => Head::Height {
                colour,
                width,
                height: None,
            },
            Head::Height {
                colour,
                width,
                height: Some(height),
            } => Head::Greatest {
                colour,
                width,
                height,
                greatest: None,
            },
            Head::Greatest {
                colour,
                width,
                height,
                greatest: Some(greatest),
            } => {
                if greatest == 0 || greatest > u16::MAX as usize {
                    return Scan::Bad;
                }
                return Scan::Done(Picture {
                    width,
                    height,
                    kind: Kind::Plain { colour },
                    greatest: greatest as u16,
                });
            }
            _ => self,
        };
        Scan::More {
            head,
            comment: false,
        }
    }

    // What it is after a digit.
    fn after_digit(self, digit: usize) -> Scan
        ensures { result ≡ after_digit self digit }
    {
        let mut head = self;
        let fits = match &mut head {
            Head::Start | Head::Letter | Head::Kind { .. } | Head::Lines(_) => false,
            Head::Width { width, .. } => push_digit(width, digit),
            Head::Height { height, .. } => push_digit(height, digit),
            Head::Greatest { greatest, .. } => push_digit(greatest, digit),
        };
        if !fits {
            return Scan::Bad;
        }
        Scan::More {
            head,
            comment: false,
        }
    }

    // What it is after a byte outside a comment.
    fn at_byte(self, byte: u8) -> Scan
        ensures { result ≡ at_byte self byte }
    {
        match (self, byte) {
            (Head::Start, b'P') => Scan::More {
                head: Head::Letter,
                comment: false,
            },
            (Head::Letter, b'5') => Scan::More {
                head: Head::Kind { colour: false },
                comment: false,
            },
            (Head::Letter, b'6') => Scan::More {
                head: Head::Kind { colour: true },
                comment: false,
            },
            (Head::Letter, b'7') => Scan::More {
                head: Head::Lines(Lines::new()),
                comment: false,
            },
            (Head::Start, _) | (Head::Letter, _) => Scan::Bad,
            (Head::Lines(lines), _) => scan_of(lines.push(byte)),
            (_, b'#') => Scan::More {
                head: self,
                comment: true,
            },
            (_, b'0'..=b'9') => self.after_digit((byte - b'0') as usize),
            _ => {
                if is_white(byte) {
                    self.after_white()
                } else {
                    Scan::Bad
                }
            }
        }
    }
}

impl Scan {
    /// No byte so far.
    pub fn new() -> Self
        ensures { result ≡ start }
    {
        Scan::More {
            head: Head::Start,
            comment: false,
        }
    }

    /// The result with one more byte. The line feed that ends a comment counts as white space, and
    /// no byte follows a complete header.
    pub fn push(self, byte: u8) -> Scan
        ensures { result ≡ pushed self byte }
    {
        match self {
            Scan::More {
                head,
                comment: false,
            } => head.at_byte(byte),
            Scan::More {
                head,
                comment: true,
            } => {
                if byte == b'\n' || byte == b'\r' {
                    head.after_white()
                } else {
                    self
                }
            }
            Scan::Done(_) | Scan::Bad => Scan::Bad,
        }
    }
}

/// No header is the beginning of another, so a reader knows where a header ends. No header begins with
/// bad bytes. What `picture_head` writes is read as its picture. A caller calls this for its
/// clauses, which are these laws; it does nothing.
#[tactic(auto, using(crate::proofs::HeadLaws::laws_of_heads))]
pub fn heads_end_themselves()
    ensures apart { ApartHeads }
    ensures one_byte_more { OneByteMore }
    ensures bad_stays { BadStays }
    ensures begins { BeginsWithLetter }
    ensures reads_back { ReadsBack }
{}
