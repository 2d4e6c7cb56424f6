//! The lines of the header of a PAM picture, after the two bytes of its kind.

ghost use Rattle.std.specs.Prelude.{◌≡◌, Some};
ghost use Rattle.std.specs.Option.{is_none};
ghost use Rattle.frame_texts.specs.Pam.{lines, tuple_depth, with_field, with_tuples, at_line, after_word, at_word, at_number, at_gap, after_letters, at_letters, lines_pushed, lines_start};

use crate::digits::{is_digit, with_digit};
use crate::pam_words::{Key, goes_on, is_blank, plain_letters, type_text};

/// The samples of a pixel: one brightness, or red, green and blue. With `alpha` there is one more,
/// of how opaque it is.
#[derive(Clone, Copy, PartialEq, Eq)]
pub struct Tuples {
    pub colour: bool,
    pub alpha: bool,
}

/// What lines have told so far.
#[derive(Clone, Copy, PartialEq, Eq)]
pub struct Fields {
    pub width: Option<usize>,
    pub height: Option<usize>,
    pub depth: Option<usize>,
    pub greatest: Option<usize>,
    pub tuples: Option<Tuples>,
}

/// Where in the lines the last byte was.
#[derive(Clone, Copy, PartialEq, Eq)]
pub enum Place {
    /// At the two bytes of the kind. A line feed must follow.
    Kind,
    /// At the end of a line.
    Line,
    /// In a comment, which is a line of its own.
    Comment,
    /// At so many bytes of a word.
    Word(Key, usize),
    /// At digits of the number after such a word, or at blanks before it.
    Number(Key, Option<usize>),
    /// At blanks before the type.
    Gap,
    /// At so many bytes of the type, which is of colours or not.
    Letters(bool, usize),
    /// At the end of the header.
    Ended,
}

/// The lines so far.
#[derive(Clone, Copy, PartialEq, Eq)]
pub struct Lines {
    pub fields: Fields,
    pub place: Place,
}

impl Tuples {
    /// The number of samples of a pixel.
    pub(crate) fn depth(self) -> usize
        ensures { result ≡ tuple_depth self }
    {
        let colours = if self.colour { 3 } else { 1 };
        if self.alpha { colours + 1 } else { colours }
    }
}

// Sets a field, and returns whether it is new.
fn set_once(field: &mut Option<usize>, number: usize) -> bool
    ensures field { field.new ≡ Some number }
    ensures once { result ≡ is_none field.old }
{
    let is_new = field.is_none();
    *field = Some(number);
    is_new
}

impl Fields {
    // The fields with a number, or `None` where it was there.
    fn with_field(self, key: Key, number: usize) -> Option<Fields>
        ensures { result ≡ with_field self key number }
    {
        let mut fields = self;
        let is_new = match key {
            Key::Width => set_once(&mut fields.width, number),
            Key::Height => set_once(&mut fields.height, number),
            Key::Depth => set_once(&mut fields.depth, number),
            Key::Greatest => set_once(&mut fields.greatest, number),
            Key::Tupltype | Key::End => false,
        };
        is_new.then_some(fields)
    }

    // The same with the type.
    fn with_tuples(self, colour: bool, alpha: bool) -> Option<Fields>
        ensures { result ≡ with_tuples self colour alpha }
    {
        if self.tuples.is_some() {
            return None;
        }
        let mut fields = self;
        fields.tuples = Some(Tuples { colour, alpha });
        Some(fields)
    }

    fn at(self, place: Place) -> Lines
        ensures { result ≡ lines self place }
    {
        Lines {
            fields: self,
            place,
        }
    }

    // The lines after a byte at the beginning of a line.
    fn at_line(self, byte: u8) -> Option<Lines>
        ensures { result ≡ at_line self byte }
    {
        match byte {
            b'\n' => Some(self.at(Place::Line)),
            b'#' => Some(self.at(Place::Comment)),
            _ => Some(self.at(Place::Word(Key::begun(byte)?, 1))),
        }
    }

    // The lines after the byte that ends a word.
    fn after_word(self, key: Key, byte: u8) -> Option<Lines>
        ensures { result ≡ after_word self key byte }
    {
        match key {
            Key::End => (byte == b'\n').then_some(self.at(Place::Ended)),
            Key::Tupltype => is_blank(byte).then_some(self.at(Place::Gap)),
            _ => is_blank(byte).then_some(self.at(Place::Number(key, None))),
        }
    }

    // The lines after one more byte of a word, or after its end.
    fn at_word(self, key: Key, count: usize, byte: u8) -> Option<Lines>
        ensures { result ≡ at_word self key count byte }
    {
        if goes_on(key.text(), count, byte) {
            Some(self.at(Place::Word(key, count + 1)))
        } else if count == key.text().len() {
            self.after_word(key, byte)
        } else {
            None
        }
    }

    // The lines after one more byte of a number.
    fn at_number(self, key: Key, number: Option<usize>, byte: u8) -> Option<Lines>
        ensures { result ≡ at_number self key number byte }
    {
        if is_digit(byte) {
            let number = with_digit(number, (byte - b'0') as usize)?;
            Some(self.at(Place::Number(key, Some(number))))
        } else if byte == b'\n' {
            let fields = self.with_field(key, number?)?;
            Some(fields.at(Place::Line))
        } else if is_blank(byte) && number.is_none() {
            Some(self.at(Place::Number(key, None)))
        } else {
            None
        }
    }

    // The lines after a byte before the type, or after its first letter.
    fn at_gap(self, byte: u8) -> Option<Lines>
        ensures { result ≡ at_gap self byte }
    {
        match byte {
            b'G' => Some(self.at(Place::Letters(false, 1))),
            b'R' => Some(self.at(Place::Letters(true, 1))),
            _ => is_blank(byte).then_some(self.at(Place::Gap)),
        }
    }

    // The lines after the line feed that ends the type.
    fn after_letters(self, colour: bool, count: usize) -> Option<Lines>
        ensures { result ≡ after_letters self colour count }
    {
        let alpha = count == type_text(colour).len();
        if !alpha && count != plain_letters(colour) {
            return None;
        }
        let fields = self.with_tuples(colour, alpha)?;
        Some(fields.at(Place::Line))
    }

    // The lines after one more byte of the type.
    fn at_letters(self, colour: bool, count: usize, byte: u8) -> Option<Lines>
        ensures { result ≡ at_letters self colour count byte }
    {
        if goes_on(type_text(colour), count, byte) {
            Some(self.at(Place::Letters(colour, count + 1)))
        } else if byte == b'\n' {
            self.after_letters(colour, count)
        } else {
            None
        }
    }
}

impl Lines {
    /// The lines after the two bytes of the kind.
    pub(crate) fn new() -> Self
        ensures { result ≡ lines_start }
    {
        let fields = Fields {
            width: None,
            height: None,
            depth: None,
            greatest: None,
            tuples: None,
        };
        fields.at(Place::Kind)
    }

    /// The lines with one more byte, or `None` where they begin no header.
    pub(crate) fn push(self, byte: u8) -> Option<Lines>
        ensures { result ≡ lines_pushed self byte }
    {
        let fields = self.fields;
        match self.place {
            Place::Kind => (byte == b'\n').then_some(fields.at(Place::Line)),
            Place::Line => fields.at_line(byte),
            Place::Comment => {
                let place = if byte == b'\n' {
                    Place::Line
                } else {
                    Place::Comment
                };
                Some(fields.at(place))
            }
            Place::Word(key, count) => fields.at_word(key, count, byte),
            Place::Number(key, number) => fields.at_number(key, number, byte),
            Place::Gap => fields.at_gap(byte),
            Place::Letters(colour, count) => fields.at_letters(colour, count, byte),
            Place::Ended => None,
        }
    }
}
