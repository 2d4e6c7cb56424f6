//! The line with which a video begins.

ghost use Rattle.std.specs.Prelude.{◌≡◌, ◌<◌};
ghost use Rattle.std.specs.Option.{option_map};
ghost use Rattle.frame_texts.specs.Format.{tagged, tagged_once, is_interlaced, is_square, is_upright, deep_of, sampling_of, size_of, format_of};
ghost use Rattle.texts.specs.Parts.{parts_left};

use crate::names::value_named;
use crate::pixel::Pixel;
use texts::{Field, Parts};

/// The chroma samples that a frame has after its plane of brightness.
#[derive(Clone, Copy, PartialEq, Eq)]
pub enum Chroma {
    /// None.
    Mono,
    /// Two planes, with one sample for two by two pixels.
    Small,
    /// Two planes, with one sample for two pixels of a row.
    Wide,
    /// Two planes, with one sample for four pixels of a row.
    Quarter,
    /// Two planes, with one sample for each pixel.
    Whole,
    /// The same, and one plane more: how opaque each pixel is.
    WholeAlpha,
}

impl Chroma {
    // This names the type itself.
    ghost use Rattle.frame_texts.specs.Format.{sampling};

    /// How many columns and rows of pixels share a chroma sample. Where there is none, it is one of
    /// each.
    pub fn sampling(self) -> (usize, usize)
        ensures shares { result ≡ sampling self }
        ensures columns { 0 < result.0 }
        ensures rows { 0 < result.1 }
        ensures few { result.1 < 3 }
    {
        match self {
            Chroma::Mono | Chroma::Whole | Chroma::WholeAlpha => (1, 1),
            Chroma::Small => (2, 2),
            Chroma::Wide => (2, 1),
            Chroma::Quarter => (4, 1),
        }
    }
}

/// The size of the frames in pixels, and their planes.
#[derive(Clone, Copy, PartialEq, Eq)]
pub struct Format {
    pub width: usize,
    pub height: usize,
    pub chroma: Chroma,
    /// What the bytes of a sample are.
    pub pixel: Pixel,
    /// Whether the rows of two fields follow one another in turn.
    pub interlaced: bool,
    /// Whether pixels are as wide as they are high, or nothing is said of it.
    pub square: bool,
}

impl Format {
    /// Whether rows can be columns, as a quarter turn makes them: pixels are square, and there are no
    /// fields.
    pub fn is_upright(self) -> bool
        ensures { result ≡ is_upright self }
    {
        self.square && !self.interlaced
    }
}

/// What follows the letter in the first field that begins with it.
pub(crate) fn field<'a>(fields: Parts<'a>, letter: u8) -> Option<&'a [u8]>
    requires { 0 < letter }
    ensures { option_map (λ text. text.now) result ≡ tagged letter (parts_left fields.entry) }
{
    let mut rest = fields;
    while let Some(field) = rest.next_part() {
        if let Some((first, text)) = field.split_first() {
            if *first == letter {
                return Some(text);
            }
        }
    }
    None
}

// The same where no other field begins with the letter.
fn single_field<'a>(fields: Parts<'a>, letter: u8) -> Option<&'a [u8]>
    requires { 0 < letter }
    ensures { option_map (λ text. text.now) result ≡ tagged_once letter (parts_left fields.entry) }
{
    let mut rest = fields;
    while let Some(part) = rest.next_part() {
        if let Some((first, text)) = part.split_first() {
            if *first == letter {
                return match field(rest, letter) {
                    Some(_) => None,
                    None => Some(text),
                };
            }
        }
    }
    None
}

fn read_interlaced(word: Option<&[u8]>) -> bool
    ensures { result ≡ is_interlaced (option_map (λ text. text.now) word.entry) }
{
    match word {
        None => false,
        Some(word) => {
            word == b"t".as_slice() || word == b"b".as_slice() || word == b"m".as_slice()
        }
    }
}

fn read_square(word: Option<&[u8]>) -> bool
    ensures { result ≡ is_square (option_map (λ text. text.now) word.entry) }
{
    match word {
        None => true,
        Some(word) => word == b"1:1".as_slice() || word == b"0:0".as_slice(),
    }
}

// Samples of two bytes: how the word begins, and the greatest value of so many bits.
#[tactic(auto, unfolding(crate::specs::Format::deep_of))]
fn read_deep(word: &[u8]) -> Option<(Chroma, Pixel)>
    ensures { result ≡ deep_of word.now }
{
    let chromas: [(&[u8], Chroma); 4] = [
        (b"mono", Chroma::Mono),
        (b"420p", Chroma::Small),
        (b"422p", Chroma::Wide),
        (b"444p", Chroma::Whole),
    ];
    let depths: [(&[u8], u16); 5] = [
        (b"9", 511),
        (b"10", 1023),
        (b"12", 4095),
        (b"14", 16383),
        (b"16", 65535),
    ];
    let (name, bits) = word.split_at(word.len().min(4));
    let chroma = value_named(name, &chromas)?;
    Some((chroma, Pixel::of_video(value_named(bits, &depths)?)))
}

// The chroma samples that a word names, and what a sample is.
fn read_sampling(word: &[u8]) -> Option<(Chroma, Pixel)>
    ensures { result ≡ sampling_of word.now }
{
    let chromas: [(&[u8], Chroma); 9] = [
        (b"mono", Chroma::Mono),
        (b"420jpeg", Chroma::Small),
        (b"420mpeg2", Chroma::Small),
        (b"420paldv", Chroma::Small),
        (b"420", Chroma::Small),
        (b"422", Chroma::Wide),
        (b"411", Chroma::Quarter),
        (b"444", Chroma::Whole),
        (b"444alpha", Chroma::WholeAlpha),
    ];
    match value_named(word, &chromas) {
        Some(chroma) => Some((chroma, Pixel::of_video(255))),
        None => read_deep(word),
    }
}

/// A size in pixels, from 1 to 4294967295.
#[tactic(auto, unfolding(crate::specs::Format::size_of))]
pub fn read_size(text: &[u8]) -> Option<usize>
    ensures { result ≡ size_of text.now }
{
    let size = usize::read(text)?;
    (size > 0 && size <= u32::MAX as usize).then_some(size)
}

/// The format that the line names, or `None` where it isn't a supported one.
#[tactic(auto, unfolding(crate::specs::Format::format_in))]
pub fn read_format(line: &[u8]) -> Option<Format>
    ensures { result ≡ format_of line.now }
{
    let mut fields = Parts::new(line, b' ');
    if fields.next_part()? != b"YUV4MPEG2".as_slice() {
        return None;
    }
    let width = read_size(single_field(fields, b'W')?)?;
    let height = read_size(single_field(fields, b'H')?)?;
    let (chroma, pixel) = match field(fields, b'C') {
        Some(word) => read_sampling(word)?,
        None => (Chroma::Small, Pixel::of_video(255)),
    };
    Some(Format {
        width,
        height,
        chroma,
        pixel,
        interlaced: read_interlaced(field(fields, b'I')),
        square: read_square(field(fields, b'A')),
    })
}
