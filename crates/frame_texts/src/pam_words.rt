//! The words in the lines of the header of a PAM picture.

ghost use Rattle.std.specs.Prelude.{◌≡◌};
ghost use Rattle.frame_texts.specs.PamWords.{key_text, key_of, type_text, plain_letters, goes_on, is_blank};

/// The word with which a line begins.
#[derive(Clone, Copy, PartialEq, Eq)]
pub enum Key {
    /// `WIDTH`
    Width,
    /// `HEIGHT`
    Height,
    /// `DEPTH`: the number of samples of a pixel.
    Depth,
    /// `MAXVAL`: the greatest value of a sample.
    Greatest,
    /// `TUPLTYPE`: what the samples are.
    Tupltype,
    /// `ENDHDR`: the header ends.
    End,
}

impl Key {
    pub(crate) fn text(self) -> &'static [u8]
        ensures { result.now ≡ key_text self }
    {
        match self {
            Key::Width => b"WIDTH",
            Key::Height => b"HEIGHT",
            Key::Depth => b"DEPTH",
            Key::Greatest => b"MAXVAL",
            Key::Tupltype => b"TUPLTYPE",
            Key::End => b"ENDHDR",
        }
    }

    /// The word that begins with this letter.
    pub(crate) fn begun(letter: u8) -> Option<Key>
        ensures { result ≡ key_of letter }
    {
        match letter {
            b'W' => Some(Key::Width),
            b'H' => Some(Key::Height),
            b'D' => Some(Key::Depth),
            b'M' => Some(Key::Greatest),
            b'T' => Some(Key::Tupltype),
            b'E' => Some(Key::End),
            _ => None,
        }
    }
}

/// The longer name of such a type.
pub(crate) fn type_text(colour: bool) -> &'static [u8]
    ensures { result.now ≡ type_text colour }
{
    if colour {
        b"RGB_ALPHA"
    } else {
        b"GRAYSCALE_ALPHA"
    }
}

/// How many of its letters are the shorter name.
pub(crate) fn plain_letters(colour: bool) -> usize
    ensures { result ≡ plain_letters colour }
{
    if colour { 3 } else { 9 }
}

/// Whether a byte goes on with a text of which so many were read.
pub(crate) fn goes_on(text: &[u8], count: usize, byte: u8) -> bool
    ensures { result ≡ goes_on text.now count byte }
{
    count < text.len() && text[count] == byte
}

pub(crate) fn is_blank(byte: u8) -> bool
    ensures { result ≡ is_blank byte }
{
    byte == b' ' || byte == b'\t'
}
