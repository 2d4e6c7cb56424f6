//! The headers that are written.

ghost use Rattle.std.specs.Fmt.{decimal};
ghost use Rattle.std.specs.Prelude.{◌≡◌, ◌++◌, ◌∷◌, [], OnOk, IfOk};
ghost use Rattle.frame_texts.specs.Heads.{plain_head, type_name, number_line, pam_head, head_text};
ghost use Rattle.frame_texts.specs.PamWords.{key_text};

use crate::pam::Tuples;
use crate::pam_words::Key;
use crate::picture::{Kind, Picture};
use std::alloc::{AllocError, Global};
use texts::push_number;

// Adds a number, and a byte after it.
fn push_ended(text: &mut Vec<u8>, number: usize, end: u8) -> Result<(), AllocError>
    ensures { OnOk result (text.new.items ≡ text.old.items ++ decimal number ++ end ∷ []) }
{
    push_number(text, number as u64)?;
    text.push(end)?;
    Ok(())
}

// The kind, the size and the greatest value, each on a line.
fn plain_head(alloc: Global, colour: bool, picture: Picture) -> Result<Vec<u8>, AllocError>
    ensures { IfOk result (λ text. text.items
        ≡ plain_head colour picture.width picture.height picture.greatest) }
{
    let mut text = Vec::new(alloc);
    text.extend_from_slice(if colour { b"P6\n" } else { b"P5\n" })?;
    push_ended(&mut text, picture.width, b' ')?;
    push_ended(&mut text, picture.height, b'\n')?;
    push_ended(&mut text, picture.greatest as usize, b'\n')?;
    Ok(text)
}

fn type_name(tuples: Tuples) -> &'static [u8]
    ensures { result.now ≡ type_name tuples }
{
    match (tuples.colour, tuples.alpha) {
        (true, true) => b"RGB_ALPHA",
        (true, false) => b"RGB",
        (false, true) => b"GRAYSCALE_ALPHA",
        (false, false) => b"GRAYSCALE",
    }
}

// Adds a line of a word and a number.
fn push_line(text: &mut Vec<u8>, key: Key, number: usize) -> Result<(), AllocError>
    ensures { OnOk result (text.new.items ≡ text.old.items ++ number_line (key_text key) number) }
{
    text.extend_from_slice(key.text())?;
    text.push(b' ')?;
    push_ended(text, number, b'\n')
}

// The lines of a PAM picture.
fn pam_head(alloc: Global, tuples: Tuples, picture: Picture) -> Result<Vec<u8>, AllocError>
    ensures { IfOk result (λ text. text.items
        ≡ pam_head picture.width picture.height tuples picture.greatest) }
{
    let mut text = Vec::new(alloc);
    text.extend_from_slice(b"P7\n")?;
    push_line(&mut text, Key::Width, picture.width)?;
    push_line(&mut text, Key::Height, picture.height)?;
    push_line(&mut text, Key::Depth, tuples.depth())?;
    push_line(&mut text, Key::Greatest, picture.greatest as usize)?;
    text.extend_from_slice(b"TUPLTYPE ")?;
    text.extend_from_slice(type_name(tuples))?;
    text.extend_from_slice(b"\nENDHDR\n")?;
    Ok(text)
}

/// The header of a picture.
pub fn picture_head(alloc: Global, picture: Picture) -> Result<Vec<u8>, AllocError>
    ensures { IfOk result (λ text. text.items ≡ head_text picture) }
{
    match picture.kind {
        Kind::Plain { colour } => plain_head(alloc, colour, picture),
        Kind::Pam(tuples) => pam_head(alloc, tuples, picture),
    }
}
