//! The line of a video with another size.

ghost use Rattle.std.specs.Prelude.{◌≡◌, ◌∷◌, ◌++◌, [], OnOk, IfOk};
ghost use Rattle.std.specs.Fmt.{decimal};
ghost use Rattle.frame_texts.specs.VideoLine.{resized_field, resized_fields, resized};
ghost use Rattle.texts.specs.Parts.{parts_left};

use std::alloc::{AllocError, Global};
use texts::{Parts, push_number};

fn push_size(text: &mut Vec<u8>, letter: u8, number: usize) -> Result<(), AllocError>
    ensures { OnOk result (text.new.items ≡ text.old.items ++ 32 ∷ letter ∷ decimal number) }
{
    text.extend_from_slice(&[b' ', letter])?;
    push_number(text, number as u64)
}

fn push_field(
    text: &mut Vec<u8>,
    field: &[u8],
    width: usize,
    height: usize,
) -> Result<(), AllocError>
    ensures { OnOk result
        (text.new.items ≡ text.old.items ++ resized_field width height field.now) }
{
    match field {
        [b'W', ..] => push_size(text, b'W', width),
        [b'H', ..] => push_size(text, b'H', height),
        _ => {
            text.extend_from_slice(&[b' '])?;
            text.extend_from_slice(field)?;
            Ok(())
        }
    }
}

fn push_fields(
    text: &mut Vec<u8>,
    fields: Parts<'_>,
    width: usize,
    height: usize,
) -> Result<(), AllocError>
    ensures { OnOk result
        (text.new.items ≡ text.old.items ++ resized_fields width height (parts_left fields.entry)) }
{
    let mut rest = fields;
    while let Some(field) = rest.next_part() {
        push_field(text, field, width, height)?;
    }
    Ok(())
}

/// The line with another size, and a line feed.
pub fn resized_line(
    alloc: Global,
    line: &[u8],
    width: usize,
    height: usize,
) -> Result<Vec<u8>, AllocError>
    ensures { IfOk result (λ text. text.items ≡ resized width height line.now ++ 10 ∷ []) }
{
    let mut text = Vec::new(alloc);
    text.extend_from_slice(b"YUV4MPEG2")?;
    let mut fields = Parts::new(line, b' ');
    if fields.next_part().is_some() {
        push_fields(&mut text, fields, width, height)?;
    }
    text.push(b'\n')?;
    Ok(text)
}

/// The line and a line feed.
pub fn ended_line(alloc: Global, line: &[u8]) -> Result<Vec<u8>, AllocError>
    ensures { IfOk result (λ text. text.items ≡ line.now ++ 10 ∷ []) }
{
    let mut text = Vec::new(alloc);
    text.extend_from_slice(line)?;
    text.push(b'\n')?;
    Ok(text)
}
