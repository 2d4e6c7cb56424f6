//! A line of a script, read as an image or a command.

ghost use Rattle.std.specs.Prelude.{◌≡◌, IfOk, IsErrOf, codes};
ghost use Rattle.image_model.specs.Layout.{layout};
ghost use Rattle.imgref.specs.Image.{vec_layout};
ghost use Rattle.script_text.specs.Line.{Entry, IsEntry, IsLineOf, is_order, entry_text, entry_of, EachTextHasOneValue};
ghost use Rattle.texts.specs.Parts.{parts_of, parts_left};
ghost use Rattle.script_text.specs.Reading.{Gives, sized, image_in, line_in};

use crate::command::read_command;
use crate::fault::LineFault;
use crate::fields::{next_value, read_pixels};
use image_commands::Command;
use imgref::{Img, ImgVec};
use std::alloc::Global;
use texts::Parts;

/// What a line stands for.
#[derive(Drop)]
pub enum Line {
    /// An image, which fits.
    Image(ImgVec<u8>),
    /// A command, whose image, windows and place may be missing.
    Command(Command<u8>),
}

impl Line {
    // Whether it is a command.
    pub(crate) fn is_command(&self) -> bool
        ensures { result ≡ is_order (entry_of self.now) }
    {
        match self {
            Line::Image(_) => false,
            Line::Command(_) => true,
        }
    }
}

// The image of these cells and sizes, where it is one that scripts may hold.
fn sized_image(
    cells: Vec<u8>,
    width: usize,
    height: usize,
    stride: usize,
) -> Result<ImgVec<u8>, LineFault>
    ensures { Gives vec_layout result (sized (layout cells.items width height stride)) }
{
    let greatest = u32::MAX as usize;
    if width > greatest || height > greatest || stride < 1 || stride < width {
        return Err(LineFault::Bad);
    }
    let image = Img::new_stride(cells, width, height, stride);
    if !image.is_valid() {
        return Err(LineFault::Bad);
    }
    Ok(image)
}

// The image with these fields after its word, and no field more.
#[tactic(auto, unfolding(crate::specs::Reading::image_in))]
fn read_image(alloc: Global, fields: &mut Parts<'_>) -> Result<ImgVec<u8>, LineFault>
    ensures { Gives vec_layout result (image_in (parts_left fields.old)) }
{
    let width = next_value(fields)?;
    let height = next_value(fields)?;
    let stride = next_value(fields)?;
    let cells = read_pixels(alloc, fields)?;
    sized_image(cells, width, height, stride)
}

// The value that the line is the text of, read field by field.
#[tactic(auto, unfolding(crate::specs::Reading::line_in))]
fn parse(alloc: Global, text: &[u8]) -> Result<Line, LineFault>
    ensures { Gives entry_of result (line_in (parts_of 32 text.now)) }
{
    let mut fields = Parts::new(text, b' ');
    let word = fields.next_part().ok_or(LineFault::Bad)?;
    if word == b"image".as_slice() {
        Ok(Line::Image(read_image(alloc, &mut fields)?))
    } else {
        Ok(Line::Command(read_command(alloc, word, &mut fields)?))
    }
}

/// The one image or command that the line, which has no line feed, is the text of. `Bad` is
/// returned only where there is none.
#[tactic(auto, using(crate::proofs::LineTexts::line_found))]
pub(crate) fn read_line(alloc: Global, text: &[u8]) -> Result<Line, LineFault>
    ensures found { IfOk result (λ line. IsLineOf text.now (entry_of line)) }
    ensures bad { IsErrOf result LineFault.Bad → (e : Entry) → IsEntry e
        → text.now ≡ entry_text e → ⊥ }
{
    parse(alloc, text)
}

/// Each line is the text of at most one image or command. A caller calls it for this law; it does
/// nothing.
#[tactic(auto, using(crate::proofs::LineTexts::one_value))]
pub fn lines_have_one_value()
    ensures { EachTextHasOneValue }
{}
