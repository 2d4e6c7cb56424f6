//! The text of replies and images.

ghost use Rattle.std.specs.Prelude.{◌≡◌, ◌∷◌, ◌++◌, ◌≤◌, [], OnOk, map, codes, length};
ghost use Rattle.std.specs.Fmt.{decimal};
ghost use Rattle.std.specs.Io.{StartsWith};
ghost use Rattle.image_model.specs.Layout.{Fits};
ghost use Rattle.imgref.specs.Image.{vec_layout};
ghost use Rattle.script_text.specs.Line.{line_of, image_text, IsScriptImage};
ghost use Rattle.script_text.specs.Script.{IsScript};
ghost use Rattle.script_text.specs.Output.{reply_text, ended_line, images_text};
ghost use Rattle.imgref.specs.Lists.{AllFit, layouts_of};

use image_commands::{Refusal, Reply};
use imgref::ImgVec;
use std::alloc::AllocError;
use texts::{PIXELS_ROOM, push_number, push_pixel, push_pixels};

// The line of a refused command.
fn refused_line(refusal: Refusal) -> &'static [u8]
    ensures { result.now ≡ reply_text (Reply.Refused refusal) }
{
    match refusal {
        Refusal::NoImage => b"refused 1",
        Refusal::WindowOutside => b"refused 2",
        Refusal::PlaceOutside => b"refused 3",
        Refusal::SizesDiffer => b"refused 4",
        Refusal::NoTile => b"refused 5",
    }
}

/// Adds the line of a reply.
///
/// # Errors
///
/// No memory was found. What was there before stays, and a part of the line may come after it.
#[tactic(auto, using(texts::proofs::Beginnings::beginnings))]
pub fn push_reply(text: &mut Vec<u8>, reply: Reply<u8>) -> Result<(), AllocError>
    ensures text { OnOk result (text.new.items ≡ text.old.items ++ ended_line (reply_text reply)) }
    ensures kept { StartsWith text.new.items text.old.items }
{
    match reply {
        Reply::Pixel(value) => {
            text.extend_from_slice(b"pixel")?;
            push_pixel(text, value)?;
        }
        Reply::Counted(number) => {
            text.extend_from_slice(b"count ")?;
            push_number(text, number as u64)?;
        }
        Reply::Truth(true) => text.extend_from_slice(b"true")?,
        Reply::Truth(false) => text.extend_from_slice(b"false")?,
        Reply::Done => text.extend_from_slice(b"done")?,
        Reply::Refused(refusal) => text.extend_from_slice(refused_line(refusal))?,
    }
    text.extend_from_slice(b"\n")
}

// Adds what the line of an image begins with.
#[tactic(auto, using(texts::proofs::Beginnings::beginnings))]
fn push_sizes(
    text: &mut Vec<u8>,
    width: usize,
    height: usize,
    stride: usize,
) -> Result<(), AllocError>
    ensures text { OnOk result (text.new.items ≡ text.old.items
        ++ line_of (codes "image" ∷ decimal width ∷ decimal height ∷ decimal stride ∷ [])) }
    ensures kept { StartsWith text.new.items text.old.items }
{
    text.extend_from_slice(b"image ")?;
    push_number(text, width as u64)?;
    text.extend_from_slice(b" ")?;
    push_number(text, height as u64)?;
    text.extend_from_slice(b" ")?;
    push_number(text, stride as u64)
}

#[tactic(auto, using(texts::proofs::Beginnings::beginnings))]
fn push_image(text: &mut Vec<u8>, block: &mut [u8], image: &ImgVec<u8>) -> Result<(), AllocError>
    requires fits { Fits (vec_layout image.now) }
    requires room { 512 ≤ length block.old }
    ensures text { OnOk result
        (text.new.items ≡ text.old.items ++ ended_line (image_text (vec_layout image.now))) }
    ensures kept { StartsWith text.new.items text.old.items }
    ensures good { OnOk result (IsScriptImage (vec_layout image.now)) }
    ensures len { length block.new ≡ length block.old }
{
    push_sizes(text, image.width(), image.height(), image.stride())?;
    push_pixels(text, block, image.buf())?;
    text.extend_from_slice(b"\n")?;
    Ok(())
}

// An image of fewer cells is small.
const FEW: usize = 64;

// How many bytes a space and the text of a number take.
fn number_len(number: usize) -> usize {
    number
        .checked_ilog10()
        .map_or(2, |power| power as usize + 2)
}

// How many pixels are counted at once: seven registers, whose count is a byte.
const COUNTED: usize = 112;

// How many digits the texts of at most so many pixels have beside the first of each.
#[inline(always)]
fn further_digits(pixels: &[u8]) -> u8 {
    pixels.iter().fold(0u8, |sum, pixel| {
        sum.wrapping_add((*pixel > 9) as u8 + (*pixel > 99) as u8)
    })
}

// How many bytes the line of an image takes.
fn line_len(image: &ImgVec<u8>) -> usize {
    let numbers = [image.width(), image.height(), image.stride()];
    let sizes = numbers.iter().fold(b"image\n".len(), |sum, number| {
        sum.saturating_add(number_len(*number))
    });
    // A space and a digit for each cell, and the further digits.
    let cells = image.buf();
    let (blocks, rest) = cells.as_chunks::<COUNTED>();
    let least = sizes
        .saturating_add(cells.len().saturating_mul(2))
        .saturating_add(further_digits(rest) as usize);
    blocks.iter().fold(least, |sum, block| {
        sum.saturating_add(further_digits(block) as usize)
    })
}

// Exactly the room of all lines, or 0 where most images have few cells: to count it would then take
// longer than growth does.
fn room_of(images: &[ImgVec<u8>]) -> usize {
    let cells = images
        .iter()
        .fold(0usize, |sum, image| sum.saturating_add(image.buf().len()));
    if cells / FEW < images.len() {
        return 0;
    }
    images
        .iter()
        .fold(0usize, |sum, image| sum.saturating_add(line_len(image)))
}

/// Adds a line for each image. These lines are themselves a script of these images.
///
/// # Requires
///
/// Each image fits, as `Img::is_valid` tells.
///
/// # Errors
///
/// No memory was found. What was there before stays, and a part of the lines may come after it.
#[tactic(auto, using(texts::proofs::Beginnings::beginnings))]
pub fn push_images(text: &mut Vec<u8>, images: &[ImgVec<u8>]) -> Result<(), AllocError>
    requires { AllFit images.now }
    ensures text { OnOk result
        (text.new.items ≡ text.old.items ++ images_text (layouts_of images.now)) }
    ensures kept { StartsWith text.new.items text.old.items }
    ensures again { OnOk result (IsScript (map image_text (layouts_of images.now))
        (layouts_of images.now) []) }
{
    // Growth by doubling would copy a long text again and again, and take more room. Where it isn't
    // found at once, the text grows all the same.
    let _found = text.reserve_exact(room_of(images));
    // One block for all images: to clear another takes longer than a short line.
    let mut block = [0; PIXELS_ROOM];
    for image in images {
        push_image(text, &mut block, image)?;
    }
    Ok(())
}
