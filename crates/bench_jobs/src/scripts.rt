//! Scripts: their text, and their run over images.

ghost use Rattle.std.specs.Prelude.{OnOk};
ghost use Rattle.imgref.specs.Lists.{AllFit};

use crate::request::Fault;
use imgref::ImgVec;
use imgref_replay::{Command, replay_next};
use script_text::{Line, Script, ScriptFault, push_reply};
use std::alloc::{AllocError, Global};

impl From<ScriptFault> for Fault {
    fn from(fault: ScriptFault) -> Fault {
        match fault {
            ScriptFault::Line(_) => Fault::Input,
            ScriptFault::Memory => Fault::Memory,
        }
    }
}

/// Adds a number to a text.
pub(crate) fn push_number(text: &mut Vec<u8>, number: usize) -> Result<(), AllocError> {
    let mut digits = [b'0'; 20];
    let mut left = number;
    for k in 0..20 {
        let at = 19 - k;
        digits[at] = b'0' + (left % 10) as u8;
        left /= 10;
        if left == 0 {
            return text.extend_from_slice(&digits[at..]);
        }
    }
    text.extend_from_slice(&digits)
}

/// Adds numbers to a text, with a separator between them.
pub(crate) fn push_numbers(
    text: &mut Vec<u8>,
    separator: u8,
    numbers: &[usize],
) -> Result<(), AllocError> {
    for k in 0..numbers.len() {
        if k > 0 {
            text.push(separator)?;
        }
        push_number(text, numbers[k])?;
    }
    Ok(())
}

// Adds an image to those of a script.
fn push_image(images: &mut Vec<ImgVec<u8>>, image: ImgVec<u8>) -> Result<(), Fault>
    requires { AllFit images.old.items }
    ensures { OnOk result (AllFit images.new.items) }
{
    if !image.is_valid() {
        return Err(Fault::Input);
    }
    images.push(image)?;
    Ok(())
}

// Runs a command over the images of a script, and adds the line of its reply to the text.
fn run_command(
    images: &mut Vec<ImgVec<u8>>,
    command: Command<u8>,
    replies: &mut Vec<u8>,
) -> Result<(), Fault>
    requires { AllFit images.old.items }
    ensures { OnOk result (AllFit images.new.items) }
{
    let reply = replay_next(images, &command);
    push_reply(replies, reply)?;
    Ok(())
}

/// Reads a script and runs each command as soon as its line is read. It adds the lines of the replies
/// to the text.
pub(crate) fn replay_text(
    alloc: Global,
    script: &[u8],
    images: &mut Vec<ImgVec<u8>>,
    replies: &mut Vec<u8>,
) -> Result<(), Fault>
    requires { AllFit images.old.items }
    ensures { OnOk result (AllFit images.new.items) }
{
    let mut script = Script::new(script);
    for _ in 0..u64::MAX {
        match script.next(alloc)? {
            None => break,
            Some(Line::Image(image)) => push_image(images, image)?,
            Some(Line::Command(command)) => run_command(images, command, replies)?,
        }
    }
    Ok(())
}
