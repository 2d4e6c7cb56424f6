//! The program on any reader and writer: a script in, its output out.

ghost use Rattle.std.specs.Prelude.{◌≡◌, ◌<◌, ◌+◌, IfOk, IfErr};
ghost use Rattle.devices.specs.Device.{device_of, failures_of};
ghost use Rattle.imgref.specs.Lists.{layouts_of};
ghost use Rattle.script_text.specs.Line.{EachTextHasOneValue};
ghost use Rattle.script_text.specs.Script.{lines_of};
ghost use Rattle.imgref_run.specs.Fault.{reader_failures, writer_failures, ExplainsBad};
ghost use Rattle.imgref_run.specs.Program.{IsReplayOf, IsOutputOf, Writes, ReadsAll};

use crate::fault::RunFault;
use crate::input::read_all;
use crate::output::write_all;
use devices::Counted;
use imgref::ImgVec;
use imgref_replay::replay_next;
use script_text::{Line, Script, lines_have_one_value, push_images, push_reply};
use std::alloc::Global;
use std::io::{Read, Write};

// The images of a script after its commands, and the lines of the replies. Each command is run as
// soon as its line is read.
fn replay_script(alloc: Global, bytes: &[u8]) -> Result<(Vec<ImgVec<u8>>, Vec<u8>), RunFault>
    ensures replay { IfOk result
        (λ done. IsReplayOf (lines_of bytes.now) (layouts_of done.0.items) done.1.items) }
    ensures fault { IfErr result (ExplainsBad (lines_of bytes.now)) }
{
    let mut images = Vec::new(alloc);
    let mut text = Vec::new(alloc);
    let mut script = Script::new(bytes);
    while let Some(line) = script.next(alloc)? {
        match line {
            Line::Image(image) => images.push(image)?,
            Line::Command(command) => {
                let reply = replay_next(&mut images, &command);
                drop(command);
                push_reply(&mut text, reply)?;
            }
        }
    }
    Ok((images, text))
}

// The output of a script.
fn output_of(alloc: Global, input: Vec<u8>) -> Result<Vec<u8>, RunFault>
    ensures output { IfOk result (λ text. IsOutputOf input.items text.items) }
    ensures fault { IfErr result (ExplainsBad (lines_of input.items)) }
{
    let (images, mut text) = replay_script(alloc, &input)?;
    // The lines of the images may take as much memory as the input.
    drop(input);
    push_images(&mut text, &images)?;
    Ok(text)
}

/// Reads a whole script, runs its commands on its images, and writes the replies and then the
/// images. Nothing is written before the whole output is in memory.
pub fn run<R: Read, W: Write>(
    alloc: Global,
    reader: &mut Counted<R>,
    writer: &mut Counted<W>,
) -> Result<(), RunFault>
    requires reader_counts { failures_of reader.old < u64.MAX }
    requires writer_counts { failures_of writer.old < u64.MAX }

    // On Ok the output of the input; on Output a beginning of it; else nothing.
    ensures written { Writes result (R.remaining (device_of reader.old))
        (W.contents (device_of writer.old)) (W.contents (device_of writer.new)) }
    ensures read { ReadsAll result (R.remaining (device_of reader.new)) }

    // Each count grew exactly where the result is that device's fault.
    ensures reader_count { failures_of reader.new
        ≡ failures_of reader.old + reader_failures result }
    ensures writer_count { failures_of writer.new
        ≡ failures_of writer.old + writer_failures result }

    // So the output of a script is the output of the only values that its lines are the text of.
    ensures one_value { EachTextHasOneValue }
{
    lines_have_one_value();
    let input = read_all(alloc, reader)?;
    let text = output_of(alloc, input)?;
    write_all(writer, &text)
}
