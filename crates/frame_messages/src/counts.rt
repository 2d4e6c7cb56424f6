//! How many frames the input has to have: as an option asks, and as the lists of edits say.

ghost use Rattle.std.specs.Prelude.{◌≡◌, ◌&&◌};
ghost use Rattle.frame_texts.specs.Counts.{agrees, says_none_else};
ghost use Rattle.frame_messages.specs.Ending.{is_other};

use crate::places::Texts;
use frame_texts::{agrees, read_count, says_none_else};
use std::io;
use std::io::Write;
use texts::Parts;

/// Whether these are as many frames as an option asks for. Each line of a tracker's list and of a list
/// of edits that names a number of frames has to name this one too.
pub fn is_wanted(count: u64, asked: Option<usize>, boxes: &[u8], edits: &[u8]) -> bool
    ensures { result ≡ (agrees count asked && (says_none_else count boxes.now && says_none_else count edits.now)) }
{
    agrees(count, asked) && says_none_else(count, boxes) && says_none_else(count, edits)
}

// The first line of a list that names another number of frames, and that number.
fn find_other(count: u64, list: &[u8]) -> Option<(usize, usize)> {
    let mut lines = Parts::new(list, b'\n');
    let mut number: usize = 0;
    while let Some(line) = lines.next_part() {
        number = number.saturating_add(1);
        if let Some(named) = read_count(line) {
            if !agrees(count, Some(named)) {
                return Some((number, named));
            }
        }
    }
    None
}

/// Whether these are another number of frames than was asked for.
pub(crate) fn is_other(count: u64, asked: Option<usize>, texts: Texts<'_>) -> bool
    ensures other { result ≡ is_other count asked texts.entry }
{
    let boxes = texts.boxes.unwrap_or(&[]);
    let edits = texts.edits.unwrap_or(&[]);
    !is_wanted(count, asked, boxes, edits)
}

/// Prints the fault, and who asked for which number of frames.
pub(crate) fn say_counts<W: Write>(
    count: u64,
    asked: Option<usize>,
    texts: Texts<'_>,
    writer: &mut W,
) -> io::Result<()> {
    writeln!(writer, "fault count")?;
    if let Some(asked) = asked {
        if !agrees(count, Some(asked)) {
            writeln!(
                writer,
                "the input has {count} frames, and --frames asks for {asked}"
            )?;
        }
    }
    if let Some((line, named)) = find_other(count, texts.boxes.unwrap_or(&[])) {
        writeln!(
            writer,
            "line {line} of the boxes: the input has {count} frames, and the list was made from {named}"
        )?;
    }
    if let Some((line, named)) = find_other(count, texts.edits.unwrap_or(&[])) {
        writeln!(
            writer,
            "line {line}: the input has {count} frames, and the list was made from {named}"
        )?;
    }
    Ok(())
}
