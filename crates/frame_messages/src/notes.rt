//! Notes of one kind, or the lines of one fault, of which only the first are printed.

use frame_edits::Paint;
use image_commands::Change;
use std::io;
use std::io::Write;

// So many of a kind are printed.
const MOST: usize = 20;

/// What is said of edits of one kind: notes, or a fault and its lines.
#[derive(Clone, Copy)]
pub(crate) struct Notes<'a> {
    // The fault, where it is one.
    fault: Option<&'a str>,
    count: usize,
}

impl<'a> Notes<'a> {
    /// None so far.
    pub(crate) fn new(strict: bool, fault: &'a str) -> Notes<'a> {
        Notes {
            fault: if strict { Some(fault) } else { None },
            count: 0,
        }
    }

    /// Begins one more, and returns whether its line is to be printed.
    pub(crate) fn begin<W: Write>(&mut self, writer: &mut W) -> io::Result<bool> {
        if let Some(fault) = self.fault {
            if self.count == 0 {
                writeln!(writer, "{fault}")?;
            }
        }
        self.count = self.count.saturating_add(1);
        if self.count > MOST {
            return Ok(false);
        }
        if self.fault.is_none() {
            write!(writer, "note: ")?;
        }
        Ok(true)
    }

    /// Prints how many more there are.
    pub(crate) fn end<W: Write>(self, writer: &mut W) -> io::Result<()> {
        if self.count <= MOST {
            return Ok(());
        }
        let more = self.count - MOST;
        match self.fault {
            Some(_) => writeln!(writer, "and {more} more like these"),
            None => writeln!(writer, "note: and {more} more like these"),
        }
    }
}

/// Prints what the changes of boxes show where they don't hide all of them.
pub fn say_boxes(rt: &HostRuntime, change: Change<Paint>) {
    let _ = match change {
        Change::Mosaic { .. } => eprintln!(rt;
            "note: --with mosaic shows a pixel of each tile of a box, as large as the tile"
        ),
        Change::Mean { .. } => eprintln!(rt;
            "note: --with means shows the mean of each tile of a box, and hides no coarse form"
        ),
        _ => Ok(()),
    };
}
