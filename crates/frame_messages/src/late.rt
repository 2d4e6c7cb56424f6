//! Edits that come too late: an earlier one may show what they hide.

ghost use Rattle.std.specs.Prelude.{◌≡◌, false, true, IfOk};
ghost use Rattle.frame_edits.specs.Order.{covers_first};
ghost use Rattle.frame_requests.specs.Late.{is_noted};

use crate::notes::Notes;
use crate::places::Places;
use crate::ranges::Noted;
use frame_edits::{Edit, Paint};
use frame_requests::{Hiding, late_pairs};
use image_commands::Change;
use std::alloc::AllocError;
use std::io;
use std::io::Write;

// What an edit is called: a box's fill in black is its cover.
fn name_of(edit: &Edit) -> &'static str {
    match edit.change {
        Change::Fill { value, .. } => match value {
            Paint::Around { .. } | Paint::Black => "cover",
            Paint::Grey(_) | Paint::Colour { .. } => "fill",
        },
        Change::Mosaic { .. } => "mosaic",
        Change::Mean { .. } => "means",
        Change::Blur { .. } => "blur",
        Change::Move { .. } => "move",
        Change::Flip(_) => "flip",
    }
}

impl Noted<'_> {
    // Prints one pair.
    fn say_pair<W: Write>(
        self,
        pair: (usize, usize),
        befores: &mut Places<'_>,
        afters: &mut Places<'_>,
        writer: &mut W,
    ) -> io::Result<()> {
        let (Some(before), Some(after)) = (self.steps.get(pair.0), self.steps.get(pair.1)) else {
            return Ok(());
        };
        let (early, late) = (befores.find(pair.0), afters.find(pair.1));
        writeln!(
            writer,
            "{late}: the {} comes after the {} of {early}, which may show what it hides",
            name_of(after),
            name_of(before)
        )
    }

    // Prints the first of some pairs.
    fn say_pairs<W: Write>(
        self,
        notes: &mut Notes<'_>,
        pairs: &[(usize, usize)],
        writer: &mut W,
    ) -> io::Result<()> {
        let mut befores = self.texts.places(self.alloc);
        let mut afters = self.texts.places(self.alloc);
        for pair in pairs {
            if notes.begin(writer)? {
                self.say_pair(*pair, &mut befores, &mut afters, writer)?;
            }
        }
        Ok(())
    }

    // Prints the first of these pairs, which are of one kind each.
    fn say_kinds<W: Write>(self, kinds: [&[(usize, usize)]; 3], writer: &mut W) -> io::Result<()> {
        let mut notes = Notes::new(self.strict, "fault order");
        for pairs in kinds {
            self.say_pairs(&mut notes, pairs, writer)?;
        }
        notes.end(writer)
    }

    /// Prints each edit that hides pixels of which an earlier one of the same frames may show
    /// something, and that edit. Returns whether there is one.
    ///
    /// # Errors
    ///
    /// Out of memory.
    pub fn say_late<W: Write>(self, writer: &mut W) -> Result<bool, AllocError>
        ensures late { IfOk result (λ late. late ≡ is_noted self.entry.steps.now) }

        // Without a note the covers and fills of each frame come first.
        ensures first { IfOk result
            (λ late. late ≡ false → covers_first self.entry.steps.now ≡ true) }
    {
        let fills = late_pairs(self.alloc, Hiding::Fills, self.steps)?;
        let mosaics = late_pairs(self.alloc, Hiding::Mosaics, self.steps)?;
        let means = late_pairs(self.alloc, Hiding::Means, self.steps)?;
        let _ = self.say_kinds([&fills, &mosaics, &means], writer);
        Ok(!fills.is_empty() || !mosaics.is_empty() || !means.is_empty())
    }
}
