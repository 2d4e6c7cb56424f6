//! A script: images, and then commands over them, read line by line.

ghost use Rattle.std.specs.Prelude.{◌≡◌, ◌∷◌, ℕ, List, [], MatchOption, IfOk, OnErr, IfErr, IsTrue, IsErrOf};
ghost use Rattle.image_model.specs.Layout.{Layout};
ghost use Rattle.texts.specs.Parts.{parts_left};
ghost use Rattle.script_text.specs.Line.{IsLineOf, Order, is_order, entry_of};
ghost use Rattle.script_text.specs.Script.{whole_lines, lines_of, NoCommand, IsGood, IsFaultOf, lines_left, IsRead, ReadsOn};

use crate::fault::{LineFault, ScriptFault};
use crate::line::{Line, read_line};
use std::alloc::Global;
use texts::Parts;

/// A script that is read line by line, first its images and then its commands.
#[derive(Drop)]
pub struct Script<'a> {
    // What is left, split at its line feeds.
    pieces: Parts<'a>,
    // How many lines have been read.
    number: u64,
    // Whether the last of them is a command.
    has_command: bool,
}

// The next line of a script that is split at its line feeds: an empty last piece isn't a line.
#[tactic(auto, using(crate::proofs::ScriptLines::no_line, crate::proofs::ScriptLines::here_line))]
fn next_line<'a>(pieces: &mut Parts<'a>) -> Option<&'a [u8]>
    ensures { MatchOption result (whole_lines (parts_left pieces.old) ≡ []) (λ line.
        whole_lines (parts_left pieces.old) ≡ line.now ∷ whole_lines (parts_left pieces.new)) }
{
    let piece = pieces.next_part()?;
    if piece.is_empty() && pieces.is_done() {
        return None;
    }
    Some(piece)
}

// What the line stands for, where it is good after other lines. Of these some are commands, or none.
fn read_after(alloc: Global, has_command: bool, text: &[u8]) -> Result<Line, LineFault>
    ensures found { IfOk result (λ line. IsLineOf text.now (entry_of line)) }
    ensures follows { IfOk result
        (λ line. IsTrue has_command → IsTrue (is_order (entry_of line))) }
    ensures bad { IsErrOf result LineFault.Bad → (before : List (List ℕ))
        → (IsTrue has_command → NoCommand before → ⊥) → IsGood before text.now → ⊥ }
{
    let line = read_line(alloc, text)?;
    if has_command && !line.is_command() {
        return Err(LineFault::Bad);
    }
    Ok(line)
}

impl<'a> Script<'a> {
    /// The script that the bytes are, of which no line has been read.
    pub fn new(bytes: &'a [u8]) -> Self
        ensures { IsRead result (lines_of bytes.now) [] [] }
    {
        Script {
            pieces: Parts::new(bytes, b'\n'),
            number: 0,
            has_command: false,
        }
    }

    /// What the next line stands for, or `None` after the last line. Each image fits, and comes
    /// before the first command.
    ///
    /// # Errors
    ///
    /// The line isn't good, and the fault has its number, from 1. Or no memory was found. The line is
    /// then the next one still.
    pub fn next(&mut self, alloc: Global) -> Result<Option<Line>, ScriptFault>
        ensures line { IfOk result (λ found. MatchOption found (lines_left self.old ≡ [])
            (λ line. (text : List ℕ) × (lines_left self.old ≡ text ∷ lines_left self.new)
            × IsLineOf text (entry_of line))) }
        ensures read { IfOk result (λ found. (lines : List (List ℕ)) (images : List (Layout ℕ))
            (orders : List Order) → IsRead self.old lines images orders
            → ReadsOn self.new lines images orders found) }
        ensures fault { IfErr result (λ fault. (lines : List (List ℕ)) (images : List (Layout ℕ))
            (orders : List Order) → IsRead self.old lines images orders → IsFaultOf lines fault) }
        ensures unchanged { OnErr result (self.new ≡ self.old) }
    {
        let mut pieces = self.pieces;
        let Some(text) = next_line(&mut pieces) else {
            return Ok(None);
        };
        let number = self.number.saturating_add(1);
        let line = match read_after(alloc, self.has_command, text) {
            Ok(line) => line,
            Err(LineFault::Bad) => return Err(ScriptFault::Line(number)),
            Err(LineFault::Memory) => return Err(ScriptFault::Memory),
        };
        self.pieces = pieces;
        self.number = number;
        self.has_command = line.is_command();
        Ok(Some(line))
    }
}
