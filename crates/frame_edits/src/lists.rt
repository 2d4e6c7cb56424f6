//! The edits that words name one after the other, or the lines of a text.

ghost use Rattle.std.specs.Prelude.{◌≡◌, ◌≢◌, ◌<◌, ◌≤◌, ◌++◌, map, take as list_take, [], Some, None, IfSome, IfOk, IfErr, OnOk, length};
ghost use Rattle.std.specs.List.{flat_map};
ghost use Rattle.std.specs.Option.{option_map};
ghost use Rattle.texts.specs.Parts.{parts_of};
ghost use Rattle.frame_edits.specs.Lists.{Adds, AddsNone, HaveEdits, IsEditLine, NeedsMemory, NeedsPlace, framing_of, named_of, plain, steps_of, with_line, with_lines};
ghost use Rattle.frame_edits.specs.Words.{edit_at, with_edit};

use crate::found::{Found, Line, are_edits, are_lines, read_edit, read_line};
use crate::framing::Framing;
use crate::words::Edit;
use frame_texts::WordsFault;
use std::alloc::Global;
use texts::Parts;

/// The edits that words name: steps in their order, and then the change of the size.
#[derive(Drop)]
pub struct Edits {
    pub steps: Vec<Edit>,
    pub framing: Option<Framing>,
}

impl Edits {
    /// No edit so far.
    pub fn new(alloc: Global) -> Self
        ensures steps { result.steps.items ≡ [] }
        ensures framing { result.framing ≡ None }
    {
        Edits {
            steps: Vec::new(alloc),
            framing: None,
        }
    }

    /// Adds the edit at the front of the words, and returns the number of its words. It changes a
    /// rectangle: `cover L,T,W,H`, `cover L,T,W,H V`, `fill L,T,W,H V`, `fill L,T,W,H R,G,B`,
    /// `mosaic L,T,W,H TW,TH`, `means L,T,W,H TW,TH`, `blur L,T,W,H R` or `move L,T,W,H X,Y`. Or it
    /// changes the whole frame: `flip rows`, `flip columns` or `turn half`. Or it comes last: `crop
    /// L,T,W,H`, `pad L,T,R,B V`, `turn right` or `turn left`. A cover may have a margin after its
    /// rectangle: `cover L,T,W,H+M`. Before every edit except the last ones there may be a range of
    /// frames: `12..80`, or `12..` up to the end. It may also be of times: `00:01:02.5..00:01:04`.
    ///
    /// # Errors
    ///
    /// `NoEdit` where there is no edit at the front, or it would come after a crop or a pad. `Memory`
    /// only where the edit is of pixels.
    pub fn take(&mut self, words: &[&[u8]]) -> Result<usize, WordsFault>
        ensures taken { IfOk result (λ n. option_map (with_edit self.old.steps.items) (edit_at
            (map (λ w. w.now) words.now)) ≡ Some (self.new.steps.items, (self.new.framing, n))) }
        ensures last { IfOk result (λ _. self.old.framing ≡ None) }
        ensures none { IfErr result (λ e. e ≡ WordsFault.NoEdit → self.old.framing ≡ None
            → edit_at (map (λ w. w.now) words.now) ≡ None) }
        ensures memory { IfErr result (λ e. e ≡ WordsFault.Memory
            → NeedsMemory self.old.framing (map (λ w. w.now) words.now)) }
        ensures same_steps { IfErr result (λ _. self.new.steps.items ≡ self.old.steps.items) }
        ensures same_framing { IfErr result (λ _. self.new.framing ≡ self.old.framing) }
        ensures some { IfOk result (λ n. 0 < n) }
        ensures there { IfOk result (λ n. n ≤ length words.now) }
    {
        let Some((found, count)) = self.next_edit(words) else {
            return Err(WordsFault::NoEdit);
        };
        match self.add(found) {
            Ok(()) => Ok(count),
            Err(fault) => Err(fault),
        }
    }

    // The edit at the front of words, where one may come: none comes after a crop or a pad.
    fn next_edit(&self, words: &[&[u8]]) -> Option<(Found, usize)>
        ensures edit { IfSome result
            (λ f. edit_at (map (λ w. w.now) words.now) ≡ Some (named_of f.0 f.1)) }
        ensures first { IfSome result (λ _. self.now.framing ≡ None) }
        ensures none { result ≡ None → self.now.framing ≡ None
            → edit_at (map (λ w. w.now) words.now) ≡ None }
        ensures some { IfSome result (λ f. 0 < f.1) }
        ensures there { IfSome result (λ f. f.1 ≤ length words.now) }
    {
        if self.framing.is_some() {
            return None;
        }
        read_edit(words)
    }

    // Adds what was found.
    fn add(&mut self, found: Found) -> Result<(), WordsFault>
        requires { self.old.framing ≡ None }
        ensures steps { OnOk result
            (self.new.steps.items ≡ self.old.steps.items ++ steps_of found) }
        ensures framing { OnOk result (self.new.framing ≡ framing_of found) }
        ensures memory { IfErr result (λ e. e ≡ WordsFault.Memory) }
        ensures step { IfErr result (λ _. steps_of found ≢ []) }
        ensures same_steps { IfErr result (λ _. self.new.steps.items ≡ self.old.steps.items) }
        ensures same_framing { IfErr result (λ _. self.new.framing ≡ self.old.framing) }
    {
        match found {
            Found::Size(framing) => {
                self.framing = Some(framing);
                Ok(())
            }
            Found::Step(step) => match self.steps.push(step) {
                Ok(()) => Ok(()),
                Err(_) => Err(WordsFault::Memory),
            },
        }
    }

    // The edits that there were when they had so many steps, and this became of the size.
    fn restore(&mut self, count: usize, framing: Option<Framing>)
        ensures steps { self.new.steps.items ≡ list_take count self.old.steps.items }
        ensures framing { self.new.framing ≡ framing }
    {
        self.steps.truncate(count);
        self.framing = framing;
    }

    /// Adds all edits that the words are, one after the other.
    ///
    /// # Errors
    ///
    /// `NoEdit` where the words are no edits, or one would come after a crop or a pad, whatever memory
    /// there is. On any fault the edits stay as they were.
    pub fn take_all(&mut self, words: &[&[u8]]) -> Result<(), WordsFault>
        ensures adds { OnOk result (Adds (map (λ w. w.now) words.now) self.old self.new) }
        ensures none { IfErr result
            (λ e. e ≡ WordsFault.NoEdit → AddsNone (map (λ w. w.now) words.now) self.old) }
        ensures memory { IfErr result (λ e. e ≡ WordsFault.Memory
            → NeedsMemory self.old.framing (map (λ w. w.now) words.now)) }
        ensures good { IfErr result (λ e. e ≡ WordsFault.Memory
            → HaveEdits self.old.framing (map (λ w. w.now) words.now)) }
        ensures same { IfErr result (λ _. plain self.new ≡ plain self.old) }
    {
        match self.add_all(words) {
            // Without room the words are read once more: bad ones are told all the same.
            Err(WordsFault::Memory) if !are_edits(self.framing, words) => Err(WordsFault::NoEdit),
            told => told,
        }
    }

    // The same, where what is first told is first met.
    fn add_all(&mut self, words: &[&[u8]]) -> Result<(), WordsFault>
        ensures adds { OnOk result (Adds (map (λ w. w.now) words.now) self.old self.new) }
        ensures none { IfErr result
            (λ e. e ≡ WordsFault.NoEdit → AddsNone (map (λ w. w.now) words.now) self.old) }
        ensures memory { IfErr result (λ e. e ≡ WordsFault.Memory
            → NeedsMemory self.old.framing (map (λ w. w.now) words.now)) }
        ensures same { IfErr result (λ _. plain self.new ≡ plain self.old) }
    {
        let (steps, framing) = (self.steps.len(), self.framing);
        let mut at = 0;
        while at < words.len() {
            match self.take(&words[at..]) {
                Ok(count) => at += count,
                Err(fault) => {
                    self.restore(steps, framing);
                    return Err(fault);
                }
            }
        }
        Ok(())
    }

    // Adds the edit that a line is, where it has a word.
    fn take_line(&mut self, line: &[u8]) -> Result<(), WordsFault>
        ensures taken { OnOk result (with_line (plain self.old) line.now ≡ Some (plain self.new)) }
        ensures none { IfErr result
            (λ e. e ≡ WordsFault.NoEdit → with_line (plain self.old) line.now ≡ None) }
        ensures memory { IfErr result
            (λ e. e ≡ WordsFault.Memory → IsEditLine (plain self.old) line.now) }
        ensures same { IfErr result (λ _. plain self.new ≡ plain self.old) }
    {
        match read_line(line) {
            Line::Blank => Ok(()),
            Line::Edit(found) => {
                if self.framing.is_some() {
                    return Err(WordsFault::NoEdit);
                }
                self.add(found)
            }
            Line::Bad => Err(WordsFault::NoEdit),
        }
    }

    /// Adds the edits that the lines of a text name, one on each line. Between words and around them
    /// there may be spaces and tabs. A line may end with a carriage return. A `#` begins a comment,
    /// up to the end of its line. A line with no word is ignored.
    ///
    /// # Errors
    ///
    /// `NoEdit` where a line isn't one edit, or would come after a crop or a pad, whatever memory there
    /// is. `Memory` only where a line is an edit of pixels. On any fault the edits stay as they were.
    #[tactic(auto, using(crate::proofs::EditLines::lines_good, crate::proofs::EditLines::lines_bad))]
    pub fn take_lines(&mut self, _alloc: Global, text: &[u8]) -> Result<(), WordsFault>
        ensures taken { OnOk result
            (with_lines (plain self.old) (parts_of 10 text.now) ≡ Some (plain self.new)) }
        ensures none { IfErr result (λ e. e ≡ WordsFault.NoEdit
            → with_lines (plain self.old) (parts_of 10 text.now) ≡ None) }
        ensures memory { IfErr result (λ e. e ≡ WordsFault.Memory
            → NeedsPlace (plain self.old) (parts_of 10 text.now)) }
        ensures good { IfErr result (λ e. e ≡ WordsFault.Memory
            → with_lines (plain self.old) (parts_of 10 text.now) ≢ None) }
        ensures same { IfErr result (λ _. plain self.new ≡ plain self.old) }
    {
        match self.add_lines(text) {
            // Without room the lines are read once more: a bad one is told all the same.
            Err(WordsFault::Memory) if !are_lines(self.framing, text) => Err(WordsFault::NoEdit),
            told => told,
        }
    }

    // The same, where what is first told is first met.
    fn add_lines(&mut self, text: &[u8]) -> Result<(), WordsFault>
        ensures taken { OnOk result
            (with_lines (plain self.old) (parts_of 10 text.now) ≡ Some (plain self.new)) }
        ensures none { IfErr result (λ e. e ≡ WordsFault.NoEdit
            → with_lines (plain self.old) (parts_of 10 text.now) ≡ None) }
        ensures memory { IfErr result (λ e. e ≡ WordsFault.Memory
            → NeedsPlace (plain self.old) (parts_of 10 text.now)) }
        ensures same { IfErr result (λ _. plain self.new ≡ plain self.old) }
    {
        let (steps, framing) = (self.steps.len(), self.framing);
        let mut lines = Parts::new(text, b'\n');
        while let Some(line) = lines.next_part() {
            match self.take_line(line) {
                Ok(()) => {}
                Err(fault) => {
                    self.restore(steps, framing);
                    return Err(fault);
                }
            }
        }
        Ok(())
    }
}
