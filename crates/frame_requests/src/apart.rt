//! The files of a run: which two of them may not be one file, and whether standard input is read
//! twice.

ghost use Rattle.std.specs.Prelude.{◌≡◌, IfSome, None, map};
ghost use Rattle.frame_requests.specs.Apart.{AreApart, IsShared, is_dash, reads_input_twice};

use crate::options::Options;
use devices::{FileId, are_one};

/// What a file is for.
#[derive(Clone, Copy, PartialEq, Eq)]
pub enum Role {
    Input,
    Edits,
    Boxes,
    Output,
    Report,
}

/// The files of a run. What is a pipe, a folder or a device has none.
#[derive(Clone, Copy)]
pub struct Files<'a> {
    pub input: Option<FileId<'a>>,
    pub edits: Option<FileId<'a>>,
    pub boxes: Option<FileId<'a>>,
    pub output: Option<FileId<'a>>,
    pub report: Option<FileId<'a>>,
    /// Whether the output is a new file that gets its name at the end. It may be that of the input.
    pub is_renamed: bool,
}

/// Two files of a run that are one, of which the first is written. Nothing that is read or written may
/// be overwritten, except that a new file may get the name of the input.
pub fn shared_file(files: &Files<'_>) -> Option<(Role, Role)>
    ensures shared { IfSome result (IsShared files.now) }
    ensures apart { result ≡ None → AreApart files.now }
{
    if are_one(files.report, files.input) {
        Some((Role::Report, Role::Input))
    } else if are_one(files.report, files.boxes) {
        Some((Role::Report, Role::Boxes))
    } else if are_one(files.report, files.edits) {
        Some((Role::Report, Role::Edits))
    } else if are_one(files.report, files.output) {
        Some((Role::Report, Role::Output))
    } else if are_one(files.output, files.boxes) {
        Some((Role::Output, Role::Boxes))
    } else if are_one(files.output, files.edits) {
        Some((Role::Output, Role::Edits))
    } else if !files.is_renamed && are_one(files.output, files.input) {
        Some((Role::Output, Role::Input))
    } else {
        None
    }
}

// Whether the word at this place stands for standard input.
fn is_dash(words: &[&[u8]], at: Option<usize>) -> bool
    ensures { result ≡ is_dash (map (λ w. w.now) words.now) at }
{
    let Some(at) = at else {
        return false;
    };
    match words.get(at) {
        Some(word) => *word == b"-".as_slice(),
        None => false,
    }
}

/// Whether standard input would be read for two of the edits, the boxes and the input.
pub fn reads_input_twice(options: Options, words: &[&[u8]]) -> bool
    ensures { result ≡ reads_input_twice options (map (λ w. w.now) words.now) }
{
    let edits = is_dash(words, options.edits);
    let boxes = is_dash(words, options.boxes);
    (edits && boxes) || ((edits || boxes) && options.input.is_none())
}
