//! What a person asks for by words and lists: options, edits, and which of them are refused. And what
//! was found of the input of a run, and why a run ended.
#![tactic(auto)]

mod apart;
mod asked;
mod boxes;
mod fault;
mod late;
mod options;
mod seen;
mod words;

pub use apart::{Files, Role, reads_input_twice, shared_file};
pub use asked::edits_asked;
pub use fault::RunFault;
pub use late::{Hiding, late_pairs};
pub use options::{Misread, Options, read_options};
pub use seen::{Seen, Shape, Stretch, Uncovered, is_same_picture};
pub use words::{Refusal, edits_of_lines, edits_of_words, has_blur, words_of};
