//! Readers and writers that count failures, calls that read or write whole buffers and lines, and the
//! files and standard streams of a program.
#![tactic(auto)]

mod counted;
mod descriptors;
mod fault;
mod file_ids;
mod files;
mod growing;
mod retried;
mod whole;

pub use counted::Counted;
pub use descriptors::{Filled, fill_descriptors};
pub use fault::{INPUT_TEXT, MEMORY_TEXT, OUTPUT_TEXT};
pub use file_ids::{FileId, are_one};
pub use files::{NewFile, Sink, Source, id_of, read_whole, standard_id};
pub use growing::{fill_front, lengthen};
pub use retried::Retried;
pub use whole::{LineFault, ReadFailed, WriteFailed, fill, read_byte, read_line, write_all};
