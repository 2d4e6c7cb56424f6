//! How many frames a list of edits was made from, as a line of it says.

ghost use Rattle.std.specs.Prelude.{◌≡◌};
ghost use Rattle.frame_texts.specs.Counts.{count_in, agrees, says_none_else};

use crate::lines::before_return;
use texts::{Field, Parts};

/// The number of frames that a line of a list names: it is `# frames 120`, and nothing more.
pub fn read_count(line: &[u8]) -> Option<usize>
    ensures { result ≡ count_in line.now }
{
    match line.strip_prefix(b"# frames ".as_slice()) {
        Some(number) => usize::read(before_return(number)),
        None => None,
    }
}

/// Whether these are so many frames, where a number of them is named.
pub fn agrees(count: u64, named: Option<usize>) -> bool
    ensures { result ≡ agrees count named }
{
    match named {
        Some(number) => count == number as u64,
        None => true,
    }
}

/// Whether no line of a list names another number of frames. A list that two detectors made may have
/// two such lines.
pub fn says_none_else(count: u64, list: &[u8]) -> bool
    ensures { result ≡ says_none_else count list.now }
{
    let mut lines = Parts::new(list, b'\n');
    while let Some(line) = lines.next_part() {
        if !agrees(count, read_count(line)) {
            return false;
        }
    }
    true
}
