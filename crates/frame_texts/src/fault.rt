//! Why a list is refused.

/// Why words are refused.
#[derive(Clone, Copy, Debug, PartialEq, Eq)]
pub enum WordsFault {
    /// They aren't an edit, or an edit comes after a crop or a pad.
    NoEdit,
    /// Out of memory.
    Memory,
}
