//! What isn't one of a frame.

/// What isn't one of a frame.
#[derive(Clone, Copy, PartialEq, Eq)]
pub enum Unsuited {
    /// The edit of this number, counted from 0.
    Edit(usize),
    /// What becomes of the size.
    Size,
}
