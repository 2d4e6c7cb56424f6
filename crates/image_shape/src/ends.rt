//! The two ends of rows.

/// One end of the rows of an image.
#[derive(Clone, Copy, PartialEq, Eq)]
pub enum End {
    /// The end of the first row, from which `next` takes.
    First,
    /// The end of the last row, from which `next_back` takes.
    Last,
}
