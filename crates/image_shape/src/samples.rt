//! How the bytes of a sample lie in a row.

/// The cells of a sample, next to one another in a row.
#[derive(Clone, Copy, PartialEq, Eq)]
pub enum SampleBytes {
    /// Each cell is a sample.
    One,
    /// Two bytes, the low one first.
    LowFirst,
    /// Two bytes, the high one first.
    HighFirst,
}
