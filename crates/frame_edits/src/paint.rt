//! The values that an edit gives to pixels.

/// The value that pixels get. Its numbers are in units of the samples.
#[derive(Clone, Copy, PartialEq, Eq)]
pub enum Paint {
    /// This brightness and no colour. Where pixels may be transparent, each value is opaque.
    Grey(usize),
    /// A sixteenth of the values of a sample: 16 of 256, which is black in a video. And no colour.
    Black,
    /// A colour, for pixels of three samples.
    Colour {
        red: usize,
        green: usize,
        blue: usize,
    },
    /// This brightness and no colour, also of the samples around the window. Without a number it is
    /// `Black`. The margin is in pixels. Without a number it is 2, and at least a sample.
    Around {
        value: Option<usize>,
        margin: Option<usize>,
    },
}
