//! What the bytes of a pixel are.

ghost use Rattle.std.specs.Prelude.{◌≡◌, ◌<◌};
ghost use Rattle.frame_texts.specs.Pixels.{video_pixel, pixel_size};

use crate::pam::Tuples;

/// What the bytes of a pixel are: samples of one byte each, or of two where a value may be above
/// 255.
#[derive(Clone, Copy, PartialEq, Eq)]
pub struct Pixel {
    pub tuples: Tuples,
    /// The greatest value of a sample.
    pub greatest: u16,
    /// Whether the high one of two bytes comes first.
    pub high_first: bool,
}

impl Pixel {
    /// A sample of a video.
    pub(crate) fn of_video(greatest: u16) -> Pixel
        ensures { result ≡ video_pixel greatest }
    {
        let tuples = Tuples {
            colour: false,
            alpha: false,
        };
        Pixel {
            tuples,
            greatest,
            high_first: false,
        }
    }

    /// The number of its bytes.
    pub fn size(self) -> usize
        ensures size { result ≡ pixel_size self }
        ensures some { 0 < result }
    {
        let samples = self.tuples.depth();
        if self.greatest < 256 {
            samples
        } else {
            2 * samples
        }
    }
}
