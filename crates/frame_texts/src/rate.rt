//! The rate that the line of a video names.

ghost use Rattle.std.specs.Prelude.{◌≡◌, ◌<◌};
ghost use Rattle.frame_texts.specs.Rates.{rate_in, rate_of};
ghost use Rattle.texts.specs.Parts.{parts_of};

use crate::header::field;
use texts::{Parts, next};

/// How many frames are shown in how many seconds.
#[derive(Clone, Copy, PartialEq, Eq)]
pub struct Rate {
    pub frames: u32,
    pub seconds: u32,
}

// A rate as two numbers with a colon between them.
#[tactic(auto, unfolding(crate::specs::Rates::rate_in))]
fn read_quotient(word: &[u8]) -> Option<Rate>
    ensures { result ≡ rate_in (parts_of 58 word.now) }
{
    let mut parts = Parts::new(word, b':');
    let frames: usize = next(&mut parts)?;
    let seconds: usize = next(&mut parts)?;
    if !parts.is_done() {
        return None;
    }
    Some(Rate {
        frames: u32::try_from(frames).ok()?,
        seconds: u32::try_from(seconds).ok()?,
    })
}

/// The rate that the line of a video names, as in `F30000:1001`; or `None` where it names none.
pub fn read_rate(line: &[u8]) -> Option<Rate>
    ensures { result ≡ rate_of line.now }
{
    let mut fields = Parts::new(line, b' ');
    let _word = fields.next_part()?;
    read_quotient(field(fields, b'F')?)
}
