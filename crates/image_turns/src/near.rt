//! How many rows stay in the nearest cache.

ghost use Rattle.std.specs.Prelude.{◌<◌};

// How many lines of a set hold rows: the nearest cache has eight of 64 bytes in each of its 64 sets,
// and two are left for what is written.
const LINES: u8 = 6;

/// How many rows of at most `most` stay in the nearest cache while a pixel of each is read at a time.
/// They begin `stride` bytes apart. Each takes a line, whose set follows from the last 12 bits of its
/// place. So at a stride near a multiple of 4096 few rows stay.
pub(crate) fn rows_near(stride: usize, most: usize) -> usize
    ensures { 0 < result }
{
    let mut lines = [0u8; 64];
    let mut place: usize = 0;
    for row in 0..most {
        let set = place / 64 % 64;
        if lines[set] >= LINES {
            return row.max(1);
        }
        lines[set] += 1;
        place = place.wrapping_add(stride);
    }
    most.max(1)
}
