//! A digest of results: a change of one byte changes it.

/// What was added so far, in two lanes that don't wait for each other.
#[derive(Drop)]
pub(crate) struct Digest {
    first: u64,
    second: u64,
}

// An odd factor: a product by it loses nothing.
const FACTOR: u64 = 0x9e3779b97f4a7c15;

// A lane with one more number.
fn mixed(lane: u64, number: u64) -> u64 {
    (lane.rotate_left(23) ^ number).wrapping_mul(FACTOR)
}

impl Digest {
    /// The digest of nothing.
    pub(crate) fn new() -> Self {
        Digest {
            first: 1,
            second: 2,
        }
    }

    /// Adds a number.
    pub(crate) fn add(&mut self, number: u64) {
        self.first = mixed(self.first, number);
    }

    /// Adds bytes, eight at a time.
    pub(crate) fn add_bytes(&mut self, bytes: &[u8]) {
        let (mut first, mut second) = (self.first, self.second);
        let (pairs, rest) = bytes.as_chunks::<16>();
        for [a, b, c, d, e, f, g, h, i, j, k, l, m, n, o, p] in pairs {
            first = mixed(first, u64::from_le_bytes([*a, *b, *c, *d, *e, *f, *g, *h]));
            second = mixed(second, u64::from_le_bytes([*i, *j, *k, *l, *m, *n, *o, *p]));
        }
        for byte in rest {
            first = mixed(first, u64::from(*byte));
        }
        self.first = first;
        self.second = second;
    }

    /// The digest.
    pub(crate) fn value(&self) -> u64 {
        mixed(self.first, self.second)
    }
}
