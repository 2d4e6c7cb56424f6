//! Bytes that are split at a separator.

ghost use Rattle.std.specs.Prelude.{◌≡◌, ◌≤◌, ◌<◌, ◌+◌, ◌-◌, ◌^◌, ◌↔◌, ◌==◌, ◌∷◌, [], IsTrue, OnOk, OnErr, None, IfSome, MatchOption, length, take, map, position};
ghost use Rattle.std.specs.List.{position_or_len, position_from};
ghost use Rattle.std.specs.Io.{StartsWith};
ghost use Rattle.std.specs.Simd.Lanes.{mask_l};
ghost use Rattle.texts.specs.Parts.{parts_of, parts_left};
ghost use Rattle.texts.specs.Reading.{number_of, pixel_of, first_of_parts, each_of, with_front};

use crate::pixels::read_pixels;
use std::alloc::AllocError;
use std::simd::prelude::*;

/// The parts that are left of bytes that are split at a separator. The empty list of bytes is one
/// empty part.
#[derive(Clone, Copy)]
pub struct Parts<'a> {
    // The bytes after the last separator that was passed; `None` after the last part.
    rest: Option<&'a [u8]>,
    separator: u8,
}

impl<'a> Parts<'a> {
    /// All parts of the bytes.
    pub fn new(bytes: &'a [u8], separator: u8) -> Self
        ensures { parts_left result ≡ parts_of separator bytes.now }
    {
        Parts {
            rest: Some(bytes),
            separator,
        }
    }

    /// Whether all parts have been taken.
    pub fn is_done(&self) -> bool
        ensures { IsTrue result ↔ (parts_left self.now ≡ []) }
    {
        self.rest.is_none()
    }

    /// The number that the next part is the text of, where it has at most three digits. Else `None`,
    /// and no part is taken. Most numbers of a text are such: here each byte of one is looked at once.
    #[inline(always)]
    #[tactic(auto, using(crate::proofs::ShortNumbers::first_and_others, crate::proofs::ShortNumbers::first_alone))]
    pub(crate) fn next_short(&mut self) -> Option<usize>
        ensures found { IfSome result (λ number.
            first_of_parts number_of (parts_left self.old) ≡ Some (number, parts_left self.new)) }
        ensures unchanged { result ≡ None → self.new ≡ self.old }
    {
        let rest = self.rest?;
        let (number, digits) = short_number(rest, self.separator)?;
        if digits < rest.len() {
            self.rest = Some(&rest[digits + 1..]);
            return Some(number);
        }
        self.rest = None;
        Some(number)
    }

    /// Adds the pixels that the next parts denote, as long as many of them can be read at once: all,
    /// some or none of them.
    ///
    /// # Errors
    ///
    /// No memory was found. The parts are then as they were. What was in the list stays, and some of
    /// the pixels may come after it.
    #[tactic(auto, using(crate::proofs::Beginnings::beginnings))]
    pub fn read_pixels(&mut self, values: &mut Vec<u8>) -> Result<(), AllocError>
        ensures read { OnOk result
            (with_front values.new.items (each_of pixel_of (parts_left self.new))
            ≡ with_front values.old.items (each_of pixel_of (parts_left self.old))) }
        ensures kept { StartsWith values.new.items values.old.items }
        ensures unchanged { OnErr result (self.new ≡ self.old) }
    {
        let Some(rest) = self.rest else {
            return Ok(());
        };
        if self.separator >= b'0' {
            return Ok(());
        }
        let rest = read_pixels::<64>(rest, self.separator, values)?;
        let rest = read_pixels::<16>(rest, self.separator, values)?;
        self.rest = Some(rest);
        Ok(())
    }

    /// The next part, or `None` where no part is left.
    pub fn next_part(&mut self) -> Option<&'a [u8]>
        ensures { MatchOption result (parts_left self.old ≡ [])
            (λ part. parts_left self.old ≡ part.now ∷ parts_left self.new) }
    {
        let rest = self.rest?;
        match find(rest, self.separator) {
            Some(at) => {
                self.rest = Some(&rest[at + 1..]);
                Some(&rest[..at])
            }
            None => {
                self.rest = None;
                Some(rest)
            }
        }
    }
}

// The number of at most three digits that comes before the first such byte, or is all of the bytes,
// and how many digits it has.
#[tactic(auto, using(crate::proofs::ShortNumbers::short_numbers))]
fn short_number(bytes: &[u8], end: u8) -> Option<(usize, usize)>
    ensures digits { IfSome result
        (λ found. position_or_len (λ b. b == end) bytes.now ≡ found.1) }
    ensures number { IfSome result
        (λ found. number_of (take found.1 bytes.now) ≡ Some found.0) }
{
    if bytes.is_empty() || end >= b'0' || !bytes[0].is_ascii_digit() {
        return None;
    }
    let one = value(bytes[0]);
    if bytes.len() == 1 || bytes[1] == end {
        return Some((one, 1));
    }
    if one == 0 || !bytes[1].is_ascii_digit() {
        return None;
    }
    let two = one * 10 + value(bytes[1]);
    if bytes.len() == 2 || bytes[2] == end {
        return Some((two, 2));
    }
    if !bytes[2].is_ascii_digit() {
        return None;
    }
    let three = two * 10 + value(bytes[2]);
    if bytes.len() == 3 || bytes[3] == end {
        return Some((three, 3));
    }
    None
}

// How many bytes are compared at once.
const LANES: usize = 16;

// A bit for each lane, which is set where the lane is that byte.
#[inline(always)]
fn marks<const N: usize>(lanes: Simd<u8, N>, byte: u8) -> u64
    requires { N ≤ 64 }
    ensures { result ≡ mask_l (map (λ b. b == byte) lanes.entry) }
{
    lanes.simd_eq(Simd::<u8, N>::splat(byte)).to_bitmask()
}

// How many of the first N bytes come before the first such byte: all where there is none.
#[inline(always)]
fn lanes_before<const N: usize>(bytes: &[u8], byte: u8) -> usize
    requires few { N ≤ 64 }
    requires long { N ≤ length bytes.now }
    ensures { result ≡ position_or_len (λ b. b == byte) (take N bytes.now) }
{
    let marked = marks::<N>(Simd::<u8, N>::from_slice(bytes), byte);
    if marked == 0 {
        return N;
    }
    marked.trailing_zeros() as usize
}

// Where the byte first occurs. It looks at 16 bytes a turn, which takes less than an instruction a
// byte, where the library's `position` takes seven.
#[tactic(auto, using(crate::proofs::Positions::counted_from_zero))]
fn find(bytes: &[u8], byte: u8) -> Option<usize>
    ensures { result ≡ position (λ b. b == byte) bytes.now }
{
    let mut rest = bytes;
    let mut at = 0;
    while rest.len() >= LANES {
        let before = lanes_before::<LANES>(rest, byte);
        if before < LANES {
            return Some(at + before);
        }
        rest = &rest[LANES..];
        at += LANES;
    }
    if rest.len() >= 8 {
        find_at_ends::<8>(at, rest, byte)
    } else if rest.len() >= 4 {
        find_at_ends::<4>(at, rest, byte)
    } else {
        find_from(at, rest, byte)
    }
}

// The same of bytes of which the first has this number. They are looked at as the first N and the
// last N, which may overlap: most fields are too short for 16 bytes at once.
#[inline(always)]
fn find_at_ends<const N: usize>(start: usize, bytes: &[u8], byte: u8) -> Option<usize>
    requires few { N ≤ 64 }
    requires covers { (N ≤ length bytes.now) × (length bytes.now ≤ N + N) }
    requires fits { start + length bytes.now < 2 ^ 64 }
    ensures { result ≡ position_from (λ b. b == byte) start bytes.now }
{
    let before = lanes_before::<N>(bytes, byte);
    if before < N {
        return Some(start + before);
    }
    let last = bytes.len() - N;
    let before = lanes_before::<N>(&bytes[last..], byte);
    if before < N {
        return Some(start + last + before);
    }
    None
}

// The same, byte by byte.
fn find_from(start: usize, bytes: &[u8], byte: u8) -> Option<usize>
    requires { start + length bytes.now < 2 ^ 64 }
    ensures { result ≡ position_from (λ b. b == byte) start bytes.now }
{
    let mut rest = bytes;
    let mut at = start;
    while let [a, others @ ..] = rest {
        if *a == byte {
            return Some(at);
        }
        rest = others;
        at += 1;
    }
    None
}

/// The value of a digit.
pub(crate) fn value(digit: u8) -> usize
    requires low { 48 ≤ digit }
    requires high { digit ≤ 57 }
    ensures value { result ≡ digit - 48 }
    ensures small { result ≤ 9 }
{
    (digit - b'0') as usize
}
