//! Pixels that are read many at once.

ghost use Rattle.std.specs.Prelude.{◌≡◌, ℕ, ◌≤◌, ◌<◌, ◌+◌, IfOk, IfSome, length, take, drop, map, slice_index};
ghost use Rattle.std.specs.Io.{StartsWith};
ghost use Rattle.std.specs.Simd.Lanes.{mask_l};
ghost use Rattle.texts.specs.Parts.{parts_of};
ghost use Rattle.texts.specs.Reading.{pixel_of, each_of, with_front};
ghost use Rattle.texts.specs.Digits.{is_other, IsDigit};

use std::alloc::AllocError;
use std::simd::prelude::*;

// How many bytes there are after those that are looked at together: a pixel that begins at the last of
// them is looked at as a whole.
const AFTER: usize = 8;

// How many pixels are found at once at most.
const MOST: usize = 40;

// A bit for each lane, which is set where the lane is no digit.
#[inline(always)]
fn others<const N: usize>(lanes: Simd<u8, N>) -> u64
    requires { N ≤ 64 }
    ensures { result ≡ mask_l (map is_other lanes.entry) }
{
    (lanes - Simd::<u8, N>::splat(b'0'))
        .simd_gt(Simd::<u8, N>::splat(9))
        .to_bitmask()
}

// What each of three digits is worth where so many of them count, from the first on.
static WORTHS: [[usize; 3]; 4] = [[0, 0, 0], [1, 0, 0], [10, 1, 0], [100, 10, 1]];

// The least number of so many digits, without a zero in front.
static LEASTS: [usize; 4] = [256, 0, 10, 100];

// The pixel that so many digits denote. How many they are can't be predicted, so no branch asks for
// it: the bytes after them are worth nothing.
#[inline(always)]
fn short_pixel(bytes: &[u8], digits: usize) -> Option<u8>
    requires long { 3 ≤ length bytes.now }
    requires digits { (k : ℕ) → k < digits → IsDigit (slice_index bytes.now k) }
    ensures pixel { IfSome result (λ value. pixel_of (take digits bytes.now) ≡ Some value) }
    ensures some { IfSome result (λ _. 1 ≤ digits) }
{
    if digits > 3 {
        return None;
    }
    let [first, second, third] = WORTHS[digits];
    let number = (bytes[0] % 16) as usize * first
        + (bytes[1] % 16) as usize * second
        + (bytes[2] % 16) as usize * third;
    if number < LEASTS[digits] || number > 255 {
        return None;
    }
    Some(number as u8)
}

// Reads the first of the parts, as far as they are plain pixels, and tells how many it read and how
// many bytes they took. Where the digits end is found at once for N bytes.
fn first_pixels<const N: usize>(bytes: &[u8], separator: u8, values: &mut [u8]) -> (usize, usize)
    requires few { N ≤ 64 }
    requires long { N + AFTER ≤ length bytes.now }
    requires room { MOST ≤ length values.old }
    requires separator { separator < 48 }
    ensures read { with_front (take result.0 values.new)
        (each_of pixel_of (parts_of separator (drop result.1 bytes.now)))
        ≡ each_of pixel_of (parts_of separator bytes.now) }
    ensures count { result.0 ≤ length values.new }
    ensures bytes { result.1 ≤ length bytes.now }
    ensures len { length values.new ≡ length values.old }
{
    let mut ends = others::<N>(Simd::<u8, N>::from_slice(bytes));
    let mut at = 0;
    let mut count = 0;
    while ends != 0 {
        let digits = ends.trailing_zeros() as usize;
        if bytes[at + digits] != separator {
            break;
        }
        let Some(value) = short_pixel(&bytes[at..], digits) else {
            break;
        };
        values[count] = value;
        count += 1;
        at += digits + 1;
        ends = ends >> digits >> 1;
    }
    (count, at)
}

/// Adds the first pixels, as far as they can be read N bytes at a time, and returns what is left.
#[tactic(auto, using(crate::proofs::Beginnings::beginnings))]
pub(crate) fn read_pixels<'a, const N: usize>(
    bytes: &'a [u8],
    separator: u8,
    values: &mut Vec<u8>,
) -> Result<&'a [u8], AllocError>
    requires few { N ≤ 64 }
    requires separator { separator < 48 }
    ensures read { IfOk result (λ rest.
        with_front values.new.items (each_of pixel_of (parts_of separator rest.now))
        ≡ with_front values.old.items (each_of pixel_of (parts_of separator bytes.now))) }
    ensures kept { StartsWith values.new.items values.old.items }
{
    let mut rest = bytes;
    let mut some = [0; MOST];
    while rest.len() >= N + AFTER {
        let (count, used) = first_pixels::<N>(rest, separator, &mut some);
        if used == 0 {
            break;
        }
        values.extend_from_slice(&some[..count])?;
        rest = &rest[used..];
    }
    Ok(rest)
}
