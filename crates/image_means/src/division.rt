//! Means of samples by a multiplication. The factor is found once for each count.

ghost use Rattle.std.specs.Prelude.{◌≡◌, ◌<◌, ◌≤◌, ◌*◌, ◌/◌, ◌^◌};
ghost use Rattle.image_means.specs.Division.{factor_of};
ghost use Rattle.image_means.specs.Means.{rounded_mean};

// Up to this count a sum of samples is divided by a multiplication: its square is below 2^31.
const GREATEST: u64 = 46340;

// The shift is by 47 bits: a sample has 16, and a product has 64.
const ONE: u64 = 1 << 47;

// The quotient of `ONE`, by two divisions of 32 bits: they take less time than one of 64.
fn one_by(count: u32) -> u64
    requires some { 0 < count }
    requires few { count ≤ 2 ^ 16 }
    ensures { result ≡ 2 ^ 47 / count }
{
    let (whole, rest) = ((1u32 << 31) / count, (1u32 << 31) % count);
    u64::from(whole) * 65536 + u64::from(rest * 65536 / count)
}

/// The factor of `mean_by` for so many samples, or 0 where they are too many for one.
pub(crate) fn factor_of(count: u64) -> u64
    requires { 0 < count }
    ensures { result ≡ factor_of count }
{
    if count <= GREATEST {
        one_by(count as u32) + 1
    } else {
        0
    }
}

/// The quotient of a number by a count, by the factor of the count.
#[inline(always)]
pub(crate) fn quotient_by(number: u64, factor: u64) -> u64
    requires { number * factor < 2 ^ 64 }
    ensures { result ≡ number * factor / 2 ^ 47 }
{
    number * factor / ONE
}

/// The mean of so many samples with this sum, rounded to the nearest number: a half goes up. The
/// factor is that of the count.
#[inline(always)]
pub(crate) fn mean_by(sum: u64, count: u64, factor: u64) -> u64
    requires some { 0 < count }
    requires few { count < 2 ^ 33 }
    requires samples { sum ≤ count * 65535 }
    requires factor { factor ≡ factor_of count }
    ensures { result ≡ rounded_mean sum count }
{
    let number = sum + count / 2;
    if factor > 0 {
        quotient_by(number, factor)
    } else {
        number / count
    }
}
