//! Numbers that are read a digit at a time, and digits after a point.

ghost use Rattle.std.specs.Prelude.{◌≡◌, ◌<◌, ◌*◌, IfSome};
ghost use Rattle.frame_texts.specs.Digits.{is_digit, with_digit, worth_of};

/// Whether a byte is a decimal digit.
pub(crate) fn is_digit(byte: u8) -> bool
    ensures { result ≡ is_digit byte }
{
    b'0' <= byte && byte <= b'9'
}

/// The number with one more digit, below 2^32.
pub(crate) fn with_digit(number: Option<usize>, digit: usize) -> Option<usize>
    ensures { result ≡ with_digit number digit }
{
    match number {
        None => Some(digit),
        Some(number) => {
            let number = number.checked_mul(10)?.checked_add(digit)?;
            (number <= u32::MAX as usize).then_some(number)
        }
    }
}

/// What digits are worth, of which the first counts so many units. There is one digit, and at most so
/// many.
#[inline(always)]
pub(crate) fn read_worth(first: u64, most: usize, digits: &[u8]) -> Option<u128>
    requires { 0 < first }
    ensures worth { result ≡ worth_of first most digits.now }
    ensures small { IfSome result (λ sum. sum < 10 * first) }
{
    if digits.is_empty() || digits.len() > most {
        return None;
    }
    let mut unit = first;
    let mut sum: u128 = 0;
    for digit in digits {
        if !is_digit(*digit) {
            return None;
        }
        sum += (*digit - b'0') as u128 * unit as u128;
        unit /= 10;
    }
    Some(sum)
}
