//! What number a word is.
ghost use Rattle.std.specs.Prelude.{◌≡◌, Some};
ghost use Rattle.text.specs.Digits.{with_digit, size_of, number_of, ranged, unsigned64, signed32};

/// Why a word is not taken for a number.
#[derive(Clone, Copy, Drop, Debug, PartialEq, Eq)]
pub enum Misread {
    NoNumber,
    BeyondRange,
}

/// A size with one more digit behind it, where 64 bits hold that.
fn with_digit(size: Option<u64>, digit: u8) -> Option<u64>
    ensures { result ≡ with_digit size digit }
{
    size?.checked_mul(10)?.checked_add(u64::from(digit))
}

/// The number of 64 bits that a word of digits alone is. The whole word is read even where the number is
/// too large, since a byte that is no digit makes it no number at all.
pub fn size_of(word: &[u8]) -> Result<u64, Misread>
    ensures { result ≡ ranged unsigned64 (size_of word.now) }
{
    if word.is_empty() {
        return Err(Misread::NoNumber);
    }
    let mut size = Some(0);
    for byte in word {
        if !byte.is_ascii_digit() {
            return Err(Misread::NoNumber);
        }
        size = with_digit(size, byte - b'0');
    }
    size.ok_or(Misread::BeyondRange)
}

fn in_range(number: i128) -> Result<i32, Misread>
    ensures { result ≡ ranged signed32 (Some number) }
{
    i32::try_from(number).map_err(|_| Misread::BeyondRange)
}

/// The number of 32 bits that a word is: digits, with a `-` in front where it is below zero.
pub fn i32_of(word: &[u8]) -> Result<i32, Misread>
    ensures { result ≡ ranged signed32 (number_of word.now) }
{
    match word {
        [b'-', digits @ ..] => in_range(-i128::from(size_of(digits)?)),
        _ => in_range(i128::from(size_of(word)?)),
    }
}
