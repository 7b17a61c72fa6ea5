//! Parses decimal and hex numbers.

ghost use Rattle.std.specs.Prelude.{◌≡◌, ◌≤◌, ◌<◌, false, Some, take, drop};
ghost use Rattle.std.specs.Char.{digit_value, is_digit};
ghost use Rattle.text_format.specs.Number.{numeral_of, capped_numeral, digits_in_front, number_of};

use thiserror::Error;

/// Why a word isn't a number.
#[derive(Clone, Copy, Debug, PartialEq, Eq, Error)]
pub enum NumberFault {
    /// The word is neither decimal digits nor `0x` followed by hex digits.
    #[error("no number")]
    Malformed,
    /// The number is 2^32 or more.
    #[error("a number of 2^32 or more")]
    TooLarge,
}

/// The smallest number that is too large.
const TOO_LARGE: u64 = 0x1_0000_0000;

/// The value of each digit or letter in radix 36, indexed by byte; 36 for every other byte.
#[rattlefmt::skip]
static DIGIT_VALUES: [u8; 256] = [
    36, 36, 36, 36, 36, 36, 36, 36, 36, 36, 36, 36, 36, 36, 36, 36,
    36, 36, 36, 36, 36, 36, 36, 36, 36, 36, 36, 36, 36, 36, 36, 36,
    36, 36, 36, 36, 36, 36, 36, 36, 36, 36, 36, 36, 36, 36, 36, 36,
    0, 1, 2, 3, 4, 5, 6, 7, 8, 9, 36, 36, 36, 36, 36, 36,
    36, 10, 11, 12, 13, 14, 15, 16, 17, 18, 19, 20, 21, 22, 23, 24,
    25, 26, 27, 28, 29, 30, 31, 32, 33, 34, 35, 36, 36, 36, 36, 36,
    36, 10, 11, 12, 13, 14, 15, 16, 17, 18, 19, 20, 21, 22, 23, 24,
    25, 26, 27, 28, 29, 30, 31, 32, 33, 34, 35, 36, 36, 36, 36, 36,
    36, 36, 36, 36, 36, 36, 36, 36, 36, 36, 36, 36, 36, 36, 36, 36,
    36, 36, 36, 36, 36, 36, 36, 36, 36, 36, 36, 36, 36, 36, 36, 36,
    36, 36, 36, 36, 36, 36, 36, 36, 36, 36, 36, 36, 36, 36, 36, 36,
    36, 36, 36, 36, 36, 36, 36, 36, 36, 36, 36, 36, 36, 36, 36, 36,
    36, 36, 36, 36, 36, 36, 36, 36, 36, 36, 36, 36, 36, 36, 36, 36,
    36, 36, 36, 36, 36, 36, 36, 36, 36, 36, 36, 36, 36, 36, 36, 36,
    36, 36, 36, 36, 36, 36, 36, 36, 36, 36, 36, 36, 36, 36, 36, 36,
    36, 36, 36, 36, 36, 36, 36, 36, 36, 36, 36, 36, 36, 36, 36, 36,
];

/// Returns the value of a digit or letter in radix 36, or 36 for any other byte.
#[inline(always)]
fn digit_value(byte: u8) -> u8
    ensures { result ≡ digit_value byte }
{
    DIGIT_VALUES[usize::from(byte)]
}

/// Returns the value of a byte as a digit in this radix. If the byte isn't such a digit, the result is at least the
/// radix.
#[inline(always)]
fn digit_of(radix: u8, byte: u8) -> u8
    requires { radix ≤ 36 }
    ensures digit { result < radix → result ≡ digit_value byte }
    ensures other { radix ≤ result → is_digit byte radix ≡ false }
{
    if radix <= 10 {
        byte.wrapping_sub(b'0')
    } else {
        digit_value(byte)
    }
}

/// Returns the number that the leading digits in this radix represent, capped at 2^32, and the bytes after these
/// digits.
#[inline(always)]
fn split_numeral(radix: u8, bytes: &[u8]) -> (u64, &[u8])
    requires low { 2 ≤ radix }
    requires high { radix ≤ 36 }
    ensures value { capped_numeral radix 0 (take (digits_in_front radix bytes.now) bytes.now) ≡ Some result.0 }
    ensures after { result.1.now ≡ drop (digits_in_front radix bytes.now) bytes.now }
{
    let mut value = 0;
    let mut rest = bytes;
    'each: while let Some((byte, more)) = rest.split_first() {
        let digit = digit_of(radix, *byte);
        if digit >= radix {
            break;
        }
        value = (value * u64::from(radix) + u64::from(digit)).min(TOO_LARGE);
        rest = more;
    }
    (value, rest)
}

/// Returns the number that digits in this radix represent, capped at 2^32, or `None` if any byte isn't such a digit.
fn capped_numeral(radix: u8, digits: &[u8]) -> Option<u64>
    requires low { 2 ≤ radix }
    requires high { radix ≤ 36 }
    ensures { result ≡ capped_numeral radix 0 digits.now }
{
    match split_numeral(radix, digits) {
        (value, []) => Some(value),
        (_, [_, ..]) => None,
    }
}

/// Returns the number that a word of digits in this radix represents.
fn numeral(radix: u8, word: &str) -> Result<u32, NumberFault>
    requires low { 2 ≤ radix }
    requires high { radix ≤ 36 }
    ensures { result ≡ numeral_of radix word.now }
{
    if word.is_empty() {
        return Err(NumberFault::Malformed);
    }
    match capped_numeral(radix, word.as_bytes()) {
        None => Err(NumberFault::Malformed),
        Some(value) if value < TOO_LARGE => Ok(value as u32),
        Some(_) => Err(NumberFault::TooLarge),
    }
}

/// Returns the number that a word spells: decimal digits, or `0x` and hex digits of either case. Accepts any number of
/// digits, but no sign, no `_` and no `0X`.
///
/// Returns `Malformed` for any other word, and `TooLarge` for 2^32 or more.
#[tactic(auto, unfolding(crate::specs::Number::number_of))]
pub fn number(word: &str) -> Result<u32, NumberFault>
    ensures { result ≡ number_of word.now }
{
    match word.strip_prefix("0x") {
        Some(digits) => numeral(16, digits),
        None => numeral(10, word),
    }
}
