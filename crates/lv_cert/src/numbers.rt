//! Numbers as they are spelled in certificates: decimal, without leading zeros, up to a limit that is far beyond every
//! number that a certificate can need. A literal may have a minus sign in front, and is not 0.
#![tactic(auto)]

ghost use Rattle.std.specs.Prelude.{◌≡◌, ◌≤◌, ◌^◌, ◌&&◌, if◌then◌else◌, Some, None};
ghost use Rattle.std.specs.Str.{bytes_eq};
ghost use Rattle.std.specs.Fmt.{decimal};
ghost use Rattle.lv_text.specs.Numbers as Digits;
ghost use Rattle.lv_text.specs.Numbers.{number_value};
ghost use Rattle.lv_cert.specs.Numbers.{within_limit, is_number, is_positive, is_negated, magnitude, is_literal, literal_value};

use crate::line::Literal;
use itoa::Buffer;

/// The largest number that has its form.
pub const LARGEST_NUMBER: u128 = 1_000_000_000_000_000_000_000_000_000_000;

/// The number that a word spells; none where it spells none.
pub fn number(word: &[u8]) -> Option<u128>
    ensures { result ≡ (if is_number word.now then Some (number_value word.now) else None) }
{
    let n = value(word)?;
    if is_decimal_of(word, n) {
        Some(n)
    } else {
        None
    }
}

/// The number that a word spells, unless it is 0; none where it spells none.
pub fn positive(word: &[u8]) -> Option<u128>
    ensures { result ≡ (if is_positive word.now then Some (number_value word.now) else None) }
{
    let n = number(word)?;
    if n > 0 { Some(n) } else { None }
}

/// The value of a word of digits, as far as it is within the limit.
fn value(word: &[u8]) -> Option<u128>
    ensures { result ≡ within_limit (number_value word.now) }
{
    let mut value: u128 = 0;
    for digit in word {
        value = with_digit(value, *digit)?;
    }
    Some(value)
}

/// The value with one more digit behind it, as far as it is within the limit.
fn with_digit(value: u128, digit: u8) -> Option<u128>
    requires { value ≤ 10 ^ 30 }
    ensures { result ≡ within_limit (Digits.with_digit value digit) }
{
    let longer = value * 10 + u128::from(digit.saturating_sub(b'0'));
    if longer <= LARGEST_NUMBER {
        Some(longer)
    } else {
        None
    }
}

/// Whether a word is the number's only spelling.
fn is_decimal_of(word: &[u8], n: u128) -> bool
    ensures { result ≡ bytes_eq word.now (decimal n) }
{
    let mut buffer = Buffer::new();
    word == buffer.format(n).as_bytes()
}

/// The literal that a word spells; none where it spells none.
pub fn literal(word: &[u8]) -> Option<Literal>
    ensures { result ≡ (if is_literal word.now then Some (literal_value word.now) else None) }
{
    let negated = is_negated(word);
    let number = positive(if negated { &word[1..] } else { word })?;
    Some(Literal { negated, number })
}

/// Whether a word begins with a minus sign.
fn is_negated(word: &[u8]) -> bool
    ensures { result ≡ is_negated word.now }
{
    !word.is_empty() && word[0] == b'-'
}
