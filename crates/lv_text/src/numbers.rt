//! The value of a token of digits.

ghost use Rattle.std.specs.Prelude.{◌≡◌};
ghost use Rattle.lv_text.specs.Numbers.{number_in_range, in_range, with_digit};

/// The decimal value of a text of digits, or `None` where it is not below 2^128. Leading zeros are
/// allowed, and a text of any length. What a byte that is no digit counts for is of no use: give digits alone.
pub fn number(text: &[u8]) -> Option<u128>
    ensures { result ≡ number_in_range text.now }
{
    let mut value: u128 = 0;
    for digit in text {
        value = with_digit(value, *digit)?;
    }
    Some(value)
}

// The number with one more digit behind it.
fn with_digit(value: u128, digit: u8) -> Option<u128>
    ensures { result ≡ in_range (with_digit value digit) }
{
    value
        .checked_mul(10)?
        .checked_add(u128::from(digit.saturating_sub(b'0')))
}
