//! The number of a generated text, as a word.
#![tactic(auto)]

ghost use Rattle.std.specs.Prelude.{◌≡◌};
ghost use Rattle.std.specs.List.{list_all};
ghost use Rattle.lv_text.specs.Bytes.{is_digit};
ghost use Rattle.lv_run_words.specs.Numbers as Numbers;
ghost use Rattle.lv_run_words.specs.Numbers.{in_limits};

use lv_text::number;

/// The largest number of a generated text.
pub const LARGEST: u32 = 1_000_000;

/// The number that a word is: decimal digits, which may begin with zeros.
pub fn number_of(word: &[u8]) -> Option<u32>
    ensures { result ≡ Numbers.number_of word.now }
{
    if word.is_empty() || !are_digits(word) {
        return None;
    }
    in_limits(number(word)?)
}

/// All bytes are decimal digits.
fn are_digits(word: &[u8]) -> bool
    ensures { result ≡ list_all is_digit word.now }
{
    word.iter().all(|byte| byte.is_ascii_digit())
}

/// The number, where it is within its limits.
fn in_limits(number: u128) -> Option<u32>
    ensures { result ≡ in_limits number }
{
    if number == 0 || number > LARGEST as u128 {
        None
    } else {
        Some(number as u32)
    }
}
