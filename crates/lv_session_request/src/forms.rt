//! The forms of lines: how many tokens a line has, which signs stand where, and the numbers and names in it.
#![tactic(auto)]

ghost use Rattle.std.specs.Prelude.{◌≡◌, IfOk, codes};
ghost use Rattle.std.specs.Option.{option_copied};
ghost use Rattle.lv_base.specs.Names.{is_named};
ghost use Rattle.lv_text.specs.Lexemes.{is_number};
ghost use Rattle.lv_session_request.specs.Forms.{is_dot, is_equals, has_kind, has_number_form, has_distinct_form, has_at_form, has_command_signs, has_release_signs, has_observe_signs, is_reserved, name_at, IsUpTo, from_1_to, limited, number_to};

use lv_base::is_same_text;
use lv_reply::Refusal;
use lv_text::{TokenKind, TokenLine};

/// Whether the token at this place, counted from 0, is this sign.
fn is_dot_at(line: &TokenLine<'_>, place: usize) -> bool
    ensures { result ≡ has_kind is_dot line.now place }
{
    matches!(line.kind(place), Some(TokenKind::Dot))
}

fn is_equals_at(line: &TokenLine<'_>, place: usize) -> bool
    ensures { result ≡ has_kind is_equals line.now place }
{
    matches!(line.kind(place), Some(TokenKind::Equals))
}

fn is_number_at(line: &TokenLine<'_>, place: usize) -> bool
    ensures { result ≡ has_kind is_number line.now place }
{
    matches!(line.kind(place), Some(TokenKind::Number))
}

/// Whether a line has as many tokens as `command P.C = V`, and its signs.
pub fn has_command_signs(line: &TokenLine<'_>) -> bool
    ensures { result ≡ has_command_signs line.now }
{
    line.len() == 6 && is_dot_at(line, 2) && is_equals_at(line, 4)
}

/// The same of `release P.C`, and of `test P.O`.
pub fn has_release_signs(line: &TokenLine<'_>) -> bool
    ensures { result ≡ has_release_signs line.now }
{
    line.len() == 4 && is_dot_at(line, 2)
}

/// The same of `observe NAME P.O = V`.
pub fn has_observe_signs(line: &TokenLine<'_>) -> bool
    ensures { result ≡ has_observe_signs line.now }
{
    line.len() == 7 && is_dot_at(line, 3) && is_equals_at(line, 5)
}

/// Whether a word stands for something else wherever it is.
fn is_reserved(word: &[u8]) -> bool
    ensures { result ≡ is_reserved word.now }
{
    is_same_text(word, b"true") || is_same_text(word, b"false") || is_same_text(word, b"mode")
}

/// The word at this place, as the name of an observation.
pub fn name_at<'a>(line: &TokenLine<'a>, place: usize) -> Option<&'a [u8]>
    ensures { option_copied result ≡ name_at line.now place }
{
    let word = line.word(place)?;
    if is_reserved(word) { None } else { Some(word) }
}

/// A number from 1 up to a limit.
fn from_1_to(most: u64, n: u128) -> Result<u64, Refusal>
    ensures number { result ≡ from_1_to most n }
    ensures within { IfOk result (IsUpTo most) }
{
    if 1 <= n && n <= u128::from(most) {
        Ok(n as u64)
    } else {
        Err(Refusal::OutOfLimits)
    }
}

/// Whether a line has the form of a word and a number.
fn has_number_form(line: &TokenLine<'_>) -> bool
    ensures { result ≡ has_number_form line.now }
{
    line.len() == 2 && is_number_at(line, 1)
}

/// Whether a line has the form of a word, a number and `distinct`.
pub fn has_distinct_form(line: &TokenLine<'_>) -> bool
    ensures { result ≡ has_distinct_form line.now }
{
    line.len() == 3 && is_number_at(line, 1) && line.says(2, b"distinct")
}

/// Whether a line has the form of a word, a name, `at` and a number.
pub fn has_at_form(line: &TokenLine<'_>) -> bool
    ensures { result ≡ has_at_form line.now }
{
    line.len() == 4 && line.says(2, b"at") && is_number_at(line, 3)
}

/// The number behind the word of a line, which has to be from 1 up to a limit.
pub fn limited(most: u64, line: &TokenLine<'_>) -> Result<u64, Refusal>
    ensures number { result ≡ limited most line.now }
    ensures within { IfOk result (IsUpTo most) }
{
    match line.number(1) {
        Some(n) => from_1_to(most, n),
        None => Err(Refusal::OutOfLimits),
    }
}

/// The number of a line that is a word and a number, which has to be from 1 up to a limit.
pub fn number_to(most: u64, line: &TokenLine<'_>) -> Result<u64, Refusal>
    ensures number { result ≡ number_to most line.now }
    ensures within { IfOk result (IsUpTo most) }
{
    if has_number_form(line) {
        limited(most, line)
    } else {
        Err(Refusal::Form)
    }
}
