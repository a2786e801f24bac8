//! What a line asks for.
#![tactic(auto)]

ghost use Rattle.std.specs.Prelude.{◌≡◌, ◌+◌, IfOk, drop};
ghost use Rattle.std.specs.List.{prefix_len};
ghost use Rattle.lv_base.specs.declared.limits.TheConstants.{LINE_BYTES, NAME_BYTES, BUDGET};
ghost use Rattle.lv_text.specs.Bytes.{is_letter, is_blank, is_word_byte};
ghost use Rattle.lv_lanes.specs.Forms.{addressed, is_turn, turn_of, asked_by, Asks};

use crate::fault::LaneFault;
use lv_base::limits::{BUDGET, LINE_BYTES, NAME_BYTES};
use lv_text::{TextFault, TokenKind, TokenLine};
use std::alloc::{AllocError, Global};

/// What a line asks for, whatever lanes there are.
#[derive(Clone, Copy)]
pub enum LaneLine<'a> {
    /// Nothing.
    Nothing,
    Refused(LaneFault),
    /// That this line goes to the lane of that name.
    ForLane { name: &'a [u8], line: &'a [u8] },
    /// That each lane with an unsettled query goes on with it, for so many trials.
    Turn(u64),
}

fn is_letter(byte: u8) -> bool
    ensures { result ≡ is_letter byte }
{
    byte.is_ascii_alphabetic() || byte == b'_'
}

fn is_blank(byte: u8) -> bool
    ensures { result ≡ is_blank byte }
{
    byte == b' ' || byte == b'\t'
}

/// How many of the first bytes a word goes on with.
fn word_length(rest: &[u8]) -> usize
    ensures { result ≡ prefix_len is_word_byte rest.now }
{
    rest.iter()
        .take_while(|byte| is_letter(**byte) || byte.is_ascii_digit())
        .count()
}

/// What follows the byte at this place, nothing where there is none.
fn behind(rest: &[u8], place: usize) -> &[u8]
    ensures { result.now ≡ drop (place + 1) rest.now }
{
    if place < rest.len() {
        &rest[place + 1..]
    } else {
        &rest[rest.len()..]
    }
}

/// What a line asks for that begins with `@`, by what stands behind that.
fn addressed(rest: &[u8]) -> LaneLine<'_>
    ensures { Asks result (addressed rest.now) }
{
    let end = word_length(rest);
    if rest.is_empty() || !is_letter(rest[0]) || (end < rest.len() && !is_blank(rest[end])) {
        LaneLine::Refused(LaneFault::NoForm)
    } else if end > NAME_BYTES {
        LaneLine::Refused(LaneFault::NoLane)
    } else {
        LaneLine::ForLane {
            name: &rest[..end],
            line: behind(rest, end),
        }
    }
}

/// Whether a line is the word `turn` and a number.
fn is_turn(line: &TokenLine<'_>) -> bool
    ensures { result ≡ is_turn line.now }
{
    line.len() == 2 && line.says(0, b"turn") && matches!(line.kind(1), Some(TokenKind::Number))
}

/// What a line asks for that is read into tokens.
fn turn_of<'a>(line: &TokenLine<'_>) -> LaneLine<'a>
    ensures { Asks result (turn_of line.now) }
{
    if line.is_empty() {
        return LaneLine::Nothing;
    }
    if !is_turn(line) {
        return LaneLine::Refused(LaneFault::NoForm);
    }
    match line.number(1) {
        Some(trials) if 1 <= trials && trials <= BUDGET as u128 => LaneLine::Turn(trials as u64),
        _ => LaneLine::Refused(LaneFault::OutOfLimits),
    }
}

/// What a line asks for, which is given without its end.
pub fn asked_by<'a>(alloc: Global, line: &'a [u8]) -> Result<LaneLine<'a>, AllocError>
    ensures { IfOk result (λ asked. Asks asked (asked_by line.now)) }
{
    if line.len() > LINE_BYTES {
        return Ok(LaneLine::Refused(LaneFault::LongLine));
    }
    if !line.is_empty() && line[0] == b'@' {
        return Ok(addressed(&line[1..]));
    }
    match TokenLine::read(alloc, line) {
        Ok(tokens) => Ok(turn_of(&tokens)),
        Err(TextFault::LongLine) => Ok(LaneLine::Refused(LaneFault::LongLine)),
        Err(TextFault::BadByte(_)) => Ok(LaneLine::Refused(LaneFault::NoForm)),
        Err(TextFault::Memory) => Err(AllocError),
    }
}
