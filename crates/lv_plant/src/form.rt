//! What a line asks for.
#![tactic(auto)]

ghost use Rattle.std.specs.Prelude.{◌≡◌, IfOk};
ghost use Rattle.lv_plant.specs.Forms.{goes_to_session, is_naming, naming_of, asked_of, asked_by, Asks};

use crate::fault::PlantFault;
use lv_text::{TextFault, TokenKind, TokenLine};
use std::alloc::{AllocError, Global};

/// What a line asks for, wherever the plant stands.
#[derive(Clone, Copy)]
pub enum PlantLine<'a> {
    /// Nothing.
    Nothing,
    Refused(PlantFault),
    /// What the session does with it.
    ForSession,
    /// That the part of this name takes, in the next step, its present mode's fault of this line.
    Name { part: &'a [u8], tag: Option<u128> },
    Step,
    Apply,
}

/// Whether a line begins with a word that is handed to the session.
fn goes_to_session(line: &TokenLine<'_>) -> bool
    ensures { result ≡ goes_to_session line.now }
{
    line.says(0, b"track")
        || line.says(0, b"budget")
        || line.says(0, b"command")
        || line.says(0, b"release")
        || line.says(0, b"goal")
        || line.says(0, b"drop")
        || line.says(0, b"recover")
        || line.says(0, b"conflicts")
        || line.says(0, b"states")
}

/// Whether a line is the word `fault`, a word and a number.
fn is_naming(line: &TokenLine<'_>) -> bool
    ensures { result ≡ is_naming line.now }
{
    line.len() == 3
        && line.says(0, b"fault")
        && matches!(line.kind(1), Some(TokenKind::Word))
        && matches!(line.kind(2), Some(TokenKind::Number))
}

/// What a line asks for that names a fault.
fn naming_of<'a>(line: &TokenLine<'a>) -> PlantLine<'a>
    ensures { Asks result (naming_of line.now) }
{
    match line.word(1) {
        Some(part) => PlantLine::Name {
            part,
            tag: line.number(2),
        },
        None => PlantLine::Refused(PlantFault::NoForm),
    }
}

/// What a line asks for that is read into tokens.
fn asked_of<'a>(line: &TokenLine<'a>) -> PlantLine<'a>
    ensures { Asks result (asked_of line.now) }
{
    if line.is_empty() {
        PlantLine::Nothing
    } else if goes_to_session(line) {
        PlantLine::ForSession
    } else if is_naming(line) {
        naming_of(line)
    } else if line.len() == 1 && line.says(0, b"step") {
        PlantLine::Step
    } else if line.len() == 1 && line.says(0, b"apply") {
        PlantLine::Apply
    } else {
        PlantLine::Refused(PlantFault::NoForm)
    }
}

/// What a line asks for, which is given without its end.
pub fn asked_by<'a>(alloc: Global, line: &'a [u8]) -> Result<PlantLine<'a>, AllocError>
    ensures { IfOk result (λ asked. Asks asked (asked_by line.now)) }
{
    match TokenLine::read(alloc, line) {
        Ok(tokens) => Ok(asked_of(&tokens)),
        Err(TextFault::LongLine) => Ok(PlantLine::Refused(PlantFault::LineTooLong)),
        Err(TextFault::BadByte(_)) => Ok(PlantLine::Refused(PlantFault::ByteNotAllowed)),
        Err(TextFault::Memory) => Err(AllocError),
    }
}
