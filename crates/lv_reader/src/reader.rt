//! The statements of a text, line by line.
#![tactic(auto)]

ghost use Rattle.std.specs.Prelude.{◌≡◌, ◌≤◌, length, IfOk, IfErr, OnOk};
ghost use Rattle.lv_base.specs.declared.limits.TheConstants.{MODEL_BYTES as MOST_BYTES};
ghost use Rattle.lv_text.specs.Lines.{lines_of};
ghost use Rattle.lv_reader.specs.Lines.{Says, SaysBy, Tells, TellsSome};
ghost use Rattle.lv_reader.specs.declared.statement.NumberedStatement.{NumberedStatement};
ghost use Rattle.lv_reader.specs.Taking.{TakesLine, TakesText};
ghost use Rattle.lv_reader.specs.Texts.{ReadsAs, TellsReading, TellsLines, TellsLine};

use crate::code::ModelCode;
use crate::fault::{LineFault, ModelFault};
use crate::forms::statement_of;
use crate::statement::{ModelText, NumberedStatement, Statement};
use crate::version::{Version, gives_version, known_behind, version_in};
use lv_base::Seq;
use lv_base::limits::MODEL_BYTES;
use lv_text::{TextFault, Token, TokenLine, next_line};
use std::alloc::{AllocError, Global};

/// What the tokens of a line say in a text of the version: nothing where there are none.
fn said_by(
    alloc: Global,
    version: Version,
    tokens: &TokenLine<'_>,
) -> Result<Option<Statement>, LineFault>
    ensures ok { IfOk result (SaysBy version tokens.now) }
    ensures fault { IfErr result (λ fault. TellsSome fault version tokens.now) }
{
    if tokens.is_empty() {
        return Ok(None);
    }
    match statement_of(alloc, tokens, version) {
        Ok(statement) => Ok(Some(statement)),
        Err(LineFault::Refused(code)) => Err(LineFault::Refused(code)),
        Err(LineFault::Memory) => Err(LineFault::Memory),
    }
}

/// What a line says in a text of the version, which is given without its end. Its tokens lie in the room while it is read.
fn read_line(
    alloc: Global,
    room: &mut Vec<Token>,
    version: Version,
    line: &[u8],
) -> Result<Option<Statement>, LineFault>
    ensures ok { IfOk result (Says version line.now) }
    ensures fault { IfErr result (λ fault. Tells fault version line.now) }
{
    let tokens = match TokenLine::read_into(alloc, room, line) {
        Ok(tokens) => tokens,
        Err(TextFault::LongLine) => return Err(LineFault::Refused(ModelCode::LongLine)),
        Err(TextFault::BadByte(_)) => return Err(LineFault::Refused(ModelCode::BadByte)),
        Err(TextFault::Memory) => return Err(LineFault::Memory),
    };
    let said = said_by(alloc, version, &tokens);
    *room = tokens.into_room();
    said
}

/// What takes the statements of a text, one after the other, as they are read.
pub trait TakesStatements {
    ghost takes: { Self → NumberedStatement → Self → Type 0 };

    /// Takes one statement more. After want of memory nothing is known of where it stands.
    fn take(&mut self, numbered: NumberedStatement) -> Result<(), AllocError>
        ensures { OnOk result (takes self.old numbered self.new) };
}

/// Has what the line of this number says taken, and tells what is known of the version then.
fn take_line<T: TakesStatements>(
    alloc: Global,
    room: &mut Vec<Token>,
    taker: &mut T,
    known: Option<Version>,
    at: usize,
    line: &[u8],
) -> Result<Option<Version>, ModelFault>
    ensures ok { IfOk result (TakesLine T.takes known at line.now taker.old taker.new) }
    ensures fault { IfErr result (λ fault. TellsLine fault known at line.now) }
{
    match read_line(alloc, room, version_in(known), line) {
        Ok(Some(statement)) => {
            let version = known_behind(known, &statement);
            if !gives_version(known, &statement) {
                taker.take(NumberedStatement {
                    line: at,
                    statement,
                })?;
            }
            Ok(Some(version))
        }
        Ok(None) => Ok(known),
        Err(LineFault::Refused(code)) => Err(ModelFault::At { code, line: at }),
        Err(LineFault::Memory) => Err(ModelFault::Memory),
    }
}

/// Has the statements of a text that is within its limit taken, and tells how many lines it has.
fn take_lines<T: TakesStatements>(
    alloc: Global,
    bytes: &[u8],
    taker: &mut T,
) -> Result<usize, ModelFault>
    requires { length bytes.now ≤ MOST_BYTES }
    ensures ok { IfOk result (TakesText T.takes bytes.now taker.old taker.new) }
    ensures fault { IfErr result (λ fault. TellsLines fault (lines_of bytes.now)) }
{
    let mut room = Vec::new(alloc);
    let mut known = None;
    let mut lines: usize = 0;
    let mut rest = bytes;
    while let Some(line) = next_line(rest) {
        lines += 1;
        let text = &rest[..line.length];
        known = take_line(alloc, &mut room, taker, known, lines, text)?;
        rest = &rest[line.whole..];
    }
    Ok(lines)
}

/// Has the statements of a text taken one after the other, each as soon as it is read, and tells how many lines the text
/// has; or the text's first fault of reading, where some statements may have been taken.
pub fn read_each<T: TakesStatements>(
    alloc: Global,
    bytes: &[u8],
    taker: &mut T,
) -> Result<usize, ModelFault>
    ensures ok { IfOk result (TakesText T.takes bytes.now taker.old taker.new) }
    ensures fault { IfErr result (λ fault. TellsReading fault bytes.now) }
{
    if bytes.len() as u64 > MODEL_BYTES {
        return Err(ModelFault::At {
            code: ModelCode::TextTooLong,
            line: 0,
        });
    }
    take_lines(alloc, bytes, taker)
}

/// The statements of a text with the numbers of their lines, or its first fault of reading.
pub fn read_model(alloc: Global, bytes: &[u8]) -> Result<ModelText, ModelFault>
    ensures ok { IfOk result (ReadsAs bytes.now) }
    ensures fault { IfErr result (λ fault. TellsReading fault bytes.now) }
{
    let mut listed = Listed {
        statements: Vec::new(alloc),
    };
    let lines = read_each(alloc, bytes, &mut listed)?;
    Ok(ModelText {
        statements: Seq::from_vec(listed.statements),
        lines,
    })
}

/// Statements in a list.
#[derive(Drop)]
struct Listed {
    statements: Vec<NumberedStatement>,
}

impl TakesStatements for Listed {
    ghost use Rattle.std.specs.Prelude.{◌≡◌, ◌++◌, ◌∷◌, []};

    ghost takes = { λ old numbered new. new.statements.items ≡ old.statements.items ++ numbered ∷ [] };

    fn take(&mut self, numbered: NumberedStatement) -> Result<(), AllocError> {
        self.statements.push(numbered)?;
        Ok(())
    }
}
