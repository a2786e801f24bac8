//! The canonical text of a model, line by line.
#![tactic(auto)]

ghost use Rattle.std.specs.Prelude.{◌≡◌, ◌++◌, [], false, IfOk, OnOk};
ghost use Rattle.lv_reader.specs.CanonicalTexts.{names_model, version_line, ended_line, written_lines, canonical_model, WritesLine};

use crate::Statement;
use crate::canonical_statement::write_statement;
use crate::version::NEWEST;
use lv_formula_text::LineWriter;
use std::alloc::{AllocError, Global};

/// A model's canonical text as far as its statements have come.
#[derive(Drop)]
pub struct Canonical {
    line: LineWriter,
    bytes: Vec<u8>,
    has_begun: bool,
}

impl Canonical {
    /// The line that gives the version.
    pub fn new(alloc: Global) -> Result<Canonical, AllocError>
        ensures bytes { IfOk result (λ canonical. canonical.bytes.items ≡ version_line) }
        ensures begun { IfOk result (λ canonical. canonical.has_begun ≡ false) }
    {
        let mut line = LineWriter::new(alloc);
        let mut bytes = Vec::new(alloc);
        push_line(&mut line, &mut bytes, &Statement::VersionLine(NEWEST))?;
        Ok(Canonical {
            line,
            bytes,
            has_begun: false,
        })
    }

    /// Adds the line of a statement, and before the first the line of the model's name where it isn't given.
    pub fn push(&mut self, statement: &Statement) -> Result<(), AllocError>
        ensures { OnOk result (WritesLine statement.now self.old self.new) }
    {
        if !self.has_begun {
            self.has_begun = true;
            if !names_model(statement) {
                push_default_name(&mut self.bytes)?;
            }
        }
        push_line(&mut self.line, &mut self.bytes, statement)
    }

    /// The whole text. Where no statement has come, it has a model's name.
    pub fn into_bytes(self) -> Result<Vec<u8>, AllocError>
        ensures { IfOk result (λ bytes. bytes.items ≡ self.bytes.items ++ written_lines self.has_begun []) }
    {
        let mut bytes = self.bytes;
        if !self.has_begun {
            push_default_name(&mut bytes)?;
        }
        Ok(bytes)
    }
}

fn names_model(statement: &Statement) -> bool
    ensures { result ≡ names_model statement.now }
{
    matches!(statement, Statement::ModelLine(_))
}

/// Adds the line of the name that a model has where none is given.
fn push_default_name(bytes: &mut Vec<u8>) -> Result<(), AllocError>
    ensures { OnOk result (bytes.new.items ≡ bytes.old.items ++ written_lines false []) }
{
    bytes.extend_from_slice(b"model model\n")?;
    Ok(())
}

/// Adds the line of a statement, written in the room that is given.
fn push_line(
    line: &mut LineWriter,
    bytes: &mut Vec<u8>,
    statement: &Statement,
) -> Result<(), AllocError>
    ensures { OnOk result (bytes.new.items ≡ bytes.old.items ++ ended_line statement.now) }
{
    line.clear();
    write_statement(line, statement)?;
    bytes.extend_from_slice(line.text())?;
    bytes.extend_from_slice(b"\n")?;
    Ok(())
}
