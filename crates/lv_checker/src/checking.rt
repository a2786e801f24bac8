//! A text that is checked as it is read, so that no statement is kept: what its statements give so far, or the first of
//! them that is refused; and beside it, where that is asked for, its canonical text.
#![tactic(auto)]

ghost use Rattle.std.specs.Prelude.{◌≡◌, IfOk, IfErr, OnOk};
ghost use Rattle.lv_checker.specs.Drafts.{empty};
ghost use Rattle.lv_checker.specs.Checking.{fine, Finds};
ghost use Rattle.lv_checker.specs.Standing.{standing, ended, AddsOne, HasRead, IsPrinted, BeginsPrinting};
ghost use Rattle.lv_checker.specs.Verdicts.{IsVerdict, accepted, Tells};

use crate::checker::{add_one, empty, ending_code, model_of_draft};
use lv_model::Model;
use lv_model_entries::Draft;
use lv_reader::{Canonical, ModelCode, ModelFault, NumberedStatement, TakesStatements, read_each};
use std::alloc::{AllocError, Global};

/// Why a statement is refused, and the number of its line.
#[derive(Clone, Copy)]
struct Refused {
    code: ModelCode,
    line: usize,
}

/// What the statements of a text give so far, or the first of them that is refused, behind which all are passed over.
#[derive(Drop)]
struct Checking {
    alloc: Global,
    /// In a box, since letting go of it where it lies is slow to check.
    draft: Box<Draft>,
    refused: Option<Refused>,
}

impl Checking {
    /// What stands before any statement.
    fn new(alloc: Global) -> Result<Checking, AllocError>
        ensures { IfOk result (λ checking. standing checking ≡ fine empty) }
    {
        Ok(Checking {
            alloc,
            draft: Box::new(alloc, empty(alloc)?)?,
            refused: None,
        })
    }

    /// Adds what one more statement adds, unless one is refused.
    fn add(&mut self, numbered: &NumberedStatement) -> Result<(), AllocError>
        ensures { OnOk result (AddsOne numbered.now self.old self.new) }
    {
        if self.refused.is_some() {
            return Ok(());
        }
        match add_one(self.alloc, &mut self.draft, numbered) {
            Ok(()) => Ok(()),
            Err(ModelFault::At { code, line }) => {
                self.refused = Some(Refused { code, line });
                Ok(())
            }
            Err(ModelFault::Memory) => Err(AllocError),
        }
    }

    /// That the text may end here, behind so many lines; else why it is refused.
    fn end(&self, lines: usize) -> Result<(), ModelFault>
        requires { HasRead lines self.now }
        ensures ok { OnOk result (ended lines self.now ≡ fine self.now.draft.value.plant) }
        ensures fault { IfErr result (λ fault. Finds fault (ended lines self.now)) }
    {
        if let Some(Refused { code, line }) = self.refused {
            return Err(ModelFault::At { code, line });
        }
        let line = lines + 1;
        match ending_code(&self.draft) {
            Some(code) => Err(ModelFault::At { code, line }),
            None => Ok(()),
        }
    }

    /// What it comes to where the text ends, behind so many lines.
    fn finish(self, lines: usize) -> Result<Model, ModelFault>
        requires { HasRead lines self }
        ensures ok { IfOk result (λ model. ended lines self ≡ fine model) }
        ensures fault { IfErr result (λ fault. Finds fault (ended lines self)) }
    {
        self.end(lines)?;
        Ok(model_of_draft(Box::into_inner(self.draft)))
    }
}

impl TakesStatements for Checking {
    ghost use Rattle.lv_checker.specs.Standing.{AddsOne};

    ghost takes = { λ old numbered new. AddsOne numbered old new };

    fn take(&mut self, numbered: NumberedStatement) -> Result<(), AllocError> {
        self.add(&numbered)
    }
}

/// The same, and the canonical text of the statements so far.
#[derive(Drop)]
struct Printing {
    checking: Checking,
    canonical: Canonical,
}

impl Printing {
    /// What stands before any statement.
    fn new(alloc: Global) -> Result<Printing, AllocError>
        ensures { IfOk result BeginsPrinting }
    {
        Ok(Printing {
            checking: Checking::new(alloc)?,
            canonical: Canonical::new(alloc)?,
        })
    }
}

impl TakesStatements for Printing {
    ghost use Rattle.lv_checker.specs.Standing.{AddsAndWrites};

    ghost takes = { λ old numbered new. AddsAndWrites numbered old new };

    fn take(&mut self, numbered: NumberedStatement) -> Result<(), AllocError> {
        self.checking.add(&numbered)?;
        self.canonical.push(&numbered.statement)
    }
}

/// The model of a text's bytes, or its first fault: those of reading come first.
pub fn model_of(alloc: Global, bytes: &[u8]) -> Result<Model, ModelFault>
    ensures ok { IfOk result (λ m. IsVerdict bytes.now (accepted m)) }
    ensures fault { IfErr result (λ fault. Tells fault bytes.now) }
{
    let mut checking = Checking::new(alloc)?;
    let lines = read_each(alloc, bytes, &mut checking)?;
    checking.finish(lines)
}

/// The canonical text of bytes that give a model, or their first fault: those of reading come first.
pub fn printed_model(alloc: Global, bytes: &[u8]) -> Result<Vec<u8>, ModelFault>
    ensures ok { IfOk result (λ canonical. IsPrinted bytes.now canonical.items) }
    ensures fault { IfErr result (λ fault. Tells fault bytes.now) }
{
    let mut printing = Printing::new(alloc)?;
    let lines = read_each(alloc, bytes, &mut printing)?;
    printing.checking.end(lines)?;
    Ok(printing.canonical.into_bytes()?)
}
