//! What the solver answers, and what it keeps of an answer.
#![tactic(auto)]

ghost use Rattle.std.specs.Prelude.{◌≡◌, IfOk};
ghost use Rattle.lv_sat.specs.declared.answer.Answer.TheVariants.{Unsat};

use super::copying::copy_log;
use lv_base::{Lit, Seq};
use lv_clauses::Log;
use std::alloc::{AllocError, Global};

/// Values that satisfy clauses and assumptions, or a refutation of the two.
#[derive(Drop)]
pub enum Answer {
    /// A value for each boolean, and what was learned on the way.
    Sat { values: Seq<bool>, log: Log },
    /// Assumptions that can't all be true, and the log that ends in the clause of their negations.
    Unsat { core: Seq<Lit>, log: Log },
}

/// Assumptions that can't all be true, and the log that ends in the clause of their negations, kept for later questions.
#[derive(Drop)]
pub struct Refutation {
    pub core: Seq<Lit>,
    pub log: Log,
}

impl Refutation {
    /// A refutation of copies.
    pub fn copy_of(alloc: Global, core: &[Lit], log: &Log) -> Result<Refutation, AllocError>
        ensures { IfOk result (λ kept. kept ≡ record { core = core.now; log = log.now }) }
    {
        Ok(Refutation {
            core: Seq::from_slice(alloc, core)?,
            log: copy_log(alloc, log)?,
        })
    }

    /// The answer of copies.
    pub fn answer(&self, alloc: Global) -> Result<Answer, AllocError>
        ensures { IfOk result (λ answer. answer ≡ Unsat self.now.core self.now.log) }
    {
        Ok(Answer::Unsat {
            core: Seq::from_slice(alloc, self.core.as_slice())?,
            log: copy_log(alloc, &self.log)?,
        })
    }
}
