//! What the diagnoses of a session did.
#![tactic(auto)]

use lv_base::{Pair, Seq};
use lv_ident::QueryEffort;
use lv_model::Model;
use lv_reply::Reply;
use lv_session::{CompiledModel, Session};
use lv_text::lines::next_line;
use std::alloc::{AllocError, Global};
use std::fmt::{self, Formatter, Write};

/// The diagnoses whose conflicts are shown, and what they did all together.
#[derive(Clone, Copy, Debug, PartialEq, Eq)]
pub struct Tally {
    diagnoses: u64,
    trials: u64,
    conflicts: u64,
    /// The choices of all conflicts.
    choices: u64,
    /// How often the solver was asked, and how many clauses it learned.
    questions: u64,
    learned: u64,
}

impl Tally {
    fn none() -> Tally {
        Tally {
            diagnoses: 0,
            trials: 0,
            conflicts: 0,
            choices: 0,
            questions: 0,
            learned: 0,
        }
    }

    /// With a diagnosis that keeps these conflicts.
    fn with(self, conflicts: &[Seq<Pair>], effort: QueryEffort) -> Tally {
        Tally {
            diagnoses: self.diagnoses.wrapping_add(1),
            trials: self.trials.wrapping_add(effort.trials),
            conflicts: self.conflicts.wrapping_add(conflicts.len() as u64),
            choices: self.choices.wrapping_add(count_choices(conflicts)),
            questions: self.questions.wrapping_add(effort.solver.calls),
            learned: self.learned.wrapping_add(effort.solver.conflicts),
        }
    }
}

fn count_choices(conflicts: &[Seq<Pair>]) -> u64 {
    let mut count: u64 = 0;
    for conflict in conflicts {
        count = count.wrapping_add(conflict.len() as u64);
    }
    count
}

/// Runs a session over a model.
pub fn tally_of(alloc: Global, model: &Model, text: &[u8]) -> Result<Tally, AllocError> {
    let compiled = CompiledModel::new(alloc, model)?;
    tally_over(alloc, &compiled, text)
}

fn tally_over(
    alloc: Global,
    compiled: &CompiledModel<'_>,
    text: &[u8],
) -> Result<Tally, AllocError> {
    let mut session = Session::new(alloc, compiled)?;
    let mut tally = Tally::none();
    let mut rest = text;
    while let Some(line) = next_line(rest) {
        let reply = session.step(&rest[..line.length])?;
        if let Reply::Conflicts(conflicts, _) = &reply
            && let Some(effort) = session.effort()
        {
            tally = tally.with(conflicts.as_slice(), effort);
        }
        rest = &rest[line.whole..];
    }
    Ok(tally)
}

impl fmt::Display for Tally {
    fn fmt<W: Write>(&self, f: &mut Formatter<W>) -> fmt::Result {
        write!(
            f,
            "{} diagnoses, {} trials, {} conflicts of {} choices, {} questions, {} clauses learned",
            self.diagnoses, self.trials, self.conflicts, self.choices, self.questions, self.learned
        )
    }
}
