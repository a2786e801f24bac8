//! What became of the calls. The log of each refutation is checked too, where that is asked for.
#![tactic(auto)]

use lv_base::Lit;
use lv_clauses::{Log, is_clause};
use lv_refcheck::check;
use lv_sat::{Answer, Effort, Solver};
use std::alloc::{AllocError, Global};
use std::fmt::{self, Formatter, Write};

/// Whether the logs are checked.
#[derive(Clone, Copy, Debug, PartialEq, Eq)]
pub enum Checks {
    None,
    All,
}

/// How many calls were made, and what they came to.
#[derive(Drop)]
pub struct Tally {
    alloc: Global,
    checks: Checks,
    calls: u64,
    satisfiable: u64,
    /// The literals of all cores, and the steps and hints of all logs.
    core: u64,
    steps: u64,
    hints: u64,
    /// The logs that the checker read, and those of them in which a step doesn't follow.
    checked: u64,
    bad: u64,
    effort: Effort,
}

impl Tally {
    pub fn new(alloc: Global, checks: Checks) -> Tally {
        Tally {
            alloc,
            checks,
            calls: 0,
            satisfiable: 0,
            core: 0,
            steps: 0,
            hints: 0,
            checked: 0,
            bad: 0,
            effort: Effort::new(),
        }
    }

    /// Solves with assumptions, if they are of distinct booleans in range.
    pub fn solve(&mut self, solver: &mut Solver, assumptions: &[Lit]) -> Result<(), AllocError> {
        if is_clause(solver.clauses().bools(), assumptions) {
            self.calls = self.calls.wrapping_add(1);
            let answer = solver.solve(assumptions)?;
            self.note(solver, &answer)?;
        }
        Ok(())
    }

    fn note(&mut self, solver: &Solver, answer: &Answer) -> Result<(), AllocError> {
        match answer {
            Answer::Sat { .. } => {
                self.satisfiable = self.satisfiable.wrapping_add(1);
                Ok(())
            }
            Answer::Unsat { core, log } => {
                self.core = self.core.wrapping_add(core.len() as u64);
                self.note_log(log);
                self.check_log(solver, log)
            }
        }
    }

    /// Checks a log, where that is asked for.
    fn check_log(&mut self, solver: &Solver, log: &Log) -> Result<(), AllocError> {
        if self.checks == Checks::All {
            self.checked = self.checked.wrapping_add(1);
            if check(self.alloc, solver.clauses(), log)?.is_some() {
                self.bad = self.bad.wrapping_add(1);
            }
        }
        Ok(())
    }

    /// Notes what a solver did in all its calls.
    pub fn end(&mut self, solver: &Solver) {
        self.effort = self.effort.and(solver.effort());
    }

    fn note_log(&mut self, log: &Log) {
        self.steps = self.steps.wrapping_add(log.len() as u64);
        for place in 0..log.len() {
            let hints = log.step(place).hints.len() as u64;
            self.hints = self.hints.wrapping_add(hints);
        }
    }
}

impl fmt::Display for Tally {
    fn fmt<W: Write>(&self, f: &mut Formatter<W>) -> fmt::Result {
        write!(
            f,
            "{} calls, {} satisfiable, cores of {}, logs of {} steps and {} hints, {} literals chosen, {} forced, {} conflicts, {} logs checked, {} bad",
            self.calls,
            self.satisfiable,
            self.core,
            self.steps,
            self.hints,
            self.effort.chosen,
            self.effort.forced,
            self.effort.conflicts,
            self.checked,
            self.bad
        )
    }
}
