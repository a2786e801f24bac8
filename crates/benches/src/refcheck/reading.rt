//! What a check of a log reads, and the rounds of the check.
#![tactic(auto)]

use super::chain::Chain;
use lv_clauses::{ClauseSet, Hint, Log};
use lv_refcheck::check;
use std::alloc::{AllocError, Global};

/// What the hints of a log add up to.
#[derive(Debug, Drop)]
pub struct Reading {
    pub hints: u64,
    pub earlier: u64,
    pub literals: u64,
}

impl Reading {
    fn new() -> Reading {
        Reading {
            hints: 0,
            earlier: 0,
            literals: 0,
        }
    }

    /// Adds a hint, with the literals of the clause or step that it names.
    fn add(&mut self, set: &ClauseSet, log: &Log, hint: Hint) {
        self.hints = self.hints.wrapping_add(1);
        match hint {
            Hint::Given(id) => {
                if let Some(clause) = set.find(id) {
                    self.literals = self.literals.wrapping_add(clause.len() as u64);
                }
            }
            Hint::Earlier(place) => {
                self.earlier = self.earlier.wrapping_add(1);
                if place < log.len() {
                    let clause = &log.step(place).clause;
                    self.literals = self.literals.wrapping_add(clause.len() as u64);
                }
            }
        }
    }
}

/// What the hints of all steps add up to: where each step follows, all that they name is read once.
pub fn of_log(set: &ClauseSet, log: &Log) -> Reading {
    let mut reading = Reading::new();
    for place in 0..log.len() {
        for hint in log.step(place).hints.as_slice() {
            reading.add(set, log, *hint);
        }
    }
    reading
}

/// Checks the log so many times, and answers in how many of them there was no bad step.
pub fn good_rounds(alloc: Global, chain: &Chain, rounds: u32) -> Result<u32, AllocError> {
    let mut good: u32 = 0;
    for _round in 0..rounds {
        if check(alloc, &chain.set, &chain.log)?.is_none() {
            good = good.saturating_add(1);
        }
    }
    Ok(good)
}
