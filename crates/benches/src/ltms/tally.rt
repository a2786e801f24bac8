//! What became of the calls.
#![tactic(auto)]

use lv_base::Lit;
use lv_ltms::{Label, Ltms, Status};
use std::fmt::{self, Formatter, Write};

/// How many calls were made, and what they came to.
#[derive(Debug, Drop)]
pub struct Tally {
    assumed: u64,
    retracted: u64,
    /// The calls after which the system was contradictory.
    contradictory: u64,
    /// Labels that were another after a call than before; None where they weren't counted.
    changed: Option<u64>,
}

impl Tally {
    pub fn new() -> Tally {
        Tally {
            assumed: 0,
            retracted: 0,
            contradictory: 0,
            changed: None,
        }
    }

    /// Assumes a literal, if it can be.
    pub fn assume(&mut self, ltms: &mut Ltms, lit: Lit) {
        if ltms.can_assume(lit) {
            ltms.assume(lit);
            self.assumed = self.assumed.wrapping_add(1);
            self.see(ltms);
        }
    }

    /// Retracts a literal, if it is assumed.
    pub fn retract(&mut self, ltms: &mut Ltms, lit: Lit) {
        if ltms.is_assumed(lit) {
            ltms.retract(lit);
            self.retracted = self.retracted.wrapping_add(1);
            self.see(ltms);
        }
    }

    fn see(&mut self, ltms: &Ltms) {
        if ltms.status() == Status::Contradiction {
            self.contradictory = self.contradictory.wrapping_add(1);
        }
    }

    /// Counts labels that changed.
    pub fn change(&mut self, labels: u64) {
        self.changed = Some(self.changed.unwrap_or(0).wrapping_add(labels));
    }
}

impl fmt::Display for Tally {
    fn fmt<W: Write>(&self, f: &mut Formatter<W>) -> fmt::Result {
        write!(
            f,
            "{} assumed, {} retracted, contradictory after {}",
            self.assumed, self.retracted, self.contradictory
        )?;
        match self.changed {
            Some(changed) => write!(f, ", {changed} labels changed"),
            None => Ok(()),
        }
    }
}

/// The label of a literal; None while the system is contradictory.
pub fn label_of(ltms: &Ltms, lit: Lit) -> Option<Label> {
    match ltms.status() {
        Status::Consistent => Some(ltms.label(lit)),
        Status::Contradiction => None,
    }
}
