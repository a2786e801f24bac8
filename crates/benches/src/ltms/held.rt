//! Random literals that are assumed for a while, over random clauses.
#![tactic(auto)]

use super::setting;
use super::tally::{Tally, label_of};
use crate::literals::{literal, random_literal};
use crate::numbers::Numbers;
use lv_base::Lit;
use lv_ltms::{Label, Ltms};
use std::alloc::{AllocError, Global};
use std::collections::VecDeque;

/// How often a literal is drawn until it can be assumed.
const DRAWS: u32 = 16;

/// The seed of the clauses.
const CLAUSE_SEED: u64 = 1;

/// The seed of the literals that a round assumes.
const ROUND_SEED: u64 = 2;

/// The booleans, the clauses of three literals, the literals held at most, and the calls of a round.
#[derive(Clone, Copy, Debug)]
pub struct Sizes {
    pub bools: u32,
    pub clauses: u32,
    pub held: u32,
    pub calls: u32,
}

/// A system of random clauses, and the literals held: those that are assumed, the oldest first.
#[derive(Drop)]
pub struct Held {
    ltms: Ltms,
    numbers: Numbers,
    lits: VecDeque<Lit>,
    most: u32,
    /// The label of each boolean when the system was last consistent, if changes are counted.
    noted: Option<Vec<Label>>,
}

impl Held {
    /// The system of these sizes, with no literal held. Changed labels aren't counted.
    pub fn new(alloc: Global, sizes: Sizes) -> Result<Held, AllocError> {
        let mut numbers = Numbers::new(CLAUSE_SEED);
        let ltms = setting::random(alloc, sizes.bools, sizes.clauses, &mut numbers)?;
        Ok(Held {
            ltms,
            numbers,
            lits: VecDeque::new(alloc),
            most: sizes.held,
            noted: None,
        })
    }

    /// Counts changed labels from now on. What a contradiction changed counts with the call that ends it.
    pub fn note_labels(&mut self, alloc: Global) -> Result<(), AllocError> {
        let mut noted = vec![in alloc; Label::Unknown; self.ltms.bools() as usize]?;
        changed_labels(&self.ltms, &mut noted);
        self.noted = Some(noted);
        Ok(())
    }

    /// So many calls, and then the retraction of all that are held. Each round draws the same literals.
    pub fn round(&mut self, calls: u32, tally: &mut Tally) -> Result<(), AllocError> {
        self.numbers = Numbers::new(ROUND_SEED);
        for _call in 0..calls {
            if self.lits.len() < self.most as usize {
                self.assume_random(tally)?;
            } else {
                self.retract_oldest(tally);
            }
        }
        for _lit in 0..self.most {
            self.retract_oldest(tally);
        }
        Ok(())
    }

    /// Assumes a random literal that can be assumed, if one is drawn.
    fn assume_random(&mut self, tally: &mut Tally) -> Result<(), AllocError> {
        if let Some(lit) = self.free_literal() {
            self.lits.push_back(lit)?;
            tally.assume(&mut self.ltms, lit);
            self.count_changed(tally);
        }
        Ok(())
    }

    /// Retracts the literal that was assumed first, if one is held.
    fn retract_oldest(&mut self, tally: &mut Tally) {
        if let Some(lit) = self.lits.pop_front() {
            tally.retract(&mut self.ltms, lit);
            self.count_changed(tally);
        }
    }

    fn count_changed(&mut self, tally: &mut Tally) {
        if let Some(noted) = &mut self.noted {
            tally.change(changed_labels(&self.ltms, noted));
        }
    }

    /// A random literal that can be assumed; None where none was drawn.
    fn free_literal(&mut self) -> Option<Lit> {
        for _draw in 0..DRAWS {
            let lit = random_literal(self.ltms.bools(), &mut self.numbers);
            if self.ltms.can_assume(lit) {
                return Some(lit);
            }
        }
        None
    }
}

/// Notes the labels of all booleans, and answers how many are others than before; none while the system is
/// contradictory.
fn changed_labels(ltms: &Ltms, noted: &mut Vec<Label>) -> u64 {
    let mut changed: u64 = 0;
    for var in 0..ltms.bools() {
        if let Some(label) = label_of(ltms, literal(var, true))
            && let Some(before) = noted.get_mut(var as usize)
            && *before != label
        {
            *before = label;
            changed = changed.wrapping_add(1);
        }
    }
    changed
}
