//! Which boolean is chosen next, and with which sign. A question begins with the queue of those that conflicts touched last,
//! which costs next to nothing, and with the signs of the last values, since most questions are near the one before. Where
//! it turns out to be hard, the one with the highest score comes first, with the sign that it had last. It is a help and no
//! more: any free literal may be chosen.
#![tactic(auto)]

use super::queue::Queue;
use super::scores::Scores;
use lv_base::{BoolId, Lit};
use std::alloc::{AllocError, Global};

/// The booleans in both orders. The heap of scores is kept only while a question is hard.
#[derive(Drop)]
pub struct Order {
    queue: Queue,
    scores: Scores,
    is_hard: bool,
}

impl Order {
    /// All booleans by their numbers, to be chosen as false.
    pub fn new(alloc: Global, bools: u32) -> Result<Order, AllocError> {
        Ok(Order {
            queue: Queue::new(alloc, bools)?,
            scores: Scores::new(alloc, bools),
            is_hard: false,
        })
    }

    /// Has a new question begin.
    pub fn begin(&mut self) {
        if self.is_hard {
            self.is_hard = false;
            self.scores.clear();
        }
    }

    /// Goes by scores from now on.
    pub fn harden(&mut self) {
        if !self.is_hard {
            self.is_hard = true;
            self.scores.fill();
        }
    }

    /// The first boolean that isn't marked, with its sign; None where none is free. `last` has the last values, where
    /// there are any.
    pub fn next(&mut self, marks: &[Option<bool>], last: Option<&[bool]>) -> Option<Lit> {
        if !self.is_hard {
            let var = self.queue.next(marks)?;
            let sign = match last.and_then(|values| values.get(var.0 as usize)) {
                Some(value) => *value,
                None => self.queue.sign(var),
            };
            return Some(Lit { var, sign });
        }
        let var = match self.scores.next(marks) {
            Some(var) => var,
            None => self.queue.next(marks)?,
        };
        let sign = self.queue.sign(var);
        Some(Lit { var, sign })
    }

    /// Notes that a literal is no longer taken as true.
    pub fn put_back(&mut self, lit: Lit) {
        self.queue.put_back(lit);
        if self.is_hard {
            self.scores.put_back(lit.var);
        }
    }

    /// Notes that a conflict rests on the booleans of these literals.
    pub fn score_all(&mut self, lits: &[Lit]) {
        for lit in lits {
            self.scores.touch(lit.var);
        }
    }

    /// Notes the clause that a conflict taught, after which its scores count less.
    pub fn touch_all(&mut self, clause: &[Lit]) {
        for lit in clause {
            self.queue.touch(lit.var);
        }
        self.scores.age();
    }
}
