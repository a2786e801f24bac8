//! Values near the last ones. The assumptions that these make false are turned, and where a clause is false by that, one of
//! its literals, as far as a few looks go; where none is left, another one is turned of a clause before. What turned last
//! is looked at first, so that what it leads to is settled before anything beside it, and a wrong turn is seen where
//! it was taken. So a question that differs little from one that was answered costs what it touches.
//! What comes of it is judged: by the assumptions, and by all clauses that hold a literal that turned.
#![tactic(auto)]

ghost use Rattle.std.specs.Prelude.{IfOk, IfSome};
ghost use Rattle.lv_last_values.specs.Occurrences.{IsUpToDate};
ghost use Rattle.lv_last_values.specs.Values.{IsModel};

use super::last_values::{LastValues, first_in};
use super::occurrences::Occurrences;
use lv_base::{ClauseId, Lit, Seq};
use lv_clauses::{ClauseSet, all_hold, negation};
use std::alloc::{AllocError, Global};

/// So many looks are taken at the clauses of a literal that turned, and so many assumptions may turn.
const MOST_LOOKS: usize = 100;

/// So many times a literal that was turned is given up for another one.
const MOST_RETURNS: usize = 2;

/// Values that satisfy the clauses and make the assumptions true, where they are found near the last ones.
pub fn near_values(
    alloc: Global,
    set: &ClauseSet,
    last: &LastValues,
    assumptions: &[Lit],
) -> Result<Option<Seq<bool>>, AllocError>
    requires { IsUpToDate set.now last.now.values last.now.occurrences }
    ensures { IfOk result (λ found. IfSome found (IsModel set.now assumptions.now)) }
{
    let Some(turned) = turned_near(alloc, set, last, assumptions)? else {
        return Ok(None);
    };
    let guess = last.turn(alloc, set, turned.as_slice())?;
    if all_hold(guess.values.as_slice(), assumptions) && last.first_false(set, &guess).is_none() {
        Ok(Some(guess.values))
    } else {
        Ok(None)
    }
}

/// The literals to be made false, so that the assumptions are true and behind them all clauses, where these are few.
fn turned_near(
    alloc: Global,
    set: &ClauseSet,
    last: &LastValues,
    assumptions: &[Lit],
) -> Result<Option<Vec<Lit>>, AllocError> {
    let (Some(values), Some(occurrences)) = (&last.values, &last.occurrences) else {
        return Ok(None);
    };
    let mut turning = Turning {
        set,
        last: values.as_slice(),
        occurrences,
        values: Vec::from_slice(alloc, values.as_slice())?,
        marks: vec![in alloc; None; set.bools() as usize]?,
        marked: Vec::with_capacity(alloc, MOST_LOOKS)?,
        turned: Vec::with_capacity(alloc, MOST_LOOKS)?,
        at: None,
        choices: Vec::with_capacity(alloc, MOST_LOOKS)?,
    };
    if turning.assume(assumptions)? && turning.follow()? {
        let turned = turning.turned.iter().map(|turned| turned.lit);
        Ok(Some(turned.collect(alloc)?))
    } else {
        Ok(None)
    }
}

/// A literal that was true by the last values and is false, and the place of the one to look at behind it.
#[derive(Clone, Copy, Debug)]
struct Turned {
    lit: Lit,
    behind: Option<usize>,
}

/// A literal that was turned for a clause.
#[derive(Clone, Copy, Debug)]
struct Choice {
    clause: ClauseId,
    /// So many of the clause's literals were tried before it.
    tried: usize,
    /// The place that was looked at.
    at: Option<usize>,
    marked: usize,
    turned: usize,
}

/// What turns: the values so far, which of them are marked, and the literals that turned, in that order. The one at a place
/// is looked at next, and then those behind it; the clauses of all others are true.
#[derive(Drop)]
struct Turning<'a> {
    set: &'a ClauseSet,
    last: &'a [bool],
    occurrences: &'a Occurrences,
    values: Vec<bool>,
    marks: Vec<Option<bool>>,
    marked: Vec<Lit>,
    turned: Vec<Turned>,
    at: Option<usize>,
    choices: Vec<Choice>,
}

impl Turning<'_> {
    /// Marks the assumptions. Answers whether few of them turn.
    fn assume(&mut self, assumptions: &[Lit]) -> Result<bool, AllocError> {
        for lit in assumptions {
            if self.turned.len() >= MOST_LOOKS {
                return Ok(false);
            }
            self.take(*lit)?;
        }
        Ok(true)
    }

    /// Turns a literal of each clause that is false by what turned, where there is one that isn't marked, and else goes back.
    /// Answers whether all clauses are true then, with few looks.
    fn follow(&mut self) -> Result<bool, AllocError> {
        let mut returns: usize = 0;
        for _look in 0..MOST_LOOKS {
            let Some(turned) = self.next_turned() else {
                return Ok(true);
            };
            match first_in(
                self.set,
                self.occurrences,
                turned.lit,
                self.values.as_slice(),
            ) {
                None => self.at = turned.behind,
                Some(clause) => {
                    if !self.mend(clause, 0)? {
                        if returns >= MOST_RETURNS || !self.go_back()? {
                            return Ok(false);
                        }
                        returns = returns.saturating_add(1);
                    }
                }
            }
        }
        Ok(false)
    }

    /// The literal to look at next.
    fn next_turned(&self) -> Option<Turned> {
        self.turned.get(self.at?).copied()
    }

    /// Turns a literal of the clause that isn't marked, behind so many that were tried, if there is one.
    fn mend(&mut self, clause: ClauseId, tried: usize) -> Result<bool, AllocError> {
        let Some(lit) = open_lit(self.set, self.marks.as_slice(), clause, tried) else {
            return Ok(false);
        };
        self.choices.push(Choice {
            clause,
            tried,
            at: self.at,
            marked: self.marked.len(),
            turned: self.turned.len(),
        })?;
        self.marked.push(lit)?;
        self.take(lit)?;
        Ok(true)
    }

    /// Goes back to the last choice that has another literal, and turns that.
    fn go_back(&mut self) -> Result<bool, AllocError> {
        for _choice in 0..self.choices.len() {
            let Some(choice) = self.choices.pop() else {
                return Ok(false);
            };
            self.undo(choice);
            if self.mend(choice.clause, choice.tried.saturating_add(1))? {
                return Ok(true);
            }
        }
        Ok(false)
    }

    /// Takes a choice back, with all behind it.
    fn undo(&mut self, choice: Choice) {
        for _lit in choice.marked..self.marked.len() {
            let Some(lit) = self.marked.pop() else {
                break;
            };
            let index = lit.var.0 as usize;
            if let Some(mark) = self.marks.get_mut(index) {
                *mark = None;
            }
            if let (Some(value), Some(last)) = (self.values.get_mut(index), self.last.get(index)) {
                *value = *last;
            }
        }
        self.turned.truncate(choice.turned);
        self.at = choice.at;
    }

    /// Marks a literal, and has it true. Where it was false, it turns.
    fn take(&mut self, lit: Lit) -> Result<(), AllocError> {
        let index = lit.var.0 as usize;
        if let Some(mark) = self.marks.get_mut(index) {
            *mark = Some(lit.sign);
        }
        if let Some(value) = self.values.get_mut(index)
            && *value != lit.sign
        {
            *value = lit.sign;
            let place = self.turned.len();
            self.turned.push(Turned {
                lit: negation(lit),
                behind: self.at,
            })?;
            self.at = Some(place);
        }
        Ok(())
    }
}

/// The literal of a clause that isn't marked, behind so many of them.
pub fn open_lit(
    set: &ClauseSet,
    marks: &[Option<bool>],
    id: ClauseId,
    before: usize,
) -> Option<Lit> {
    let mut left = before;
    for lit in set.find(id)? {
        if matches!(marks.get(lit.var.0 as usize), Some(None)) {
            if left == 0 {
                return Some(*lit);
            }
            left -= 1;
        }
    }
    None
}
