//! The steps of a log, in the order in which they were derived. A log is cut back to a mark where a search gives up
//! what it tried.
#![tactic(auto)]

ghost use Rattle.std.specs.Prelude.{◌≡◌, ◌+◌, ◌<◌, ◌≤◌, ◌==◌, [], ◌∷◌, ◌++◌, length, take, Some, slice_get, IfOk, OnOk, OnErr};

use lv_base::{ClauseId, Lit, Seq};
use std::alloc::{AllocError, Global};
use std::marker::Model;

/// Steps for which a new log has room.
const FIRST_ROOM: usize = 16;

/// What a step follows from: a clause that is present, or an earlier step, counted from 0.
#[derive(Clone, Copy, Debug, PartialEq, Eq)]
pub enum Hint {
    Given(ClauseId),
    Earlier(usize),
}

/// A clause and the hints by which it follows, in the order in which they are taken.
#[derive(Debug, Drop)]
pub struct Step {
    pub clause: Seq<Lit>,
    pub hints: Seq<Hint>,
}

/// The steps so far, seen by contracts as their list.
#[derive(Drop)]
pub struct Log {
    alloc: Global,
    steps: Vec<Step>,
}

impl Model for Log {
    ghost use Rattle.std.specs.Prelude.{List};
    ghost use Rattle.lv_clauses.specs.declared.log.Step.{Step};

    ghost Value = { List Step };

    ghost view = { λ l. l.steps.items };
}

impl Log {
    /// The log of no steps.
    pub fn new(alloc: Global) -> Result<Log, AllocError>
        ensures { IfOk result (λ log. log ≡ []) }
    {
        Ok(Log {
            alloc,
            steps: Vec::with_capacity(alloc, FIRST_ROOM)?,
        })
    }

    /// Adds a step at the end and answers its place. After want of memory the log is as it was. That the step follows
    /// isn't looked at here.
    pub fn push(&mut self, clause: &[Lit], hints: &[Hint]) -> Result<usize, AllocError>
        ensures place { IfOk result (λ place. place ≡ length self.old) }
        ensures added { OnOk result (self.new ≡ self.old ++ record { clause = clause.now; hints = hints.now } ∷ []) }
        ensures kept { OnErr result (self.new ≡ self.old) }
    {
        let place = self.steps.len();
        let step = Step {
            clause: Seq::from_slice(self.alloc, clause)?,
            hints: Seq::from_slice(self.alloc, hints)?,
        };
        self.steps.push(step)?;
        Ok(place)
    }

    /// A mark to which the log can be cut back: the number of steps so far.
    pub fn mark(&self) -> usize
        ensures { result ≡ length self.now }
    {
        self.steps.len()
    }

    /// Takes away all steps from the mark on. Takes no memory.
    pub fn cut(&mut self, mark: usize)
        requires { mark ≤ length self.old }
        ensures { self.new ≡ take mark self.old }
    {
        self.steps.truncate(mark);
    }

    pub fn len(&self) -> usize
        ensures { result ≡ length self.now }
    {
        self.steps.len()
    }

    pub fn is_empty(&self) -> bool
        ensures { result ≡ (length self.now == 0) }
    {
        self.steps.is_empty()
    }

    /// The step at a place, counted from 0.
    pub fn step(&self, place: usize) -> &Step
        requires { place < length self.now }
        ensures { slice_get self.now place ≡ Some result.now }
    {
        &self.steps[place]
    }
}
