//! A chain of implications, in which each boolean implies the next, and a log of implications over more of it. Each step
//! follows by one to ten hints: the clauses and earlier steps that it passes over, from its end back to its start.
#![tactic(auto)]

ghost use Rattle.std.specs.Prelude.{◌≡◌, ◌+◌, ◌<◌, ◌^◌, ◌∷◌, [], true, false};

use lv_base::{BoolId, ClauseId, Lit};
use lv_clauses::{ClauseSet, Hint, Log, is_clause};
use std::alloc::{AllocError, Global};

/// Hints of a step at most.
const HINTS: u32 = 10;

/// A hint names an earlier step only if that passes over at most so many clauses of the chain. Otherwise steps would soon
/// pass over all of it.
const LONGEST: u32 = 50;

/// The clauses of a chain, and the log over it. The clause and the step of a place, counted from 0, both end in the
/// boolean after it.
#[derive(Drop)]
pub struct Chain {
    pub set: ClauseSet,
    pub log: Log,
    ids: Vec<ClauseId>,
    starts: Vec<u32>,
}

/// A hint, and the boolean that its implication starts at.
#[derive(Clone, Copy)]
struct Link {
    hint: Hint,
    start: u32,
}

impl Chain {
    /// The chain of so many clauses, with as many steps.
    pub fn new(alloc: Global, steps: u32) -> Result<Chain, AllocError> {
        let mut chain = Chain {
            set: ClauseSet::new(alloc, steps.saturating_add(1))?,
            log: Log::new(alloc)?,
            ids: Vec::new(alloc),
            starts: Vec::new(alloc),
        };
        for place in 0..steps {
            chain.push_clause(place)?;
        }
        for place in 0..steps {
            chain.push_step(alloc, place)?;
        }
        Ok(chain)
    }

    /// Adds the clause of a place: the boolean there implies the next.
    fn push_clause(&mut self, place: u32) -> Result<(), AllocError>
        requires { place + 1 < 2 ^ 32 }
    {
        let lits = implication(place, place + 1);
        if is_clause(self.set.bools(), &lits) {
            self.ids.push(self.set.add(&lits)?)?;
        }
        Ok(())
    }

    /// Adds the step of a place, which goes back from the boolean after it by as many hints as the place says.
    fn push_step(&mut self, alloc: Global, place: u32) -> Result<(), AllocError>
        requires { place + 1 < 2 ^ 32 }
    {
        let mut start = place + 1;
        let mut hints = Vec::new(alloc);
        for _hint in 0..=place % HINTS {
            if let Some(link) = self.link_to(start) {
                hints.push(link.hint)?;
                start = link.start;
            }
        }
        self.log
            .push(&implication(start, place + 1), hints.as_slice())?;
        self.starts.push(start)?;
        Ok(())
    }

    /// What implies a boolean: an earlier step that isn't too long, or else a clause. None where the chain begins.
    fn link_to(&self, end: u32) -> Option<Link> {
        let place = end.checked_sub(1)?;
        match self.starts.get(place as usize) {
            Some(start) if end.saturating_sub(*start) <= LONGEST => Some(Link {
                hint: Hint::Earlier(place as usize),
                start: *start,
            }),
            _ => {
                let id = self.ids.get(place as usize)?;
                Some(Link {
                    hint: Hint::Given(*id),
                    start: place,
                })
            }
        }
    }
}

/// The literals of a clause by which one boolean implies another.
fn implication(start: u32, end: u32) -> [Lit; 2]
    ensures { result ≡ record { var = record { 0 = start }; sign = false } ∷ record { var = record { 0 = end }; sign = true } ∷ [] }
{
    [
        Lit {
            var: BoolId(start),
            sign: false,
        },
        Lit {
            var: BoolId(end),
            sign: true,
        },
    ]
}
