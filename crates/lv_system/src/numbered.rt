//! Clauses put into a set, with the number that each gets.
#![tactic(auto)]

ghost use Rattle.std.specs.Prelude.{◌≡◌, IfOk, All};
ghost use Rattle.lv_system.specs.Numbering.{AreNumbered, IsOver};

use lv_base::{ClauseId, Lit, Seq};
use lv_clauses::ClauseSet;
use std::alloc::{AllocError, Global};

/// A set and the numbers of its clauses, in the order in which these were given.
#[derive(Drop)]
pub struct Numbered {
    pub set: ClauseSet,
    pub ids: Vec<ClauseId>,
}

/// The set of these clauses over so many booleans.
pub fn number_all(alloc: Global, bools: u32, clauses: &[Seq<Lit>]) -> Result<Numbered, AllocError>
    requires { All (IsOver bools) clauses.now }
    ensures bools { IfOk result (λ n. n.set.bools ≡ bools) }
    ensures numbered { IfOk result (λ n. AreNumbered clauses.now n.set.slots n.ids.items) }
{
    let mut set = ClauseSet::new(alloc, bools)?;
    let mut ids = Vec::new(alloc);
    for clause in clauses {
        ids.push(set.add(clause.as_slice())?)?;
    }
    Ok(Numbered { set, ids })
}
