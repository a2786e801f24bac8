//! The clauses that hints name.
#![tactic(auto)]

ghost use Rattle.std.specs.Prelude.{◌≡◌, option_map};
ghost use Rattle.lv_clauses.specs.Following.{clause_of};

use lv_base::Lit;
use lv_clauses::{ClauseSet, Hint, Log};

/// Clauses given, and those that the steps of a log derive from them.
#[derive(Clone, Copy)]
pub struct Reasons<'a> {
    pub set: &'a ClauseSet,
    pub log: &'a Log,
}

impl<'a> Reasons<'a> {
    /// The clause that a hint names; None exactly where it names none.
    pub fn find(self, hint: Hint) -> Option<&'a [Lit]>
        ensures { option_map (λ lits. lits.now) result ≡ clause_of self.entry.set.now.slots self.entry.log.now hint }
    {
        match hint {
            Hint::Given(id) => self.set.find(id),
            Hint::Earlier(place) => {
                if place < self.log.len() {
                    Some(self.log.step(place).clause.as_slice())
                } else {
                    None
                }
            }
        }
    }
}
