//! What a solver did, in counts that no clause speaks of: for measuring.
#![tactic(auto)]

use lv_trail::Entry;

/// Questions asked, literals taken as true because they were assumed or chosen, those that were forced, and clauses found
/// false.
#[derive(Clone, Copy, Debug, PartialEq, Eq)]
pub struct Effort {
    pub calls: u64,
    pub chosen: u64,
    pub forced: u64,
    pub conflicts: u64,
}

impl Effort {
    pub fn new() -> Effort {
        Effort {
            calls: 0,
            chosen: 0,
            forced: 0,
            conflicts: 0,
        }
    }

    /// The sums of both.
    pub fn and(self, more: Effort) -> Effort {
        Effort {
            calls: self.calls.wrapping_add(more.calls),
            chosen: self.chosen.wrapping_add(more.chosen),
            forced: self.forced.wrapping_add(more.forced),
            conflicts: self.conflicts.wrapping_add(more.conflicts),
        }
    }

    /// With these entries of a trail.
    pub fn with(self, entries: &[Entry]) -> Effort {
        let forced = entries
            .iter()
            .filter(|entry| entry.reason.is_some())
            .count() as u64;
        Effort {
            chosen: self
                .chosen
                .wrapping_add((entries.len() as u64).wrapping_sub(forced)),
            forced: self.forced.wrapping_add(forced),
            ..self
        }
    }

    /// With one conflict more.
    pub fn with_conflict(self) -> Effort {
        Effort {
            conflicts: self.conflicts.wrapping_add(1),
            ..self
        }
    }

    /// With one question more.
    pub fn with_call(self) -> Effort {
        Effort {
            calls: self.calls.wrapping_add(1),
            ..self
        }
    }
}
