//! Splitting a zone. What a conflict leaves of a zone is no zone, but falls into zones: the members that lack the
//! conflict's first choice, those that have it and lack the second, and so on.
#![tactic(auto)]

ghost use Rattle.std.specs.Prelude.{◌≡◌, ◌≤◌, Bool, true, length, IfOk};
ghost use Rattle.lv_boxes.specs.Laws.{pairs_of};
ghost use Rattle.lv_boxes.specs.Parts.{parts_of, are_slots_of, IsSplit};

use super::zone::Zone;
use lv_base::{Conflict, Pair};
use std::alloc::{AllocError, Global};

/// The members of a zone that don't contain the conflict, as zones that share no member: one for each pair of the
/// conflict, in order. It has the choices of the pairs before it and everything but its own pair's choice at that
/// slot, so it may have no members. An empty conflict leaves no zone. Each zone is one allocation.
pub fn split(alloc: Global, zone: &Zone, conflict: &Conflict) -> Result<Vec<Zone>, AllocError>
    ensures parts { IfOk result (λ zones. zones.items ≡ parts_of zone.now conflict.now) }
    ensures split { IfOk result (λ zones. are_slots_of zone.now conflict.now ≡ true → IsSplit zone.now conflict.now zones.items) }
{
    let pairs = conflict.pairs();
    let mut zones = Vec::with_capacity(alloc, pairs.len())?;
    let mut rest = zone.copied(alloc)?;
    for pair in pairs {
        let mut part = rest.copied(alloc)?;
        part.exclude(*pair);
        zones.push(part)?;
        rest.fix(*pair);
    }
    Ok(zones)
}

/// All choices of a candidate as a conflict: the one that no other candidate with as many choices contains. Splitting
/// by it takes out that candidate alone. At most 4,096 choices.
pub fn choices_as_conflict(alloc: Global, choices: &[u32]) -> Result<Conflict, AllocError>
    requires { length choices.now ≤ 4096 }
    ensures { IfOk result (λ conflict. conflict ≡ pairs_of choices.now) }
{
    let mut pairs = Vec::with_capacity(alloc, choices.len())?;
    for (slot, choice) in choices.iter().enumerate() {
        pairs.push(Pair {
            slot: slot as u32,
            choice: *choice,
        })?;
    }
    Conflict::from_pairs(alloc, pairs.as_slice())
}
