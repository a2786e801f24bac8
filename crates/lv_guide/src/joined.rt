//! The slots that conflicts join, and their bans by the slots that they end at.
#![tactic(auto)]

ghost use Rattle.std.specs.Prelude.{ℕ, List, IfOk, IfSome};
ghost use Rattle.lv_base.specs.declared.search.Pair.{Pair};
ghost use Rattle.lv_search_parts.specs.Parts.{IsPartWith};
ghost use Rattle.lv_guide.specs.Beside.{AreJoined};

use lv_base::Pair;
use lv_search_bans::bans::Ban;
use lv_search_bans::conflicts::Conflicts;
use lv_search_parts::labels::{are_labels, join, labels_of, part_with};
use std::alloc::{AllocError, Global};
use std::marker::Model;

/// Which slots conflicts join, and where their bans end. Contracts see the labels.
#[derive(Drop)]
pub(crate) struct Joined {
    /// Of each slot a label, one for those that conflicts join.
    labels: Vec<usize>,
    /// Of each slot the places of the bans of which it is the last.
    ends: Vec<Vec<usize>>,
}

impl Model for Joined {
    ghost use Rattle.std.specs.Prelude.{List, ℕ};

    ghost Value = { List ℕ };

    ghost view = { λ joined. joined.labels.items };
}

impl Joined {
    /// The conflicts by so many slots; `None` where one speaks of a slot that there isn't.
    pub(crate) fn new(
        alloc: Global,
        conflicts: &Conflicts,
        slots: usize,
    ) -> Result<Option<Joined>, AllocError>
        ensures { IfOk result (λ found. IfSome found (λ labels. AreJoined conflicts.now slots labels)) }
    {
        match labels_of(alloc, conflicts.as_slice(), slots)? {
            Some(labels) => {
                let ends = ends_of(alloc, slots, conflicts.bans())?;
                Ok(Some(Joined { labels, ends }))
            }
            None => Ok(None),
        }
    }

    /// As `new`, where these are all conflicts but the last. `None` also where they aren't.
    pub(crate) fn with_last(
        self,
        conflicts: &Conflicts,
        slots: usize,
    ) -> Result<Option<Joined>, AllocError>
        ensures { IfOk result (λ found. IfSome found (λ labels. AreJoined conflicts.now slots labels)) }
    {
        let mut labels = self.labels;
        let mut ends = self.ends;
        if let Some(conflict) = conflicts.as_slice().last() {
            join(conflict.pairs(), &mut labels);
        }
        if let Some(ban) = conflicts.bans().last() {
            push_end(ban, conflicts.bans().len().saturating_sub(1), &mut ends)?;
        }
        if are_labels(conflicts.as_slice(), slots, &labels) {
            Ok(Some(Joined { labels, ends }))
        } else {
            Ok(None)
        }
    }

    /// The slots that conflicts join to those of these pairs; `None` where a pair speaks of a slot that there isn't.
    pub(crate) fn part_with(
        &self,
        alloc: Global,
        pairs: &[Pair],
    ) -> Result<Option<Vec<bool>>, AllocError>
        ensures { (conflicts : List (List Pair)) (slots : ℕ) → AreJoined conflicts slots self.now → IfOk result (λ part. IfSome part (λ marks. IsPartWith conflicts slots pairs.now marks.items)) }
    {
        part_with(alloc, self.labels.as_slice(), pairs)
    }

    /// The places of the bans of which the pair's slot is the last.
    pub(crate) fn ends_at(&self, pair: Pair) -> &[usize] {
        let slot = pair.slot as usize;
        if slot < self.ends.len() {
            self.ends[slot].as_slice()
        } else {
            &[]
        }
    }
}

/// Of so many slots the places of the bans of which each is the last.
fn ends_of(alloc: Global, slots: usize, bans: &[Ban]) -> Result<Vec<Vec<usize>>, AllocError> {
    let mut ends = Vec::new(alloc);
    for _slot in 0..slots {
        ends.push(Vec::new(alloc))?;
    }
    for (place, ban) in bans.iter().enumerate() {
        push_end(ban, place, &mut ends)?;
    }
    Ok(ends)
}

/// Adds the place of a ban to those of its last slot.
fn push_end(ban: &Ban, place: usize, ends: &mut [Vec<usize>]) -> Result<(), AllocError> {
    if let Some(set) = ban.sets().last() {
        let slot = set.slot as usize;
        if slot < ends.len() {
            ends[slot].push(place)?;
        }
    }
    Ok(())
}
