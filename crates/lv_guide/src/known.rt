//! The conflicts that a search knows of, with the slots that they join, and what was found of parts by them.
#![tactic(auto)]

ghost use Rattle.std.specs.Prelude.{◌≡◌, ◌<◌, ◌^◌, ◌++◌, ◌∷◌, [], length, IfOk, IfSome, OnOk};
ghost use Rattle.lv_search_parts.specs.Parts.{inner_of, IsPartWith};
ghost use Rattle.lv_guide.specs.Beside.{AreJoined};
ghost use Rattle.lv_search_guide.specs.Lowest.{LowestTells};

use super::joined::Joined;
use super::remembered::{Part, Remembered, first_of};
use lv_base::{Conflict, Pair};
use lv_search_bans::conflicts::Conflicts;
use lv_search_guide::look::Member;
use std::alloc::{AllocError, Global};
use std::marker::Model;
use std::mem;

/// The known conflicts over the choices of so many slots. Contracts see the list of them.
#[derive(Drop)]
pub struct Known {
    alloc: Global,
    conflicts: Conflicts,
    slots: usize,
    /// The slots that they join, where each speaks of slots that there are.
    joined: Option<Joined>,
    /// What was found of parts.
    remembered: Remembered,
}

impl Model for Known {
    ghost use Rattle.std.specs.Prelude.{List, IfSome};
    ghost use Rattle.lv_base.specs.declared.search.Pair.{Pair};
    ghost use Rattle.lv_guide.specs.Beside.{AreJoined};
    ghost use Rattle.lv_guide.specs.Remembered.{AreTrueBy};

    ghost Value = { List (List Pair) };

    ghost view = { λ known. known.conflicts };

    ghost invariant = { λ known. IfSome known.joined (λ labels. AreJoined known.conflicts known.slots labels) × AreTrueBy known.conflicts known.remembered };
}

impl Known {
    /// These conflicts, over so many slots.
    pub fn new(alloc: Global, slots: usize, conflicts: Vec<Conflict>) -> Result<Known, AllocError>
        ensures { IfOk result (λ known. known ≡ conflicts.items) }
    {
        let conflicts = Conflicts::new(alloc, conflicts)?;
        let joined = Joined::new(alloc, &conflicts, slots)?;
        Ok(Known {
            alloc,
            conflicts,
            slots,
            joined,
            remembered: Remembered::new(alloc),
        })
    }

    /// One conflict more.
    pub fn push(&mut self, conflict: Conflict) -> Result<(), AllocError>
        ensures { OnOk result (self.new ≡ self.old ++ conflict ∷ []) }
    {
        let before = mem::replace(&mut self.joined, None);
        let remembered = mem::replace(&mut self.remembered, Remembered::new(self.alloc));
        self.conflicts.push(self.alloc, conflict)?;
        self.remembered = remembered;
        if let Some(joined) = before {
            self.joined = joined.with_last(&self.conflicts, self.slots)?;
        }
        Ok(())
    }

    /// The first member of a part of a box, by those inside the part.
    pub(crate) fn first_of(
        &mut self,
        alloc: Global,
        part: Part,
    ) -> Result<Option<Member>, AllocError>
        requires { length part.marks < 2 ^ 32 }
        ensures known { self.new ≡ self.old }
        ensures first { IfOk result (λ first. LowestTells part.grid (inner_of part.marks self.old) part.masks first) }
    {
        first_of(alloc, self.conflicts.as_slice(), &mut self.remembered, part)
    }

    pub fn as_slice(&self) -> &[Conflict]
        ensures { result.now ≡ self.now }
    {
        self.conflicts.as_slice()
    }

    pub(crate) fn conflicts(&self) -> &Conflicts
        ensures { result.now ≡ self.now }
    {
        &self.conflicts
    }

    /// The places of the bans that end at the pair's slot, as far as they are known.
    pub(crate) fn ends_at(&self, pair: Option<Pair>) -> &[usize] {
        match (pair, self.joined.as_ref()) {
            (Some(pair), Some(joined)) => joined.ends_at(pair),
            _ => &[],
        }
    }

    /// What they join of so many slots, if it is known.
    fn joined(&self, slots: usize) -> Option<&Joined>
        ensures { IfSome result (λ joined. AreJoined self.now slots joined.now) }
    {
        if slots == self.slots {
            self.joined.as_ref()
        } else {
            None
        }
    }

    /// Of so many slots those that they join to these pairs', and no others; `None` where that isn't known.
    pub(crate) fn part_with(
        &self,
        alloc: Global,
        slots: usize,
        pairs: &[Pair],
    ) -> Result<Option<Vec<bool>>, AllocError>
        ensures { IfOk result (λ part. IfSome part (λ marks. IsPartWith self.now slots pairs.now marks.items)) }
    {
        match self.joined(slots) {
            Some(joined) => joined.part_with(alloc, pairs),
            None => Ok(None),
        }
    }
}
