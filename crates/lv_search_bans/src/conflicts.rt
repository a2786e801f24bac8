//! Conflicts with the bans that they come to.
#![tactic(auto)]

ghost use Rattle.std.specs.Prelude.{◌≡◌, ◌++◌, ◌∷◌, [], IfOk, OnOk};
ghost use Rattle.lv_search_bans.specs.Bans.{AreBans};

use super::bans::{Ban, bans_of};
use super::order::{places_of, short_first};
use lv_base::Conflict;
use std::alloc::{AllocError, Global};
use std::marker::Model;

/// Conflicts, and the same as bans. Contracts see the list of the conflicts.
#[derive(Debug, Drop)]
pub struct Conflicts {
    all: Vec<Conflict>,
    bans: Vec<Ban>,
    /// Of each slot the places of the bans that have it, for a search.
    places: Vec<Vec<usize>>,
}

impl Model for Conflicts {
    ghost use Rattle.std.specs.Prelude.{List};
    ghost use Rattle.lv_base.specs.declared.search.Pair.{Pair};
    ghost use Rattle.lv_search_bans.specs.Bans.{AreBans};

    ghost Value = { List (List Pair) };

    ghost view = { λ c. c.all.items };

    ghost invariant = { λ c. AreBans c.all.items c.bans.items };
}

impl Conflicts {
    /// These conflicts.
    pub fn new(alloc: Global, all: Vec<Conflict>) -> Result<Conflicts, AllocError>
        ensures { IfOk result (λ conflicts. conflicts ≡ all.items) }
    {
        let bans = bans_of(alloc, all.as_slice())?;
        Ok(Conflicts {
            all,
            bans,
            places: Vec::new(alloc),
        })
    }

    /// These conflicts, with the bans in the order in which a search of a box of so many slots goes through them.
    pub fn for_search(
        alloc: Global,
        all: Vec<Conflict>,
        slots: usize,
    ) -> Result<Conflicts, AllocError>
        ensures { IfOk result (λ conflicts. conflicts ≡ all.items) }
    {
        let drawn = bans_of(alloc, all.as_slice())?;
        let bans = short_first(alloc, drawn.as_slice(), slots)?;
        let places = places_of(alloc, bans.as_slice(), slots)?;
        Ok(Conflicts { all, bans, places })
    }

    /// One conflict more.
    pub fn push(&mut self, alloc: Global, conflict: Conflict) -> Result<(), AllocError>
        ensures { OnOk result (self.new ≡ self.old ++ conflict ∷ []) }
    {
        let ban = Ban::from_pairs(alloc, conflict.pairs())?;
        self.all.push(conflict)?;
        self.bans.push(ban)?;
        Ok(())
    }

    pub fn as_slice(&self) -> &[Conflict]
        ensures { result.now ≡ self.now }
    {
        self.all.as_slice()
    }

    /// Bans that rule out what some conflict does.
    pub fn bans(&self) -> &[Ban]
        ensures { AreBans self.now result.now }
    {
        self.bans.as_slice()
    }

    /// The places of the bans that have this slot, as far as a search goes by them.
    pub(crate) fn places_at(&self, slot: u32) -> &[usize] {
        match self.places.get(slot as usize) {
            Some(places) => places.as_slice(),
            None => &[],
        }
    }
}
