//! The arena: the clauses present, each with its number.
#![tactic(auto)]

ghost use Rattle.std.specs.Prelude.{◌≡◌, ℕ, ◌<◌, [], length, false, IfOk, OnOk, OnErr, IsSome, Some, None, option_map, slice_index_or, slice_set};
ghost use Rattle.lv_clauses.specs.ClauseMap.{clause_at};
ghost use Rattle.lv_ltms.specs.Watching.{Fits};
ghost use Rattle.lv_ltms.specs.Standing.{PutsSlot, TellsEmpty, has_no_lits};
ghost use Rattle.lv_ltms.specs.Pairs.{has_two};

use super::watchers::Watchers;
use lv_base::{ClauseId, Lit};
use lv_clauses::Clause;
use slab::Slab;
use std::alloc::{AllocError, Global};
use std::marker::Model;

/// Clauses for which a new arena has room.
const FIRST_ROOM: usize = 16;

/// The clauses present, and for each number whether its clause has two literals: where it has, those that it watches
/// are all of it, and the clause itself needs no look.
#[derive(Drop)]
pub struct Arena {
    alloc: Global,
    clauses: Slab<Clause>,
    pairs: Vec<bool>,
}

impl Model for Arena {
    ghost use Rattle.lv_clauses.specs.ClauseMap.{Slots};
    ghost use Rattle.lv_ltms.specs.Pairs.{AreNoted};

    ghost Value = { Slots };

    ghost view = { λ s. s.clauses.slots };

    ghost invariant = { λ s. AreNoted s.pairs.items s.clauses.slots };
}

impl Arena {
    /// The arena of no clauses.
    pub fn new(alloc: Global) -> Result<Arena, AllocError>
        ensures { IfOk result (λ a. a ≡ []) }
    {
        Ok(Arena {
            alloc,
            clauses: Slab::with_capacity(alloc, FIRST_ROOM)?,
            pairs: Vec::new(alloc),
        })
    }

    /// Adds a clause, with a place for its watch on each side. After want of memory all is as it was.
    pub fn add(
        &mut self,
        lits: &[Lit],
        near: &mut Watchers,
        far: &mut Watchers,
    ) -> Result<ClauseId, AllocError>
        ensures vacant { IfOk result (λ id. clause_at self.old id.0 ≡ None) }
        ensures added { IfOk result (λ id. PutsSlot self.old self.new id.0 (Some lits.now)) }
        ensures kept { OnErr result (self.new ≡ self.old) }
        ensures near_room { IfOk result (λ id. id.0 < length near.new.watches) }
        ensures far_room { IfOk result (λ id. id.0 < length far.new.watches) }
        ensures near { Fits near.old near.new }
        ensures far { Fits far.old far.new }
    {
        let clause = Clause::from_slice(self.alloc, lits)?;
        self.clauses.reserve(1)?;
        let id = ClauseId(self.clauses.vacant_key());
        near.fit(id)?;
        far.fit(id)?;
        fit(&mut self.pairs, id.0)?;
        self.clauses.insert_reserved(clause);
        note(&mut self.pairs, id.0, lits.len() == 2);
        Ok(id)
    }

    /// Takes away a clause that is present. Takes no memory.
    pub fn remove(&mut self, id: ClauseId)
        requires { IsSome (clause_at self.old id.0) }
        ensures { PutsSlot self.old self.new id.0 None }
    {
        self.clauses.remove(id.0);
        note(&mut self.pairs, id.0, false);
    }

    /// The literals of the clause of a number, None exactly where none is present.
    pub fn find(&self, id: ClauseId) -> Option<&[Lit]>
        ensures { option_map (λ lits. lits.now) result ≡ clause_at self.now id.0 }
    {
        match self.clauses.get(id.0) {
            Some(clause) => Some(clause.lits()),
            None => None,
        }
    }

    /// The literals of a clause that is present.
    pub fn get(&self, id: ClauseId) -> &[Lit]
        requires { IsSome (clause_at self.now id.0) }
        ensures { clause_at self.now id.0 ≡ Some result.now }
    {
        self.clauses[id.0].lits()
    }

    /// Whether a clause of this number is present that has two literals.
    pub fn is_pair(&self, id: ClauseId) -> bool
        ensures { result ≡ has_two (clause_at self.now id.0) }
    {
        match self.pairs.get(id.0) {
            Some(pair) => *pair,
            None => false,
        }
    }

    /// Whether a clause of this number is present that has no literal.
    pub fn is_blank(&self, id: ClauseId) -> bool
        ensures { result ≡ has_no_lits (clause_at self.now id.0) }
    {
        match self.find(id) {
            Some(lits) => lits.len() == 0,
            None => false,
        }
    }

    /// A clause of no literals, None exactly where there is none.
    pub fn first_blank(&self) -> Option<ClauseId>
        ensures { TellsEmpty self.now result }
    {
        let mut bound = self.clauses.capacity();
        while bound > 0 {
            bound -= 1;
            if self.is_blank(ClauseId(bound)) {
                return Some(ClauseId(bound));
            }
        }
        None
    }
}

/// Has a place for this number. What is noted stays as it was.
fn fit(pairs: &mut Vec<bool>, number: usize) -> Result<(), AllocError>
    ensures room { OnOk result (number < length pairs.new.items) }
    ensures same { (i : ℕ) → slice_index_or pairs.new.items i false ≡ slice_index_or pairs.old.items i false }
{
    while pairs.len() <= number {
        pairs.push(false)?;
    }
    Ok(())
}

/// Notes whether the clause of a number has two literals, if the number has a place.
fn note(pairs: &mut Vec<bool>, number: usize, pair: bool)
    ensures { pairs.new.items ≡ slice_set pairs.old.items number pair }
{
    if number < pairs.len() {
        pairs[number] = pair;
    }
}
