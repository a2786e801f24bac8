//! The clause arena. A clause keeps its number while it is present; the number of one that was removed is given again.
#![tactic(auto)]

ghost use Rattle.std.specs.Prelude.{◌≡◌, IfSome, Some, None, [], length, IsSome, IsTrue, IfOk, OnErr, option_map, is_some};
ghost use Rattle.lv_clauses.specs.Literals.{is_clause};
ghost use Rattle.lv_clauses.specs.ClauseMap.{clause_at, Puts, IsBound, satisfies, ids_of};

use super::clause::Clause;
use super::literals::clause_holds;
use lv_base::{ClauseId, Lit, Seq};
use slab::Slab;
use std::alloc::{AllocError, Global};
use std::marker::Model;

/// Clauses for which a new set has room.
const FIRST_ROOM: usize = 16;

/// The clauses present, each with its number, over booleans counted from 0. Each clause has its booleans below the
/// set's number of them and none twice.
#[derive(Drop)]
pub struct ClauseSet {
    alloc: Global,
    bools: u32,
    clauses: Slab<Clause>,
}

impl Model for ClauseSet {
    ghost use Rattle.lv_clauses.specs.ClauseMap.{ClauseMap, AreClauses};

    ghost Value = { ClauseMap };

    ghost view = { λ s. record { bools = s.bools; slots = s.clauses.slots } };

    ghost invariant = { λ s. AreClauses s.bools s.clauses.slots };
}

impl ClauseSet {
    /// The set of no clauses over so many booleans.
    pub fn new(alloc: Global, bools: u32) -> Result<ClauseSet, AllocError>
        ensures { IfOk result (λ s. s ≡ record { bools = bools; slots = [] }) }
    {
        Ok(ClauseSet {
            alloc,
            bools,
            clauses: Slab::with_capacity(alloc, FIRST_ROOM)?,
        })
    }

    /// A set of copies of the same clauses, each with its number.
    pub fn copy(&self) -> Result<ClauseSet, AllocError>
        ensures { IfOk result (λ s. s ≡ self.now) }
    {
        Ok(ClauseSet {
            alloc: self.alloc,
            bools: self.bools,
            clauses: self.clauses.clone()?,
        })
    }

    /// The number of booleans.
    pub fn bools(&self) -> u32
        ensures { result ≡ self.now.bools }
    {
        self.bools
    }

    /// Adds a clause and answers its number, which no clause had. After want of memory the set is as it was.
    pub fn add(&mut self, lits: &[Lit]) -> Result<ClauseId, AllocError>
        requires { IsTrue (is_clause self.old.bools lits.now) }
        ensures vacant { IfOk result (λ id. clause_at self.old.slots id.0 ≡ None) }
        ensures added { IfOk result (λ id. Puts self.old self.new id.0 (Some lits.now)) }
        ensures kept { OnErr result (self.new ≡ self.old) }
    {
        let clause = Clause::from_slice(self.alloc, lits)?;
        let key = self.clauses.insert(clause)?;
        Ok(ClauseId(key))
    }

    /// Takes away a clause that is present. Takes no memory.
    pub fn remove(&mut self, id: ClauseId)
        requires { IsSome (clause_at self.old.slots id.0) }
        ensures { Puts self.old self.new id.0 None }
    {
        self.clauses.remove(id.0);
    }

    /// Whether a clause of this number is present.
    pub fn contains(&self, id: ClauseId) -> bool
        ensures { result ≡ is_some (clause_at self.now.slots id.0) }
    {
        self.clauses.contains(id.0)
    }

    /// The literals of a clause that is present, in the order in which they were given.
    pub fn get(&self, id: ClauseId) -> &[Lit]
        requires { IsSome (clause_at self.now.slots id.0) }
        ensures value { clause_at self.now.slots id.0 ≡ Some result.now }
        ensures clause { IsTrue (is_clause self.now.bools result.now) }
    {
        self.clauses[id.0].lits()
    }

    /// The literals of the clause of this number, None exactly where none is present.
    pub fn find(&self, id: ClauseId) -> Option<&[Lit]>
        ensures value { option_map (λ lits. lits.now) result ≡ clause_at self.now.slots id.0 }
        ensures clause { IfSome result (λ lits. IsTrue (is_clause self.now.bools lits.now)) }
    {
        match self.clauses.get(id.0) {
            Some(clause) => Some(clause.lits()),
            None => None,
        }
    }

    /// The number after the highest of a clause present, 0 where there is none: for a walk over all of them that takes no
    /// memory. It looks at each number for which there is room above that.
    pub fn bound(&self) -> usize
        ensures { IsBound self.now.slots result }
    {
        let mut bound = self.clauses.capacity();
        while bound > 0 {
            if self.clauses.contains(bound - 1) {
                return bound;
            }
            bound -= 1;
        }
        bound
    }

    /// The numbers of the clauses present, rising.
    pub fn ids(&self, alloc: Global) -> Result<Seq<ClauseId>, AllocError>
        ensures { IfOk result (λ ids. ids ≡ ids_of self.now.slots) }
    {
        let mut ids = Seq::new(alloc);
        for (key, _) in self.clauses.iter() {
            ids.push(ClauseId(key))?;
        }
        Ok(ids)
    }

    /// Whether values, one for each boolean, make every clause present true. Takes no memory.
    pub fn satisfied(&self, values: &[bool]) -> bool
        requires { length values.now ≡ self.now.bools }
        ensures { result ≡ satisfies values.now self.now.slots }
    {
        for (_, clause) in self.clauses.iter() {
            if !clause_holds(values, clause.lits()) {
                return false;
            }
        }
        true
    }
}
