//! The trail: the literals taken as true, in the order in which they were taken. First come the assumptions, each with
//! what it forces, then choices and what they force. A mark for each boolean says at once what is true.
#![tactic(auto)]

ghost use Rattle.std.specs.Prelude.{◌≡◌, ◌<◌, ◌≤◌, ◌-◌, ◌+◌, ◌++◌, ◌∷◌, [], List, length, take, drop, count_by, true, IsTrue, IfOk, IfSome, IfNone, OnOk, is_some, is_none, slice_set, slice_index_or, None, Some};
ghost use Rattle.std.specs.List.{list_all};
ghost use Rattle.lv_clauses.specs.ClauseMap.{ClauseMap};
ghost use Rattle.lv_clauses.specs.Marks.{nothing, marked};
ghost use Rattle.lv_clauses.specs.declared.log.Step.{Step};
ghost use Rattle.lv_trail.specs.Trail as Trails;
ghost use Rattle.lv_trail.specs.Trail.{IsTrail, IsForced, IsTurned, lits_of, turned, unforced};

use super::analysis::Flip;
use lv_base::{BoolId, Lit};
use lv_clauses::{Hint, negation};
use std::alloc::{AllocError, Global};

/// A literal taken as true, with the clause that forces it; none where it was assumed or chosen.
#[derive(Clone, Copy, Debug, PartialEq, Eq)]
pub struct Entry {
    pub lit: Lit,
    pub reason: Option<Hint>,
}

/// The entries, and a mark or none for each boolean.
#[derive(Drop)]
pub struct Trail {
    pub marks: Vec<Option<bool>>,
    pub entries: Vec<Entry>,
}

impl Trail {
    /// The empty trail over so many booleans.
    pub fn new(alloc: Global, bools: u32) -> Result<Trail, AllocError>
        ensures marks { IfOk result (λ t. t.marks.items ≡ nothing bools) }
        ensures entries { IfOk result (λ t. t.entries.items ≡ []) }
    {
        Ok(Trail {
            marks: vec![in alloc; None; bools as usize]?,
            entries: Vec::with_capacity(alloc, bools as usize)?,
        })
    }

    /// Takes back all entries, and has a mark for each of so many booleans.
    pub fn restart(&mut self, bools: u32) -> Result<(), AllocError>
        ensures marks { OnOk result (self.new.marks.items ≡ nothing bools) }
        ensures entries { OnOk result (self.new.entries.items ≡ []) }
    {
        self.entries.clear();
        self.marks.clear();
        self.marks.resize(bools as usize, None)?;
        Ok(())
    }

    /// Whether each boolean is marked.
    pub fn is_full(&self) -> bool
        requires { length self.now.entries.items + count_by is_none self.now.marks.items ≡ length self.now.marks.items }
        ensures { IsTrue result → list_all is_some self.now.marks.items ≡ true }
    {
        self.entries.len() == self.marks.len()
    }

    pub fn marks(&self) -> &[Option<bool>]
        ensures { result.now ≡ self.now.marks.items }
    {
        self.marks.as_slice()
    }

    pub fn entries(&self) -> &[Entry]
        ensures { result.now ≡ self.now.entries.items }
    {
        self.entries.as_slice()
    }

    /// Whether the literal's boolean is in range and unmarked.
    pub fn is_open(&self, lit: Lit) -> bool
        ensures { result ≡ Trails.is_open self.now.marks.items lit }
    {
        let index = lit.var.0 as usize;
        index < self.marks.len() && self.marks[index].is_none()
    }

    /// Takes a literal as true.
    #[inline(always)]
    pub fn push(&mut self, entry: Entry) -> Result<(), AllocError>
        ensures marks { OnOk result (self.new.marks.items ≡ marked self.old.marks.items entry.lit) }
        ensures entries { OnOk result (self.new.entries.items ≡ self.old.entries.items ++ entry ∷ []) }
    {
        self.entries.push(entry)?;
        let index = entry.lit.var.0 as usize;
        if index < self.marks.len() {
            self.marks[index] = Some(entry.lit.sign);
        }
        Ok(())
    }

    /// Puts an entry in the place of another, while the marks stay: for a look at the trail with it, after which the other
    /// is put back.
    pub fn put(&mut self, place: usize, entry: Entry)
        requires { place < length self.old.entries.items }
        ensures entries { self.new.entries.items ≡ slice_set self.old.entries.items place entry }
        ensures marks { self.new.marks.items ≡ self.old.marks.items }
    {
        self.entries[place] = entry;
    }

    /// Takes back all entries from a place on.
    pub fn cut(&mut self, len: usize)
        requires { len ≤ length self.old.entries.items }
        ensures entries { self.new.entries.items ≡ take len self.old.entries.items }
        ensures trail { (set : ClauseMap) (log : List Step) → IsTrail set log self.old.marks.items self.old.entries.items
            → IsTrail set log self.new.marks.items self.new.entries.items }
    {
        while self.entries.len() > len {
            self.pop();
        }
    }

    /// Takes back all entries from the cut on, and takes the negation of that at the place as true, which a clause forces.
    pub fn turn(&mut self, flip: Flip, hint: Hint) -> Result<(), AllocError>
        requires cut { flip.cut ≤ flip.place }
        requires place { flip.place < length self.old.entries.items }
        ensures entries { OnOk result ((d : Entry) → self.new.entries.items ≡ take flip.cut self.old.entries.items ++ turned (slice_index_or self.old.entries.items flip.place d) hint ∷ []) }
        ensures trail { OnOk result ((set : ClauseMap) (log : List Step) → IsTrail set log self.old.marks.items self.old.entries.items
            → IsTurned set log self.old.entries.items flip hint → IsTrail set log self.new.marks.items self.new.entries.items) }
    {
        let lit = negation(self.entries[flip.place].lit);
        self.cut(flip.cut);
        self.push(Entry {
            lit,
            reason: Some(hint),
        })?;
        Ok(())
    }

    /// Takes a literal as true that a clause forces, unless its boolean is marked already.
    pub fn force(&mut self, lit: Lit, hint: Hint) -> Result<(), AllocError>
        ensures front { OnOk result (self.new.entries.items ≡ self.old.entries.items ++ drop (length self.old.entries.items) self.new.entries.items) }
        ensures forced { OnOk result (unforced self.new.entries.items ≡ unforced self.old.entries.items) }
        ensures trail { OnOk result ((set : ClauseMap) (log : List Step) → IsTrail set log self.old.marks.items self.old.entries.items
            → IsForced set.slots log (lits_of self.old.entries.items) lit hint → IsTrail set log self.new.marks.items self.new.entries.items) }
    {
        if self.is_open(lit) {
            self.push(Entry {
                lit,
                reason: Some(hint),
            })?;
        }
        Ok(())
    }

    /// A literal of a boolean that is in range and unmarked; None where there is none.
    pub fn free_lit(&self, bools: u32) -> Option<Lit>
        requires { length self.now.marks.items ≡ bools }
        ensures free { IfSome result (λ lit. IsTrue (Trails.is_open self.now.marks.items lit)) }
        ensures full { IfNone result (list_all is_some self.now.marks.items ≡ true) }
    {
        for var in 0..bools {
            let lit = Lit {
                var: BoolId(var),
                sign: false,
            };
            if self.is_open(lit) {
                return Some(lit);
            }
        }
        None
    }

    /// Takes back the last entry.
    fn pop(&mut self)
        requires { 0 < length self.old.entries.items }
        ensures entries { self.new.entries.items ≡ take (length self.old.entries.items - 1) self.old.entries.items }
        ensures marks { (d : Entry) → self.new.marks.items ≡ slice_set self.old.marks.items (slice_index_or self.old.entries.items (length self.old.entries.items - 1) d).lit.var.0 None }
    {
        let last = self.entries.len() - 1;
        let lit = self.entries[last].lit;
        self.entries.truncate(last);
        let index = lit.var.0 as usize;
        if index < self.marks.len() {
            self.marks[index] = None;
        }
    }
}

/// How many entries are before the first one without a reason.
pub fn count_base(entries: &[Entry]) -> usize {
    entries
        .iter()
        .position(|entry| entry.reason.is_none())
        .unwrap_or(entries.len())
}
