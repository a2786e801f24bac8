//! The conflicts that a search keeps: lists of choices that can't stand together, in the order in which they were
//! found. A candidate that contains one of them needs no trial, so the store is asked about every candidate before
//! it is tried.
//!
//! | call | answer |
//! |---|---|
//! | `Store::new` | a store that keeps nothing |
//! | `Store::from_vec` | a store that keeps some |
//! | `add` | keeps one more conflict, behind the others |
//! | `contained_in` | which kept conflict a candidate contains first |
//! | `get`, `as_slice`, `len` | the kept conflicts |
//! | `first_contained` | which of some conflicts choices contain first |
#![tactic(auto)]

ghost use Rattle.std.specs.Prelude.{◌≡◌, ◌<◌, [], ◌∷◌, ◌++◌, length, position, slice_get, IfOk, OnOk, OnErr};
ghost use Rattle.lv_base.specs.Choices.{contains_all};

use lv_base::{Candidate, Conflict, Seq, contains};
use std::alloc::{AllocError, Global};
use std::marker::Model;

/// Conflicts by number: 0 for the one that was added first. Contracts see the list of them, each as the list of its
/// pairs.
#[derive(Debug, Drop)]
pub struct Store {
    conflicts: Seq<Conflict>,
}

impl Model for Store {
    ghost use Rattle.std.specs.Prelude.{List};
    ghost use Rattle.lv_base.specs.declared.search.Pair.{Pair};

    ghost Value = { List (List Pair) };

    ghost view = { λ s. s.conflicts };
}

impl Store {
    /// A store that keeps nothing. It takes its memory as it grows.
    pub fn new(alloc: Global) -> Result<Store, AllocError>
        ensures { IfOk result (λ store. store ≡ []) }
    {
        Ok(Store {
            conflicts: Seq::new(alloc),
        })
    }

    /// A store that keeps these conflicts. Takes no memory.
    pub fn from_vec(conflicts: Vec<Conflict>) -> Store
        ensures { result ≡ conflicts.items }
    {
        Store {
            conflicts: Seq::from_vec(conflicts),
        }
    }

    /// Keeps one more conflict, whose number is the number of those kept before. After want of memory the store is as
    /// it was.
    pub fn add(&mut self, conflict: Conflict) -> Result<(), AllocError>
        ensures ok { OnOk result (self.new ≡ self.old ++ conflict ∷ []) }
        ensures err { OnErr result (self.new ≡ self.old) }
    {
        self.conflicts.push(conflict)
    }

    /// The number of the first kept conflict that the candidate contains; `None` exactly where it contains none. Takes
    /// no memory.
    pub fn contained_in(&self, candidate: &Candidate) -> Option<usize>
        ensures { result ≡ position (contains_all candidate.now.choices) self.now }
    {
        first_contained(self.conflicts.as_slice(), candidate.choices.as_slice())
    }

    /// The conflict of this number.
    pub fn get(&self, number: usize) -> &Conflict
        requires { number < length self.now }
        ensures { slice_get self.now number ≡ Some result.now }
    {
        &self.conflicts.as_slice()[number]
    }

    /// All kept conflicts, in the order in which they were added. Takes no memory.
    pub fn as_slice(&self) -> &[Conflict]
        ensures { result.now ≡ self.now }
    {
        self.conflicts.as_slice()
    }

    /// How many conflicts are kept.
    pub fn len(&self) -> usize
        ensures { result ≡ length self.now }
    {
        self.conflicts.len()
    }
}

/// The place of the first conflict that the choices contain.
pub fn first_contained(conflicts: &[Conflict], choices: &[u32]) -> Option<usize>
    ensures { result ≡ position (contains_all choices.now) conflicts.now }
{
    conflicts
        .iter()
        .position(|conflict| contains(choices, conflict.pairs()))
}
