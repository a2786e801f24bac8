//! The first places of names, for texts with many of them: a name's place is found in a time that doesn't grow with how
//! many names there are.
//!
//! | call | answer |
//! |---|---|
//! | `FirstPlaces::new` | no names |
//! | `note` | notes the place of a name, unless it has one |
//! | `find` | the place of a name |
#![tactic(auto)]

ghost use Rattle.std.specs.Prelude.{◌≡◌, [], OnOk, OnErr};
ghost use Rattle.lv_model_draft.specs.Places.{place_of, noted};

use indexmap::IndexMap;
use std::alloc::{AllocError, Global};
use std::marker::Model;

/// Names with the place at which each was noted first. Contracts see the list of them, in the order in which they were
/// noted.
#[derive(Debug, Drop)]
pub struct FirstPlaces {
    alloc: Global,
    places: IndexMap<Vec<u8>, usize>,
}

impl Model for FirstPlaces {
    ghost use Rattle.std.specs.Prelude.{ℕ, List, map};

    ghost Value = { List (List ℕ × ℕ) };

    ghost view = { λ t. map (λ e. (e.0.items, e.1)) t.places.entries };
}

impl FirstPlaces {
    /// No names. It takes its memory as it grows.
    pub fn new(alloc: Global) -> FirstPlaces
        ensures { result ≡ [] }
    {
        FirstPlaces {
            alloc,
            places: IndexMap::new(alloc),
        }
    }

    /// Notes that a name is at a place; a name that was noted before keeps the place that it has. After want of memory
    /// nothing has changed.
    pub fn note(&mut self, name: &[u8], place: usize) -> Result<(), AllocError>
        ensures ok { OnOk result (self.new ≡ noted self.old name.now place) }
        ensures err { OnErr result (self.new ≡ self.old) }
    {
        if self.find(name).is_some() {
            return Ok(());
        }
        let key = Vec::from_slice(self.alloc, name)?;
        self.places.insert(key, place)?;
        Ok(())
    }

    /// The place of a name, if it was noted. Takes no memory.
    pub fn find(&self, name: &[u8]) -> Option<usize>
        ensures { result ≡ place_of name.now self.now }
    {
        self.places.get(name).copied()
    }
}
