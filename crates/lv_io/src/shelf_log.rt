//! What a shelf keeps of the calls made on it: the opens, and the faults of each role.

ghost use Rattle.std.specs.Prelude.{◌≡◌, ◌≢◌, ◌++◌, [], ◌∷◌, OnOk, OnErr};
ghost use Rattle.lv_io.specs.declared.Role.{Role};
ghost use Rattle.lv_io.specs.Counts.{count_of, raised};
ghost use Rattle.lv_io.specs.Outside.{Rose};

use crate::Role;
use std::alloc::{AllocError, Global};
use std::marker::Model;

/// The faults of each role so far. A count stops at the last value of 64 bits.
#[derive(Clone, Copy)]
pub struct Counts {
    model: u64,
    second: u64,
}

impl Counts {
    pub fn zero() -> Counts
        ensures { result ≡ record { model = 0; second = 0 } }
    {
        Counts {
            model: 0,
            second: 0,
        }
    }

    pub fn of(&self, role: Role) -> u64
        ensures { result ≡ count_of self.now role }
    {
        match role {
            Role::Model => self.model,
            Role::Second => self.second,
        }
    }

    /// Counts one more fault of a role.
    pub fn raise(&mut self, role: Role)
        ensures raised { self.new ≡ raised role self.old }
        ensures rose { Rose (count_of self.old role) (count_of self.new role) }
        ensures others { (r : Role) → r ≢ role → count_of self.new r ≡ count_of self.old r }
    {
        match role {
            Role::Model => self.model = self.model.saturating_add(1),
            Role::Second => self.second = self.second.saturating_add(1),
        }
    }
}

/// One open: the role and the name that it was asked for.
#[derive(Drop)]
pub struct Entry {
    role: Role,
    name: String,
}

/// The opens of a shelf, in order.
#[derive(Drop)]
pub struct Opens {
    alloc: Global,
    entries: Vec<Entry>,
}

impl Model for Opens {
    ghost use Rattle.std.specs.Prelude.{List, map};
    ghost use Rattle.lv_io.specs.Outside.{Opened};
    ghost use Rattle.lv_io.specs.Opens.{opened_of};

    ghost Value = { List Opened };

    ghost view = { λ opens. map opened_of opens.entries.items };
}

impl Opens {
    pub fn new(alloc: Global) -> Opens
        ensures { result ≡ [] }
    {
        Opens {
            alloc,
            entries: Vec::new(alloc),
        }
    }

    /// Records one more open.
    pub fn note(&mut self, role: Role, name: &str) -> Result<(), AllocError>
        ensures ok { OnOk result (self.new ≡ self.old ++ (record { role = role; name = name.now }) ∷ []) }
        ensures err { OnErr result (self.new ≡ self.old) }
    {
        let name = String::from_str(self.alloc, name)?;
        self.entries.push(Entry { role, name })?;
        Ok(())
    }
}
