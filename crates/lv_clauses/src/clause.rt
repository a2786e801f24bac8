//! One clause: literals of which at least one is to be true. Short clauses keep their literals inside the value.
#![tactic(auto)]

ghost use Rattle.std.specs.Prelude.{◌≡◌, IfOk};

use lv_base::Lit;
use smallvec::SmallVec;
use std::alloc::{AllocError, Global};
use std::marker::Model;

/// A list of literals, seen by contracts as that list.
#[derive(Drop)]
pub struct Clause {
    lits: SmallVec<Lit, 4>,
}

impl Model for Clause {
    ghost use Rattle.std.specs.Prelude.{List};
    ghost use Rattle.lv_base.specs.declared.ids.Lit.{Lit};

    ghost Value = { List Lit };

    ghost view = { λ c. c.lits.items };
}

impl Clone for Clause {
    ghost is_clone = { λ c copy. copy ≡ c };

    fn clone(&self) -> Result<Clause, AllocError> {
        Ok(Clause {
            lits: self.lits.clone()?,
        })
    }
}

impl Clause {
    /// The clause of copies of these literals.
    pub fn from_slice(alloc: Global, lits: &[Lit]) -> Result<Clause, AllocError>
        ensures { IfOk result (λ c. c ≡ lits.now) }
    {
        Ok(Clause {
            lits: SmallVec::from_slice(alloc, lits)?,
        })
    }

    /// Its literals, in the order in which they were given.
    pub fn lits(&self) -> &[Lit]
        ensures { result.now ≡ self.now }
    {
        self.lits.as_slice()
    }
}
