//! Which values of which controls have a price.
#![tactic(auto)]

ghost use Rattle.std.specs.Prelude.{◌≡◌, [], OnOk};
ghost use Rattle.lv_model_draft.specs.Priced.{has_pair, with_pair};

use indexmap::IndexSet;
use lv_base::{ValId, VarId};
use std::alloc::{AllocError, Global};
use std::marker::Model;

/// Controls with a value, seen by contracts as the list of those pairs.
#[derive(Debug, Drop)]
pub struct PricedValues {
    pairs: IndexSet<(u32, u32)>,
}

impl Model for PricedValues {
    ghost use Rattle.std.specs.Prelude.{ℕ, List};

    ghost Value = { List (ℕ × ℕ) };

    ghost view = { λ s. s.pairs.keys };
}

impl PricedValues {
    /// No pairs. It takes its memory as it grows.
    pub fn new(alloc: Global) -> PricedValues
        ensures { result ≡ [] }
    {
        PricedValues {
            pairs: IndexSet::new(alloc),
        }
    }

    /// Adds a pair, unless it is there.
    pub fn insert(&mut self, control: VarId, value: ValId) -> Result<(), AllocError>
        ensures { OnOk result (self.new ≡ with_pair self.old control.0 value.0) }
    {
        self.pairs.insert((control.0, value.0))?;
        Ok(())
    }

    /// Whether a pair is there. Takes no memory.
    pub fn contains(&self, control: VarId, value: ValId) -> bool
        ensures { result ≡ has_pair control.0 value.0 self.now }
    {
        self.pairs.contains(&(control.0, value.0))
    }
}
