//! Facts that come and go, and what propagation finds under them.
#![tactic(auto)]

ghost use Rattle.std.specs.Prelude.{◌≡◌, ◌<◌, ◌-◌, ◌^◌, [], ◌∷◌, ◌++◌, IfOk, IsTrue, List, length, nat_lt};
ghost use Rattle.std.specs.Option.{option_copied};
ghost use Rattle.lv_base.specs.declared.ids.Lit.{Lit};
ghost use Rattle.lv_compile.specs.FormulaClauses.{size_of};
ghost use Rattle.lv_model.specs.declared.plant.Plant.{Plant};
ghost use Rattle.lv_system.specs.System.{IsSystemOf};
ghost use Rattle.lv_labels.specs.Values.{booleans_at, literal_at};
ghost use Rattle.lv_labels.specs.Literals.{value_at, state_literals};
ghost use Rattle.lv_labels.specs.Finding.{labelling};
ghost use Rattle.lv_labels.specs.Claims.{Claims, IsClaiming};
ghost use Rattle.lv_labels.specs.Modes.{are_values, modes_in};

use crate::assuming::told_under;
use crate::claims::{add_claim, drop_claim, no_claims};
use crate::copying::ltms_of;
use crate::labelling::Labelling;
use crate::modes::{are_values, literals_of, mode_variables, modes_in};
use crate::values::Values;
use lv_base::{ValId, VarId};
use lv_ltms::Ltms;
use lv_model::{Model, State};
use lv_reply::Moment;
use lv_system::StepSystem;
use std::alloc::{AllocError, Global};
use std::marker;

/// The clauses of a model for a session's life, with the facts claimed: a fact that is claimed twice is assumed once, and goes
/// with its last claim.
#[derive(Drop)]
pub struct FactLabels {
    ltms: Ltms,
    counts: Vec<u32>,
    values: Values,
    modes: Vec<VarId>,
}

impl marker::Model for FactLabels {
    ghost use Rattle.lv_labels.specs.Claims.{Claims, IsKept};

    ghost Value = { Claims };

    ghost view = { λ s. record { clauses = s.ltms.clauses; counts = s.counts.items; values = s.values; modes = s.modes.items } };

    ghost invariant = { λ s. IsKept s.counts.items s.values s.ltms };
}

impl FactLabels {
    /// Nothing is claimed. The system is the model's.
    pub fn new(alloc: Global, model: &Model, system: &StepSystem) -> Result<FactLabels, AllocError>
        requires { IsSystemOf model.now system.now }
        ensures { IfOk result (λ labels. IsClaiming model.now [] labels) }
    {
        let set = system.clauses();
        // What is large comes last, so that no exit lets go of it.
        Ok(FactLabels {
            counts: no_claims(alloc, set.bools())?,
            values: Values {
                before: system.bools_at(lv_system::Moment::Now).copied(alloc)?,
                after: system.bools_at(lv_system::Moment::Next).copied(alloc)?,
            },
            modes: mode_variables(alloc, model.plant())?,
            ltms: ltms_of(alloc, set)?,
        })
    }

    /// Whether a variable has a value, which may be claimed then. Takes no memory.
    pub fn has_value(&self, moment: Moment, var: VarId, val: ValId) -> bool
        ensures { result ≡ nat_lt val.0 (size_of (booleans_at self.now.values moment) var.0) }
    {
        self.values.has(moment, var, val)
    }

    /// Whether the parts have the modes of the state, if one is given. Takes no memory.
    pub fn has_modes(&self, state: Option<&State>) -> bool
        ensures { result ≡ are_values self.now.values.before self.now.modes (modes_in (option_copied state.entry)) }
    {
        are_values(&self.values.before, self.modes.as_slice(), modes_in(state))
    }

    /// Claims that a variable has a value. Takes no memory.
    pub fn claim(&mut self, moment: Moment, var: VarId, val: ValId)
        requires { val.0 < size_of (booleans_at self.old.values moment) var.0 }
        ensures claiming { (plant : Plant) (literals : List Lit) → length literals < 2 ^ 32 - 1 → IsClaiming plant literals self.old → IsClaiming plant (value_at plant moment var.0 val.0 ∷ literals) self.new }
        ensures values { self.new.values ≡ self.old.values }
        ensures modes { self.new.modes ≡ self.old.modes }
    {
        let lit = self.values.literal(moment, var, val);
        add_claim(&mut self.ltms, &mut self.counts, lit);
    }

    /// Takes back one claim that a variable has a value. Takes no memory.
    pub fn release(&mut self, moment: Moment, var: VarId, val: ValId)
        requires { val.0 < size_of (booleans_at self.old.values moment) var.0 }
        ensures claiming { (plant : Plant) (literals : List Lit) → IsClaiming plant (value_at plant moment var.0 val.0 ∷ literals) self.old → IsClaiming plant literals self.new }
        ensures values { self.new.values ≡ self.old.values }
        ensures modes { self.new.modes ≡ self.old.modes }
    {
        let lit = self.values.literal(moment, var, val);
        drop_claim(&mut self.ltms, &mut self.counts, lit);
    }

    /// What propagation finds under the facts claimed and, if a state is given, its modes. These are assumed for as long as
    /// the call takes, also where it ends in want of memory.
    pub fn tell(&mut self, alloc: Global, state: Option<&State>) -> Result<Labelling, AllocError>
        requires { IsTrue (are_values self.old.values.before self.old.modes (modes_in (option_copied state))) }
        ensures same { self.new ≡ self.old }
        ensures found { (plant : Plant) (literals : List Lit) → IsClaiming plant literals self.old → IfOk result (λ told. told ≡ labelling plant (literals ++ state_literals plant (option_copied state.entry))) }
    {
        let lits = literals_of(
            alloc,
            &self.values.before,
            self.modes.as_slice(),
            modes_in(state),
        )?;
        told_under(alloc, &mut self.ltms, &self.values, lits.as_slice())
    }
}
