//! What all sessions over a model share.
#![tactic(auto)]

ghost use Rattle.std.specs.Prelude.{◌≡◌, IfOk};
ghost use Rattle.lv_session_state.specs.lv_model_names.Lists.{lists_of};
ghost use Rattle.lv_session_state.specs.lv_system.System.{IsSystemOf};

use lv_model::Model;
use lv_session_state::{Lists, StepSystem, compile};
use std::alloc::{AllocError, Global};
use std::marker;

/// A model with its clauses and the lists by which names are looked up, made once for all sessions over it. Contracts
/// see the model's plant.
#[derive(Drop)]
pub struct CompiledModel<'a> {
    pub(crate) model: &'a Model,
    pub(crate) lists: Lists,
    pub(crate) system: StepSystem,
}

impl<'a> marker::Model for CompiledModel<'a> {
    ghost use Rattle.lv_model.specs.declared.plant.Plant.{Plant};
    ghost use Rattle.lv_session.specs.Compiled.{IsCompiled};
    ghost use Rattle.std.specs.Coded.{codes};
    ghost use Rattle.lv_base.specs.contracts.formula.Condition as condition;

    ghost Value = { Plant };

    ghost coded = { Prim.hlevel (codes, condition.the_row.coded) };

    ghost view = { λ c. c.model.now };

    ghost invariant = { λ c. IsCompiled c.model.now c.lists c.system };
}

impl<'a> CompiledModel<'a> {
    /// Compiles a model.
    pub fn new(alloc: Global, model: &'a Model) -> Result<CompiledModel<'a>, AllocError>
        ensures { IfOk result (λ compiled. compiled ≡ model.now) }
    {
        let lists = Lists::of(alloc, model)?;
        let system = compile(alloc, model)?;
        Ok(CompiledModel {
            model,
            lists,
            system,
        })
    }

    pub fn model(&self) -> &'a Model
        ensures { result.now ≡ self.now }
    {
        self.model
    }

    /// The lists by which its names are looked up.
    pub(crate) fn lists(&self) -> &Lists
        ensures { result.now ≡ lists_of self.now }
    {
        &self.lists
    }

    /// Its clauses as a system.
    pub fn system(&self) -> &StepSystem
        ensures { IsSystemOf self.now result.now }
    {
        &self.system
    }
}
