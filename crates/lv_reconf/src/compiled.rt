//! What a recovery keeps of a model and its system: the literals that it asks for, and the clauses of goals.
#![tactic(auto)]

ghost use Rattle.std.specs.Prelude.{◌≡◌, ◌<◌, true, false, IfOk, slice_index_or};
ghost use Rattle.lv_compile.specs.Booleans.{value_literal, booleans_now, booleans_next};
ghost use Rattle.lv_compile.specs.FormulaClauses.{size_of};
ghost use Rattle.lv_model.specs.Lists.{move_counts};
ghost use Rattle.lv_meaning.specs.Ranges.{GoalFits};
ghost use Rattle.lv_system.specs.Choices.{choice_literal};
ghost use Rattle.lv_system.specs.System.{IsSystemOf};
ghost use Rattle.lv_reconf.specs.Assuming.{control_literal, pair_fits};
ghost use Rattle.lv_reconf.specs.Compiling.{SayGoal};
ghost use Rattle.lv_reconf.specs.Narrowing.{choices_of_plant};

use lv_base::{Condition, Lit, MoveId, Pair, PartId, Seq, ValId, VarId};
use lv_compile::cleaning::cleaned;
use lv_compile::formula::formula_clauses;
use lv_compile::value_bools::ValueBools;
use lv_model::Model;
use lv_system::{ChoiceBools, Moment, StepSystem};
use std::alloc::{AllocError, Global};
use std::marker;

/// A model, its controls, and the numbering of the booleans of its system. Contracts see the plant.
#[derive(Drop)]
pub struct Compiled<'a> {
    model: &'a Model,
    vars: Vec<VarId>,
    before: ValueBools,
    after: ValueBools,
    choices: ChoiceBools,
}

impl<'a> marker::Model for Compiled<'a> {
    ghost use Rattle.lv_model.specs.declared.plant.Plant.{Plant};
    ghost use Rattle.std.specs.Coded.{codes};
    ghost use Rattle.lv_base.specs.contracts.formula.Condition as condition;
    ghost use Rattle.lv_reconf.specs.Compiling.{IsCompiled};

    ghost Value = { Plant };

    ghost coded = { Prim.hlevel (codes, condition.the_row.coded) };

    ghost view = { λ c. c.model.now };

    ghost invariant = { λ c. IsCompiled c.model.now c.vars.items c.before c.after c.choices };
}

impl<'a> Compiled<'a> {
    /// Of the model's own system, of which it keeps a copy of the numbering.
    pub fn new(
        alloc: Global,
        model: &'a Model,
        system: &StepSystem,
    ) -> Result<Compiled<'a>, AllocError>
        requires { IsSystemOf model.now system.now }
        ensures { IfOk result (λ c. c ≡ model.now) }
    {
        Ok(Compiled {
            model,
            vars: model.controls(alloc)?,
            before: system.bools_at(Moment::Now).copied(alloc)?,
            after: system.bools_at(Moment::Next).copied(alloc)?,
            choices: system.choices().copied(alloc)?,
        })
    }

    pub fn model(&self) -> &'a Model
        ensures { result.now ≡ self.now }
    {
        self.model
    }

    /// The literal that a variable has a value before the step.
    pub fn has_value(&self, var: VarId, val: ValId) -> Lit
        requires { val.0 < size_of (booleans_now self.now) var.0 }
        ensures { result ≡ value_literal (booleans_now self.now) var.0 val.0 true }
    {
        self.before.literal(var.0 as usize, val.0, true)
    }

    /// The literal that the control at the pair's slot has its value.
    pub fn commands(&self, pair: Pair) -> Lit
        requires { pair_fits self.now pair ≡ true }
        ensures { result ≡ control_literal self.now pair }
    {
        self.has_value(self.vars[pair.slot as usize], ValId(pair.choice))
    }

    /// The literal that a variable has a value after the step.
    pub fn ends_with(&self, var: VarId, val: ValId) -> Lit
        requires { val.0 < size_of (booleans_next self.now) var.0 }
        ensures { result ≡ value_literal (booleans_next self.now) var.0 val.0 true }
    {
        self.after.literal(var.0 as usize, val.0, true)
    }

    /// The literal that a part doesn't make a move.
    pub fn makes_not(&self, part: PartId, mv: MoveId) -> Lit
        requires { mv.0 < slice_index_or (move_counts self.now) part.0 0 }
        ensures { result ≡ choice_literal (choices_of_plant self.now) part.0 mv.0 false }
    {
        self.choices.literal(part, mv, false)
    }

    /// Clauses that say that a goal is true after the step, or, in the other sign, that it is false.
    pub fn goal_clauses(
        &self,
        alloc: Global,
        goal: &Condition,
        sign: bool,
    ) -> Result<Vec<Seq<Lit>>, AllocError>
        requires { GoalFits self.now goal.now }
        ensures { IfOk result (λ out. SayGoal self.now goal.now sign out.items) }
    {
        let raw = formula_clauses(alloc, &self.after, 0, goal.formula(), sign)?;
        cleaned(alloc, raw)
    }
}
