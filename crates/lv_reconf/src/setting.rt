//! What the questions of a recovery rest on, and no question changes.
#![tactic(auto)]

ghost use Rattle.std.specs.Prelude.{◌≡◌, Bool, true, IfOk};
ghost use Rattle.lv_meaning.specs.Ranges.{AimFits};
ghost use Rattle.lv_reconf.specs.Narrowing.{Asks};
ghost use Rattle.lv_reconf.specs.Trying.{asking};
ghost use Rattle.lv_system.specs.System.{IsSystemOf};

use super::compiled::Compiled;
use super::goals::plain_solver;
use lv_meaning::Aim;
use lv_model::Model;
use lv_sat::Solver;
use lv_system::StepSystem;
use std::alloc::{AllocError, Global};
use std::marker;

/// A model, an aim, and the clauses of the nominal steps that meet what is observed. Contracts see the plant and the aim.
#[derive(Drop)]
pub struct Setting<'a> {
    compiled: Compiled<'a>,
    aim: Aim,
    plain: Solver,
}

impl<'a> marker::Model for Setting<'a> {
    ghost use Rattle.std.specs.Coded.{codes};
    ghost use Rattle.lv_base.specs.contracts.formula.Condition as condition;
    ghost use Rattle.lv_reconf.specs.Trying.{Question, IsSetting};

    ghost Value = { Question };

    ghost coded = { Prim.hlevel (codes, condition.the_row.coded) };

    ghost view = { λ s. record { plant = s.compiled; aim = s.aim } };

    ghost invariant = { λ s. IsSetting s.compiled s.aim s.plain.set };
}

impl<'a> Setting<'a> {
    /// Of the model's own system, which isn't kept, and an aim of the model.
    pub fn new(
        alloc: Global,
        model: &'a Model,
        system: &StepSystem,
        aim: Aim,
    ) -> Result<Setting<'a>, AllocError>
        requires system { IsSystemOf model.now system.now }
        requires fits { AimFits model.now aim }
        ensures { IfOk result (λ s. s ≡ asking model.now aim) }
    {
        let compiled = Compiled::new(alloc, model, system)?;
        let plain = plain_solver(alloc, &compiled, system, aim.present.as_slice())?;
        Ok(Setting {
            compiled,
            aim,
            plain,
        })
    }

    pub fn compiled(&self) -> &Compiled<'a>
        ensures { result.now ≡ self.now.plant }
    {
        &self.compiled
    }

    pub fn aim(&self) -> &Aim
        ensures aim { result.now ≡ self.now.aim }
        ensures fits { AimFits self.now.plant self.now.aim }
    {
        &self.aim
    }

    /// A solver for the nominal steps that meet what is observed.
    pub fn plain(&self) -> &Solver
        ensures { Asks self.now.plant self.now.aim.present (λ b. true) result.now.set }
    {
        &self.plain
    }
}
