//! What a refuter is asked about the nominal steps from a state with values of controls.
#![tactic(auto)]

ghost use Rattle.std.specs.Prelude.{◌≡◌, ◌++◌, true, All, IfOk, IsTrue};
ghost use Rattle.lv_model.specs.Ranges.{plant_ranges};
ghost use Rattle.lv_model.specs.WellFormed.{is_well_formed};
ghost use Rattle.lv_meaning.specs.Commands.{control_sizes};
ghost use Rattle.lv_meaning.specs.Ranges.{GoalFits, modes_fit};
ghost use Rattle.lv_search_zones.specs.lv_compile.Booleans.{bool_count};
ghost use Rattle.lv_system.specs.System.{IsSystemOf};
ghost use Rattle.lv_system.specs.Numbering.{IsOver};
ghost use Rattle.lv_cert_laws.specs.lv_cert_meaning.Units.{nominal_units, goal_clauses};
ghost use Rattle.lv_cert_laws.specs.lv_cert_meaning.Certifying.{IsAsked};
ghost use Rattle.lv_cert_writing.specs.Pairs.{HasChoice};
ghost use Rattle.lv_cert_recovery.specs.Showing.{stated_by, own_clauses, reached_clauses};
ghost use Rattle.lv_cert_recovery.specs.Telling.{IsTold, IsToldOf, TellsReached, TellsMissed, is_step, are_lines};
ghost use Rattle.lv_cert_recovery.specs.declared.asking.Told.TheVariants.{Step, Lines};

use crate::units::{push_controls, push_modes, push_no_faults, push_seen};
use lv_base::{Condition, Lit, Pair, Seq, VarId};
use lv_cert_writing::asking::push_units;
use lv_cert_writing::{Derivation, Refuted, Refuter};
use lv_meaning::Aim;
use lv_model::{Model, State};
use lv_system::{StepPair, StepSystem};
use std::alloc::{AllocError, Global};
use std::marker;

/// A model with its system, and with an aim of the model.
#[derive(Drop)]
pub struct Asking<'a> {
    alloc: Global,
    model: &'a Model,
    system: &'a StepSystem,
    aim: &'a Aim,
    vars: Vec<VarId>,
}

impl<'a> marker::Model for Asking<'a> {
    ghost use Rattle.std.specs.Coded.{codes};
    ghost use Rattle.lv_base.specs.contracts.formula.Condition as condition;
    ghost use Rattle.lv_cert_recovery.specs.Asking.{Asked, IsAsking};

    ghost Value = { Asked };

    ghost coded = { Prim.hlevel (codes, condition.the_row.coded) };

    ghost view = { λ a. record { plant = a.model.now; aim = a.aim.now; system = a.system.now } };

    ghost invariant = { λ a. IsAsking (record { plant = a.model.now; aim = a.aim.now; system = a.system.now }) a.vars.items };
}

/// What is told of the nominal steps that some clauses ask for.
#[derive(Debug, Drop)]
pub enum Told {
    /// There is one: values before and after it.
    Step(StepPair),
    /// There is none: the lines that refute the clauses.
    Lines(Seq<Derivation>),
}

/// Adds clauses.
fn push_all(out: &mut Vec<Seq<Lit>>, clauses: Vec<Seq<Lit>>) -> Result<(), AllocError>
    ensures { IfOk result (λ _. out.new.items ≡ out.old.items ++ clauses.items) }
{
    for clause in clauses {
        out.push(clause)?;
    }
    Ok(())
}

/// A step that makes these clauses true together with those of the model's system, or lines that refute them.
fn ask(
    alloc: Global,
    model: &Model,
    system: &StepSystem,
    refuter: &mut Refuter<'_>,
    own: &[Seq<Lit>],
) -> Result<Told, AllocError>
    requires system { IsSystemOf model.now system.now }
    requires refuter { refuter.old ≡ system.now }
    requires over { All (IsOver system.now.set.bools) own.now }
    ensures told { IfOk result (IsTold system.now own.now) }
    ensures kept { refuter.new ≡ refuter.old }
{
    let _plant = model.plant();
    match refuter.refute(own)? {
        Refuted::Values(values) => Ok(Told::Step(system.decode(alloc, values.as_slice())?)),
        Refuted::Lines(lines) => Ok(Told::Lines(lines)),
    }
}

impl<'a> Asking<'a> {
    pub fn new(
        alloc: Global,
        model: &'a Model,
        system: &'a StepSystem,
        aim: &'a Aim,
    ) -> Result<Asking<'a>, AllocError>
        requires system { IsSystemOf model.now system.now }
        requires asked { IsAsked model.now aim.now }
        ensures { IfOk result (λ a. a ≡ record { plant = model.now; aim = aim.now; system = system.now }) }
    {
        let _plant = model.plant();
        Ok(Asking {
            alloc,
            model,
            system,
            aim,
            vars: model.controls(alloc)?,
        })
    }

    pub fn aim(&self) -> &'a Aim
        ensures aim { result.now ≡ self.now.aim }
        ensures asked { IsAsked self.now.plant self.now.aim }
        ensures well_formed { is_well_formed self.now.plant ≡ true }
    {
        self.aim
    }

    pub fn alloc(&self) -> Global {
        self.alloc
    }

    /// A refuter over the system.
    pub fn refuter(&self) -> Result<Refuter<'a>, AllocError>
        ensures { IfOk result (λ r. r ≡ self.now.system) }
    {
        Refuter::new(self.alloc, self.system)
    }

    /// The clauses of a nominal step from the state with these values of controls.
    fn nominal(&self, state: &State, pairs: &[Pair]) -> Result<Vec<Seq<Lit>>, AllocError>
        requires fit { modes_fit (plant_ranges self.now.plant) self.now.plant.parts state.now.modes ≡ true }
        requires have { All (HasChoice (control_sizes self.now.plant)) pairs.now }
        ensures { IfOk result (λ out. out.items ≡ nominal_units self.now.plant state.now.modes (stated_by self.now.plant self.now.aim).literals pairs.now) }
    {
        let mut lits = Vec::new(self.alloc);
        push_modes(self.model, self.system, &mut lits, state.modes.as_slice())?;
        push_no_faults(self.model, self.system, &mut lits)?;
        push_seen(
            self.model,
            self.system,
            &mut lits,
            self.aim.present.as_slice(),
        )?;
        push_controls(
            self.model,
            self.system,
            self.vars.as_slice(),
            &mut lits,
            pairs,
        )?;
        let mut own = Vec::new(self.alloc);
        push_units(self.alloc, &mut own, lits.as_slice())?;
        Ok(own)
    }

    /// The clauses of a goal of the aim, in a sign.
    fn goal(&self, goal: &Condition, sign: bool) -> Result<Vec<Seq<Lit>>, AllocError>
        requires { GoalFits self.now.plant goal.now }
        ensures { IfOk result (λ out. out.items ≡ goal_clauses self.now.plant sign goal.now) }
    {
        self.system.goal_clauses(self.alloc, goal.formula(), sign)
    }

    /// Adds that all goals are true behind the step.
    fn push_reached(&self, own: &mut Vec<Seq<Lit>>) -> Result<(), AllocError>
        ensures { IfOk result (λ _. own.new.items ≡ own.old.items ++ reached_clauses self.now.plant self.now.aim) }
    {
        for goal in self.aim.goals.as_slice() {
            push_all(own, self.goal(goal, true)?)?;
        }
        Ok(())
    }

    /// What is told of the nominal steps from the state, with these values of controls, that make these clauses true too.
    fn steps_with(
        &self,
        refuter: &mut Refuter<'_>,
        state: &State,
        pairs: &[Pair],
        more: Vec<Seq<Lit>>,
    ) -> Result<Told, AllocError>
        requires refuter { refuter.old ≡ self.now.system }
        requires fit { modes_fit (plant_ranges self.now.plant) self.now.plant.parts state.now.modes ≡ true }
        requires have { All (HasChoice (control_sizes self.now.plant)) pairs.now }
        requires over { All (IsOver (bool_count self.now.plant)) more.items }
        ensures told { IfOk result (IsToldOf self.now.system (own_clauses self.now.plant self.now.aim state.now pairs.now more.items)) }
        ensures kept { refuter.new ≡ refuter.old }
    {
        let mut own = self.nominal(state, pairs)?;
        push_all(&mut own, more)?;
        ask(self.alloc, self.model, self.system, refuter, own.as_slice())
    }

    /// A nominal step from the state, with these values of controls, that reaches all goals, or lines by which none does.
    pub fn reach(
        &self,
        refuter: &mut Refuter<'_>,
        state: &State,
        pairs: &[Pair],
    ) -> Result<Told, AllocError>
        requires refuter { refuter.old ≡ self.now.system }
        requires fit { modes_fit (plant_ranges self.now.plant) self.now.plant.parts state.now.modes ≡ true }
        requires have { All (HasChoice (control_sizes self.now.plant)) pairs.now }
        ensures told { IfOk result (TellsReached self.now.plant self.now.aim state.now pairs.now) }
        ensures kept { refuter.new ≡ refuter.old }
    {
        let mut reached = Vec::new(self.alloc);
        self.push_reached(&mut reached)?;
        self.steps_with(refuter, state, pairs, reached)
    }

    /// Such a step that ends with the goal false, or lines by which none does.
    pub fn miss(
        &self,
        refuter: &mut Refuter<'_>,
        state: &State,
        pairs: &[Pair],
        goal: &Condition,
    ) -> Result<Told, AllocError>
        requires refuter { refuter.old ≡ self.now.system }
        requires fit { modes_fit (plant_ranges self.now.plant) self.now.plant.parts state.now.modes ≡ true }
        requires have { All (HasChoice (control_sizes self.now.plant)) pairs.now }
        requires goal { GoalFits self.now.plant goal.now }
        ensures told { IfOk result (TellsMissed self.now.plant self.now.aim state.now pairs.now goal.now) }
        ensures kept { refuter.new ≡ refuter.old }
    {
        let _system = self.system;
        let missed = self.goal(goal, false)?;
        self.steps_with(refuter, state, pairs, missed)
    }
}

/// The step that was told.
pub fn step_told(told: Told) -> StepPair
    requires { IsTrue (is_step told) }
    ensures { told ≡ Step result }
{
    match told {
        Told::Step(step) => step,
        Told::Lines(_) => unreachable!(),
    }
}

/// The lines that were told.
pub fn lines_told(told: Told) -> Seq<Derivation>
    requires { IsTrue (are_lines told) }
    ensures { told ≡ Lines result }
{
    match told {
        Told::Lines(lines) => lines,
        Told::Step(_) => unreachable!(),
    }
}
