//! The first step of a model that is as asked: value by value, each the first with which the solver still finds a step.
#![tactic(auto)]

ghost use Rattle.std.specs.Prelude.{◌≡◌, ◌+◌, ◌<◌, ◌≤◌, ◌++◌, ◌∷◌, [], List, length, take, drop, slice_index_or, IfOk, OnOk, IfSome, IsTrue};
ghost use Rattle.lv_base.specs.declared.ids.ValId.{ValId};
ghost use Rattle.lv_clauses.specs.ClauseMap.{satisfies};
ghost use Rattle.lv_system.specs.lv_compile.Booleans.{booleans_now, booleans_next, bool_count};
ghost use Rattle.lv_system.specs.System.{IsSystemOf};
ghost use Rattle.lv_system.specs.Decoding.{IsDecoded};
ghost use Rattle.lv_plant_step.specs.declared.asked.Asked.{Asked};
ghost use Rattle.lv_plant_step.specs.PlantSteps.{AskedFits, places, step_of, plant_step};
ghost use Rattle.lv_plant_step.specs.Finding.{place_literal, are_values, Asks, LeadsTo, CanLead, NoneBelow, IsLed, AreDecoded};

use crate::asked::{Asked, PlantStep};
use crate::assumed::{Assumed, assume_all};
use crate::lead::Lead;
use crate::literals::asked_literals;
use crate::places::place_literal;
use lv_base::{Lit, Seq, ValId};
use lv_model::Model;
use lv_sat::Solver;
use lv_system::{Moment, StepSystem};
use std::alloc::{AllocError, Global};
use std::marker;

/// A model, its system, and one solver over the system's clauses, which is kept from step to step. Contracts see the plant.
#[derive(Drop)]
pub struct PlantStepper<'a> {
    alloc: Global,
    model: &'a Model,
    system: &'a StepSystem,
    solver: Solver,
}

impl<'a> marker::Model for PlantStepper<'a> {
    ghost use Rattle.lv_model.specs.declared.plant.Plant.{Plant};
    ghost use Rattle.std.specs.Coded.{codes};
    ghost use Rattle.lv_model.specs.lv_base.contracts.formula.Condition as condition;
    ghost use Rattle.lv_plant_step.specs.Finding.{IsStepper};

    ghost Value = { Plant };

    ghost coded = { Prim.hlevel (codes, condition.the_row.coded) };

    ghost view = { λ s. s.model.now };

    ghost invariant = { λ s. IsStepper s.model.now s.system.now s.solver.set };
}

/// The values before a step and those after it, one behind the other, as truth values encode them.
fn values_of(alloc: Global, system: &StepSystem, truth: &[bool]) -> Result<Seq<ValId>, AllocError>
    requires whole { length truth.now ≡ system.now.set.bools }
    requires satisfied { IsTrue (satisfies truth.now system.now.set.slots) }
    ensures { IfOk result (AreDecoded system.now truth.now) }
{
    let step = system.decode(alloc, truth)?;
    let mut values = Vec::from_slice(alloc, step.now.as_slice())?;
    values.extend_from_slice(step.next.as_slice())?;
    Ok(Seq::from_vec(values))
}

/// The step of these values, of which so many are of before it.
fn split(alloc: Global, width: usize, values: &[ValId]) -> Result<PlantStep, AllocError>
    requires { width ≤ length values.now }
    ensures { IfOk result (λ step. step ≡ record { before = take width values.now; after = drop width values.now }) }
{
    Ok(PlantStep {
        before: Seq::from_slice(alloc, &values[..width])?,
        after: Seq::from_slice(alloc, &values[width..])?,
    })
}

impl<'a> PlantStepper<'a> {
    /// Of a model and its own system.
    pub fn new(
        alloc: Global,
        model: &'a Model,
        system: &'a StepSystem,
    ) -> Result<PlantStepper<'a>, AllocError>
        requires { IsSystemOf model.now system.now }
        ensures { IfOk result (λ stepper. stepper ≡ model.now) }
    {
        let solver = Solver::new(alloc, system.clauses())?;
        Ok(PlantStepper {
            alloc,
            model,
            system,
            solver,
        })
    }

    /// A step that is as assumed, if there is one.
    fn lead_with(&mut self, assumed: Assumed) -> Result<Option<Lead>, AllocError>
        requires { assumed.bools ≡ bool_count self.old }
        ensures leads { (asked : Asked) (front : List ValId) → Asks self.old asked front assumed → IfOk result (LeadsTo self.old asked front) }
        ensures ranged { IfOk result (λ lead. IfSome lead (CanLead self.old)) }
        ensures kept { self.new ≡ self.old }
    {
        let _plant = self.model.plant();
        match assumed.solve(&mut self.solver)? {
            Some(truth) => {
                let values = values_of(self.alloc, self.system, truth.as_slice())?;
                Ok(Some(Lead { assumed, values }))
            }
            None => Ok(None),
        }
    }

    /// A step that is as asked, if there is one.
    fn begin(&mut self, asked: &Asked) -> Result<Option<Lead>, AllocError>
        requires { AskedFits self.old asked.now }
        ensures leads { IfOk result (LeadsTo self.old asked.now []) }
        ensures ranged { IfOk result (λ lead. IfSome lead (CanLead self.old)) }
        ensures kept { self.new ≡ self.old }
    {
        let mut assumed = Assumed::new(self.alloc, self.system.clauses().bools())?;
        let lits = asked_literals(self.alloc, self.model, self.system, asked)?;
        assume_all(&mut assumed, lits.as_slice())?;
        self.lead_with(assumed)
    }

    /// The literal that the value at a place is this one.
    fn literal(&self, place: usize, val: ValId) -> Lit
        requires { val.0 < slice_index_or (places self.now) place 0 }
        ensures { result ≡ place_literal (booleans_now self.now) (booleans_next self.now) place val.0 }
    {
        place_literal(self.system, place, val)
    }

    /// The same with this value at a place: a step that is so, if there is one.
    fn lead_by(&mut self, lead: &Lead, place: usize, val: ValId) -> Result<Option<Lead>, AllocError>
        requires can { CanLead self.old lead.now }
        requires below { val.0 < slice_index_or (places self.old) place 0 }
        ensures leads { (asked : Asked) → IsLed self.old asked place lead.now → IfOk result (LeadsTo self.old asked (take place lead.now.values ++ val ∷ [])) }
        ensures ranged { IfOk result (λ lead. IfSome lead (CanLead self.old)) }
        ensures kept { self.new ≡ self.old }
    {
        let mut assumed = lead.assumed.copied(self.alloc)?;
        assumed.assume(self.literal(place, val))?;
        self.lead_with(assumed)
    }

    /// Settles the value at a place: the first with which there is a step that has the values settled before. Of these
    /// values the last step that was found has one, so that only smaller ones are asked for.
    fn settle(&mut self, lead: &mut Lead, place: usize) -> Result<(), AllocError>
        requires can { CanLead self.old lead.old }
        requires place { place < length (places self.old) }
        ensures led { (asked : Asked) → IsLed self.old asked place lead.old → OnOk result (IsLed self.old asked (place + 1) lead.new) }
        ensures can { OnOk result (CanLead self.old lead.new) }
        ensures kept { self.new ≡ self.old }
    {
        let last = lead.values.as_slice()[place];
        for v in 0..last.0 {
            if let Some(earlier) = self.lead_by(lead, place, ValId(v))? {
                *lead = earlier;
                return Ok(());
            }
        }
        lead.assumed.assume(self.literal(place, last))
    }

    /// Settles all values, one after the other.
    fn settle_all(&mut self, lead: &mut Lead) -> Result<(), AllocError>
        requires { CanLead self.old lead.old }
        ensures led { (asked : Asked) → IsLed self.old asked 0 lead.old → OnOk result (IsLed self.old asked (length (places self.old)) lead.new) }
        ensures can { OnOk result (CanLead self.old lead.new) }
        ensures kept { self.new ≡ self.old }
    {
        for place in 0..lead.values.len() {
            self.settle(lead, place)?;
        }
        Ok(())
    }

    /// The step that the plant takes where this is asked, or none where no step is so.
    pub fn first_step(&mut self, asked: &Asked) -> Result<Option<PlantStep>, AllocError>
        requires { AskedFits self.old asked.now }
        ensures step { IfOk result (λ step. step ≡ plant_step self.old asked.now) }
        ensures kept { self.new ≡ self.old }
    {
        let Some(mut lead) = self.begin(asked)? else {
            return Ok(None);
        };
        self.settle_all(&mut lead)?;
        let width = self.system.bools_at(Moment::Now).sizes().len();
        Ok(Some(split(self.alloc, width, lead.values.as_slice())?))
    }
}
