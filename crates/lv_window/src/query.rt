//! A window's query: the search for the first trajectories that are possible, which can be gone on with.
#![tactic(auto)]

ghost use Rattle.std.specs.Prelude.{◌≡◌, ◌+◌, ◌<◌, ◌≤◌, ◌^◌, [], None, true, List, All, IfOk, length};
ghost use Rattle.lv_base.specs.declared.limits.TheConstants.{TRACKED};
ghost use Rattle.lv_compile.specs.declared.windows.TheConstants.{WINDOW};
ghost use Rattle.lv_model.specs.declared.state.TrackedState.{TrackedState};
ghost use Rattle.lv_boxes.specs.declared.outcome.Outcome.TheVariants.{Settled};
ghost use Rattle.lv_meaning.specs.Candidates.{IsTracked};
ghost use Rattle.lv_search.specs.Standing.{trials_of, all_suit};
ghost use Rattle.lv_window.specs.Trajectories.{trajectories};
ghost use Rattle.lv_window.specs.Walk.{window_walk, first_trajectories};
ghost use Rattle.lv_window.specs.Joints.{is_full_window};
ghost use Rattle.lv_window.specs.Known.{StepFits};
ghost use Rattle.lv_window.specs.Query.{IsWindowQueryOf};

use crate::joints::joints;
use crate::trial::WindowTrial;
use crate::zones::{window_grid, window_zones};
use lv_guide::Guide;
use lv_meaning::Facts;
use lv_model::{Model, TrackedState};
use lv_sat::Effort;
use lv_search::{Outcome, Search};
use std::alloc::{AllocError, Global};
use std::marker;

/// A search for the first trajectories of tracked states that are possible. Contracts see the plant, what is known of each
/// step, and where the search stands.
#[derive(Drop)]
pub struct WindowQuery<'a> {
    trial: WindowTrial<'a>,
    search: Search<Guide>,
}

impl<'a> marker::Model for WindowQuery<'a> {
    ghost use Rattle.std.specs.Coded.{codes};
    ghost use Rattle.lv_model.specs.lv_base.contracts.formula.Condition as condition;
    ghost use Rattle.lv_window.specs.Query.{WindowQueryValue};

    ghost Value = { WindowQueryValue };

    ghost coded = { Prim.hlevel (codes, condition.the_row.coded) };

    ghost view = { λ q. record { plant = q.trial.plant; steps = q.trial.steps; standing = q.search.standing } };
}

/// The search along the trajectories of the tracked states over so many steps, which has tried none.
fn search_of(
    alloc: Global,
    model: &Model,
    tracked: &[TrackedState],
    steps: u32,
    k: u32,
) -> Result<Search<Guide>, AllocError>
    requires some { 1 ≤ steps }
    requires few_steps { steps ≤ WINDOW }
    requires few { length tracked.now ≤ TRACKED }
    requires states { All (IsTracked (length model.now.parts)) tracked.now }
    ensures { IfOk result (λ search. search.standing ≡ record { k = k; groups = None; listed = []; kept = []; left = trajectories model.now steps tracked.now }) }
{
    let _plant = model.plant();
    let grid = window_grid(alloc, model, steps)?;
    let zones = window_zones(alloc, model, tracked, steps - 1)?;
    let known = joints(alloc, model, steps - 1)?;
    let left = Guide::new_with(alloc, grid, zones, known)?;
    Search::new(alloc, left, k)
}

/// A query that has tried nothing.
fn started<'a>(
    alloc: Global,
    model: &'a Model,
    steps: Vec<Facts>,
    search: Search<Guide>,
) -> Result<WindowQuery<'a>, AllocError>
    requires some { 1 ≤ length steps.items }
    requires few { length steps.items ≤ WINDOW }
    requires fits { All (StepFits model.now) steps.items }
    ensures { IfOk result (λ query. query ≡ record { plant = model.now; steps = steps.items; standing = search.standing }) }
{
    match WindowTrial::new(alloc, model, steps) {
        Ok(trial) => Ok(WindowQuery { trial, search }),
        Err(error) => {
            drop(search);
            Err(error)
        }
    }
}

/// A query that has tried nothing, for the first `k` trajectories of the tracked states that are possible by what is known of
/// each of one to four steps, the oldest first: what was seen between two steps stands with the one before as next, with the
/// one behind as present. What is known may contradict itself.
pub fn window<'a>(
    alloc: Global,
    model: &'a Model,
    tracked: &[TrackedState],
    steps: Vec<Facts>,
    k: u32,
) -> Result<WindowQuery<'a>, AllocError>
    requires some { 1 ≤ length steps.items }
    requires few_steps { length steps.items ≤ WINDOW }
    requires few { length tracked.now ≤ TRACKED }
    requires states { All (IsTracked (length model.now.parts)) tracked.now }
    requires fits { All (StepFits model.now) steps.items }
    ensures start { IfOk result (λ query. query ≡ record { plant = model.now; steps = steps.items; standing = record { k = k; groups = None; listed = []; kept = []; left = trajectories model.now (length steps.items) tracked.now } }) }
    ensures query { IfOk result (λ query. IsWindowQueryOf tracked.now query) }
{
    let count = steps.as_slice().len() as u32;
    let search = search_of(alloc, model, tracked, count, k)?;
    started(alloc, model, steps, search)
}

impl<'a> WindowQuery<'a> {
    /// Goes on with `more` trials at most. A query of some tracked states is then at the end of their walk for the sum of all
    /// trials given so far, and can go on; where that is settled it lists the first trajectories that are possible. After want
    /// of memory it is only dropped.
    pub fn run(&mut self, more: u64) -> Result<Outcome, AllocError>
        requires number { trials_of self.old.standing + more < 2 ^ 64 }
        requires suit { all_suit (is_full_window self.old.plant (length self.old.steps)) self.old.standing ≡ true }
        ensures walk { (tracked : List TrackedState) → IsWindowQueryOf tracked self.old →
            IfOk result (λ outcome. window_walk self.old.plant self.old.steps self.old.standing.k (trials_of self.old.standing + more) (trajectories self.old.plant (length self.old.steps) tracked) ≡ record { outcome = outcome; listed = self.new.standing.listed; kept = self.new.standing.kept }) }
        ensures first { (tracked : List TrackedState) → IsWindowQueryOf tracked self.old →
            IfOk result (λ outcome. outcome ≡ Settled → self.new.standing.listed ≡ first_trajectories self.old.standing.k self.old.plant self.old.steps tracked) }
        ensures query { (tracked : List TrackedState) → IsWindowQueryOf tracked self.old → IfOk result (λ _. IsWindowQueryOf tracked self.new) }
        ensures suit { IfOk result (λ _. all_suit (is_full_window self.new.plant (length self.new.steps)) self.new.standing ≡ true) }
        ensures few { IfOk result (λ _. trials_of self.new.standing ≤ trials_of self.old.standing + more) }
        ensures plant { self.new.plant ≡ self.old.plant }
        ensures steps { self.new.steps ≡ self.old.steps }
        ensures k { IfOk result (λ _. self.new.standing.k ≡ self.old.standing.k) }
    {
        self.search.run(&mut self.trial, more)
    }

    /// The search, which tells what is listed and kept, and how many trajectories were tried. Takes no memory.
    pub fn search(&self) -> &Search<Guide>
        ensures { result.now.standing ≡ self.now.standing }
    {
        &self.search
    }

    /// What its solver did so far. Takes no memory.
    pub fn effort(&self) -> Effort {
        self.trial.effort()
    }
}
