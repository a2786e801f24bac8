//! A query: the search for the first candidates that are possible under facts, which can be gone on with.
#![tactic(auto)]

ghost use Rattle.std.specs.Prelude.{◌≡◌, ◌+◌, ◌<◌, ◌≤◌, ◌^◌, [], true, List, All, IfOk, IfSome, length};
ghost use Rattle.lv_base.specs.declared.limits.TheConstants.{TRACKED};
ghost use Rattle.lv_model.specs.declared.state.TrackedState.{TrackedState};
ghost use Rattle.lv_system.specs.System.{IsSystemOf};
ghost use Rattle.lv_meaning.specs.Facts.{FactsFit, FactsInRange};
ghost use Rattle.lv_meaning.specs.Candidates.{candidates, IsTracked};
ghost use Rattle.lv_meaning.specs.Diagnosis.{diagnosis_walk};
ghost use Rattle.lv_search.specs.Standing.{trials_of, all_suit};
ghost use Rattle.lv_ident.specs.Query.{groups_for, IsQueryOf};
ghost use Rattle.lv_ident.specs.Trial.{IsSolverOf};
ghost use Rattle.lv_search_zones.specs.Moves.{is_full_choice};

use crate::trial::IdentTrial;
use lv_asking::LemmaSolver;
use lv_guide::Guide;
use lv_meaning::Facts;
use lv_model::{Model, TrackedState};
use lv_sat::Effort;
use lv_search::{Outcome, Search};
use lv_search_zones::{move_grid, move_targets, zones_of};
use lv_system::StepSystem;
use std::alloc::{AllocError, Global};
use std::marker;

/// What a query did, in counts that no clause speaks of: for measuring.
#[derive(Clone, Copy, Debug, PartialEq, Eq)]
pub struct QueryEffort {
    pub trials: u64,
    pub solver: Effort,
}

/// How many candidates are to be listed, and whether no two of one target.
#[derive(Clone, Copy, Debug, PartialEq, Eq)]
pub struct Listing {
    pub k: u32,
    pub distinct: bool,
}

/// A search for the first candidates that are possible under facts. Contracts see the plant, the facts, whether no two
/// candidates of one target are to be listed, and where the search stands.
#[derive(Drop)]
pub struct Query<'a> {
    distinct: bool,
    trial: IdentTrial<'a>,
    search: Search<Guide>,
}

impl<'a> marker::Model for Query<'a> {
    ghost use Rattle.std.specs.Coded.{codes};
    ghost use Rattle.lv_model.specs.lv_base.contracts.formula.Condition as condition;
    ghost use Rattle.lv_ident.specs.Query.{QueryValue};

    ghost Value = { QueryValue };

    ghost coded = { Prim.hlevel (codes, condition.the_row.coded) };

    ghost view = { λ q. record { plant = q.trial.plant; facts = q.trial.facts; distinct = q.distinct; standing = q.search.standing } };
}

/// The search along the candidates of the tracked states, which has tried none.
fn search_of(
    alloc: Global,
    model: &Model,
    tracked: &[TrackedState],
    listing: Listing,
) -> Result<Search<Guide>, AllocError>
    requires few { length tracked.now ≤ TRACKED }
    requires states { All (IsTracked (length model.now.parts)) tracked.now }
    ensures { IfOk result (λ search. search.standing ≡ record { k = listing.k; groups = groups_for listing.distinct model.now; listed = []; kept = []; left = candidates model.now tracked.now }) }
{
    let grid = move_grid(alloc, model)?;
    let zones = zones_of(alloc, model, tracked)?;
    if listing.distinct {
        let targets = move_targets(alloc, model)?;
        let left = Guide::new(alloc, grid, zones)?;
        Search::new_distinct(alloc, left, listing.k, targets)
    } else {
        let left = Guide::new(alloc, grid, zones)?;
        Search::new(alloc, left, listing.k)
    }
}

/// A query that has tried nothing.
fn started<'a>(
    alloc: Global,
    model: &'a Model,
    system: &StepSystem,
    spare: Option<LemmaSolver>,
    facts: Facts,
    distinct: bool,
    search: Search<Guide>,
) -> Result<Query<'a>, AllocError>
    requires system { IsSystemOf model.now system.now }
    requires spare { IfSome spare (IsSolverOf model.now) }
    requires fit { FactsFit model.now facts }
    requires in_range { FactsInRange model.now facts }
    ensures { IfOk result (λ query. query ≡ record { plant = model.now; facts = facts; distinct = distinct; standing = search.standing }) }
{
    match IdentTrial::new(alloc, model, system, spare, facts) {
        Ok(trial) => Ok(Query {
            distinct,
            trial,
            search,
        }),
        Err(error) => {
            drop(search);
            Err(error)
        }
    }
}

/// A query that has tried nothing, for the first `k` candidates of the tracked states that are possible under the facts,
/// which may contradict each other. A `distinct` one passes over a candidate which leads to the state of a listed one. The
/// solver of an earlier query of the same plant saves the making of one.
pub fn identify<'a>(
    alloc: Global,
    model: &'a Model,
    system: &StepSystem,
    spare: Option<LemmaSolver>,
    tracked: &[TrackedState],
    facts: Facts,
    listing: Listing,
) -> Result<Query<'a>, AllocError>
    requires system { IsSystemOf model.now system.now }
    requires few { length tracked.now ≤ TRACKED }
    requires states { All (IsTracked (length model.now.parts)) tracked.now }
    requires spare { IfSome spare (IsSolverOf model.now) }
    requires fit { FactsFit model.now facts }
    requires in_range { FactsInRange model.now facts }
    ensures start { IfOk result (λ query. query ≡ record { plant = model.now; facts = facts; distinct = listing.distinct; standing = record { k = listing.k; groups = groups_for listing.distinct model.now; listed = []; kept = []; left = candidates model.now tracked.now } }) }
    ensures query { IfOk result (λ query. IsQueryOf tracked.now query) }
{
    let search = search_of(alloc, model, tracked, listing)?;
    started(alloc, model, system, spare, facts, listing.distinct, search)
}

impl<'a> Query<'a> {
    /// Goes on with `more` trials at most. A query of some tracked states is then at the end of their walk for the sum of all
    /// trials given so far, and can go on. After want of memory it is only dropped.
    pub fn run(&mut self, more: u64) -> Result<Outcome, AllocError>
        requires number { trials_of self.old.standing + more < 2 ^ 64 }
        requires suit { all_suit (is_full_choice self.old.plant) self.old.standing ≡ true }
        ensures walk { (tracked : List TrackedState) → IsQueryOf tracked self.old →
            IfOk result (λ outcome. diagnosis_walk self.old.plant self.old.facts self.old.standing.k self.old.distinct (trials_of self.old.standing + more) (candidates self.old.plant tracked) ≡ record { outcome = outcome; listed = self.new.standing.listed; kept = self.new.standing.kept }) }
        ensures query { (tracked : List TrackedState) → IsQueryOf tracked self.old → IfOk result (λ _. IsQueryOf tracked self.new) }
        ensures suit { IfOk result (λ _. all_suit (is_full_choice self.new.plant) self.new.standing ≡ true) }
        ensures few { IfOk result (λ _. trials_of self.new.standing ≤ trials_of self.old.standing + more) }
        ensures plant { self.new.plant ≡ self.old.plant }
        ensures facts { self.new.facts ≡ self.old.facts }
        ensures distinct { self.new.distinct ≡ self.old.distinct }
        ensures k { IfOk result (λ _. self.new.standing.k ≡ self.old.standing.k) }
    {
        self.search.run(&mut self.trial, more)
    }

    /// The search, which tells what is listed and kept, and how many candidates were tried. Takes no memory.
    pub fn search(&self) -> &Search<Guide>
        ensures { result.now.standing ≡ self.now.standing }
    {
        &self.search
    }

    /// The solver alone, for another query of the same plant.
    pub fn into_solver(self) -> LemmaSolver
        ensures { IsSolverOf self.entry.plant result }
    {
        self.trial.into_solver()
    }

    /// What it did so far. Takes no memory.
    pub fn effort(&self) -> QueryEffort {
        QueryEffort {
            trials: self.search.trials(),
            solver: self.trial.effort(),
        }
    }
}
