//! What is kept of the current query from line to line, so that it goes on where it stopped.
#![tactic(auto)]

ghost use Rattle.std.specs.Prelude.{◌≡◌, ◌≤◌, ◌+◌, ◌<◌, ◌^◌, IfOk, IfSome, length};
ghost use Rattle.lv_base.specs.declared.limits.TheConstants.{TRACKED, BUDGET};
ghost use Rattle.lv_model.specs.declared.plant.Plant.{Plant};
ghost use Rattle.lv_boxes.specs.declared.outcome.Outcome.TheVariants.{Unsettled};
ghost use Rattle.lv_session_state.specs.State.{trials};
ghost use Rattle.lv_session_state.specs.Current.{kept_walk, KeepsSolverOf};
ghost use Rattle.lv_ident.specs.Trial.{IsSolverOf};

use lv_base::{Conflict, Rank};
use lv_boxes::Outcome;
use lv_ident::{LemmaSolver, Query, QueryEffort};
use lv_reconf::{Query as RecoveryQuery, TestQuery};
use lv_window::WindowQuery;
use std::alloc::{AllocError, Global};
use std::mem;

/// A query's search, and what its last run came to: before the first it is unsettled. Beside it lies the solver of an earlier
/// diagnosis where it has no use for that itself, so that the next one need not make one.
#[derive(Drop)]
pub struct Asked<Q> {
    pub query: Q,
    pub outcome: Outcome,
    pub spare: Option<LemmaSolver>,
}

pub type Diagnosed<'a> = Asked<Query<'a>>;

pub type Recovering<'a> = Asked<RecoveryQuery<'a>>;

pub type Testing<'a> = Asked<TestQuery<'a>>;

pub type Tracing<'a> = Asked<WindowQuery<'a>>;

/// What is kept of the current query, in a box, so that whoever holds it holds little. Where no query is current, what is
/// kept means nothing.
#[derive(Drop)]
pub enum Running<'a> {
    Nothing,
    Diagnosis(Box<Diagnosed<'a>>),
    Recovery(Box<Recovering<'a>>),
    Test(Box<Testing<'a>>),
    Window(Box<Tracing<'a>>),
}

/// A query that hasn't run, in a box, which is let go of with less to check than what lies in it.
pub(crate) fn unrun<Q: Drop>(
    alloc: Global,
    query: Q,
    spare: Option<LemmaSolver>,
) -> Result<Box<Asked<Q>>, AllocError>
    ensures query { IfOk result (λ asked. asked.value.query ≡ query) }
    ensures outcome { IfOk result (λ asked. asked.value.outcome ≡ Unsettled) }
    ensures spare { IfOk result (λ asked. asked.value.spare ≡ spare) }
{
    let asked = Asked {
        query,
        outcome: Outcome::Unsettled,
        spare,
    };
    Ok(Box::new(alloc, asked)?)
}

impl Running<'_> {
    /// The solver of the last diagnosis, if there is one, for the next. A diagnosis that is kept is let go of.
    pub(crate) fn take_solver(&mut self) -> Option<LemmaSolver>
        ensures { (plant : Plant) → KeepsSolverOf plant self.old → IfSome result (IsSolverOf plant) }
    {
        match self {
            Running::Diagnosis(_) => self.take_diagnosis(),
            Running::Recovery(run) => run.spare.take(),
            Running::Test(run) => run.spare.take(),
            Running::Window(run) => run.spare.take(),
            Running::Nothing => None,
        }
    }

    /// The solver of a diagnosis, which is taken apart. Of no other query, since each that a function can take apart is one
    /// more to check.
    fn take_diagnosis(&mut self) -> Option<LemmaSolver>
        ensures { (plant : Plant) → KeepsSolverOf plant self.old → IfSome result (IsSolverOf plant) }
    {
        match mem::replace(self, Running::Nothing) {
            Running::Diagnosis(run) => Some(Box::into_inner(run).query.into_solver()),
            _ => None,
        }
    }

    /// What its last run came to.
    pub fn outcome(&self) -> Outcome
        ensures { result ≡ (kept_walk self.now).outcome }
    {
        match self {
            Running::Diagnosis(run) => run.outcome,
            Running::Recovery(run) => run.outcome,
            Running::Test(run) => run.outcome,
            Running::Window(run) => run.outcome,
            Running::Nothing => Outcome::Unsettled,
        }
    }

    /// What it listed. Takes no memory.
    pub fn listed(&self) -> &[Rank]
        ensures { result.now ≡ (kept_walk self.now).listed }
    {
        match self {
            Running::Diagnosis(run) => run.query.search().listed(),
            Running::Recovery(run) => run.query.search().listed(),
            Running::Test(run) => run.query.search().listed(),
            Running::Window(run) => run.query.search().listed(),
            Running::Nothing => &[],
        }
    }

    /// The conflicts that it kept. Takes no memory.
    pub fn conflicts(&self) -> &[Conflict]
        ensures { result.now ≡ (kept_walk self.now).kept }
    {
        match self {
            Running::Diagnosis(run) => run.query.search().conflicts(),
            Running::Recovery(run) => run.query.search().conflicts(),
            Running::Test(run) => run.query.search().conflicts(),
            Running::Window(run) => run.query.search().conflicts(),
            Running::Nothing => &[],
        }
    }

    /// How many trials it made.
    pub(crate) fn trials(&self) -> u64
        ensures trials { result ≡ trials (kept_walk self.now) }
        ensures room { length (kept_walk self.now).listed ≤ TRACKED → result + BUDGET < 2 ^ 64 }
    {
        self.listed().len() as u64 + self.conflicts().len() as u64
    }

    /// What a diagnosis did so far, where it is one. Takes no memory.
    pub fn effort(&self) -> Option<QueryEffort> {
        match self {
            Running::Diagnosis(run) => Some(run.query.effort()),
            Running::Recovery(_) | Running::Test(_) | Running::Window(_) | Running::Nothing => None,
        }
    }
}
