//! Diagnoses of the state as it is: asked for, and taken over.
#![tactic(auto)]

ghost use Rattle.std.specs.Prelude.{◌≡◌, IfOk, IfSome, OnOk, OnErr};
ghost use Rattle.lv_system.specs.System.{IsSystemOf};
ghost use Rattle.lv_session_state.specs.State.{facts_of, diagnosed, taken_over};
ghost use Rattle.lv_session_state.specs.States.{IsStateOf, IsListOf};
ghost use Rattle.lv_session_state.specs.Current.{untried, KeepsSolverOf, IsWorking};
ghost use Rattle.lv_ident.specs.Query.{IsQueryOf};
ghost use Rattle.lv_ident.specs.Trial.{IsSolverOf};

use crate::query::Query;
use crate::running::{Running, unrun};
use crate::state::{State, resting_values};
use lv_base::Rank;
use lv_base::limits::COMMITS;
use lv_ident::{LemmaSolver, Listing, Query as Identified, identify};
use lv_meaning::Facts;
use lv_model::Model;
use lv_reply::{Refusal, Reply};
use lv_session_request::facts;
use lv_system::StepSystem;
use lv_tracker::Tracked;
use std::alloc::{AllocError, Global};

impl State {
    /// The facts of a diagnosis.
    pub fn facts(&self, alloc: Global) -> Result<Facts, AllocError>
        ensures { IfOk result (λ facts. facts ≡ facts_of self.now) }
    {
        facts(alloc, self.controls.as_slice(), &self.present, &self.next)
    }

    /// A diagnosis of the state that has tried nothing, by the solver at hand where there is one.
    fn untried<'a>(
        &self,
        alloc: Global,
        model: &'a Model,
        system: &StepSystem,
        spare: Option<LemmaSolver>,
    ) -> Result<Identified<'a>, AllocError>
        requires state { IsStateOf model.now self.now }
        requires system { IsSystemOf model.now system.now }
        requires spare { IfSome spare (IsSolverOf model.now) }
        ensures start { IfOk result (λ query. query ≡ untried model.now self.now) }
        ensures query { IfOk result (λ query. IsQueryOf self.now.tracked query) }
    {
        let facts = self.facts(alloc)?;
        let listing = Listing {
            k: self.k,
            distinct: self.distinct,
        };
        let tracked = self.tracked.as_slice();
        identify(alloc, model, system, spare, tracked, facts, listing)
    }

    /// A diagnosis with as many trials as a new query has, which becomes the current query.
    pub fn diagnose<'a>(
        &mut self,
        alloc: Global,
        model: &'a Model,
        system: &StepSystem,
        running: &mut Running<'a>,
    ) -> Result<Reply, AllocError>
        requires state { IsStateOf model.now self.old }
        requires system { IsSystemOf model.now system.now }
        requires solver { KeepsSolverOf model.now running.old }
        ensures ok { IfOk result (λ reply. record { state = self.new; reply = reply } ≡ diagnosed model.now self.old self.old.budget) }
        ensures err { OnErr result (self.new ≡ self.old) }
        ensures running { OnOk result (IsWorking model.now self.new running.new) }
    {
        let spare = running.take_solver();
        let query = self.untried(alloc, model, system, spare)?;
        let run = unrun(alloc, query, None)?;
        *running = Running::Diagnosis(run);
        let budget = self.budget();
        self.ask(alloc, model, running, Query::Diagnosis(budget), budget)
    }

    /// Takes what is listed over: it is tracked, the next observations become present, the controls rest.
    pub(crate) fn take_over(
        &mut self,
        alloc: Global,
        model: &Model,
        listed: &[Rank],
    ) -> Result<Reply, AllocError>
        requires state { IsStateOf model.now self.old }
        requires list { IsListOf model.now self.old listed.now }
        ensures ok { IfOk result (λ reply. record { state = self.new; reply = reply } ≡ taken_over model.now self.old listed.now) }
        ensures err { OnErr result (self.new ≡ self.old) }
    {
        if listed.is_empty() {
            return Ok(Reply::Refused(Refusal::NothingListed));
        }
        if COMMITS <= self.time {
            return Ok(Reply::Refused(Refusal::TooManyCommits));
        }
        let tracked = Tracked::advance(alloc, model, listed)?;
        let controls = resting_values(alloc, model)?;
        self.advance_to(alloc, tracked, controls);
        Ok(Reply::Committed(self.time, self.tracked.len() as u64))
    }
}
