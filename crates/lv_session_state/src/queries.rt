//! The current query, be it a diagnosis, a recovery, a test or a window: asked, gone on with, shown and taken over, and
//! whether it is settled.
//!
//! What a query comes to is the walk of its definition; the search that is kept beside the state has come to the same, and
//! goes on from there.
#![tactic(auto)]

ghost use Rattle.std.specs.Prelude.{◌≡◌, ◌≤◌, ◌+◌, ◌<◌, ◌^◌, IfOk, OnOk, OnErr};
ghost use Rattle.lv_base.specs.declared.limits.TheConstants.{BUDGET};
ghost use Rattle.lv_session_state.specs.State.{trials, sum_of, with_more, asked, more, conflicts, commit, is_settled_by, is_settled, is_asked, is_unsettled};
ghost use Rattle.lv_session_state.specs.States.{IsStateOf};
ghost use Rattle.lv_session_state.specs.Current.{kept_walk, IsOn, IsKeptOf, IsCurrent, KeepsSolverOf, IsWorking};

use crate::query::Query;
use crate::replies::{conflicts, reply_to};
use crate::running::Running;
use crate::state::State;
use lv_boxes::Outcome;
use lv_model::Model;
use lv_reply::{Refusal, Reply};
use std::alloc::{AllocError, Global};

/// Whether a query with this outcome is settled.
fn is_settled_by(outcome: Outcome) -> bool
    ensures { result ≡ is_settled_by outcome }
{
    match outcome {
        Outcome::Settled => true,
        Outcome::Unsettled => false,
    }
}

/// Whether a query is current.
fn is_asked(query: Query) -> bool
    ensures { result ≡ is_asked query }
{
    !matches!(query, Query::Absent)
}

impl State {
    /// Whether the current query is settled, where this is kept of it.
    pub fn is_settled(&self, model: &Model, running: &Running<'_>) -> bool
        requires { IsCurrent model.now self.now running.now }
        ensures { result ≡ is_settled self.now.query model.now self.now }
    {
        is_asked(self.query) && is_settled_by(running.outcome())
    }

    /// Whether a query is current that `more` goes on with, where this is kept of it.
    pub fn is_unsettled(&self, model: &Model, running: &Running<'_>) -> bool
        requires { IsCurrent model.now self.now running.now }
        ensures { result ≡ is_unsettled model.now self.now }
    {
        !self.is_ended && is_asked(self.query) && !self.is_settled(model, running)
    }

    /// Runs the search that is on the walk of this query with so many trials more, which make up the query's sum.
    fn run_on(
        &self,
        model: &Model,
        running: &mut Running<'_>,
        query: Query,
        n: u64,
    ) -> Result<(), AllocError>
        requires on { IsOn query model.now self.now running.old }
        requires sum { trials (kept_walk running.old) + n ≡ sum_of query }
        requires room { trials (kept_walk running.old) + n < 2 ^ 64 }
        requires solver { KeepsSolverOf model.now running.old }
        ensures kept { OnOk result (IsKeptOf query model.now self.now running.new) }
        ensures solver { OnOk result (KeepsSolverOf model.now running.new) }
    {
        match running {
            Running::Diagnosis(run) => {
                run.outcome = run.query.run(n)?;
                Ok(())
            }
            Running::Recovery(run) => {
                run.outcome = run.query.run(n)?;
                Ok(())
            }
            Running::Test(run) => {
                run.outcome = run.query.run(n)?;
                Ok(())
            }
            Running::Window(run) => {
                run.outcome = run.query.run(n)?;
                Ok(())
            }
            Running::Nothing => Ok(()),
        }
    }

    /// Runs the search that is on the walk of this query with so many trials more, which make up the query's sum; the query
    /// becomes the current one.
    pub(crate) fn ask(
        &mut self,
        alloc: Global,
        model: &Model,
        running: &mut Running<'_>,
        query: Query,
        n: u64,
    ) -> Result<Reply, AllocError>
        requires on { IsOn query model.now self.old running.old }
        requires sum { trials (kept_walk running.old) + n ≡ sum_of query }
        requires room { trials (kept_walk running.old) + n < 2 ^ 64 }
        requires solver { KeepsSolverOf model.now running.old }
        ensures ok { IfOk result (λ reply. record { state = self.new; reply = reply } ≡ asked query model.now self.old) }
        ensures err { OnErr result (self.new ≡ self.old) }
        ensures running { OnOk result (IsWorking model.now self.new running.new) }
    {
        self.run_on(model, running, query, n)?;
        let reply = reply_to(alloc, query, running)?;
        self.query = query;
        Ok(reply)
    }

    /// The current query with more trials, if it isn't settled.
    pub fn more(
        &mut self,
        alloc: Global,
        model: &Model,
        running: &mut Running<'_>,
        n: u64,
    ) -> Result<Reply, AllocError>
        requires state { IsStateOf model.now self.old }
        requires running { IsCurrent model.now self.old running.old }
        requires solver { KeepsSolverOf model.now running.old }
        requires few { n ≤ BUDGET }
        ensures ok { IfOk result (λ reply. record { state = self.new; reply = reply } ≡ more self.old.query model.now self.old n) }
        ensures err { OnErr result (self.new ≡ self.old) }
        ensures running { OnOk result (IsWorking model.now self.new running.new) }
    {
        let _plant = model.plant();
        if !is_asked(self.query) || self.is_settled(model, running) {
            return Ok(Reply::Refused(Refusal::NotUnsettled));
        }
        let _made = running.trials();
        let query = self.query.with_more(n);
        self.ask(alloc, model, running, query, n)
    }

    /// The conflicts that the current query kept.
    pub fn conflicts(
        &self,
        alloc: Global,
        model: &Model,
        running: &Running<'_>,
    ) -> Result<Reply, AllocError>
        requires state { IsStateOf model.now self.now }
        requires running { IsCurrent model.now self.now running.now }
        ensures { IfOk result (λ reply. record { state = self.now; reply = reply } ≡ conflicts self.now.query model.now self.now) }
    {
        if !is_asked(self.query) {
            return Ok(Reply::Refused(Refusal::NoQuery));
        }
        let kept = conflicts(alloc, running)?;
        let trials = running.trials();
        match self.query {
            Query::Absent => Ok(Reply::Refused(Refusal::NoQuery)),
            Query::Diagnosis(_) => Ok(Reply::Conflicts(kept, trials)),
            Query::Recovery(_) => Ok(Reply::CommandConflicts(kept, trials)),
            Query::Test(_, _) => Ok(Reply::CommandConflicts(kept, trials)),
            Query::Window(steps, _) => {
                Ok(Reply::WindowConflicts(self.window_start(steps), kept, trials))
            }
        }
    }

    /// Takes a settled diagnosis over, or what a settled window led to, if one is current.
    pub fn commit(
        &mut self,
        alloc: Global,
        model: &Model,
        running: &Running<'_>,
    ) -> Result<Reply, AllocError>
        requires state { IsStateOf model.now self.old }
        requires running { IsCurrent model.now self.old running.now }
        ensures ok { IfOk result (λ reply. record { state = self.new; reply = reply } ≡ commit self.old.query model.now self.old) }
        ensures err { OnErr result (self.new ≡ self.old) }
    {
        let _plant = model.plant();
        if !self.is_settled(model, running) {
            return Ok(Reply::Refused(Refusal::NoQuery));
        }
        match self.query {
            Query::Diagnosis(_) => self.take_over(alloc, model, running.listed()),
            Query::Window(_, _) => self.take_over_last(alloc, model, running.listed()),
            Query::Absent => Ok(Reply::Refused(Refusal::NoQuery)),
            Query::Recovery(_) => Ok(Reply::Refused(Refusal::NoQuery)),
            Query::Test(_, _) => Ok(Reply::Refused(Refusal::NoQuery)),
        }
    }
}
