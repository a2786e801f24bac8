//! Windows of the last steps: asked for, and taken over.
#![tactic(auto)]

ghost use Rattle.std.specs.Prelude.{◌≡◌, ◌≤◌, IfOk, OnOk, OnErr, map};
ghost use Rattle.lv_base.specs.declared.limits.TheConstants.{COMMITS};
ghost use Rattle.lv_session_state.specs.State.{window_base, window_facts, window_start, look_back, last_step, taken_over};
ghost use Rattle.lv_session_state.specs.States.{IsStateOf, IsListOf};
ghost use Rattle.lv_session_state.specs.Current.{untraced, IsCurrent, KeepsSolverOf, IsWorking};
ghost use Rattle.lv_window.specs.Query.{IsWindowQueryOf};

use crate::query::Query;
use crate::running::{Running, unrun};
use crate::state::State;
use lv_base::{Rank, Seq};
use lv_meaning::Facts;
use lv_model::{Model, Plant};
use lv_reply::{Refusal, Reply};
use lv_session_history::{facts_on, tracked_before};
use lv_tracker::Tracked;
use lv_window::{WindowQuery, window};
use std::alloc::{AllocError, Global};

/// The last step of a trajectory, at what the whole cost.
fn last_step(alloc: Global, plant: &Plant, rank: &Rank) -> Result<Rank, AllocError>
    ensures { IfOk result (λ last. last ≡ last_step plant.now rank.now) }
{
    let choices = rank.choices.as_slice();
    let first = choices.len().saturating_sub(plant.parts.len());
    Ok(Rank {
        cost: rank.cost,
        source: rank.source,
        choices: Seq::from_slice(alloc, &choices[first..])?,
    })
}

/// The last steps of trajectories.
fn last_steps(alloc: Global, plant: &Plant, listed: &[Rank]) -> Result<Vec<Rank>, AllocError>
    ensures { IfOk result (λ out. out.items ≡ map (last_step plant.now) listed.now) }
{
    let mut out = Vec::new(alloc);
    for rank in listed {
        out.push(last_step(alloc, plant, rank)?)?;
    }
    Ok(out)
}

impl State {
    /// The tracked states that the last so many steps start from.
    fn window_base(&self, steps: u32) -> &Tracked
        ensures { result.now ≡ window_base self.now steps }
    {
        tracked_before(self.history.commits_in(steps), &self.tracked)
    }

    /// What is known of each of the last so many steps, the oldest first.
    fn window_facts(&self, alloc: Global, steps: u32) -> Result<Vec<Facts>, AllocError>
        ensures { IfOk result (λ out. out.items ≡ window_facts self.now steps) }
    {
        let last = self.facts(alloc)?;
        facts_on(alloc, self.history.commits_in(steps), &self.present, last)
    }

    /// The time from which the first of the last so many steps starts.
    pub(crate) fn window_start(&self, steps: u32) -> u32
        requires { self.now.time ≤ COMMITS }
        ensures { result ≡ window_start self.now steps }
    {
        let commits = self.history.commits_in(steps).len() as u64;
        self.time.saturating_sub(commits) as u32
    }

    /// A window over so many steps that has tried nothing.
    fn untraced<'a>(
        &self,
        alloc: Global,
        model: &'a Model,
        steps: u32,
    ) -> Result<WindowQuery<'a>, AllocError>
        requires { IsStateOf model.now self.now }
        ensures start { IfOk result (λ query. query ≡ untraced model.now self.now steps) }
        ensures query { IfOk result (λ query. IsWindowQueryOf (window_base self.now steps) query) }
    {
        let facts = self.window_facts(alloc, steps)?;
        let base = self.window_base(steps);
        window(alloc, model, base.as_slice(), facts, self.k)
    }

    /// A window over so many steps with the budget, if as many are kept.
    pub fn look_back<'a>(
        &mut self,
        alloc: Global,
        model: &'a Model,
        running: &mut Running<'a>,
        steps: u32,
    ) -> Result<Reply, AllocError>
        requires state { IsStateOf model.now self.old }
        requires running { IsCurrent model.now self.old running.old }
        requires solver { KeepsSolverOf model.now running.old }
        ensures ok { IfOk result (λ reply. record { state = self.new; reply = reply } ≡ look_back model.now self.old steps) }
        ensures err { OnErr result (self.new ≡ self.old) }
        ensures running { OnOk result (IsWorking model.now self.new running.new) }
    {
        if !self.history.has_steps(steps) {
            return Ok(Reply::Refused(Refusal::OutOfLimits));
        }
        let query = self.untraced(alloc, model, steps)?;
        let run = unrun(alloc, query, running.take_solver())?;
        *running = Running::Window(run);
        let budget = self.budget();
        self.ask(alloc, model, running, Query::Window(steps, budget), budget)
    }

    /// Takes over what these trajectories led to.
    pub(crate) fn take_over_last(
        &mut self,
        alloc: Global,
        model: &Model,
        listed: &[Rank],
    ) -> Result<Reply, AllocError>
        requires state { IsStateOf model.now self.old }
        requires list { IsListOf model.now self.old (map (last_step model.now) listed.now) }
        ensures ok { IfOk result (λ reply. record { state = self.new; reply = reply } ≡ taken_over model.now self.old (map (last_step model.now) listed.now)) }
        ensures err { OnErr result (self.new ≡ self.old) }
    {
        let last = last_steps(alloc, model.plant(), listed)?;
        self.take_over(alloc, model, last.as_slice())
    }
}
