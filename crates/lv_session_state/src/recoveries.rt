//! Recoveries of the state as it is.
#![tactic(auto)]

ghost use Rattle.std.specs.Prelude.{◌≡◌, IfOk, OnOk, OnErr};
ghost use Rattle.lv_system.specs.System.{IsSystemOf};
ghost use Rattle.lv_session_state.specs.State.{aim_of, recover};
ghost use Rattle.lv_session_state.specs.States.{IsStateOf};
ghost use Rattle.lv_session_state.specs.Current.{IsCurrent, KeepsSolverOf, IsWorking};

use crate::goals::formulas_of;
use crate::query::Query;
use crate::running::{Running, unrun};
use crate::state::State;
use lv_base::Seq;
use lv_meaning::Aim;
use lv_model::Model;
use lv_reconf::recover;
use lv_reply::{Refusal, Reply};
use lv_system::StepSystem;
use lv_tracker::copies_of;
use std::alloc::{AllocError, Global};

impl State {
    /// What is asked of a recovery.
    pub fn aim(&self, alloc: Global) -> Result<Aim, AllocError>
        ensures { IfOk result (λ aim. aim ≡ aim_of self.now) }
    {
        Ok(Aim {
            tracked: Seq::from_vec(copies_of(alloc, self.tracked.as_slice())?),
            present: Seq::from_vec(self.present.observations(alloc)?),
            goals: Seq::from_vec(formulas_of(alloc, self.goals.as_slice())?),
        })
    }

    /// A recovery with the budget, if some goal is held.
    pub fn recover<'a>(
        &mut self,
        alloc: Global,
        model: &'a Model,
        system: &StepSystem,
        running: &mut Running<'a>,
    ) -> Result<Reply, AllocError>
        requires state { IsStateOf model.now self.old }
        requires system { IsSystemOf model.now system.now }
        requires running { IsCurrent model.now self.old running.old }
        requires solver { KeepsSolverOf model.now running.old }
        ensures ok { IfOk result (λ reply. record { state = self.new; reply = reply } ≡ recover model.now self.old) }
        ensures err { OnErr result (self.new ≡ self.old) }
        ensures running { OnOk result (IsWorking model.now self.new running.new) }
    {
        if self.goals.is_empty() {
            return Ok(Reply::Refused(Refusal::NoGoal));
        }
        let aim = self.aim(alloc)?;
        let query = recover(alloc, model, system, aim)?;
        let run = unrun(alloc, query, running.take_solver())?;
        *running = Running::Recovery(run);
        let budget = self.budget();
        self.ask(alloc, model, running, Query::Recovery(budget), budget)
    }
}
