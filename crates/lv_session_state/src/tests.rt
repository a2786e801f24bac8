//! Tests in the state as it is.
#![tactic(auto)]

ghost use Rattle.std.specs.Prelude.{◌≡◌, IfOk, OnOk, OnErr};
ghost use Rattle.lv_system.specs.System.{IsSystemOf};
ghost use Rattle.lv_session_state.specs.State.{test_aim_of, tested};
ghost use Rattle.lv_session_request.specs.Requests.{IsObservableOf};
ghost use Rattle.lv_session_state.specs.States.{IsStateOf};
ghost use Rattle.lv_session_state.specs.Current.{KeepsSolverOf, IsWorking};

use crate::query::Query;
use crate::running::{Running, unrun};
use crate::state::State;
use lv_base::{Seq, VarId};
use lv_meaning::Aim;
use lv_model::Model;
use lv_reconf::find_test;
use lv_reply::Reply;
use lv_system::StepSystem;
use lv_tracker::copies_of;
use std::alloc::{AllocError, Global};

impl State {
    /// What is asked of a test.
    pub(crate) fn test_aim(&self, alloc: Global) -> Result<Aim, AllocError>
        ensures { IfOk result (λ aim. aim ≡ test_aim_of self.now) }
    {
        Ok(Aim {
            tracked: Seq::from_vec(copies_of(alloc, self.tracked.as_slice())?),
            present: Seq::from_vec(self.present.observations(alloc)?),
            goals: Seq::from_vec(Vec::new(alloc)),
        })
    }

    /// A test with as many trials as a new query has, which becomes the current query.
    pub fn test<'a>(
        &mut self,
        alloc: Global,
        model: &'a Model,
        system: &StepSystem,
        running: &mut Running<'a>,
        var: VarId,
    ) -> Result<Reply, AllocError>
        requires state { IsStateOf model.now self.old }
        requires system { IsSystemOf model.now system.now }
        requires there { IsObservableOf model.now var }
        requires solver { KeepsSolverOf model.now running.old }
        ensures ok { IfOk result (λ reply. record { state = self.new; reply = reply } ≡ tested model.now self.old var self.old.budget) }
        ensures err { OnErr result (self.new ≡ self.old) }
        ensures running { OnOk result (IsWorking model.now self.new running.new) }
    {
        let aim = self.test_aim(alloc)?;
        let query = find_test(alloc, model, system, aim, var)?;
        let run = unrun(alloc, query, running.take_solver())?;
        *running = Running::Test(run);
        let budget = self.budget();
        self.ask(alloc, model, running, Query::Test(var, budget), budget)
    }
}
