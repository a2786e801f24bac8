//! What a request does to the state of a session.
#![tactic(auto)]

ghost use Rattle.std.specs.Prelude.{◌≡◌, IfOk, OnOk, OnErr};
ghost use Rattle.lv_session_state.specs.lv_session_request.Requests.{IsRequestOf};
ghost use Rattle.lv_session.specs.Session.{carried_out};
ghost use Rattle.lv_session.specs.Kept.{IsCaredFor, IsLabellerOf, IsReady};

use crate::certificates::certificate;
use crate::compiled::CompiledModel;
use crate::labels::{labels, labels_from};
use crate::probes::probe;
use crate::workings::Workings;
use lv_reply::Reply;
use lv_session_state::{Request, State};
use std::alloc::{AllocError, Global};

/// Does what is asked for, where this is kept of the current query. After want of memory the state is as it was.
pub(crate) fn carry_out<'a>(
    alloc: Global,
    compiled: &'a CompiledModel<'a>,
    workings: &mut Workings<'a>,
    state: &mut State,
    request: Request,
) -> Result<Reply, AllocError>
    requires ready { IsReady compiled.now state.old workings.old }
    requires request { IsRequestOf compiled.now request }
    ensures ok { IfOk result (λ reply. record { state = state.new; reply = reply } ≡ carried_out compiled.now state.old request) }
    ensures err { OnErr result (state.new ≡ state.old) }
    ensures running { OnOk result (IsCaredFor request compiled.now state.new workings.old.running workings.new.running) }
    ensures labeller { IsLabellerOf compiled.now workings.new.labeller }
{
    let (model, system) = (compiled.model(), compiled.system());
    let Workings {
        running,
        labeller,
        ..
    } = workings;
    match request {
        Request::Nothing => Ok(Reply::Nothing),
        Request::Track(n) => Ok(state.track(n, false)),
        Request::TrackDistinct(n) => Ok(state.track(n, true)),
        Request::SetBudget(n) => Ok(state.set_budget(n)),
        Request::SetControl(command) => Ok(state.set_control(command)),
        Request::Release(place) => Ok(state.release(place)),
        Request::Observe(sighting) => state.observe(sighting),
        Request::Retract(name) => Ok(state.retract(name.as_slice())),
        Request::RetractAt(retraction) => Ok(state.retract_at(&retraction.into_value())),
        Request::SetGoal(goal) => state.set_goal(goal.into_value()),
        Request::DropGoal(name) => Ok(state.drop_goal(name.as_slice())),
        Request::Diagnose => state.diagnose(alloc, model, system, running),
        Request::Recover => state.recover(alloc, model, system, running),
        Request::More(n) => state.more(alloc, model, running, n),
        Request::Commit => state.commit(alloc, model, running),
        Request::Conflicts => state.conflicts(alloc, model, running),
        Request::Certificate => Ok(certificate(state, model, running)),
        Request::Labels => labels(state, alloc, compiled, labeller),
        Request::LabelsFrom(n) => labels_from(state, alloc, compiled, labeller, n),
        Request::States => state.states(alloc),
        Request::Reset => state.reset(alloc, model),
        Request::Quit => Ok(state.quit()),
        Request::Probe => probe(state, alloc, compiled, running),
        Request::Test(var) => state.test(alloc, model, system, running, var),
        Request::Window(steps) => state.look_back(alloc, model, running, steps),
    }
}
