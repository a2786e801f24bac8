//! What one observation more would leave of the current diagnosis.
#![tactic(auto)]

ghost use Rattle.std.specs.Prelude.{◌≡◌, IfOk, All, map};
ghost use Rattle.lv_boxes.specs.Walk.{candidate_of};
ghost use Rattle.lv_probe.specs.Probing.{IsFull};
ghost use Rattle.lv_session.specs.Session.{probed, probe};
ghost use Rattle.lv_session_state.specs.States.{IsStateOf};
ghost use Rattle.lv_session_state.specs.Current.{IsCurrent};

use crate::compiled::CompiledModel;
use lv_base::{Rank, Seq};
use lv_boxes::Outcome;
use lv_probe::{Probing, best};
use lv_reply::{Refusal, Reply};
use lv_session_state::{Query, Running, State};
use std::alloc::{AllocError, Global};

/// What it would leave of these candidates.
fn probed(
    state: &State,
    alloc: Global,
    compiled: &CompiledModel<'_>,
    listed: &[Rank],
) -> Result<Reply, AllocError>
    requires state { IsStateOf compiled.now state.now }
    requires full { All (IsFull compiled.now) (map candidate_of listed.now) }
    ensures { IfOk result (λ reply. record { state = state.now; reply = reply } ≡ probed compiled.now state.now listed.now) }
{
    if listed.is_empty() {
        return Ok(Reply::Refused(Refusal::NothingListed));
    }
    let facts = state.facts(alloc)?;
    let probing = Probing {
        model: compiled.model(),
        system: compiled.system(),
        kinds: compiled.lists().classes.as_slice(),
    };
    let observables = probing.probe(alloc, facts, listed)?;
    let count = listed.len() as u64;
    let chosen = best(count, observables.as_slice());
    Ok(Reply::Probed(count, Seq::from_vec(observables), chosen))
}

/// The same of the current diagnosis, if it is settled.
pub(crate) fn probe(
    state: &State,
    alloc: Global,
    compiled: &CompiledModel<'_>,
    running: &Running<'_>,
) -> Result<Reply, AllocError>
    requires state { IsStateOf compiled.now state.now }
    requires running { IsCurrent compiled.now state.now running.now }
    ensures { IfOk result (λ reply. record { state = state.now; reply = reply } ≡ probe state.now.query compiled.now state.now) }
{
    match state.query() {
        Query::Absent => Ok(Reply::Refused(Refusal::NoQuery)),
        Query::Diagnosis(_) => match running.outcome() {
            Outcome::Settled => probed(state, alloc, compiled, running.listed()),
            Outcome::Unsettled => Ok(Reply::Refused(Refusal::NoQuery)),
        },
        Query::Recovery(_) => Ok(Reply::Refused(Refusal::NoQuery)),
        Query::Test(_, _) => Ok(Reply::Refused(Refusal::NoQuery)),
        Query::Window(_, _) => Ok(Reply::Refused(Refusal::NoQuery)),
    }
}
