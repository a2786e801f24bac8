//! A tracked state by its numbers: a cost, and a mode of each part.
#![tactic(auto)]

ghost use Rattle.std.specs.Prelude.{◌≡◌, IfOk, IfSome};
ghost use Rattle.lv_base.specs.declared.limits.TheConstants.{TRACKED_COST};
ghost use Rattle.lv_cert_meaning.specs.Counts.{IsCountsOf};
ghost use Rattle.lv_cert_meaning.specs.Fitting.{IsStateOf};
ghost use Rattle.lv_cert_meaning.specs.Stated as Stated;

use crate::counting::values_of;
use crate::counts::Counts;
use lv_base::limits::TRACKED_COST;
use lv_base::{Cost, Seq, ValId};
use lv_model::{Model, State, TrackedState};
use std::alloc::{AllocError, Global};

/// The state of these modes, at this cost.
fn tracked(modes: Vec<ValId>, cost: u64) -> TrackedState
    ensures { result ≡ record { state = record { modes = modes.items }; cost = record { 0 = cost } } }
{
    TrackedState {
        state: State {
            modes: Seq::from_vec(modes),
        },
        cost: Cost(cost),
    }
}

/// The state that the numbers are, if they are one.
pub fn state_of(
    alloc: Global,
    model: &Model,
    counts: &Counts,
    ns: &[u128],
) -> Result<Option<TrackedState>, AllocError>
    requires { IsCountsOf model.now counts.now }
    ensures state { IfOk result (λ found. found ≡ Stated.state_of model.now ns.now) }
    ensures fits { IfOk result (λ found. IfSome found (IsStateOf model.now)) }
{
    let [cost, modes @ ..] = ns else {
        return Ok(None);
    };
    if *cost > u128::from(TRACKED_COST) {
        return Ok(None);
    }
    match values_of(alloc, counts.modes.as_slice(), modes)? {
        Some(modes) => Ok(Some(tracked(modes, *cost as u64))),
        None => Ok(None),
    }
}
