//! Copies of tracked states.
#![tactic(auto)]

ghost use Rattle.std.specs.Prelude.{◌≡◌, IfOk};

use lv_base::{Cost, Seq};
use lv_model::{State, TrackedState};
use std::alloc::{AllocError, Global};

/// A copy of a tracked state.
fn copy_of(alloc: Global, tracked: &TrackedState) -> Result<TrackedState, AllocError>
    ensures { IfOk result (λ copy. copy ≡ tracked.now) }
{
    Ok(TrackedState {
        state: State {
            modes: Seq::from_slice(alloc, tracked.state.modes.as_slice())?,
        },
        cost: Cost(tracked.cost.0),
    })
}

/// Copies of tracked states, in their order.
pub fn copies_of(alloc: Global, tracked: &[TrackedState]) -> Result<Vec<TrackedState>, AllocError>
    ensures { IfOk result (λ copies. copies.items ≡ tracked.now) }
{
    let mut out = Vec::new(alloc);
    for state in tracked {
        out.push(copy_of(alloc, state)?)?;
    }
    Ok(out)
}
