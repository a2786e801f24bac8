//! What is found behind a step: whether a tracked state has the plant's modes, and whether the goals are met.
#![tactic(auto)]

ghost use Rattle.std.specs.Prelude.{◌≡◌, All, length};
ghost use Rattle.lv_session.specs.lv_tracker.Distinct.{has_modes};
ghost use Rattle.lv_plant.specs.Findings.{is_held, is_met, are_met, goals_among, GoalReads};

use crate::reply::GoalsTold;
use lv_base::ValId;
use lv_model::TrackedState;
use lv_session::Goal;

/// Whether a state has these modes.
fn has_modes(state: &TrackedState, modes: &[ValId]) -> bool
    ensures { result ≡ has_modes modes.now state.now }
{
    state.state.modes.as_slice() == modes
}

/// Whether a tracked state has these modes.
pub fn is_held(modes: &[ValId], tracked: &[TrackedState]) -> bool
    ensures { result ≡ is_held modes.now tracked.now }
{
    tracked.iter().any(|state| has_modes(state, modes))
}

/// Whether a goal is true in `b`.
fn is_met(b: &[ValId], goal: &Goal) -> bool
    requires { GoalReads (length b.now) goal.now }
    ensures { result ≡ is_met b.now goal.now }
{
    goal.formula.holds(b, 0)
}

/// Whether all goals are true in `b`.
fn are_met(b: &[ValId], goals: &[Goal]) -> bool
    requires { All (GoalReads (length b.now)) goals.now }
    ensures { result ≡ are_met b.now goals.now }
{
    goals.iter().all(|goal| is_met(b, goal))
}

/// Whether the goals that are held, if any, are all true in `b`.
pub fn goals_told(b: &[ValId], goals: &[Goal]) -> GoalsTold
    requires { All (GoalReads (length b.now)) goals.now }
    ensures { result ≡ goals_among b.now goals.now }
{
    if goals.is_empty() {
        GoalsTold::NoGoals
    } else if are_met(b, goals) {
        GoalsTold::Met
    } else {
        GoalsTold::Open
    }
}
