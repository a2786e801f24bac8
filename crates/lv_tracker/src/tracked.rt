//! The tracked list. It starts with the one state in which every part is in its starting mode, and advances to the
//! states that the listed candidates of a diagnosis lead to.
#![tactic(auto)]

ghost use Rattle.std.specs.Prelude.{◌≡◌, ◌≤◌, ◌<◌, [], ◌∷◌, IfOk, All, IsTrue, length, map, slice_get, option_map, Some};
ghost use Rattle.lv_base.specs.declared.limits.TheConstants.{TRACKED, TRACKED_COST};
ghost use Rattle.lv_model.specs.declared.plant.Part.{Part};
ghost use Rattle.lv_model.specs.declared.state.TrackedState.{TrackedState};
ghost use Rattle.lv_tracker.specs.Distinct.{are_distinct, first_of_each};
ghost use Rattle.lv_tracker.specs.Targets.{HasMoves};
ghost use Rattle.lv_tracker.specs.Tracked.{AreTracked, IsWithinCost, IsCheap, HasModes, start_state, advanced};

use crate::distinct::first_of_each;
use crate::targets::target_states;
use lv_base::{Cost, Rank, Seq, ValId};
use lv_model::{Model, Part, State, TrackedState};
use std::alloc::{AllocError, Global};
use std::marker;

/// The tracked states, seen by clauses as their list: at least one and not too many, no two with the same modes, each at
/// a cost within its bound.
#[derive(Debug, Drop)]
pub struct Tracked {
    states: Seq<TrackedState>,
}

impl marker::Model for Tracked {
    ghost use Rattle.std.specs.Prelude.{List};
    ghost use Rattle.lv_model.specs.declared.state.TrackedState.{TrackedState};
    ghost use Rattle.lv_tracker.specs.Tracked.{AreTracked};

    ghost Value = { List TrackedState };

    ghost view = { λ t. t.states };

    ghost invariant = { λ t. AreTracked t.states };
}

/// The modes that the parts start in.
fn starting_modes(alloc: Global, parts: &[Part]) -> Result<Vec<ValId>, AllocError>
    ensures { IfOk result (λ modes. modes.items ≡ map (λ (p : Part). p.start) parts.now) }
{
    parts.iter().map(|p| p.start).collect(alloc)
}

/// The list of this one state.
fn only(alloc: Global, state: TrackedState) -> Result<Seq<TrackedState>, AllocError>
    ensures { IfOk result (λ states. states ≡ state ∷ []) }
{
    let mut states = Seq::new(alloc);
    states.push(state)?;
    Ok(states)
}

impl Tracked {
    /// The list at the start: the one state of the parts' starting modes, at cost 0.
    pub fn start(alloc: Global, model: &Model) -> Result<Tracked, AllocError>
        ensures state { IfOk result (λ tracked. tracked ≡ start_state model.now ∷ []) }
        ensures modes { IfOk result (All (HasModes (length model.now.parts))) }
    {
        let modes = Seq::from_vec(starting_modes(alloc, model.plant().parts.as_slice())?);
        let state = TrackedState {
            state: State { modes },
            cost: Cost(0),
        };
        Ok(Tracked {
            states: only(alloc, state)?,
        })
    }

    /// The distinct states among these, in the order of their first appearance, each at the cost of its first.
    pub fn distinct(alloc: Global, states: Vec<TrackedState>) -> Result<Tracked, AllocError>
        requires some { 1 ≤ length states.items }
        requires few { length states.items ≤ TRACKED }
        requires costs { All IsWithinCost states.items }
        ensures { IfOk result (λ tracked. tracked ≡ first_of_each states.items) }
    {
        Ok(Tracked {
            states: Seq::from_vec(first_of_each(alloc, states)?),
        })
    }

    /// The distinct states that the listed candidates lead to, in the order of their first appearance, each at the cost
    /// of its first.
    pub fn advance(alloc: Global, model: &Model, listed: &[Rank]) -> Result<Tracked, AllocError>
        requires some { 1 ≤ length listed.now }
        requires few { length listed.now ≤ TRACKED }
        requires moves { All (HasMoves (length model.now.parts)) listed.now }
        requires costs { All IsCheap listed.now }
        ensures states { IfOk result (λ tracked. tracked ≡ advanced model.now listed.now) }
        ensures modes { IfOk result (All (HasModes (length model.now.parts))) }
    {
        Tracked::distinct(alloc, target_states(alloc, model, listed)?)
    }

    pub fn len(&self) -> usize
        ensures count { result ≡ length self.now }
        ensures some { 1 ≤ result }
        ensures few { result ≤ TRACKED }
    {
        self.states.len()
    }

    /// The state of this place.
    pub fn state(&self, place: usize) -> &State
        requires { place < length self.now }
        ensures { option_map (λ (s : TrackedState). s.state) (slice_get self.now place) ≡ Some result.now }
    {
        &self.states.as_slice()[place].state
    }

    /// What it cost to come to the state of this place.
    pub fn cost(&self, place: usize) -> Cost
        requires { place < length self.now }
        ensures cost { option_map (λ (s : TrackedState). s.cost) (slice_get self.now place) ≡ Some result }
        ensures within { result.0 ≤ TRACKED_COST }
    {
        self.states.as_slice()[place].cost
    }

    /// The states in their order.
    pub fn as_slice(&self) -> &[TrackedState]
        ensures states { result.now ≡ self.now }
        ensures some { 1 ≤ length result.now }
        ensures few { length result.now ≤ TRACKED }
        ensures distinct { IsTrue (are_distinct result.now) }
        ensures costs { All IsWithinCost result.now }
    {
        self.states.as_slice()
    }
}
