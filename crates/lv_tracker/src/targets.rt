//! The states that listed candidates lead to: of each part the target of its move.
#![tactic(auto)]

ghost use Rattle.std.specs.Prelude.{◌≡◌, ◌≤◌, IfOk, All, length, map};
ghost use Rattle.lv_meaning.specs.Targets.{target_mode, target_modes};
ghost use Rattle.lv_tracker.specs.Targets.{target_state, HasMoves};

use lv_base::{MoveId, Rank, Seq, ValId};
use lv_model::{ComponentType, Model, Part, Plant, State, TrackedState, meaning};
use std::alloc::{AllocError, Global};

/// The target mode of the part's move; mode 0 where its type has no such move.
fn target(types: &[ComponentType], part: &Part, mv: MoveId) -> ValId
    ensures { result ≡ target_mode types.now part.now mv.0 }
{
    match meaning::target_mode(types, part, mv) {
        Some(mode) => mode,
        None => ValId(0),
    }
}

/// The target mode of each part's move.
fn target_modes(
    alloc: Global,
    types: &[ComponentType],
    parts: &[Part],
    moves: &[u32],
) -> Result<Vec<ValId>, AllocError>
    requires { length moves.now ≡ length parts.now }
    ensures { IfOk result (λ modes. modes.items ≡ target_modes types.now parts.now moves.now) }
{
    let mut modes = Vec::new(alloc);
    for (at, part) in parts.iter().enumerate() {
        modes.push(target(types, part, MoveId(moves[at])))?;
    }
    Ok(modes)
}

/// The state that the candidate leads to, at its cost.
fn target_state(alloc: Global, plant: &Plant, rank: &Rank) -> Result<TrackedState, AllocError>
    requires { HasMoves (length plant.now.parts) rank.now }
    ensures { IfOk result (λ s. s ≡ target_state plant.now rank.now) }
{
    let modes = target_modes(
        alloc,
        plant.types.as_slice(),
        plant.parts.as_slice(),
        rank.choices.as_slice(),
    )?;
    Ok(TrackedState {
        state: State {
            modes: Seq::from_vec(modes),
        },
        cost: rank.cost,
    })
}

/// The states that the listed candidates lead to, one for each, at its cost.
pub fn target_states(
    alloc: Global,
    model: &Model,
    listed: &[Rank],
) -> Result<Vec<TrackedState>, AllocError>
    requires { All (HasMoves (length model.now.parts)) listed.now }
    ensures { IfOk result (λ states. states.items ≡ map (target_state model.now) listed.now) }
{
    let plant = model.plant();
    let mut states = Vec::new(alloc);
    for rank in listed {
        states.push(target_state(alloc, plant, rank)?)?;
    }
    Ok(states)
}
