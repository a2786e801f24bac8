//! The zones of a diagnosis: of each tracked state the candidates that go on from it, a mask of moves for each part.
#![tactic(auto)]

ghost use Rattle.std.specs.Prelude.{◌≡◌, ◌<◌, ◌≤◌, ◌^◌, All, IfOk, length, nat_eq, if◌then◌else◌};
ghost use Rattle.lv_base.specs.declared.limits.TheConstants.{MOVES, TRACKED};
ghost use Rattle.lv_model.specs.WellFormed.{TypeIsSmall};
ghost use Rattle.lv_meaning.specs.Candidates.{IsTracked};
ghost use Rattle.lv_search_zones.specs.Moves.{mask_from, mask_of, masks_of, state_zone, zones_from};

use lv_base::ValId;
use lv_boxes::Zone;
use lv_meaning::moves::moves_of;
use lv_model::{Model, Move, Plant, TrackedState};
use std::alloc::{AllocError, Global};

/// The bit of the move, the n-th of its type, where it is from the mode.
fn move_bit(m: &Move, mode: ValId, n: usize) -> u64
    requires { n < MOVES }
    ensures { result ≡ (if nat_eq m.now.source.0 mode.0 then 2 ^ n else 0) }
{
    if m.source.0 == mode.0 { 1 << n } else { 0 }
}

/// Of these moves those from the mode, as the bits of a word.
fn mask_of(moves: &[Move], mode: ValId) -> u64
    requires { length moves.now ≤ MOVES }
    ensures { result ≡ mask_of mode.0 moves.now }
{
    let mut mask = 0;
    for (n, m) in moves.iter().enumerate() {
        mask |= move_bit(m, mode, n);
    }
    mask
}

/// Of each part the mask of the moves from its mode.
fn masks_of(alloc: Global, plant: &Plant, modes: &[ValId]) -> Result<Vec<u64>, AllocError>
    requires small { All TypeIsSmall plant.now.types }
    requires modes { length modes.now ≡ length plant.now.parts }
    ensures { IfOk result (λ masks. masks.items ≡ masks_of plant.now.types plant.now.parts modes.now) }
{
    let mut masks = Vec::with_capacity(alloc, modes.len())?;
    for (slot, part) in plant.parts.as_slice().iter().enumerate() {
        masks.push(mask_of(moves_of(plant.types.as_slice(), part), modes[slot]))?;
    }
    Ok(masks)
}

/// The candidates of the tracked state that has this place.
fn zone_of(
    alloc: Global,
    plant: &Plant,
    place: u32,
    tracked: &TrackedState,
) -> Result<Zone, AllocError>
    requires small { All TypeIsSmall plant.now.types }
    requires tracked { IsTracked (length plant.now.parts) tracked.now }
    ensures { IfOk result (λ zone. zone ≡ state_zone plant.now place tracked.now) }
{
    let masks = masks_of(alloc, plant, tracked.state.modes.as_slice())?;
    Zone::new(alloc, place, tracked.cost, masks.as_slice())
}

/// The candidates of the tracked states, a zone for each state: its source is the state's place, its base the state's cost,
/// and each part has the moves that go from its mode there.
pub fn zones_of(
    alloc: Global,
    model: &Model,
    tracked: &[TrackedState],
) -> Result<Vec<Zone>, AllocError>
    requires few { length tracked.now ≤ TRACKED }
    requires states { All (IsTracked (length model.now.parts)) tracked.now }
    ensures { IfOk result (λ zones. zones.items ≡ zones_from model.now 0 tracked.now) }
{
    let plant = model.plant();
    let mut zones = Vec::with_capacity(alloc, tracked.len())?;
    for (place, state) in tracked.iter().enumerate() {
        zones.push(zone_of(alloc, plant, place as u32, state)?)?;
    }
    Ok(zones)
}
