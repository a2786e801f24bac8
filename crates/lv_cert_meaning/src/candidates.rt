//! A candidate by its numbers: a tracked state, and a move of each part from its mode there.
#![tactic(auto)]

ghost use Rattle.std.specs.Prelude.{◌≡◌, ◌+◌, ◌-◌, ◌*◌, ◌^◌, ◌<◌, ◌≤◌, Some, None, All, IfOk, IfSome, length, option_map, ◌&&◌, nat_lt, if◌then◌else◌};
ghost use Rattle.std.specs.List.{list_all, list_any};
ghost use Rattle.std.specs.Option.{option_and_then};
ghost use Rattle.lv_base.specs.declared.limits.TheConstants.{FAULT_COST, PARTS};
ghost use Rattle.lv_base.specs.declared.rank.Rank.{Rank as RankOf};
ghost use Rattle.lv_meaning.specs.lv_boxes.Groups.{have_same_groups};
ghost use Rattle.lv_model.specs.WellFormed.{MoveIsCheap, TypeIsSmall};
ghost use Rattle.lv_meaning.specs.Candidates.{IsTracked, move_cost};
ghost use Rattle.lv_meaning.specs.CandidateLaws.{goes_from, are_moves, moves_cost};
ghost use Rattle.lv_cert_meaning.specs.Counting.{at_number, places_of};
ghost use Rattle.lv_cert_meaning.specs.Stated as Stated;
ghost use Rattle.lv_cert_meaning.specs.Fitting.{HasFewChoices};

use crate::counting::place_of;
use lv_base::{Cost, Rank, Seq, ValId};
use lv_boxes::Groups;
use lv_meaning::moves::moves_of;
use lv_model::{Model, Move, Plant, TrackedState};
use std::alloc::{AllocError, Global};

/// The place of the move of this number, if it is one from the mode.
fn move_from(moves: &[Move], mode: ValId, n: u128) -> Option<u32>
    requires { length moves.now ≤ 64 }
    ensures { result ≡ (if nat_lt 0 n && goes_from moves.now mode.0 (n - 1) then Some (n - 1) else None) }
{
    let place = place_of(moves.len(), n)?;
    if moves[place as usize].source.0 == mode.0 {
        Some(place)
    } else {
        None
    }
}

/// The places of the moves of these numbers, if there is one for each part, from its mode.
fn moves_from(
    alloc: Global,
    plant: &Plant,
    modes: &[ValId],
    ns: &[u128],
) -> Result<Option<Vec<u32>>, AllocError>
    requires small { All TypeIsSmall plant.now.types }
    requires modes { length modes.now ≡ length plant.now.parts }
    ensures places { IfOk result (λ found. option_map (λ out. out.items) found ≡ (if list_all (nat_lt 0) ns.now && are_moves plant.now.types plant.now.parts modes.now (places_of ns.now) then Some (places_of ns.now) else None)) }
    ensures count { IfOk result (λ found. IfSome found (λ out. length out.items ≡ length plant.now.parts)) }
{
    let parts = plant.parts.as_slice();
    if ns.len() != parts.len() {
        return Ok(None);
    }
    let mut out = Vec::with_capacity(alloc, ns.len())?;
    for (k, part) in parts.iter().enumerate() {
        let moves = moves_of(plant.types.as_slice(), part);
        match move_from(moves, modes[k], ns[k]) {
            Some(place) => out.push(place)?,
            None => return Ok(None),
        }
    }
    Ok(Some(out))
}

/// What the move costs; nothing where there is none.
fn cost_at(moves: &[Move], place: u32) -> u64
    requires { All MoveIsCheap moves.now }
    ensures cost { result ≡ move_cost moves.now place }
    ensures bound { result ≤ FAULT_COST }
{
    match moves.get(place as usize) {
        Some(m) => m.cost.0,
        None => 0,
    }
}

/// What a move of each part costs together.
fn cost_of(plant: &Plant, choices: &[u32]) -> u64
    requires small { All TypeIsSmall plant.now.types }
    requires few { length plant.now.parts ≤ PARTS }
    requires whole { length choices.now ≡ length plant.now.parts }
    ensures cost { result ≡ moves_cost plant.now.types plant.now.parts choices.now }
    ensures bound { result ≤ PARTS * FAULT_COST }
{
    let mut total = 0;
    for (k, part) in plant.parts.as_slice().iter().enumerate() {
        total += cost_at(moves_of(plant.types.as_slice(), part), choices[k]);
    }
    total
}

/// The candidate that goes on from the tracked state of this place by the moves of these numbers, if it is one.
fn rank_from(
    alloc: Global,
    plant: &Plant,
    place: u32,
    state: &TrackedState,
    ns: &[u128],
) -> Result<Option<Rank>, AllocError>
    requires small { All TypeIsSmall plant.now.types }
    requires few { length plant.now.parts ≤ PARTS }
    requires tracked { IsTracked (length plant.now.parts) state.now }
    ensures rank { IfOk result (λ found. found ≡ Stated.rank_from plant.now place ns.now state.now) }
    ensures few { IfOk result (λ found. IfSome found HasFewChoices) }
{
    let Some(choices) = moves_from(alloc, plant, state.state.modes.as_slice(), ns)? else {
        return Ok(None);
    };
    let cost = state.cost.0 + cost_of(plant, choices.as_slice());
    Ok(Some(Rank {
        cost: Cost(cost),
        source: place,
        choices: Seq::from_vec(choices),
    }))
}

/// The candidate of the tracked state of this number by the moves of these numbers, if it is one.
fn candidate_from(
    alloc: Global,
    model: &Model,
    tracked: &[TrackedState],
    s: u128,
    ns: &[u128],
) -> Result<Option<Rank>, AllocError>
    requires few { length tracked.now < 2 ^ 32 }
    requires states { All (IsTracked (length model.now.parts)) tracked.now }
    ensures candidate { IfOk result (λ found. found ≡ option_and_then (Stated.rank_from model.now (s - 1) ns.now) (at_number tracked.now s)) }
    ensures few { IfOk result (λ found. IfSome found HasFewChoices) }
{
    match place_of(tracked.len(), s) {
        Some(place) => rank_from(alloc, model.plant(), place, &tracked[place as usize], ns),
        None => Ok(None),
    }
}

/// The candidate that the numbers are, if they are one: the number of a tracked state, and of a move of each part.
pub fn candidate_of(
    alloc: Global,
    model: &Model,
    tracked: &[TrackedState],
    ns: &[u128],
) -> Result<Option<Rank>, AllocError>
    requires few { length tracked.now < 2 ^ 32 }
    requires states { All (IsTracked (length model.now.parts)) tracked.now }
    ensures candidate { IfOk result (λ found. found ≡ Stated.candidate_of_numbers model.now tracked.now ns.now) }
    ensures few { IfOk result (λ found. IfSome found HasFewChoices) }
{
    let [s, moves @ ..] = ns else {
        return Ok(None);
    };
    candidate_from(alloc, model, tracked, *s, moves)
}

/// Whether a candidate has the target of one of these: where their moves have one target each.
pub fn has_target(targets: &Groups, listed: &[Rank], rank: &Rank) -> bool
    ensures { result ≡ list_any (λ (other : RankOf). have_same_groups targets.now rank.now.choices other.choices) listed.now }
{
    listed.iter().any(|other| targets.are_one(rank.choices.as_slice(), other.choices.as_slice()))
}
