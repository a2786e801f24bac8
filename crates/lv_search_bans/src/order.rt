//! The order in which a search goes through its bans: short ones first, and of those as short the ones first that have a
//! slot which few bans have. The fewer bans before it meet at a ban's slots, the more it raises what members cost at least.
#![tactic(auto)]

ghost use Rattle.std.specs.Prelude.{List, IfOk, OnOk};
ghost use Rattle.lv_base.specs.declared.search.Pair.{Pair};
ghost use Rattle.lv_search_bans.specs.Bans.{AreBans};

use super::bans::{Ban, Choices, put};
use std::alloc::{AllocError, Global};

/// These bans in that order. Slots from this count on are passed over.
pub(crate) fn short_first(alloc: Global, bans: &[Ban], slots: usize) -> Result<Vec<Ban>, AllocError>
    ensures { IfOk result (λ sorted. (conflicts : List (List Pair)) → AreBans conflicts bans.now → AreBans conflicts sorted.items) }
{
    let turns = turns_of(alloc, bans, slots)?;
    let mut sorted = Vec::new(alloc);
    for turn in turns.as_slice() {
        push_at(alloc, bans, turn.place, &mut sorted)?;
    }
    Ok(sorted)
}

/// Adds the ban at a place, if there is one.
fn push_at(
    alloc: Global,
    bans: &[Ban],
    place: usize,
    sorted: &mut Vec<Ban>,
) -> Result<(), AllocError>
    ensures { OnOk result ((conflicts : List (List Pair)) → AreBans conflicts bans.now → AreBans conflicts sorted.old.items → AreBans conflicts sorted.new.items) }
{
    if place < bans.len() {
        let end = sorted.len();
        put(alloc, bans[place].sets(), end, sorted)?;
    }
    Ok(())
}

/// When a ban has its turn: these are compared in their order.
#[derive(Clone, Copy, Debug, PartialEq, Eq, PartialOrd, Ord)]
struct Turn {
    /// How many slots it has.
    slots: usize,
    /// How many bans have the one of them that fewest have.
    fewest: usize,
    /// Its place.
    place: usize,
}

/// The turns of all bans, in order.
fn turns_of(alloc: Global, bans: &[Ban], slots: usize) -> Result<Vec<Turn>, AllocError> {
    let counts = bans_at(alloc, bans, slots)?;
    let mut turns = Vec::new(alloc);
    for place in 0..bans.len() {
        let sets = bans[place].sets();
        turns.push(Turn {
            slots: sets.len(),
            fewest: fewest(sets, counts.as_slice()),
            place,
        })?;
    }
    turns.sort_unstable();
    Ok(turns)
}

/// Of each slot how many bans have it.
fn bans_at(alloc: Global, bans: &[Ban], slots: usize) -> Result<Vec<usize>, AllocError> {
    let mut counts = vec![in alloc; 0; slots]?;
    for ban in bans {
        count_in(ban.sets(), &mut counts);
    }
    Ok(counts)
}

/// Of each slot the places of the bans that have it.
pub(crate) fn places_of(
    alloc: Global,
    bans: &[Ban],
    slots: usize,
) -> Result<Vec<Vec<usize>>, AllocError> {
    let mut places = Vec::new(alloc);
    for _slot in 0..slots {
        places.push(Vec::new(alloc))?;
    }
    for (place, ban) in bans.iter().enumerate() {
        push_place(ban.sets(), place, &mut places)?;
    }
    Ok(places)
}

/// Adds the place of a ban to those of each of its slots.
fn push_place(sets: &[Choices], place: usize, places: &mut [Vec<usize>]) -> Result<(), AllocError> {
    for set in sets {
        let slot = set.slot as usize;
        if slot < places.len() {
            places[slot].push(place)?;
        }
    }
    Ok(())
}

/// Counts one ban more at each of its slots.
fn count_in(sets: &[Choices], counts: &mut [usize]) {
    for set in sets {
        let slot = set.slot as usize;
        if slot < counts.len() {
            counts[slot] = counts[slot].saturating_add(1);
        }
    }
}

/// How many bans have the slot of these that fewest have.
fn fewest(sets: &[Choices], counts: &[usize]) -> usize {
    let mut least = usize::MAX;
    for set in sets {
        let slot = set.slot as usize;
        if slot < counts.len() {
            least = least.min(counts[slot]);
        }
    }
    least
}
