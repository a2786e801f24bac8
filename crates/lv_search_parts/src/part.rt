//! The smaller box of the slots that are marked, numbered anew.
#![tactic(auto)]

ghost use Rattle.std.specs.Prelude.{◌≡◌, ◌<◌, ◌^◌, true, length, map, drop, ◌++◌, ◌∷◌, [], slice_get, IfOk, OnOk, IsTrue, Some, None, if◌then◌else◌};
ghost use Rattle.std.specs.List.{list_all};
ghost use Rattle.lv_base.specs.Choices.{slots_rise};
ghost use Rattle.lv_boxes.specs.Members.{IsSlot};
ghost use Rattle.lv_search_parts.specs.Slots.{only, put_in, pair_in};
ghost use Rattle.lv_search_parts.specs.Parts.{inner_of, is_held, IsOpenOf, IsLiveOf, ArePlaces, fixed};

use super::live::{is_there, push_open};
use lv_base::{Conflict, Cost, Pair};
use lv_boxes::{Grid, mask};
use std::alloc::{AllocError, Global};

/// The grid of the slots that are marked.
pub fn part_grid(alloc: Global, grid: &Grid, marks: &[bool]) -> Result<Grid, AllocError>
    requires { length marks.now ≡ length grid.now }
    ensures { IfOk result (λ part. part ≡ only marks.now grid.now) }
{
    let slots = grid.slots();
    let mut part = Grid::new(alloc)?;
    for (slot, mark) in marks.iter().enumerate() {
        push_slot_if(*mark, slots[slot].as_slice(), &mut part)?;
    }
    Ok(part)
}

/// Adds a slot to a grid, where that is so.
fn push_slot_if(is: bool, costs: &[Cost], grid: &mut Grid) -> Result<(), AllocError>
    requires slot { IsSlot costs.now }
    requires room { is ≡ true → length grid.old < 4096 }
    ensures { OnOk result (grid.new ≡ (if is then grid.old ++ costs.now ∷ [] else grid.old)) }
{
    if !is {
        return Ok(());
    }
    grid.push_slot(costs)?;
    Ok(())
}

/// The masks of the slots that are marked.
pub fn part_masks(alloc: Global, masks: &[u64], marks: &[bool]) -> Result<Vec<u64>, AllocError>
    requires { length marks.now ≡ length masks.now }
    ensures { IfOk result (λ part. part.items ≡ only marks.now masks.now) }
{
    let mut part = Vec::new(alloc);
    for (slot, mark) in marks.iter().enumerate() {
        push_if(*mark, masks[slot], &mut part)?;
    }
    Ok(part)
}

/// Adds a mask to a list, where that is so.
fn push_if(is: bool, mask: u64, masks: &mut Vec<u64>) -> Result<(), AllocError>
    ensures { OnOk result (masks.new.items ≡ (if is then masks.old.items ++ mask ∷ [] else masks.old.items)) }
{
    if !is {
        return Ok(());
    }
    masks.push(mask)?;
    Ok(())
}

/// What the part leaves of the conflicts whose slots are all marked, with the numbers that the slots have in the part. The
/// masks are the part's.
pub fn part_conflicts(
    alloc: Global,
    conflicts: &[Conflict],
    marks: &[bool],
    masks: &[u64],
) -> Result<Vec<Conflict>, AllocError>
    requires { length marks.now < 2 ^ 32 }
    ensures { IfOk result (λ inner. IsLiveOf (inner_of marks.now conflicts.now) masks.now inner.items) }
{
    let places = places_of(alloc, marks)?;
    let mut left = Vec::new(alloc);
    let mut inner = Vec::new(alloc);
    for conflict in conflicts {
        if write_live(conflict.pairs(), marks, places.as_slice(), masks, &mut left)? {
            inner.push(Conflict::from_pairs(alloc, left.as_slice())?)?;
        }
    }
    Ok(inner)
}

/// Whether these pairs are all at slots that are marked, with choices that the part has. Where they are, what the part
/// leaves of them is written, with the numbers that the slots have in the part. The masks are the part's.
fn write_live(
    pairs: &[Pair],
    marks: &[bool],
    places: &[u32],
    masks: &[u64],
    left: &mut Vec<Pair>,
) -> Result<bool, AllocError>
    requires rising { IsTrue (slots_rise pairs.now) }
    requires places { ArePlaces marks.now (length marks.now) places.now }
    ensures held { IfOk result (λ is. is ≡ list_all (is_held marks.now masks.now) pairs.now) }
    ensures left { IfOk result (λ is. is ≡ true → IsOpenOf masks.now (map (pair_in marks.now) pairs.now) left.new.items) }
{
    left.clear();
    for pair in pairs {
        match held(*pair, marks, places, masks) {
            Some(placed) => push_open(placed, masks, left)?,
            None => return Ok(false),
        }
    }
    Ok(true)
}

/// The pair as one of the part, where its slot is marked, and the part has its choice.
fn held(pair: Pair, marks: &[bool], places: &[u32], masks: &[u64]) -> Option<Pair>
    requires { ArePlaces marks.now (length marks.now) places.now }
    ensures { result ≡ (if is_held marks.now masks.now pair then Some (pair_in marks.now pair) else None) }
{
    let slot = pair.slot as usize;
    if slot >= marks.len() || !marks[slot] {
        return None;
    }
    let placed = Pair {
        slot: places[slot],
        choice: pair.choice,
    };
    if is_there(masks, placed) {
        Some(placed)
    } else {
        None
    }
}

/// Of each slot how many marked ones come before it.
fn places_of(alloc: Global, marks: &[bool]) -> Result<Vec<u32>, AllocError>
    requires { length marks.now < 2 ^ 32 }
    ensures { IfOk result (λ places. ArePlaces marks.now (length marks.now) places.items) }
{
    let mut places = Vec::new(alloc);
    let mut place = 0;
    for mark in marks {
        places.push(place)?;
        place += one_if(*mark);
    }
    Ok(places)
}

/// The masks with these choices alone at the slots that are marked.
pub fn fixed(
    alloc: Global,
    masks: &[u64],
    marks: &[bool],
    choices: &[u32],
) -> Result<Vec<u64>, AllocError>
    requires long { length marks.now ≡ length masks.now }
    requires few { length marks.now < 2 ^ 32 }
    ensures { IfOk result (λ new. new.items ≡ fixed marks.now choices.now masks.now) }
{
    let mut new = Vec::new(alloc);
    let mut rest = choices;
    for (slot, mark) in marks.iter().enumerate() {
        let (choice, more) = taken(*mark, rest);
        new.push(match choice {
            Some(choice) => mask::only(masks[slot], choice),
            None => masks[slot],
        })?;
        rest = more;
    }
    Ok(new)
}

/// The outer choices, with the inner ones at the slots that are marked.
pub fn put_in(
    alloc: Global,
    marks: &[bool],
    inner: &[u32],
    outer: &[u32],
) -> Result<Vec<u32>, AllocError>
    requires long { length marks.now ≡ length outer.now }
    requires few { length marks.now < 2 ^ 32 }
    ensures { IfOk result (λ new. new.items ≡ put_in marks.now inner.now outer.now) }
{
    let mut new = Vec::new(alloc);
    let mut rest = inner;
    for (slot, mark) in marks.iter().enumerate() {
        let (choice, more) = taken(*mark, rest);
        new.push(choice.unwrap_or(outer[slot]))?;
        rest = more;
    }
    Ok(new)
}

/// The first of the choices, where the slot is marked and there is one, and those that are left for the slots behind it.
fn taken(mark: bool, choices: &[u32]) -> (Option<u32>, &[u32])
    ensures first { result.0 ≡ (if mark then slice_get choices.now 0 else None) }
    ensures rest { result.1.now ≡ (if mark then drop 1 choices.now else choices.now) }
{
    match choices.split_first() {
        Some((choice, more)) if mark => (Some(*choice), more),
        _ => (None, choices),
    }
}

/// 1 where that is so, else 0.
fn one_if(is: bool) -> u32
    ensures { result ≡ (if is then 1 else 0) }
{
    if is { 1 } else { 0 }
}
