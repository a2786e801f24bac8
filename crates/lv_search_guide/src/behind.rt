//! Choices behind a loose one. A member that has a choice which ranks after a loose one of its slot ranks after the
//! member with the loose one in its place, and that one contains no conflict which it doesn't contain. So the first
//! member has none of them, and they are taken out.
#![tactic(auto)]

ghost use Rattle.std.specs.Prelude.{◌≡◌, ◌<◌, true, [], List, length, slice_index_or, IfOk, IfSome, if◌then◌else◌};
ghost use Rattle.lv_base.specs.declared.ids.Cost.{Cost};
ghost use Rattle.lv_base.specs.declared.search.Pair.{Pair};
ghost use Rattle.lv_boxes.specs.Masks.{has_choice, without_choice};
ghost use Rattle.lv_boxes.specs.Members.{choice_cost};
ghost use Rattle.lv_search_guide.specs.First.{KeepsFirst, DropsTells, AreLoose, ranks_first, IsKeptBefore, IsLooseLeft, KeptTells};

use super::loose::loose_in;
use super::problem::Problem;
use lv_base::{Cost, Seq};
use lv_boxes::mask;
use lv_search_bans::masks::Masks;
use std::alloc::{AllocError, Global};

/// Takes out of a box choices that rank after a loose one of their slot, until nothing more is found.
pub(crate) fn drop_behind(
    alloc: Global,
    problem: &Problem<'_>,
    masks: &mut Masks,
) -> Result<(), AllocError>
    ensures { IfOk result (λ _. KeepsFirst problem.now.grid.now problem.now.conflicts.now masks.old masks.new) }
{
    'again: loop {
        let loose = loose_in(alloc, problem.conflicts, masks)?;
        if !drop_once(problem.grid.slots(), &loose, masks) {
            return Ok(());
        }
    }
}

/// Takes out of each slot of a box the choices that rank after a loose one. Answers whether there were some.
fn drop_once(slots: &[Seq<Cost>], loose: &Masks, masks: &mut Masks) -> bool
    ensures { (conflicts : List (List Pair)) → AreLoose conflicts masks.old loose.now → DropsTells slots.now conflicts masks.old masks.new result }
{
    let mut changed = false;
    for (slot, costs) in slots.iter().enumerate() {
        let more = drop_at(costs.as_slice(), slot, loose, masks);
        changed = changed || more;
    }
    changed
}

/// Takes out of a slot of a box the choices that rank after a loose one. Answers whether there were some.
fn drop_at(costs: &[Cost], slot: usize, loose: &Masks, masks: &mut Masks) -> bool
    ensures { (slots : List (List Cost)) (conflicts : List (List Pair)) → slot < length slots → slice_index_or slots slot [] ≡ costs.now → AreLoose conflicts masks.old loose.now → DropsTells slots conflicts masks.old masks.new result }
{
    let mask = masks.at(slot);
    match kept_of(costs, loose.at(slot), mask) {
        Some(kept) if kept != mask => {
            masks.replace(slot, kept);
            true
        }
        _ => false,
    }
}

/// What is kept of a slot's choices without those that rank after a loose one, if one is loose.
fn kept_of(costs: &[Cost], loose: u64, mask: u64) -> Option<u64>
    ensures { KeptTells costs.now loose mask result }
{
    match first_loose(costs, loose, mask) {
        Some(first) => Some(kept_before(costs, first, mask)),
        None => None,
    }
}

/// The first among the cheapest of a slot's choices that are loose and left.
fn first_loose(costs: &[Cost], loose: u64, mask: u64) -> Option<usize>
    ensures { IfSome result (λ first. IsLooseLeft costs.now loose mask first) }
{
    let mut first = None;
    for choice in 0..costs.len() {
        if mask::has(loose, choice) && mask::has(mask, choice) && is_before(costs, choice, first) {
            first = Some(choice);
        }
    }
    first
}

/// Whether a choice ranks before another one, if there is another.
fn is_before(costs: &[Cost], choice: usize, other: Option<usize>) -> bool {
    match other {
        Some(other) => ranks_first(costs, choice, other),
        None => true,
    }
}

/// A slot's choices left without those that this one ranks before.
fn kept_before(costs: &[Cost], first: usize, mask: u64) -> u64
    requires { has_choice mask first ≡ true }
    ensures { IsKeptBefore costs.now first mask result }
{
    let mut kept = mask;
    for choice in 0..costs.len().min(64) {
        let behind = ranks_first(costs, first, choice);
        kept = without_if(behind, kept, choice);
    }
    kept
}

/// Takes a choice out of a mask, where that is so.
fn without_if(out: bool, mask: u64, choice: usize) -> u64
    requires { choice < 64 }
    ensures { result ≡ (if out then without_choice mask choice else mask) }
{
    if out {
        mask::without(mask, choice as u32)
    } else {
        mask
    }
}

/// Whether a choice ranks before another: it costs less, or as much and has the lower number.
fn ranks_first(costs: &[Cost], one: usize, other: usize) -> bool
    ensures { result ≡ ranks_first costs.now one other }
{
    let here = cost_at(costs, one);
    let there = cost_at(costs, other);
    here < there || (here == there && one < other)
}

/// What a choice costs, or nothing, where there isn't one.
fn cost_at(costs: &[Cost], choice: usize) -> u64
    ensures { result ≡ choice_cost costs.now choice }
{
    if choice < costs.len() {
        costs[choice].0
    } else {
        0
    }
}
