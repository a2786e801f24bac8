//! The least member of a zone, slot by slot: since costs add and ranks compare slots in order, it has at each slot the
//! first among the cheapest choices left.
#![tactic(auto)]

ghost use Rattle.std.specs.Prelude.{◌≡◌, ◌<◌, ◌≤◌, ◌*◌, length, All, IfSome};
ghost use Rattle.std.specs.Option.{option_map, ForSome};
ghost use Rattle.lv_boxes.specs.Members.{IsSlot, choice_cost, choices_cost};
ghost use Rattle.lv_boxes.specs.Least.{cheapest, cheapest_choices, costs_more};

use super::mask;
use lv_base::{Cost, Seq};

/// What the cheapest choices of all slots cost together; `None` where some slot has no choice left.
pub fn least_cost(slots: &[Seq<Cost>], masks: &[u64]) -> Option<u64>
    requires few { length slots.now ≤ 4096 }
    requires slots { All IsSlot slots.now }
    ensures sum { result ≡ option_map (choices_cost slots.now) (cheapest_choices slots.now masks.now) }
    ensures bound { IfSome result (λ cost. cost ≤ 4096 * 1000000) }
{
    if masks.len() != slots.len() {
        return None;
    }
    let mut total: u64 = 0;
    for (slot, costs) in slots.iter().enumerate() {
        let choice = cheapest_left(costs.as_slice(), masks[slot])?;
        total += cost_at(costs.as_slice(), choice);
    }
    Some(total)
}

/// As `least_cost`, and writes the choices.
pub fn write_least(slots: &[Seq<Cost>], masks: &[u64], out: &mut [u32]) -> Option<u64>
    requires few { length slots.now ≤ 4096 }
    requires slots { All IsSlot slots.now }
    requires out { length out.old ≡ length slots.now }
    ensures sum { result ≡ option_map (choices_cost slots.now) (cheapest_choices slots.now masks.now) }
    ensures bound { IfSome result (λ cost. cost ≤ 4096 * 1000000) }
    ensures written { option_map (λ _. out.new) result ≡ cheapest_choices slots.now masks.now }
{
    if masks.len() != slots.len() {
        return None;
    }
    let mut total: u64 = 0;
    for (slot, costs) in slots.iter().enumerate() {
        let choice = cheapest_left(costs.as_slice(), masks[slot])?;
        out[slot] = choice as u32;
        total += cost_at(costs.as_slice(), choice);
    }
    Some(total)
}

/// The first among the cheapest of a slot's choices that the mask has. None is cheaper than one that costs nothing.
fn cheapest_left(costs: &[Cost], mask: u64) -> Option<usize>
    ensures choice { result ≡ cheapest costs.now mask }
    ensures within { IfSome result (λ choice. choice < length costs.now) }
{
    let mut best: Option<usize> = None;
    for n in 0..costs.len() {
        if mask::has(mask, n) && is_cheaper(costs, n, best) {
            if costs[n].0 == 0 {
                return Some(n);
            }
            best = Some(n);
        }
    }
    best
}

/// Whether choice `n` costs less than the one before it, if there is one.
fn is_cheaper(costs: &[Cost], n: usize, before: Option<usize>) -> bool
    requires here { n < length costs.now }
    requires there { ForSome before (λ choice. choice < length costs.now) }
    ensures { result ≡ costs_more costs.now n before }
{
    match before {
        Some(choice) => costs[n].0 < costs[choice].0,
        None => true,
    }
}

/// What a choice costs.
fn cost_at(costs: &[Cost], choice: usize) -> u64
    requires slot { IsSlot costs.now }
    requires within { choice < length costs.now }
    ensures cost { result ≡ choice_cost costs.now choice }
    ensures bound { result ≤ 1000000 }
{
    costs[choice].0
}
