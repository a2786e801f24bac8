//! The member of a zone that ranks first among those that contain no conflict, where it is known which ranked first in a
//! zone that has all its choices, by some of the conflicts. The slots are settled anew at which that one has a choice that
//! the zone lacks, or is in a conflict, and those that conflicts join to them. The others keep their choices.
#![tactic(auto)]

ghost use Rattle.std.specs.Prelude.{◌≡◌, ◌≤◌, ◌*◌, ◌++◌, length, All, nat_eq, IfOk, OnOk, if◌then◌else◌};
ghost use Rattle.std.specs.List.{list_any};
ghost use Rattle.lv_base.specs.Choices.{contains_all};
ghost use Rattle.lv_boxes.specs.Members.{IsSlot, choice_cost, choices_cost};
ghost use Rattle.lv_search_parts.specs.Slots.{only};
ghost use Rattle.lv_search_parts.specs.Parts.{inner_of, is_there, IsPart, IsPartWith};
ghost use Rattle.lv_search_guide.specs.Free.{LeastFreeTells};
ghost use Rattle.lv_search_guide.specs.Lowest.{LowestTells};
ghost use Rattle.lv_guide.specs.Near.{IsFirstNear, lost_pairs, unsettled};

use super::known::Known;
use super::narrowed::narrowed_by_all;
use super::remembered::Part;
use lv_base::{Conflict, Cost, Pair, Rank, Seq, contains};
use lv_boxes::{Grid, Zone};
use lv_search_guide::least_free::{least_free, rank_of};
use lv_search_guide::look::Member;
use lv_search_parts::live::is_there;
use lv_search_parts::part::{part_grid, part_masks, put_in};
use std::alloc::{AllocError, Global};

/// As `least_free`, where `near` is what ranked first in a zone that has all choices of this one, by some of the known
/// conflicts.
pub fn least_free_near(
    alloc: Global,
    grid: &Grid,
    zone: &Zone,
    known: &mut Known,
    near: &Rank,
) -> Result<Option<Rank>, AllocError>
    requires { IsFirstNear grid.now zone.now known.old near.now }
    ensures least { IfOk result (λ least. LeastFreeTells grid.now zone.now known.old least) }
    ensures known { known.new ≡ known.old }
{
    match narrowed_by_all(alloc, zone, known.conflicts())? {
        Some(less) => first_near(alloc, grid, &less, known, near),
        None => Ok(None),
    }
}

/// As `least_free_near`, of a zone from which conflicts take out nothing more.
fn first_near(
    alloc: Global,
    grid: &Grid,
    zone: &Zone,
    known: &mut Known,
    near: &Rank,
) -> Result<Option<Rank>, AllocError>
    requires { IsFirstNear grid.now zone.now known.old near.now }
    ensures least { IfOk result (λ least. LeastFreeTells grid.now zone.now known.old least) }
    ensures known { known.new ≡ known.old }
{
    if has_empty(zone.masks()) {
        return Ok(None);
    }
    let _slots = grid.slots();
    let pairs = unsettled(
        alloc,
        zone.masks(),
        known.as_slice(),
        near.choices.as_slice(),
    )?;
    match known.part_with(alloc, grid.len(), pairs.as_slice())? {
        Some(marks) if marks.len() == zone.masks().len() => {
            settled_anew(alloc, grid, zone, known, near, marks.as_slice())
        }
        _ => least_free(alloc, grid, zone, known.as_slice()),
    }
}

/// Whether some slot has no choice left.
pub(crate) fn has_empty(masks: &[u64]) -> bool
    ensures { result ≡ list_any (λ mask. nat_eq mask 0) masks.now }
{
    masks.iter().any(|mask| *mask == 0)
}

/// The pairs for which these choices are no member of the box without a conflict.
fn unsettled(
    alloc: Global,
    masks: &[u64],
    conflicts: &[Conflict],
    choices: &[u32],
) -> Result<Vec<Pair>, AllocError>
    requires { length choices.now ≤ 4096 }
    ensures { IfOk result (λ pairs. pairs.items ≡ unsettled masks.now conflicts.now choices.now) }
{
    let mut pairs = lost_pairs(alloc, masks, choices)?;
    for conflict in conflicts {
        push_contained(conflict.pairs(), choices, &mut pairs)?;
    }
    Ok(pairs)
}

/// The choices, as pairs, that the box lacks.
pub(crate) fn lost_pairs(
    alloc: Global,
    masks: &[u64],
    choices: &[u32],
) -> Result<Vec<Pair>, AllocError>
    requires { length choices.now ≤ 4096 }
    ensures { IfOk result (λ lost. lost.items ≡ lost_pairs masks.now choices.now) }
{
    let mut lost = Vec::new(alloc);
    for (slot, choice) in choices.iter().enumerate() {
        let pair = Pair {
            slot: slot as u32,
            choice: *choice,
        };
        if !is_there(masks, pair) {
            lost.push(pair)?;
        }
    }
    Ok(lost)
}

/// The first of the choices that the box lacks.
pub(crate) fn first_lost(masks: &[u64], choices: &[u32]) -> Option<Pair>
    requires { length choices.now ≤ 4096 }
{
    for (slot, choice) in choices.iter().enumerate() {
        let pair = Pair {
            slot: slot as u32,
            choice: *choice,
        };
        if !is_there(masks, pair) {
            return Some(pair);
        }
    }
    None
}

/// Adds the pairs of a conflict, if the choices contain it.
fn push_contained(
    conflict: &[Pair],
    choices: &[u32],
    pairs: &mut Vec<Pair>,
) -> Result<(), AllocError>
    ensures { OnOk result (pairs.new.items ≡ (if contains_all choices.now conflict.now then pairs.old.items ++ conflict.now else pairs.old.items)) }
{
    if !contains(choices, conflict) {
        return Ok(());
    }
    pairs.extend_from_slice(conflict)?;
    Ok(())
}

/// The first where the slots that are marked are settled anew, and the others keep their choices.
fn settled_anew(
    alloc: Global,
    grid: &Grid,
    zone: &Zone,
    known: &mut Known,
    near: &Rank,
    marks: &[bool],
) -> Result<Option<Rank>, AllocError>
    requires first { IsFirstNear grid.now zone.now known.old near.now }
    requires part { IsPartWith known.old (length grid.now) (unsettled zone.now.masks known.old near.now.choices) marks.now }
    requires long { length marks.now ≡ length zone.now.masks }
    ensures least { IfOk result (λ least. LeastFreeTells grid.now zone.now known.old least) }
    ensures known { known.new ≡ known.old }
{
    let slots = grid.slots();
    match first_of_marked(alloc, grid, zone, known, marks)? {
        Some(member) => {
            let inner = member.choices.as_slice();
            let choices = put_in(alloc, marks, inner, near.choices.as_slice())?;
            let cost = cost_of(slots, choices.as_slice());
            let choices = Seq::from_vec(choices);
            Ok(Some(rank_of(zone, Member { cost, choices })))
        }
        None => Ok(None),
    }
}

/// The first member of the part of a zone's box whose slots are marked.
fn first_of_marked(
    alloc: Global,
    grid: &Grid,
    zone: &Zone,
    known: &mut Known,
    marks: &[bool],
) -> Result<Option<Member>, AllocError>
    requires part { IsPart known.old (length grid.now) marks.now }
    requires long { length marks.now ≡ length zone.now.masks }
    ensures first { IfOk result (λ first. LowestTells (only marks.now grid.now) (inner_of marks.now known.old) (only marks.now zone.now.masks) first) }
    ensures known { known.new ≡ known.old }
{
    let _slots = grid.slots();
    let part = part_of(alloc, grid, zone, marks)?;
    known.first_of(alloc, part)
}

/// The part of a zone's box whose slots are marked.
fn part_of(alloc: Global, grid: &Grid, zone: &Zone, marks: &[bool]) -> Result<Part, AllocError>
    requires grid { length marks.now ≡ length grid.now }
    requires long { length marks.now ≡ length zone.now.masks }
    ensures { IfOk result (λ part. part ≡ record { marks = marks.now; grid = only marks.now grid.now; masks = only marks.now zone.now.masks }) }
{
    let masks = part_masks(alloc, zone.masks(), marks)?;
    Ok(Part {
        marks: Seq::from_slice(alloc, marks)?,
        masks: Seq::from_vec(masks),
        grid: part_grid(alloc, grid, marks)?,
    })
}

/// What a choice at each slot costs together.
pub(crate) fn cost_of(slots: &[Seq<Cost>], choices: &[u32]) -> u64
    requires few { length slots.now ≤ 4096 }
    requires slots { All IsSlot slots.now }
    requires long { length choices.now ≡ length slots.now }
    ensures cost { result ≡ choices_cost slots.now choices.now }
    ensures bound { result ≤ 4096 * 1000000 }
{
    let mut total: u64 = 0;
    for (slot, costs) in slots.iter().enumerate() {
        total += cost_at(costs.as_slice(), choices[slot] as usize);
    }
    total
}

/// What a choice costs; nothing, where there isn't that choice.
fn cost_at(costs: &[Cost], choice: usize) -> u64
    requires { IsSlot costs.now }
    ensures cost { result ≡ choice_cost costs.now choice }
    ensures bound { result ≤ 1000000 }
{
    if choice < costs.len() {
        costs[choice].0
    } else {
        0
    }
}
