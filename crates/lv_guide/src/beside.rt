//! A zone near one whose first member without a conflict is known, with what few steps tell of its own first. The first
//! slot at which it lacks that one's choice loses what conflicts rule out that end there; then the slots that conflicts
//! join to those at which it lacks one have their least choices, and the others keep theirs.
#![tactic(auto)]

ghost use Rattle.std.specs.Prelude.{◌≡◌, ◌≤◌, false, length, IfOk, if◌then◌else◌};
ghost use Rattle.lv_boxes.specs.Walk.{is_ruled_out};
ghost use Rattle.lv_guide.specs.Narrowed.{NarrowedTells};
ghost use Rattle.lv_guide.specs.Near.{IsFirstNear};
ghost use Rattle.lv_guide.specs.Beside.{mixed, LeastInsideTells, FirstBySomeTells, BesideTells};

use super::known::Known;
use super::narrowed::narrowed;
use super::near::{cost_of, first_lost, has_empty, lost_pairs};
use lv_base::{Conflict, Rank, Seq};
use lv_boxes::{Grid, Zone};
use lv_search_guide::least_free::{least_free, rank_of};
use lv_search_guide::look::Member;
use std::alloc::{AllocError, Global};

/// The zone, with fewer choices but all its members that contain no conflict, and the first of its members by some of the
/// known conflicts; `None` where each contains one. `near` contains none, and is what ranks first in a zone that has all
/// choices of this one, by some of them. Most zones that a listed member leaves have no members, which is seen at once.
pub fn first_beside(
    alloc: Global,
    grid: &Grid,
    zone: &Zone,
    known: &Known,
    near: &Rank,
) -> Result<Option<(Rank, Zone)>, AllocError>
    requires near { IsFirstNear grid.now zone.now known.now near.now }
    requires free { is_ruled_out known.now near.now.choices ≡ false }
    ensures { IfOk result (λ first. BesideTells grid.now zone.now known.now first) }
{
    if has_empty(zone.masks()) {
        return Ok(None);
    }
    let _slots = grid.slots();
    match without_ends(alloc, zone, known, near)? {
        Some(less) => match first_by_some(alloc, grid, &less, known, near)? {
            Some(rank) => Ok(Some((rank, less))),
            None => Ok(None),
        },
        None => Ok(None),
    }
}

/// The zone without what conflicts rule out that end at the first slot at which it lacks the choice.
fn without_ends(
    alloc: Global,
    zone: &Zone,
    known: &Known,
    near: &Rank,
) -> Result<Option<Zone>, AllocError>
    requires { length near.now.choices ≤ 4096 }
    ensures { IfOk result (λ less. NarrowedTells zone.now known.now less) }
{
    let lost = first_lost(zone.masks(), near.choices.as_slice());
    narrowed(alloc, zone, known.conflicts(), known.ends_at(lost))
}

/// The zone's first member by those conflicts that speak of no slot which conflicts join to one at which it lacks the
/// choice; by all of them, where it isn't known what they join.
fn first_by_some(
    alloc: Global,
    grid: &Grid,
    zone: &Zone,
    known: &Known,
    near: &Rank,
) -> Result<Option<Rank>, AllocError>
    requires near { IsFirstNear grid.now zone.now known.now near.now }
    requires free { is_ruled_out known.now near.now.choices ≡ false }
    ensures { IfOk result (λ first. FirstBySomeTells grid.now zone.now known.now first) }
{
    let _slots = grid.slots();
    let choices = near.choices.as_slice();
    let lost = lost_pairs(alloc, zone.masks(), choices)?;
    match known.part_with(alloc, grid.len(), lost.as_slice())? {
        Some(part) => least_inside(alloc, grid, zone, part.as_slice(), choices),
        None => least_free(alloc, grid, zone, known.as_slice()),
    }
}

/// The zone's least choices at the slots that are marked, and the others of these choices, as a rank.
fn least_inside(
    alloc: Global,
    grid: &Grid,
    zone: &Zone,
    marks: &[bool],
    others: &[u32],
) -> Result<Option<Rank>, AllocError>
    requires marks { length marks.now ≡ length grid.now }
    requires others { length others.now ≡ length grid.now }
    ensures { IfOk result (λ first. LeastInsideTells grid.now zone.now marks.now others.now first) }
{
    let slots = grid.slots();
    let mut least = vec![in alloc; 0; grid.len()]?;
    match grid.write_best(zone, &mut least) {
        Some(_) => {
            let choices = mixed(alloc, marks, least.as_slice(), others)?;
            let cost = cost_of(slots, choices.as_slice());
            let choices = Seq::from_vec(choices);
            Ok(Some(rank_of(zone, Member { cost, choices })))
        }
        None => Ok(None),
    }
}

/// The inner choices at the slots that are marked, and the outer ones at the others.
fn mixed(
    alloc: Global,
    marks: &[bool],
    inner: &[u32],
    outer: &[u32],
) -> Result<Vec<u32>, AllocError>
    requires inner { length inner.now ≡ length marks.now }
    requires outer { length outer.now ≡ length marks.now }
    ensures { IfOk result (λ choices. choices.items ≡ mixed marks.now inner.now outer.now) }
{
    let mut choices = Vec::new(alloc);
    for (slot, mark) in marks.iter().enumerate() {
        choices.push(one_of(*mark, inner[slot], outer[slot]))?;
    }
    Ok(choices)
}

fn one_of(is_inner: bool, inner: u32, outer: u32) -> u32
    ensures { result ≡ (if is_inner then inner else outer) }
{
    if is_inner { inner } else { outer }
}
