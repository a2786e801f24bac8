//! The member of a zone that ranks first among those that contain no conflict.
#![tactic(auto)]

ghost use Rattle.std.specs.Prelude.{◌≡◌, ◌+◌, ◌*◌, ◌≤◌, IfOk, IfSome};
ghost use Rattle.lv_search_guide.specs.Free.{LeastFreeTells};
ghost use Rattle.lv_search_guide.specs.Lowest.{LowestTells};

use super::behind::drop_behind;
use super::look::Member;
use super::problem::Problem;
use lv_base::{Conflict, Cost, Rank};
use lv_boxes::{Grid, Zone};
use lv_search_bans::conflicts::Conflicts;
use lv_search_bans::masks::Masks;
use lv_search_bans::narrow::narrow;
use lv_search_parts::live::live_in;
use std::alloc::{AllocError, Global};

/// The rank of the zone's member that ranks first among those that contain none of these conflicts; `None` exactly where
/// each member contains one, or there is no member.
pub fn least_free(
    alloc: Global,
    grid: &Grid,
    zone: &Zone,
    conflicts: &[Conflict],
) -> Result<Option<Rank>, AllocError>
    ensures { IfOk result (λ least. LeastFreeTells grid.now zone.now conflicts.now least) }
{
    let masks = Masks::from_slice(alloc, zone.masks())?;
    let live = live_in(alloc, conflicts, zone.masks())?;
    match first_in(alloc, grid, live, masks)? {
        Some(member) => Ok(Some(rank_of(zone, member))),
        None => Ok(None),
    }
}

/// Of the members of a box that contain no conflict the first among the cheapest.
pub fn first_in(
    alloc: Global,
    grid: &Grid,
    conflicts: Vec<Conflict>,
    mut masks: Masks,
) -> Result<Option<Member>, AllocError>
    ensures first { IfOk result (λ first. LowestTells grid.now conflicts.items masks first) }
    ensures bound { IfOk result (λ first. IfSome first (λ member. member.cost ≤ 4096 * 1000000)) }
{
    let conflicts = Conflicts::new(alloc, conflicts)?;
    if !narrow(&conflicts, &mut masks) {
        return Ok(None);
    }
    let problem = Problem {
        grid,
        conflicts: conflicts.as_slice(),
    };
    drop_behind(alloc, &problem, &mut masks)?;
    first_left(alloc, &problem, masks)
}

/// As `first_in`, of a box from which nothing more can be taken out.
fn first_left(
    alloc: Global,
    problem: &Problem<'_>,
    masks: Masks,
) -> Result<Option<Member>, AllocError>
    ensures first { IfOk result (λ first. LowestTells problem.now.grid.now problem.now.conflicts.now masks first) }
    ensures bound { IfOk result (λ first. IfSome first (λ member. member.cost ≤ 4096 * 1000000)) }
{
    let live = live_in(alloc, problem.conflicts, masks.as_slice())?;
    let left = Problem {
        grid: problem.grid,
        conflicts: live.as_slice(),
    };
    left.first_by_parts(alloc, masks)
}

/// What a member of a zone ranks as.
pub fn rank_of(zone: &Zone, member: Member) -> Rank
    requires { member.cost ≤ 4096 * 1000000 }
    ensures { result ≡ record { cost = record { 0 = zone.now.base.0 + member.cost }; source = zone.now.source; choices = member.choices } }
{
    Rank {
        cost: Cost(zone.base().0 + member.cost),
        source: zone.source(),
        choices: member.choices,
    }
}
