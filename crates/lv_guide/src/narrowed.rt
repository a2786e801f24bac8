//! A zone without what only members have that contain a conflict.
#![tactic(auto)]

ghost use Rattle.std.specs.Prelude.{IfOk};
ghost use Rattle.lv_guide.specs.Narrowed.{NarrowedTells};
ghost use Rattle.lv_search_bans.specs.Narrow.{NarrowedTells as LeavesTells};

use lv_boxes::Zone;
use lv_search_bans::conflicts::Conflicts;
use lv_search_bans::masks::Masks;
use lv_search_bans::narrow::{Narrowing, narrow, narrow_by};
use std::alloc::{AllocError, Global};

/// The zone without the choices that only members have which contain a conflict, as far as these bans, by their places,
/// tell one after another; `None` where they leave none of its members.
pub(crate) fn narrowed(
    alloc: Global,
    zone: &Zone,
    conflicts: &Conflicts,
    places: &[usize],
) -> Result<Option<Zone>, AllocError>
    ensures { IfOk result (λ less. NarrowedTells zone.now conflicts.now less) }
{
    let mut masks = Masks::from_slice(alloc, zone.masks())?;
    if !narrow_at(conflicts, places, &mut masks) {
        return Ok(None);
    }
    let less = Zone::new(alloc, zone.source(), zone.base(), masks.as_slice())?;
    Ok(Some(less))
}

/// As `narrowed`, as far as all bans tell.
pub(crate) fn narrowed_by_all(
    alloc: Global,
    zone: &Zone,
    conflicts: &Conflicts,
) -> Result<Option<Zone>, AllocError>
    ensures { IfOk result (λ less. NarrowedTells zone.now conflicts.now less) }
{
    let mut masks = Masks::from_slice(alloc, zone.masks())?;
    if !narrow(conflicts, &mut masks) {
        return Ok(None);
    }
    let less = Zone::new(alloc, zone.source(), zone.base(), masks.as_slice())?;
    Ok(Some(less))
}

/// Takes out of a box what only members have that contain one of these conflicts. Answers whether members may be left.
fn narrow_at(conflicts: &Conflicts, places: &[usize], masks: &mut Masks) -> bool
    ensures { LeavesTells conflicts.now masks.old masks.new result }
{
    for place in places {
        if !narrow_one(conflicts, *place, masks) {
            return false;
        }
    }
    true
}

/// As `narrow_at`, the conflict at one place, if there is that place.
fn narrow_one(conflicts: &Conflicts, place: usize, masks: &mut Masks) -> bool
    ensures { LeavesTells conflicts.now masks.old masks.new result }
{
    match narrow_by(conflicts, place, masks) {
        Narrowing::Same => true,
        Narrowing::Less => true,
        Narrowing::Empty => false,
    }
}
