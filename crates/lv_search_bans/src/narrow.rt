//! What bans leave of a box. A ban of which all sets but one hold all that their slots have left takes the choices of that
//! one out of the box; a ban without such a set leaves no member.
#![tactic(auto)]

ghost use Rattle.std.specs.Prelude.{◌≡◌, ◌≤◌, ◌+◌, ◌*◌, true, length, sum, IfOk, OnOk};
ghost use Rattle.lv_search_bans.specs.Narrow.{StandsTells, LeftTells, TakesOutTells, NarrowsTells, NarrowedTells};

use super::bans::{Ban, Choices, without_these};
use super::conflicts::Conflicts;
use super::masks::Masks;
use std::alloc::AllocError;

/// How a ban's choices at a slot stand in a box.
#[derive(Clone, Copy, Debug, PartialEq, Eq)]
enum Stands {
    /// The box has none of them.
    Out,
    /// They are all that the slot has left.
    Forced,
    /// The slot has some of them, and others.
    Open,
}

/// What a box leaves open of a ban.
#[derive(Clone, Copy, Debug, PartialEq, Eq)]
enum Left {
    /// Nothing: each member has one of each.
    Broken,
    /// These alone.
    Last(Choices),
    /// More, or no member has one of each.
    Other,
}

/// What was done to a box.
#[derive(Clone, Copy, Debug, PartialEq, Eq)]
pub enum Narrowing {
    /// Nothing.
    Same,
    /// Choices were taken out, which only members have that contain a conflict.
    Less,
    /// Nothing; each member contains a conflict.
    Empty,
}

/// Takes out of a box what only members have that contain a conflict, until nothing more is found. Answers whether
/// members may be left.
pub fn narrow(conflicts: &Conflicts, masks: &mut Masks) -> bool
    ensures { NarrowedTells conflicts.now masks.old masks.new result }
{
    'again: loop {
        match narrow_once(conflicts, masks) {
            Narrowing::Same => return true,
            Narrowing::Less => {}
            Narrowing::Empty => return false,
        }
    }
}

/// As `narrow`, by the bans that have one of these slots, and by those that have one at which choices are then taken out.
/// No slot is listed any more where members may be left.
pub fn narrow_from(
    conflicts: &Conflicts,
    changed: &mut Vec<u32>,
    masks: &mut Masks,
) -> Result<bool, AllocError>
    ensures { IfOk result (λ left. NarrowedTells conflicts.now masks.old masks.new left) }
{
    while let Some(slot) = changed.pop() {
        let may_be_left = narrow_at(conflicts, slot, changed, masks)?;
        if !may_be_left {
            return Ok(false);
        }
    }
    Ok(true)
}

/// As `narrow_from`, by the bans that have this slot. The slots are listed at which choices are taken out.
fn narrow_at(
    conflicts: &Conflicts,
    slot: u32,
    changed: &mut Vec<u32>,
    masks: &mut Masks,
) -> Result<bool, AllocError>
    ensures left { IfOk result (λ left. NarrowedTells conflicts.now masks.old masks.new left) }
    ensures less { IfOk result (λ left. left ≡ true → 2 * sum masks.new + length changed.new.items ≤ 2 * sum masks.old + length changed.old.items) }
{
    for place in conflicts.places_at(slot) {
        match narrow_by(conflicts, *place, masks) {
            Narrowing::Same => {}
            Narrowing::Less => list_broken(conflicts, *place, masks, changed)?,
            Narrowing::Empty => return Ok(false),
        }
    }
    Ok(true)
}

/// Lists the first slot of a ban at which the box has none of the ban's choices.
fn list_broken(
    conflicts: &Conflicts,
    place: usize,
    masks: &Masks,
    changed: &mut Vec<u32>,
) -> Result<(), AllocError>
    ensures { OnOk result (length changed.new.items ≤ length changed.old.items + 1) }
{
    let bans = conflicts.bans();
    if place >= bans.len() {
        return Ok(());
    }
    match first_broken(masks.as_slice(), bans[place].sets()) {
        Some(slot) => {
            changed.push(slot)?;
            Ok(())
        }
        None => Ok(()),
    }
}

/// The first slot of a ban at which the box has none of these choices.
fn first_broken(masks: &[u64], sets: &[Choices]) -> Option<u32> {
    for set in sets {
        let slot = set.slot as usize;
        if slot < masks.len() && masks[slot] & set.mask == 0 {
            return Some(set.slot);
        }
    }
    None
}

/// Goes through the bans once.
fn narrow_once(conflicts: &Conflicts, masks: &mut Masks) -> Narrowing
    ensures { NarrowsTells conflicts.now masks.old masks.new result }
{
    let mut changed = false;
    for place in 0..conflicts.bans().len() {
        match narrow_by(conflicts, place, masks) {
            Narrowing::Same => {}
            Narrowing::Less => changed = true,
            Narrowing::Empty => return Narrowing::Empty,
        }
    }
    if changed {
        Narrowing::Less
    } else {
        Narrowing::Same
    }
}

/// As `narrow_once`, by the ban at this place, if there is one.
pub fn narrow_by(conflicts: &Conflicts, place: usize, masks: &mut Masks) -> Narrowing
    ensures { NarrowsTells conflicts.now masks.old masks.new result }
{
    let bans = conflicts.bans();
    if place >= bans.len() {
        return Narrowing::Same;
    }
    take_out(bans[place].sets(), masks)
}

/// Takes out of a box what only members have that have one of each of these.
fn take_out(sets: &[Choices], masks: &mut Masks) -> Narrowing
    ensures { TakesOutTells sets.now masks.old masks.new result }
{
    match left_of(masks.as_slice(), sets) {
        Left::Broken => Narrowing::Empty,
        Left::Last(set) => {
            masks.exclude_all(set);
            Narrowing::Less
        }
        Left::Other => Narrowing::Same,
    }
}

/// What a box leaves open of these.
#[inline(always)]
fn left_of(masks: &[u64], sets: &[Choices]) -> Left
    ensures { LeftTells masks.now sets.now result }
{
    let mut last: Option<Choices> = None;
    for set in sets {
        match stands_in(masks, *set) {
            Stands::Out => return Left::Other,
            Stands::Forced => {}
            Stands::Open => match last {
                Some(_) => return Left::Other,
                None => last = Some(*set),
            },
        }
    }
    match last {
        Some(set) => Left::Last(set),
        None => Left::Broken,
    }
}

/// How these stand in a box.
#[inline(always)]
fn stands_in(masks: &[u64], set: Choices) -> Stands
    ensures { StandsTells masks.now set result }
{
    let slot = set.slot as usize;
    if slot >= masks.len() || masks[slot] & set.mask == 0 {
        return Stands::Out;
    }
    if without_these(masks[slot], set.mask) == 0 {
        Stands::Forced
    } else {
        Stands::Open
    }
}
