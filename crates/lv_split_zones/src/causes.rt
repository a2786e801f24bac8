//! What splits are by, each once, and the masks of a part.
#![tactic(auto)]

ghost use Rattle.std.specs.Prelude.{◌≡◌, ◌≤◌, ◌<◌, true, Some, IfOk, IfSome, length, slice_get, slice_index};
ghost use Rattle.lv_boxes.specs.Masks.{only_choice, without_choice};
ghost use Rattle.lv_boxes.specs.Parts.{masks_with, masks_without};
ghost use Rattle.lv_boxes.specs.GroupParts.{HasGroups, masks_of_group, masks_of_others};
ghost use Rattle.lv_boxes.specs.Groups.{group_of};
ghost use Rattle.lv_split_zones.specs.declared.split.By.TheVariants as by;
ghost use Rattle.lv_split_zones.specs.Splits.{IsKept, IsConflict, IsTarget, masks_of_part, masks_of_target_part, masks_by};

use super::split::{By, Step};
use lv_base::{Conflict, Pair, Seq};
use lv_boxes::{Groups, mask};
use std::alloc::{AllocError, Global};
use std::marker::Model;

/// Conflicts, groups of choices, and members whose targets are taken out.
#[derive(Drop)]
pub struct Causes {
    conflicts: Vec<Conflict>,
    groups: Vec<Groups>,
    members: Vec<Seq<u32>>,
}

impl Model for Causes {
    ghost use Rattle.lv_split_zones.specs.Splits.{CausesValue};

    ghost Value = { CausesValue };

    ghost view = { λ c. record { conflicts = c.conflicts.items; groups = c.groups.items; members = c.members.items } };
}

impl Causes {
    /// None yet.
    pub fn new(alloc: Global) -> Causes {
        Causes {
            conflicts: Vec::new(alloc),
            groups: Vec::new(alloc),
            members: Vec::new(alloc),
        }
    }

    /// A split by this conflict, of which a copy is kept where there is none yet.
    pub fn by_conflict(&mut self, alloc: Global, conflict: &Conflict) -> Result<By, AllocError>
        ensures kept { IsKept self.old self.new }
        ensures by { IfOk result (λ by. IsConflict self.new conflict.now by) }
    {
        if let Some(place) = place_of_conflict(self.conflicts.as_slice(), conflict.pairs()) {
            return Ok(By::Conflict(place));
        }
        let place = self.conflicts.len();
        self.conflicts
            .push(Conflict::from_pairs(alloc, conflict.pairs())?)?;
        Ok(By::Conflict(place))
    }

    /// The place of these groups, of which a copy is kept where there is none yet.
    fn keep_groups(&mut self, alloc: Global, groups: &Groups) -> Result<usize, AllocError>
        ensures kept { IsKept self.old self.new }
        ensures place { IfOk result (λ place. slice_get self.new.groups place ≡ Some groups.now) }
    {
        if let Some(place) = place_of_groups(self.groups.as_slice(), groups) {
            return Ok(place);
        }
        let place = self.groups.len();
        self.groups.push(copied(alloc, groups)?)?;
        Ok(place)
    }

    /// The place of this member, of which a copy is kept where there is none yet.
    fn keep_member(&mut self, alloc: Global, member: &[u32]) -> Result<usize, AllocError>
        ensures kept { IsKept self.old self.new }
        ensures place { IfOk result (λ place. slice_get self.new.members place ≡ Some member.now) }
    {
        if let Some(place) = place_of_member(self.members.as_slice(), member) {
            return Ok(place);
        }
        let place = self.members.len();
        self.members.push(Seq::from_slice(alloc, member)?)?;
        Ok(place)
    }

    /// A split by the target of this member, of which a copy is kept where there is none yet.
    pub fn by_target(
        &mut self,
        alloc: Global,
        groups: &Groups,
        member: &[u32],
    ) -> Result<By, AllocError>
        ensures kept { IsKept self.old self.new }
        ensures by { IfOk result (λ by. IsTarget self.new groups.now member.now by) }
    {
        let grouped = self.keep_groups(alloc, groups)?;
        let place = self.keep_member(alloc, member)?;
        Ok(By::Target(grouped, place))
    }

    /// Makes the masks of a part by a target of those of what is split.
    fn narrow_by_target(&self, masks: &mut [u64], part: usize, grouped: usize, place: usize)
        ensures { masks.new ≡ masks_by self.now part masks.old (by.Target grouped place) }
    {
        let Some(groups) = self.groups.get(grouped) else {
            return;
        };
        if let Some(member) = self.members.get(place) {
            narrow_by_groups(masks, groups, member.as_slice(), part);
        }
    }

    /// Makes the masks of a part of those of what is split.
    pub fn narrow(&self, masks: &mut [u64], step: Step)
        ensures { masks.new ≡ masks_by self.now step.part masks.old step.by }
    {
        match step.by {
            By::Conflict(place) => {
                if let Some(conflict) = self.conflicts.get(place) {
                    narrow_by_pairs(masks, conflict.pairs(), step.part);
                }
            }
            By::Target(grouped, place) => {
                self.narrow_by_target(masks, step.part, grouped, place);
            }
        }
    }
}

/// Whether these are one pair.
fn is_same(one: Pair, other: Pair) -> bool
    ensures { result ≡ true → one ≡ other }
{
    one.slot == other.slot && one.choice == other.choice
}

/// Whether these are the same pairs.
fn are_same(one: &[Pair], other: &[Pair]) -> bool
    ensures { result ≡ true → one.now ≡ other.now }
{
    if one.len() != other.len() {
        return false;
    }
    for (place, pair) in one.iter().enumerate() {
        if !is_same(*pair, other[place]) {
            return false;
        }
    }
    true
}

/// The place of a conflict of these pairs.
fn place_of_conflict(conflicts: &[Conflict], pairs: &[Pair]) -> Option<usize>
    ensures { IfSome result (λ place. slice_get conflicts.now place ≡ Some pairs.now) }
{
    for (place, conflict) in conflicts.iter().enumerate() {
        if are_same(conflict.pairs(), pairs) {
            return Some(place);
        }
    }
    None
}

/// Whether these are the same numbers.
fn are_same_numbers(one: &[u32], other: &[u32]) -> bool
    ensures { result ≡ true → one.now ≡ other.now }
{
    one == other
}

/// Whether these are the same groups.
fn are_same_groups(one: &[Seq<u32>], other: &[Seq<u32>]) -> bool
    ensures { result ≡ true → one.now ≡ other.now }
{
    if one.len() != other.len() {
        return false;
    }
    for (slot, numbers) in one.iter().enumerate() {
        if !are_same_numbers(numbers.as_slice(), other[slot].as_slice()) {
            return false;
        }
    }
    true
}

/// The place of these groups.
fn place_of_groups(all: &[Groups], groups: &Groups) -> Option<usize>
    ensures { IfSome result (λ place. slice_get all.now place ≡ Some groups.now) }
{
    for (place, other) in all.iter().enumerate() {
        if are_same_groups(other.slots(), groups.slots()) {
            return Some(place);
        }
    }
    None
}

/// The place of this member.
fn place_of_member(members: &[Seq<u32>], member: &[u32]) -> Option<usize>
    ensures { IfSome result (λ place. slice_get members.now place ≡ Some member.now) }
{
    for (place, other) in members.iter().enumerate() {
        if are_same_numbers(other.as_slice(), member) {
            return Some(place);
        }
    }
    None
}

/// The same groups in memory of their own.
fn copied(alloc: Global, groups: &Groups) -> Result<Groups, AllocError>
    ensures { IfOk result (λ copy. copy ≡ groups.now) }
{
    let slots = groups.slots();
    let mut copy = Groups::new(alloc)?;
    for numbers in slots {
        copy.push_slot(numbers.as_slice())?;
    }
    Ok(copy)
}

/// Leaves the pair's choice alone at its slot.
fn fix(masks: &mut [u64], pair: Pair)
    ensures { masks.new ≡ masks_with masks.old pair }
{
    let slot = pair.slot as usize;
    if slot < masks.len() {
        masks[slot] = mask::only(masks[slot], pair.choice);
    }
}

/// Takes the pair's choice out at its slot.
fn exclude(masks: &mut [u64], pair: Pair)
    ensures { masks.new ≡ masks_without masks.old pair }
{
    let slot = pair.slot as usize;
    if slot < masks.len() {
        masks[slot] = mask::without(masks[slot], pair.choice);
    }
}

/// Makes the masks of the part of this place by these pairs.
fn narrow_by_pairs(masks: &mut [u64], pairs: &[Pair], part: usize)
    ensures { masks.new ≡ masks_of_part masks.old 0 pairs.now part }
{
    for (place, pair) in pairs.iter().enumerate() {
        if place == part {
            exclude(masks, *pair);
            return;
        }
        fix(masks, *pair);
    }
}

/// The group of a choice; 0 where the slot has no such choice.
fn group_at(numbers: &[u32], choice: u32) -> u32
    ensures { result ≡ group_of numbers.now choice }
{
    let at = choice as usize;
    if at < numbers.len() { numbers[at] } else { 0 }
}

/// Leaves the choices of this group alone at the slot.
fn fix_group(masks: &mut [u64], slot: usize, numbers: &[u32], group: u32)
    requires { length numbers.now ≤ 64 }
    ensures { masks.new ≡ masks_of_group masks.old slot numbers.now group }
{
    if slot < masks.len() {
        masks[slot] = mask::only_group(masks[slot], numbers, group);
    }
}

/// Takes the choices of this group out at the slot.
fn exclude_group(masks: &mut [u64], slot: usize, numbers: &[u32], group: u32)
    requires { length numbers.now ≤ 64 }
    ensures { masks.new ≡ masks_of_others masks.old slot numbers.now group }
{
    if slot < masks.len() {
        masks[slot] = mask::without_group(masks[slot], numbers, group);
    }
}

/// Makes the masks of the part of this place by the target of a member.
fn narrow_by_groups(masks: &mut [u64], groups: &Groups, member: &[u32], part: usize)
    ensures { masks.new ≡ masks_of_target_part masks.old 0 groups.now member.now part }
{
    let slots = groups.slots();
    for (slot, numbers) in slots.iter().enumerate() {
        if slot >= member.len() {
            return;
        }
        let group = group_at(numbers.as_slice(), member[slot]);
        if slot == part {
            exclude_group(masks, slot, numbers.as_slice(), group);
            return;
        }
        fix_group(masks, slot, numbers.as_slice(), group);
    }
}
