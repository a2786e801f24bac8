//! Groups of choices, and splitting a zone by them. Two candidates have one target where their choices are of the same
//! groups at each slot. The members with another target are no zone, but fall into zones: those whose choice at the first
//! slot is of another group, those that have its group there and another at the second slot, and so on.
#![tactic(auto)]

ghost use Rattle.std.specs.Prelude.{◌≡◌, ◌<◌, ◌≤◌, ◌∷◌, ◌++◌, [], length, All, IfOk, OnOk, OnErr};
ghost use Rattle.lv_boxes.specs.Groups.{group_of, have_same_groups};
ghost use Rattle.lv_boxes.specs.GroupParts.{HasGroups, have_shape, parts_by_groups, IsSplitByGroups};

use super::grid::Grid;
use super::zone::Zone;
use lv_base::{Cost, Seq};
use std::alloc::{AllocError, Global};
use std::marker::Model;

/// Of each slot the group of each choice, slots and choices counted from 0. Contracts see the list of the slots, each as
/// the list of its groups.
#[derive(Debug, Drop)]
pub struct Groups {
    alloc: Global,
    slots: Seq<Seq<u32>>,
}

impl Model for Groups {
    ghost use Rattle.std.specs.Prelude.{ℕ, List, length, ◌≤◌, All};
    ghost use Rattle.lv_boxes.specs.GroupParts.{HasGroups};

    ghost Value = { List (List ℕ) };

    ghost view = { λ g. g.slots };

    ghost invariant = { λ g. (length g.slots ≤ 4096) × All HasGroups g.slots };
}

impl Groups {
    /// The groups of no slots.
    pub fn new(alloc: Global) -> Result<Groups, AllocError>
        ensures { IfOk result (λ groups. groups ≡ []) }
    {
        Ok(Groups {
            alloc,
            slots: Seq::new(alloc),
        })
    }

    /// Adds a slot behind the others: the groups of its 1 to 64 choices. There are at most 4,096 slots. After want of
    /// memory the groups are as they were.
    pub fn push_slot(&mut self, groups: &[u32]) -> Result<(), AllocError>
        requires slot { HasGroups groups.now }
        requires room { length self.old < 4096 }
        ensures ok { OnOk result (self.new ≡ self.old ++ groups.now ∷ []) }
        ensures err { OnErr result (self.new ≡ self.old) }
    {
        let slot = Seq::from_slice(self.alloc, groups)?;
        self.slots.push(slot)
    }

    /// Of each slot the groups of its choices.
    pub fn slots(&self) -> &[Seq<u32>]
        ensures slots { result.now ≡ self.now }
        ensures few { length self.now ≤ 4096 }
        ensures each { All HasGroups self.now }
    {
        self.slots.as_slice()
    }

    /// Whether there is a group for each choice of the grid, and no other.
    pub fn fit(&self, grid: &Grid) -> bool
        ensures { result ≡ have_shape grid.now self.now }
    {
        have_one_shape(grid.slots(), self.slots.as_slice())
    }

    /// Whether two candidates have one target. Takes no memory.
    pub fn are_one(&self, one: &[u32], other: &[u32]) -> bool
        ensures { result ≡ have_same_groups self.now one.now other.now }
    {
        let slots = self.slots.as_slice();
        for (slot, numbers) in slots.iter().enumerate() {
            if slot >= one.len() || slot >= other.len() {
                return slot >= one.len() && slot >= other.len();
            }
            if group_at(numbers.as_slice(), one[slot])
                != group_at(numbers.as_slice(), other[slot])
            {
                return false;
            }
        }
        true
    }
}

/// Whether there are as many slots, and as many choices at each.
fn have_one_shape(slots: &[Seq<Cost>], groups: &[Seq<u32>]) -> bool
    ensures { result ≡ have_shape slots.now groups.now }
{
    if slots.len() != groups.len() {
        return false;
    }
    for (slot, costs) in slots.iter().enumerate() {
        if costs.len() != groups[slot].len() {
            return false;
        }
    }
    true
}

/// The group of a choice; 0 where the slot has no such choice.
fn group_at(numbers: &[u32], choice: u32) -> u32
    ensures { result ≡ group_of numbers.now choice }
{
    let at = choice as usize;
    if at < numbers.len() { numbers[at] } else { 0 }
}

/// The members of a zone that have another target than this one, as zones that share no member: one for each slot, in
/// order. It has the member's groups at the slots before it and every other group at its own slot, so it may have no
/// members. Each zone is one allocation. A member with fewer choices makes no zones behind them.
pub fn split_by_groups(
    alloc: Global,
    zone: &Zone,
    groups: &Groups,
    member: &[u32],
) -> Result<Vec<Zone>, AllocError>
    ensures parts { IfOk result (λ zones. zones.items ≡ parts_by_groups zone.now groups.now member.now) }
    ensures split { IfOk result (λ zones. length groups.now ≡ length zone.now.masks → length member.now ≡ length groups.now → IsSplitByGroups zone.now groups.now member.now zones.items) }
{
    let slots = groups.slots();
    let mut zones = Vec::with_capacity(alloc, slots.len())?;
    let mut rest = zone.copied(alloc)?;
    for (slot, numbers) in slots.iter().enumerate() {
        if slot >= member.len() {
            return Ok(zones);
        }
        let group = group_at(numbers.as_slice(), member[slot]);
        let mut part = rest.copied(alloc)?;
        part.exclude_group(slot, numbers.as_slice(), group);
        zones.push(part)?;
        rest.fix_group(slot, numbers.as_slice(), group);
    }
    Ok(zones)
}
