//! A zone: the candidates of one tracked state whose choice at each slot is in that slot's mask.
#![tactic(auto)]

ghost use Rattle.std.specs.Prelude.{◌≡◌, ◌≤◌, ◌^◌, length, IfOk};
ghost use Rattle.lv_boxes.specs.Parts.{masks_with, masks_without};
ghost use Rattle.lv_boxes.specs.GroupParts.{masks_of_group, masks_of_others};

use super::mask;
use lv_base::{Cost, Pair};
use std::alloc::{AllocError, Global};
use std::marker::Model;

/// A set of candidates of one source. Contracts see its source, its base cost and the list of its masks.
#[derive(Debug, Drop)]
pub struct Zone {
    source: u32,
    base: Cost,
    masks: Vec<u64>,
}

impl Model for Zone {
    ghost use Rattle.std.specs.Prelude.{◌≤◌, ◌^◌};
    ghost use Rattle.lv_boxes.specs.Members.{ZoneValue};

    ghost Value = { ZoneValue };

    ghost view = { λ z. record { source = z.source; base = z.base; masks = z.masks.items } };

    ghost invariant = { λ z. z.base.0 ≤ 10 ^ 15 };
}

impl Zone {
    /// The candidates of a tracked state (`source`, by its place in the list of tracked states) of cost `base`, at most
    /// 10^15, whose choice at each slot is in that slot's mask. One mask for each slot of the grid: choice `c` is left
    /// where bit `c` is 1, and bits past the slot's choices mean nothing.
    pub fn new(alloc: Global, source: u32, base: Cost, masks: &[u64]) -> Result<Zone, AllocError>
        requires { base.0 ≤ 10 ^ 15 }
        ensures { IfOk result (λ zone. zone ≡ record { source = source; base = base; masks = masks.now }) }
    {
        Ok(Zone {
            source,
            base,
            masks: Vec::from_slice(alloc, masks)?,
        })
    }

    /// The place of the tracked state that its members come from.
    pub fn source(&self) -> u32
        ensures { result ≡ self.now.source }
    {
        self.source
    }

    /// What the tracked state costs: part of the cost of every member.
    pub fn base(&self) -> Cost
        ensures base { result ≡ self.now.base }
        ensures bound { result.0 ≤ 10 ^ 15 }
    {
        self.base
    }

    /// Of each slot the mask of the choices left.
    pub fn masks(&self) -> &[u64]
        ensures { result.now ≡ self.now.masks }
    {
        self.masks.as_slice()
    }

    /// A zone with the same members, in memory of its own.
    pub(crate) fn copied(&self, alloc: Global) -> Result<Zone, AllocError>
        ensures { IfOk result (λ zone. zone ≡ self.now) }
    {
        Zone::new(alloc, self.source, self.base, self.masks.as_slice())
    }

    /// Leaves the members that have the pair's choice at its slot. A slot that the zone hasn't is passed over.
    pub(crate) fn fix(&mut self, pair: Pair)
        ensures { self.new ≡ record self.old { masks = masks_with self.old.masks pair } }
    {
        let slot = pair.slot as usize;
        if slot < self.masks.len() {
            self.masks[slot] = mask::only(self.masks[slot], pair.choice);
        }
    }

    /// Leaves the members that haven't the pair's choice at its slot. A slot that the zone hasn't is passed over.
    pub(crate) fn exclude(&mut self, pair: Pair)
        ensures { self.new ≡ record self.old { masks = masks_without self.old.masks pair } }
    {
        let slot = pair.slot as usize;
        if slot < self.masks.len() {
            self.masks[slot] = mask::without(self.masks[slot], pair.choice);
        }
    }

    /// Leaves the members whose choice at the slot is of this group, where these are the groups of its choices. A slot that
    /// the zone hasn't is passed over.
    pub(crate) fn fix_group(&mut self, slot: usize, groups: &[u32], group: u32)
        requires { length groups.now ≤ 64 }
        ensures { self.new ≡ record self.old { masks = masks_of_group self.old.masks slot groups.now group } }
    {
        if slot < self.masks.len() {
            self.masks[slot] = mask::only_group(self.masks[slot], groups, group);
        }
    }

    /// Leaves the members whose choice at the slot is of another group. A slot that the zone hasn't is passed over.
    pub(crate) fn exclude_group(&mut self, slot: usize, groups: &[u32], group: u32)
        requires { length groups.now ≤ 64 }
        ensures { self.new ≡ record self.old { masks = masks_of_others self.old.masks slot groups.now group } }
    {
        if slot < self.masks.len() {
            self.masks[slot] = mask::without_group(self.masks[slot], groups, group);
        }
    }
}
