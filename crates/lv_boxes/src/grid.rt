//! A grid: of each slot what its choices cost.
#![tactic(auto)]

ghost use Rattle.std.specs.Prelude.{◌≡◌, ◌+◌, ◌<◌, ◌≤◌, [], ◌∷◌, ◌++◌, length, All, IfOk, OnOk, OnErr, OnSome, IfSome, is_none};
ghost use Rattle.lv_boxes.specs.Members.{IsSlot, rank_in};
ghost use Rattle.lv_boxes.specs.Least.{lacks_choice, IsLeastMember, IsLeastCost};

use super::least::{least_cost, write_least};
use super::zone::Zone;
use lv_base::{Cost, Seq};
use std::alloc::{AllocError, Global};
use std::marker::Model;

/// The costs of the choices of each slot, slots and choices counted from 0. Contracts see the list of the slots, each as
/// the list of its costs.
#[derive(Debug, Drop)]
pub struct Grid {
    alloc: Global,
    slots: Seq<Seq<Cost>>,
}

impl Model for Grid {
    ghost use Rattle.std.specs.Prelude.{List, length, ◌≤◌, All};
    ghost use Rattle.lv_base.specs.declared.ids.Cost.{Cost};
    ghost use Rattle.lv_boxes.specs.Members.{IsSlot};

    ghost Value = { List (List Cost) };

    ghost view = { λ g. g.slots };

    ghost invariant = { λ g. (length g.slots ≤ 4096) × All IsSlot g.slots };
}

impl Grid {
    /// The grid without slots.
    pub fn new(alloc: Global) -> Result<Grid, AllocError>
        ensures { IfOk result (λ grid. grid ≡ []) }
    {
        Ok(Grid {
            alloc,
            slots: Seq::new(alloc),
        })
    }

    /// Adds a slot behind the others: the costs of its 1 to 64 choices, each at most 1,000,000. A grid has at most
    /// 4,096 slots. After want of memory it is as it was.
    pub fn push_slot(&mut self, costs: &[Cost]) -> Result<(), AllocError>
        requires slot { IsSlot costs.now }
        requires room { length self.old < 4096 }
        ensures ok { OnOk result (self.new ≡ self.old ++ costs.now ∷ []) }
        ensures err { OnErr result (self.new ≡ self.old) }
    {
        let slot = Seq::from_slice(self.alloc, costs)?;
        self.slots.push(slot)
    }

    /// How many slots there are.
    pub fn len(&self) -> usize
        ensures len { result ≡ length self.now }
        ensures bound { length self.now ≤ 4096 }
    {
        self.slots.len()
    }

    /// Of each slot what its choices cost.
    pub fn slots(&self) -> &[Seq<Cost>]
        ensures slots { result.now ≡ self.now }
        ensures few { length self.now ≤ 4096 }
        ensures each { All IsSlot self.now }
    {
        self.slots.as_slice()
    }

    /// The cost of the zone's member of least rank: the zone's base and the costs of the member's choices. `None`
    /// exactly where some slot has no choice left, or the zone has not one mask for each slot. Takes no memory.
    pub fn best(&self, zone: &Zone) -> Option<Cost>
        ensures none { is_none result ≡ lacks_choice self.now zone.now.masks }
        ensures cost { IfSome result (λ cost. IsLeastCost self.now zone.now cost) }
    {
        let cost = least_cost(self.slots.as_slice(), zone.masks())?;
        Some(Cost(zone.base().0 + cost))
    }

    /// As `best`, and writes the member's choices: at each slot the first among its cheapest. The buffer has one place
    /// for each slot; where the answer is `None`, what it holds means nothing.
    pub fn write_best(&self, zone: &Zone, out: &mut [u32]) -> Option<Cost>
        requires { length out.old ≡ length self.now }
        ensures none { is_none result ≡ lacks_choice self.now zone.now.masks }
        ensures member { OnSome result (IsLeastMember self.now zone.now out.new) }
        ensures cost { IfSome result (λ cost. cost ≡ (rank_in self.now zone.now out.new).cost) }
    {
        let sum = write_least(self.slots.as_slice(), zone.masks(), out)?;
        Some(Cost(zone.base().0 + sum))
    }
}
