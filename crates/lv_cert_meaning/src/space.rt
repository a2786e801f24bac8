//! Zones by their numbers, which count from 1. A split closes its zone and opens zones with the next numbers, so that what a
//! certificate splits can be followed line by line.
#![tactic(auto)]

ghost use Rattle.std.specs.Prelude.{◌≡◌, ◌≤◌, ◌-◌, map, Some, IfOk, IfSome, OnOk, length, option_map, slice_get};
ghost use Rattle.lv_boxes.specs.Members.{ZoneValue};
ghost use Rattle.lv_boxes.specs.GroupParts.{parts_by_groups};
ghost use Rattle.lv_split_zones.specs.Zones.{open_at};
ghost use Rattle.std.specs.Option.{option_copied, option_and_then};
ghost use Rattle.lv_cert_meaning.specs.Counting.{at_number};
ghost use Rattle.lv_cert_meaning.specs.Space as Spaces;

use lv_base::{Conflict, Rank, Seq};
use lv_boxes::{Grid, Groups, Zone};
use lv_split_zones::{SplitZones, Walk};
use std::alloc::{AllocError, Global};
use std::marker::Model;

/// What the choices of each slot cost, and the zones so far, nothing where one was split.
#[derive(Drop)]
pub struct Space {
    grid: Grid,
    zones: SplitZones,
}

impl Model for Space {
    ghost use Rattle.lv_cert_meaning.specs.Space.{Space};

    ghost Value = { Space };

    ghost view = { λ s. record { slots = s.grid; zones = s.zones } };
}

impl Space {
    /// Of these zones, each open.
    pub fn new(alloc: Global, grid: Grid, zones: Vec<Zone>) -> Result<Space, AllocError>
        ensures { IfOk result (λ s. s ≡ record { slots = grid; zones = map Some zones.items }) }
    {
        Ok(Space {
            grid,
            zones: SplitZones::new(alloc, zones),
        })
    }

    /// Begins anew with these zones, each open.
    pub fn restart(&mut self, alloc: Global, zones: Vec<Zone>) -> Result<(), AllocError>
        ensures { OnOk result (self.new ≡ record self.old { zones = map Some zones.items }) }
    {
        self.zones = SplitZones::new(alloc, zones);
        Ok(())
    }

    /// The place of the zone of this number, if there is one, open or not.
    fn place_of(&self, n: u128) -> Option<usize>
        ensures zone { option_and_then (slice_get self.now.zones) result ≡ at_number self.now.zones n }
        ensures place { IfSome result (λ place. place ≡ n - 1) }
    {
        if 0 < n && n <= self.zones.len() as u128 {
            Some(n as usize - 1)
        } else {
            None
        }
    }

    /// The tracked state's place of the zone of this number, if it is open. Takes no memory.
    pub fn source_of(&self, n: u128) -> Option<u32>
        ensures { result ≡ option_map (λ (zone : ZoneValue). zone.source) (Spaces.open_zone self.now n) }
    {
        let place = self.place_of(n)?;
        self.zones.source_at(place)
    }

    /// The zone of this number, if it is open.
    fn zone_of(&self, alloc: Global, n: u128) -> Result<Option<Zone>, AllocError>
        ensures { IfOk result (λ zone. zone ≡ Spaces.open_zone self.now n) }
    {
        match self.place_of(n) {
            Some(place) => self.zones.zone_at(alloc, place),
            None => Ok(None),
        }
    }

    /// How many zones there are, those that were split too.
    pub fn len(&self) -> usize
        ensures { result ≡ length self.now.zones }
    {
        self.zones.len()
    }

    /// The rank of the least member of the zone of this number, if that is open and has members. It has a choice for each
    /// slot, which are 4,096 at most.
    pub fn least_of(&self, alloc: Global, n: u128) -> Result<Option<Rank>, AllocError>
        ensures rank { IfOk result (λ r. r ≡ option_and_then (Spaces.least_rank self.now.slots) (Spaces.open_zone self.now n)) }
        ensures few { IfOk result (λ r. IfSome r (λ rank. length rank.choices ≤ 4096)) }
    {
        let mut room = vec![in alloc; 0; self.grid.len()]?;
        match self.zone_of(alloc, n)? {
            Some(zone) => self.least_rank(alloc, &zone, room.as_mut_slice()),
            None => Ok(None),
        }
    }

    /// Whether the zone of this number, which is open, has a member that ranks before this one.
    pub fn has_before(&self, alloc: Global, n: u128, rank: &Rank) -> Result<bool, AllocError>
        ensures { (zone : ZoneValue) → Spaces.open_zone self.now n ≡ Some zone → IfOk result (λ before. before ≡ Spaces.has_before self.now.slots zone rank.now) }
    {
        match self.least_of(alloc, n)? {
            Some(least) => Ok(least.before(rank)),
            None => Ok(false),
        }
    }

    /// Splits the zone of this number, which is open, by these choices.
    pub fn split(&mut self, alloc: Global, n: u128, conflict: &Conflict) -> Result<(), AllocError>
        ensures { (zone : ZoneValue) → Spaces.open_zone self.old n ≡ Some zone → OnOk result (self.new ≡ Spaces.with_split self.old n zone conflict.now) }
    {
        match self.place_of(n) {
            Some(place) => self.zones.split(alloc, place, conflict),
            None => Ok(()),
        }
    }

    /// Splits the zone of this number, which is open, by the groups of these choices.
    pub fn split_by_groups(
        &mut self,
        alloc: Global,
        n: u128,
        groups: &Groups,
        member: &[u32],
    ) -> Result<(), AllocError>
        ensures { (zone : ZoneValue) → Spaces.open_zone self.old n ≡ Some zone → OnOk result (self.new ≡ Spaces.with_parts self.old n (parts_by_groups zone groups.now member.now)) }
    {
        match self.place_of(n) {
            Some(place) => self.zones.split_by_groups(alloc, place, groups, member),
            None => Ok(()),
        }
    }

    /// The rank of the zone's least member, if it has members. The room has one place for each slot.
    fn least_rank(
        &self,
        alloc: Global,
        zone: &Zone,
        room: &mut [u32],
    ) -> Result<Option<Rank>, AllocError>
        requires { length room.old ≡ length self.now.slots }
        ensures rank { IfOk result (λ r. r ≡ Spaces.least_rank self.now.slots zone.now) }
        ensures places { IfOk result (λ r. IfSome r (λ rank. length rank.choices ≡ length room.old)) }
    {
        match self.grid.write_best(zone, room) {
            Some(cost) => Ok(Some(Rank {
                cost,
                source: zone.source(),
                choices: Seq::from_slice(alloc, room)?,
            })),
            None => Ok(None),
        }
    }

    /// Whether the zone is empty, or its least member ranks behind the last one that counts.
    fn is_passed(&self, alloc: Global, zone: &Zone, last: Option<&Rank>) -> Result<bool, AllocError>
        ensures { IfOk result (λ passed. passed ≡ Spaces.is_passed self.now.slots (option_copied last.entry) (Some zone.now)) }
    {
        let mut room = vec![in alloc; 0; self.grid.len()]?;
        match (self.least_rank(alloc, zone, room.as_mut_slice())?, last) {
            (None, _) => Ok(true),
            (Some(_), None) => Ok(false),
            (Some(least), Some(last)) => Ok(last.before(&least)),
        }
    }

    /// Whether what stands at the place was split, or is empty, or its least member ranks behind the last one that counts.
    fn has_passed(
        &self,
        alloc: Global,
        walk: &mut Walk<'_>,
        place: usize,
        last: Option<&Rank>,
    ) -> Result<bool, AllocError>
        requires { walk.old ≡ self.now.zones }
        ensures walk { walk.new ≡ self.now.zones }
        ensures passed { IfOk result (λ passed. passed ≡ Spaces.is_passed self.now.slots (option_copied last.entry) (open_at self.now.zones place)) }
    {
        match walk.zone_at(alloc, place)? {
            Some(zone) => self.is_passed(alloc, &zone, last),
            None => Ok(true),
        }
    }

    /// Whether each zone was split, or is empty, or its least member ranks behind the last one that counts.
    #[tactic(auto, using(crate::proofs::PassedLemmas::one_passed, crate::proofs::PassedLemmas::one_left))]
    pub fn all_passed(&self, alloc: Global, last: Option<&Rank>) -> Result<bool, AllocError>
        ensures { IfOk result (λ passed. passed ≡ Spaces.all_passed self.now (option_copied last.entry)) }
    {
        let mut walk = self.zones.walk();
        for place in 0..self.zones.len() {
            if !self.has_passed(alloc, &mut walk, place, last)? {
                return Ok(false);
            }
        }
        Ok(true)
    }
}
