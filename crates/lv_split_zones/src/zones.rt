//! Zones by their places, those that were split told.
#![tactic(auto)]

ghost use Rattle.std.specs.Prelude.{◌≡◌, ◌≤◌, ◌<◌, ◌++◌, ℕ, true, nat_eq, List, map, Some, None, IfOk, OnOk, length, option_map, slice_get, slice_set, if◌then◌else◌};
ghost use Rattle.lv_boxes.specs.Members.{ZoneValue};
ghost use Rattle.lv_boxes.specs.Parts.{parts_of};
ghost use Rattle.lv_boxes.specs.GroupParts.{parts_by_groups};
ghost use Rattle.lv_split_zones.specs.Zones.{open_at, is_in};

use super::causes::Causes;
use super::made::Made;
use super::walk::Walk;
use lv_base::Conflict;
use lv_boxes::{Groups, Zone};
use std::alloc::{AllocError, Global};
use std::collections::BTreeSet;
use std::marker::Model;

/// Zones, nothing where one was split.
#[derive(Drop)]
pub struct SplitZones {
    made: Made,
    split: BTreeSet<usize>,
}

impl Model for SplitZones {
    ghost use Rattle.std.specs.Prelude.{List, Option};
    ghost use Rattle.lv_boxes.specs.Members.{ZoneValue};
    ghost use Rattle.lv_split_zones.specs.Splits.{without_split};
    ghost use Rattle.lv_split_zones.specs.Made.{zones_made};
    ghost use Rattle.lv_split_zones.specs.Zones.{AreZones, is_in};

    ghost Value = { List (Option ZoneValue) };

    ghost view = { λ z. without_split (is_in z.split) 0 (zones_made z.made) };

    ghost invariant = { λ z. AreZones z.made z.split };
}

/// Whether the zone at this place was split.
pub(crate) fn has(split: &BTreeSet<usize>, place: usize) -> bool
    ensures { result ≡ is_in split.now place }
{
    split.contains(&place)
}

/// Tells that the zone at this place was split.
fn mark(split: &mut BTreeSet<usize>, place: usize) -> Result<(), AllocError>
    ensures split { OnOk result ((i : ℕ) → is_in split.new i ≡ (if nat_eq i place then true else is_in split.old i)) }
    ensures few { (n : ℕ) → ((i : ℕ) → is_in split.old i ≡ true → i < n) → place < n → (i : ℕ) → is_in split.new i ≡ true → i < n }
{
    split.insert(place)?;
    Ok(())
}

impl SplitZones {
    /// These, none of them split.
    pub fn new(alloc: Global, zones: Vec<Zone>) -> SplitZones
        ensures { result ≡ map Some zones.items }
    {
        SplitZones {
            made: Made {
                count: zones.len(),
                first: zones,
                causes: Causes::new(alloc),
                splits: Vec::new(alloc),
            },
            split: BTreeSet::new(alloc),
        }
    }

    /// How many zones there are, those that were split too.
    pub fn len(&self) -> usize
        ensures { result ≡ length self.now }
    {
        self.made.count
    }

    /// The source of the zone at this place, if there is one which was not split. Takes no memory.
    pub fn source_at(&self, place: usize) -> Option<u32>
        ensures { result ≡ option_map (λ (zone : ZoneValue). zone.source) (open_at self.now place) }
    {
        if has(&self.split, place) {
            return None;
        }
        self.made.source_at(place)
    }

    /// The zone at this place, if there is one which was not split.
    pub fn zone_at(&self, alloc: Global, place: usize) -> Result<Option<Zone>, AllocError>
        ensures { IfOk result (λ zone. zone ≡ open_at self.now place) }
    {
        if has(&self.split, place) {
            return Ok(None);
        }
        self.made.zone_at(alloc, place)
    }

    /// The zones, to be looked at one behind the other.
    pub fn walk(&self) -> Walk<'_>
        ensures { result ≡ self.now }
    {
        Walk::new(&self.made, &self.split)
    }

    /// Splits the zone at this place, which was not split yet, by a conflict: its parts come behind the others.
    pub fn split(
        &mut self,
        alloc: Global,
        place: usize,
        conflict: &Conflict,
    ) -> Result<(), AllocError>
        ensures { (zone : ZoneValue) → slice_get self.old place ≡ Some (Some zone) → OnOk result (self.new ≡ slice_set self.old place None ++ map Some (parts_of zone conflict.now)) }
    {
        if place >= self.made.count {
            return Ok(());
        }
        self.made.split(alloc, place, conflict)?;
        mark(&mut self.split, place)
    }

    /// Splits the zone at this place, which was not split yet, by the target of a member: its parts come behind the others.
    pub fn split_by_groups(
        &mut self,
        alloc: Global,
        place: usize,
        groups: &Groups,
        member: &[u32],
    ) -> Result<(), AllocError>
        ensures { (zone : ZoneValue) → slice_get self.old place ≡ Some (Some zone) → OnOk result (self.new ≡ slice_set self.old place None ++ map Some (parts_by_groups zone groups.now member.now)) }
    {
        if place >= self.made.count {
            return Ok(());
        }
        self.made.split_by_groups(alloc, place, groups, member)?;
        mark(&mut self.split, place)
    }
}
