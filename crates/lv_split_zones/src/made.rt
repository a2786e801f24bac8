//! All zones that were made: those that there were at first, and behind them the parts of each split.
#![tactic(auto)]

ghost use Rattle.std.specs.Prelude.{◌≡◌, ◌<◌, ◌≤◌, ◌+◌, ◌++◌, [], Some, IfOk, OnOk, length, option_map, slice_get};
ghost use Rattle.lv_boxes.specs.Members.{ZoneValue};
ghost use Rattle.lv_boxes.specs.Parts.{parts_of};
ghost use Rattle.lv_boxes.specs.GroupParts.{parts_by_groups};
ghost use Rattle.lv_split_zones.specs.Splits.{IsNext, parts_at, masks_by, masks_after, zone_after};
ghost use Rattle.lv_split_zones.specs.Searches.{IsSplitOf};
ghost use Rattle.lv_split_zones.specs.Made.{IsMade, zones_made};

use super::causes::Causes;
use super::split::{By, Split, Step};
use lv_base::Conflict;
use lv_boxes::{Groups, Zone};
use std::alloc::{AllocError, Global};

/// The first zones, the splits with what they are by, and how many zones that makes.
#[derive(Drop)]
pub struct Made {
    pub first: Vec<Zone>,
    pub causes: Causes,
    pub splits: Vec<Split>,
    pub count: usize,
}

/// The split that the zone at this place is a part of; none of one of the first.
#[tactic(auto, using(crate::proofs::SearchLemmas::begun_first, crate::proofs::SearchLemmas::ahead_last, crate::proofs::SearchLemmas::begun_more, crate::proofs::SearchLemmas::ahead_more, crate::proofs::SearchLemmas::found_last, crate::proofs::SearchLemmas::found_none))]
pub(crate) fn split_of(splits: &[Split], place: usize) -> Option<Split>
    ensures { IsSplitOf splits.now place result }
{
    let mut low = 0;
    let mut high = splits.len();
    while low < high {
        let middle = low + (high - low) / 2;
        if splits[middle].first <= place {
            low = middle + 1;
        } else {
            high = middle;
        }
    }
    if low == 0 {
        None
    } else {
        Some(splits[low - 1])
    }
}

/// The place of the first zone that the zone at this place comes from, and from that place upwards the steps to it.
fn climb(made: &Made, place: usize, path: &mut Vec<Step>) -> Result<usize, AllocError>
    requires made { IsMade made.now }
    requires place { place < made.now.count }
    requires none { path.old.items ≡ [] }
    ensures { IfOk result (λ root. slice_get (zones_made made.now) place ≡ option_map (zone_after made.now.causes path.new.items) (slice_get made.now.first.items root)) }
{
    let mut at = place;
    while let Some(split) = split_of(made.splits.as_slice(), at) {
        path.push(Step {
            by: split.by,
            part: at - split.first,
        })?;
        at = split.zone;
    }
    Ok(at)
}

/// Both together, where that is a number of zones.
fn sum_of(count: usize, more: usize) -> Result<usize, AllocError>
    ensures { IfOk result (λ sum. sum ≡ count + more) }
{
    count.checked_add(more).ok_or(AllocError)
}

/// The part of a zone that this step leads to.
pub(crate) fn part_of(
    alloc: Global,
    causes: &Causes,
    zone: &Zone,
    step: Step,
) -> Result<Zone, AllocError>
    ensures { IfOk result (λ part. part ≡ record zone.now { masks = masks_by causes.now step.part zone.now.masks step.by }) }
{
    let mut masks = Vec::from_slice(alloc, zone.masks())?;
    causes.narrow(masks.as_mut_slice(), step);
    Zone::new(alloc, zone.source(), zone.base(), masks.as_slice())
}

/// The zone behind these steps from another, the last of which comes first.
fn descend(alloc: Global, causes: &Causes, zone: &Zone, path: &[Step]) -> Result<Zone, AllocError>
    ensures { IfOk result (λ behind. behind ≡ zone_after causes.now path.now zone.now) }
{
    let mut masks = Vec::from_slice(alloc, zone.masks())?;
    let mut left = path.len();
    while left > 0 {
        left -= 1;
        causes.narrow(masks.as_mut_slice(), path[left]);
    }
    Zone::new(alloc, zone.source(), zone.base(), masks.as_slice())
}

impl Made {
    /// The zone at this place, if there is one.
    pub fn zone_at(&self, alloc: Global, place: usize) -> Result<Option<Zone>, AllocError>
        requires { IsMade self.now }
        ensures { IfOk result (λ zone. zone ≡ slice_get (zones_made self.now) place) }
    {
        if place >= self.count {
            return Ok(None);
        }
        let mut path = Vec::new(alloc);
        let root = climb(self, place, &mut path)?;
        match self.first.get(root) {
            Some(zone) => Ok(Some(descend(alloc, &self.causes, zone, path.as_slice())?)),
            None => Ok(None),
        }
    }

    /// The source of the zone at this place, if there is one. Takes no memory.
    pub fn source_at(&self, place: usize) -> Option<u32>
        requires { IsMade self.now }
        ensures { result ≡ option_map (λ (zone : ZoneValue). zone.source) (slice_get (zones_made self.now) place) }
    {
        if place >= self.count {
            return None;
        }
        let mut at = place;
        while let Some(split) = split_of(self.splits.as_slice(), at) {
            at = split.zone;
        }
        self.first_source(at)
    }

    /// The source of the first zone at this place, if there is one.
    fn first_source(&self, place: usize) -> Option<u32>
        ensures { result ≡ option_map (λ (zone : ZoneValue). zone.source) (slice_get self.now.first.items place) }
    {
        match self.first.get(place) {
            Some(zone) => Some(zone.source()),
            None => None,
        }
    }

    /// Splits the zone at this place into so many parts.
    fn push(&mut self, place: usize, by: By, parts: usize) -> Result<(), AllocError>
        requires made { IsMade self.old }
        requires split { IsNext self.old.causes (zones_made self.old) (record { zone = place; first = self.old.count; by = by }) }
        requires parts { parts ≡ length (parts_at self.old.causes (zones_made self.old) (record { zone = place; first = self.old.count; by = by })) }
        ensures made { IsMade self.new }
        ensures more { self.old.count ≤ self.new.count }
        ensures parts { OnOk result (zones_made self.new ≡ zones_made self.old ++ parts_at self.old.causes (zones_made self.old) (record { zone = place; first = self.old.count; by = by })) }
    {
        let count = sum_of(self.count, parts)?;
        self.splits.push(Split {
            zone: place,
            first: self.count,
            by,
        })?;
        self.count = count;
        Ok(())
    }

    /// Splits the zone at this place by a conflict.
    pub fn split(
        &mut self,
        alloc: Global,
        place: usize,
        conflict: &Conflict,
    ) -> Result<(), AllocError>
        requires made { IsMade self.old }
        requires place { place < self.old.count }
        ensures made { IsMade self.new }
        ensures more { self.old.count ≤ self.new.count }
        ensures parts { (zone : ZoneValue) → slice_get (zones_made self.old) place ≡ Some zone → OnOk result (zones_made self.new ≡ zones_made self.old ++ parts_of zone conflict.now) }
    {
        let by = self.causes.by_conflict(alloc, conflict)?;
        self.push(place, by, conflict.pairs().len())
    }

    /// Splits the zone at this place by the target of a member.
    pub fn split_by_groups(
        &mut self,
        alloc: Global,
        place: usize,
        groups: &Groups,
        member: &[u32],
    ) -> Result<(), AllocError>
        requires made { IsMade self.old }
        requires place { place < self.old.count }
        ensures made { IsMade self.new }
        ensures more { self.old.count ≤ self.new.count }
        ensures parts { (zone : ZoneValue) → slice_get (zones_made self.old) place ≡ Some zone → OnOk result (zones_made self.new ≡ zones_made self.old ++ parts_by_groups zone groups.now member.now) }
    {
        let by = self.causes.by_target(alloc, groups, member)?;
        self.push(place, by, groups.slots().len().min(member.len()))
    }
}
