//! A look at one zone behind the other: the zone that the last one was a part of is held, since the next one mostly is too.
#![tactic(auto)]

ghost use Rattle.std.specs.Prelude.{◌≡◌, ◌<◌, Some, IfOk, OnOk, IsTrue, option_map, slice_get};
ghost use Rattle.lv_split_zones.specs.Made.{IsMade, zones_made};
ghost use Rattle.lv_split_zones.specs.Walk.{IsHeld, zone_held};
ghost use Rattle.lv_split_zones.specs.Splits.{without_split};
ghost use Rattle.lv_split_zones.specs.Zones.{is_in, open_at};
ghost use Rattle.lv_split_zones.specs.declared.walk.Held.{Held};

use super::made::{Made, part_of, split_of};
use super::split::Step;
use super::zones::has;
use lv_boxes::Zone;
use std::alloc::{AllocError, Global};
use std::collections::BTreeSet;
use std::marker::Model;

/// A zone that was made, and its place.
#[derive(Drop)]
pub struct Held {
    pub place: usize,
    pub zone: Zone,
}

/// The zones, nothing where one was split, and one that is held.
#[derive(Drop)]
pub struct Walk<'a> {
    made: &'a Made,
    split: &'a BTreeSet<usize>,
    held: Option<Held>,
}

impl<'a> Model for Walk<'a> {
    ghost use Rattle.std.specs.Prelude.{List, Option};
    ghost use Rattle.lv_boxes.specs.Members.{ZoneValue};
    ghost use Rattle.lv_split_zones.specs.Splits.{without_split};
    ghost use Rattle.lv_split_zones.specs.Made.{IsMade, zones_made};
    ghost use Rattle.lv_split_zones.specs.Walk.{IsHeld};
    ghost use Rattle.lv_split_zones.specs.Zones.{is_in};

    ghost Value = { List (Option ZoneValue) };

    ghost view = { λ w. without_split (is_in w.split.now) 0 (zones_made w.made.now) };

    ghost invariant = { λ w. IsMade w.made.now × IsHeld (zones_made w.made.now) w.held };
}

/// Holds the zone at this place.
fn hold(alloc: Global, made: &Made, held: &mut Option<Held>, place: usize) -> Result<(), AllocError>
    requires made { IsMade made.now }
    requires held { IsHeld (zones_made made.now) held.old }
    ensures held { IsHeld (zones_made made.now) held.new }
    ensures zone { OnOk result (zone_held held.new ≡ slice_get (zones_made made.now) place) }
{
    if is_held(held, place) {
        return Ok(());
    }
    *held = match made.zone_at(alloc, place)? {
        Some(zone) => Some(Held { place, zone }),
        None => None,
    };
    Ok(())
}

/// Whether the zone at this place is held.
fn is_held(held: &Option<Held>, place: usize) -> bool
    ensures { IsTrue result → option_map (λ (h : Held). h.place) held.now ≡ Some place }
{
    match held {
        Some(held) => held.place == place,
        None => false,
    }
}

/// The zone at this place, where that it is a part of is held then.
fn zone_beside(
    alloc: Global,
    made: &Made,
    held: &mut Option<Held>,
    place: usize,
) -> Result<Option<Zone>, AllocError>
    requires made { IsMade made.now }
    requires held { IsHeld (zones_made made.now) held.old }
    requires place { place < made.now.count }
    ensures held { IsHeld (zones_made made.now) held.new }
    ensures zone { IfOk result (λ zone. zone ≡ slice_get (zones_made made.now) place) }
{
    let Some(split) = split_of(made.splits.as_slice(), place) else {
        return made.zone_at(alloc, place);
    };
    hold(alloc, made, held, split.zone)?;
    match held {
        Some(whole) => {
            let step = Step {
                by: split.by,
                part: place - split.first,
            };
            Ok(Some(part_of(alloc, &made.causes, &whole.zone, step)?))
        }
        None => Ok(None),
    }
}

impl<'a> Walk<'a> {
    /// Nothing is held yet.
    pub(crate) fn new(made: &'a Made, split: &'a BTreeSet<usize>) -> Walk<'a>
        requires { IsMade made.now }
        ensures { result ≡ without_split (is_in split.now) 0 (zones_made made.now) }
    {
        Walk {
            made,
            split,
            held: None,
        }
    }

    /// The zone at this place, if there is one which was not split.
    pub fn zone_at(&mut self, alloc: Global, place: usize) -> Result<Option<Zone>, AllocError>
        ensures same { self.new ≡ self.old }
        ensures zone { IfOk result (λ zone. zone ≡ open_at self.old place) }
    {
        if place >= self.made.count {
            return Ok(None);
        }
        if has(self.split, place) {
            return Ok(None);
        }
        zone_beside(alloc, self.made, &mut self.held, place)
    }
}
