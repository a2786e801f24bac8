//! The rounds of each call, over settings that are made once before.
#![tactic(auto)]

use super::setting;
use crate::numbers::Numbers;
use lv_boxes::{choices_as_conflict, split};
use std::alloc::{AllocError, Global};

/// Zones and candidates that the rounds take in turn.
const TAKEN_IN_TURN: usize = 16;

/// What the calls answered, added up.
#[derive(Debug, Drop)]
pub struct Tally {
    pub count: u64,
    pub sum: u64,
}

impl Tally {
    fn new() -> Tally {
        Tally { count: 0, sum: 0 }
    }

    fn add(&mut self, count: u64, sum: u64) {
        self.count = self.count.wrapping_add(count);
        self.sum = self.sum.wrapping_add(sum);
    }
}

/// The least members of zones, written one after the other: how many there are, and what they cost.
pub fn write_best(alloc: Global, rounds: u32) -> Result<Tally, AllocError> {
    let mut numbers = Numbers::new(1);
    let grid = setting::grid(alloc, &mut numbers)?;
    let mut zones = Vec::new(alloc);
    for _zone in 0..TAKEN_IN_TURN {
        zones.push(setting::zone(alloc, &mut numbers)?)?;
    }
    let mut out = [0; 256];
    let mut tally = Tally::new();
    for _round in 0..rounds {
        for zone in &zones {
            if let Some(cost) = grid.write_best(zone, &mut out) {
                tally.add(1, cost.0);
            }
        }
    }
    Ok(tally)
}

/// A zone split by a choice at each of its slots: how many parts there are, and what the least member of the last
/// costs.
pub fn split_zone(alloc: Global, rounds: u32) -> Result<Tally, AllocError> {
    let mut numbers = Numbers::new(1);
    let grid = setting::grid(alloc, &mut numbers)?;
    let zone = setting::zone(alloc, &mut numbers)?;
    let choices = setting::choices(alloc, &mut numbers, 4)?;
    let conflict = choices_as_conflict(alloc, choices.as_slice())?;
    let mut tally = Tally::new();
    for _round in 0..rounds {
        let parts = split(alloc, &zone, &conflict)?;
        tally.add(parts.len() as u64, 0);
        if let Some(part) = parts.first()
            && let Some(cost) = grid.best(part)
        {
            tally.add(0, cost.0);
        }
    }
    Ok(tally)
}

/// Candidates looked up among the kept conflicts: how many contain one, and the sum of the places of the first.
pub fn contained_in(alloc: Global, rounds: u32) -> Result<Tally, AllocError> {
    let mut numbers = Numbers::new(1);
    let store = setting::store(alloc, &mut numbers)?;
    let mut candidates = Vec::new(alloc);
    for _candidate in 0..TAKEN_IN_TURN {
        candidates.push(setting::candidate(alloc, &mut numbers)?)?;
    }
    let mut tally = Tally::new();
    for _round in 0..rounds {
        for candidate in &candidates {
            if let Some(place) = store.contained_in(candidate) {
                tally.add(1, place as u64);
            }
        }
    }
    Ok(tally)
}
