//! The grid, zones, conflicts and candidates that the rounds run on.
#![tactic(auto)]

ghost use Rattle.std.specs.Prelude.{◌≡◌, ◌+◌, ◌≤◌, ◌<◌, length, vec_len, IfOk};

use crate::numbers::Numbers;
use lv_base::{Candidate, Conflict, Cost, Pair};
use lv_boxes::conflicts::Store;
use lv_boxes::{Grid, Zone};
use std::alloc::{AllocError, Global};

/// Slots of the grid.
pub const SLOTS: u32 = 256;

/// Conflicts that are kept.
pub const CONFLICTS: u32 = 10_000;

/// A grid of 256 slots with four choices each.
pub fn grid(alloc: Global, numbers: &mut Numbers) -> Result<Grid, AllocError>
    ensures { IfOk result (λ grid. length grid ≡ 256) }
{
    let mut grid = Grid::new(alloc)?;
    for _slot in 0..SLOTS {
        let costs = [
            Cost(numbers.below(1_000_001)),
            Cost(numbers.below(1_000_001)),
            Cost(numbers.below(1_000_001)),
            Cost(numbers.below(1_000_001)),
        ];
        grid.push_slot(&costs)?;
    }
    Ok(grid)
}

/// A zone with at least one choice left at each slot.
pub fn zone(alloc: Global, numbers: &mut Numbers) -> Result<Zone, AllocError> {
    let mut masks = Vec::new(alloc);
    for _slot in 0..SLOTS {
        masks.push(numbers.below(15) + 1)?;
    }
    Zone::new(alloc, 0, Cost(0), masks.as_slice())
}

/// A choice below a bound for each slot.
pub fn choices(alloc: Global, numbers: &mut Numbers, bound: u64) -> Result<Vec<u32>, AllocError>
    requires small { bound ≤ 64 }
    requires some { 0 < bound }
    ensures { IfOk result (λ choices. vec_len choices ≡ 256) }
{
    let mut choices = Vec::new(alloc);
    for _slot in 0..SLOTS {
        choices.push(numbers.below(bound) as u32)?;
    }
    Ok(choices)
}

/// Conflicts of four pairs, one in each quarter of the slots.
pub fn store(alloc: Global, numbers: &mut Numbers) -> Result<Store, AllocError> {
    let mut store = Store::new(alloc)?;
    for _conflict in 0..CONFLICTS {
        let pairs = [
            pair_from(0, numbers),
            pair_from(64, numbers),
            pair_from(128, numbers),
            pair_from(192, numbers),
        ];
        store.add(Conflict::from_pairs(alloc, &pairs)?)?;
    }
    Ok(store)
}

/// One of sixteen choices at one of the 64 slots from `first` on.
fn pair_from(first: u32, numbers: &mut Numbers) -> Pair
    requires { first ≤ 192 }
    ensures from { first ≤ result.slot }
    ensures below { result.slot < first + 64 }
{
    Pair {
        slot: first + numbers.below(64) as u32,
        choice: numbers.below(16) as u32,
    }
}

/// A candidate with one of sixteen choices at each slot.
pub fn candidate(alloc: Global, numbers: &mut Numbers) -> Result<Candidate, AllocError> {
    let choices = choices(alloc, numbers, 16)?;
    Candidate::new(alloc, 0, choices.as_slice())
}
