//! The grid of a diagnosis: a slot for each part, which has a choice for each move of the part's type.
#![tactic(auto)]

ghost use Rattle.std.specs.Prelude.{◌≡◌, ◌≤◌, All, IfOk, length};
ghost use Rattle.lv_base.specs.declared.limits.TheConstants.{PARTS};
ghost use Rattle.lv_model.specs.WellFormed.{TypeIsSmall};
ghost use Rattle.lv_search_zones.specs.Moves.{costs_of, move_slots};
ghost use Rattle.lv_search_zones.specs.Slots.{HasSlot};

use lv_base::Cost;
use lv_boxes::Grid;
use lv_meaning::moves::moves_of;
use lv_model::{Model, Move, Plant};
use std::alloc::{AllocError, Global};

/// What each of the moves costs.
fn costs_of(alloc: Global, moves: &[Move]) -> Result<Vec<Cost>, AllocError>
    ensures { IfOk result (λ costs. costs.items ≡ costs_of moves.now) }
{
    let mut costs = Vec::with_capacity(alloc, moves.len())?;
    for m in moves {
        costs.push(m.cost)?;
    }
    Ok(costs)
}

/// One slot for each of the plant's parts.
fn slots_of(alloc: Global, plant: &Plant) -> Result<Grid, AllocError>
    requires small { All TypeIsSmall plant.now.types }
    requires few { length plant.now.parts ≤ PARTS }
    requires slots { All (HasSlot plant.now.types) plant.now.parts }
    ensures { IfOk result (λ grid. grid ≡ move_slots plant.now) }
{
    let mut grid = Grid::new(alloc)?;
    for part in plant.parts.as_slice() {
        let costs = costs_of(alloc, moves_of(plant.types.as_slice(), part))?;
        grid.push_slot(costs.as_slice())?;
    }
    Ok(grid)
}

/// What the moves of each part cost, a slot for each part.
pub fn move_grid(alloc: Global, model: &Model) -> Result<Grid, AllocError>
    ensures { IfOk result (λ grid. grid ≡ move_slots model.now) }
{
    slots_of(alloc, model.plant())
}
