//! The targets of moves as groups of choices: a slot for each part, which has the number of the target mode of each move of
//! the part's type.
#![tactic(auto)]

ghost use Rattle.std.specs.Prelude.{◌≡◌, ◌≤◌, All, IfOk, length};
ghost use Rattle.lv_base.specs.declared.limits.TheConstants.{PARTS};
ghost use Rattle.lv_model.specs.WellFormed.{TypeIsSmall};
ghost use Rattle.lv_meaning.specs.Targets as Targets;
ghost use Rattle.lv_search_zones.specs.Slots.{HasSlot};
ghost use Rattle.lv_search_zones.specs.Moves.{targets_of};

use lv_boxes::Groups;
use lv_meaning::moves::moves_of;
use lv_model::{Model, Move, Plant};
use std::alloc::{AllocError, Global};

/// The target mode of each of the moves.
fn targets_of(alloc: Global, moves: &[Move]) -> Result<Vec<u32>, AllocError>
    ensures { IfOk result (λ targets. targets.items ≡ targets_of moves.now) }
{
    let mut targets = Vec::with_capacity(alloc, moves.len())?;
    for m in moves {
        targets.push(m.target.0)?;
    }
    Ok(targets)
}

/// One slot for each of the plant's parts.
fn groups_of(alloc: Global, plant: &Plant) -> Result<Groups, AllocError>
    requires small { All TypeIsSmall plant.now.types }
    requires few { length plant.now.parts ≤ PARTS }
    requires slots { All (HasSlot plant.now.types) plant.now.parts }
    ensures { IfOk result (λ groups. groups ≡ Targets.targets_of_moves plant.now) }
{
    let mut groups = Groups::new(alloc)?;
    for part in plant.parts.as_slice() {
        let targets = targets_of(alloc, moves_of(plant.types.as_slice(), part))?;
        groups.push_slot(targets.as_slice())?;
    }
    Ok(groups)
}

/// Of each part the target modes of its moves.
pub fn move_targets(alloc: Global, model: &Model) -> Result<Groups, AllocError>
    ensures { IfOk result (λ groups. groups ≡ Targets.targets_of_moves model.now) }
{
    groups_of(alloc, model.plant())
}
