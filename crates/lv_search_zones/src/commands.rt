//! The command sets of a model as a search has them: a slot for each control, which has a choice for each of its values, and
//! the one zone of all of them.
#![tactic(auto)]

ghost use Rattle.std.specs.Prelude.{◌≡◌, ◌<◌, ◌≤◌, [], ◌∷◌, All, IfOk, length, slice_index_or};
ghost use Rattle.lv_model.specs.Lists.{sizes, controls};
ghost use Rattle.lv_search_zones.specs.Commands.{value_costs, control_costs, control_slots, command_zone};
ghost use Rattle.lv_search_zones.specs.ControlSlots.{HasControlSlot};

use lv_base::{Cost, ValId, VarId};
use lv_boxes::{Grid, Zone};
use lv_model::Model;
use std::alloc::{AllocError, Global};

/// What each of so many values of the control costs.
fn value_costs(
    alloc: Global,
    model: &Model,
    control: VarId,
    count: usize,
) -> Result<Vec<Cost>, AllocError>
    requires { count ≤ 64 }
    ensures { IfOk result (λ costs. costs.items ≡ value_costs model.now control.0 count) }
{
    let mut costs = Vec::with_capacity(alloc, count)?;
    for value in 0..count {
        costs.push(model.price(control, ValId(value as u32)))?;
    }
    Ok(costs)
}

/// One slot for each of the controls.
fn slots_of(
    alloc: Global,
    model: &Model,
    counts: &[usize],
    vars: &[VarId],
) -> Result<Grid, AllocError>
    requires sizes { counts.now ≡ sizes model.now }
    requires controls { vars.now ≡ controls model.now }
    requires few { length vars.now ≤ 4096 }
    requires slots { All (HasControlSlot model.now) vars.now }
    ensures { IfOk result (λ grid. grid ≡ control_slots model.now) }
{
    let mut grid = Grid::new(alloc)?;
    for control in vars {
        let costs = value_costs(alloc, model, *control, counts[control.0 as usize])?;
        grid.push_slot(costs.as_slice())?;
    }
    Ok(grid)
}

/// What the values of each control cost, a slot for each control.
pub fn command_grid(alloc: Global, model: &Model) -> Result<Grid, AllocError>
    ensures { IfOk result (λ grid. grid ≡ control_slots model.now) }
{
    let _plant = model.plant();
    let sizes = model.sizes(alloc)?;
    let controls = model.controls(alloc)?;
    slots_of(alloc, model, sizes.as_slice(), controls.as_slice())
}

/// The zone of all command sets: it has no tracked state, costs nothing, and leaves each control every value.
pub fn command_zone(alloc: Global, model: &Model) -> Result<Zone, AllocError>
    ensures { IfOk result (λ zone. zone ≡ command_zone model.now) }
{
    let controls = model.controls(alloc)?;
    let masks: Vec<u64> = controls.iter().map(|_| u64::MAX).collect(alloc)?;
    Zone::new(alloc, 0, Cost(0), masks.as_slice())
}
