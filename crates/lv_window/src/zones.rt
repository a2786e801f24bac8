//! The grid and the zones of a window: a slot for each part of each step, and for each tracked state a zone in which the first
//! step goes from its modes and the later ones from any.
#![tactic(auto)]

ghost use Rattle.std.specs.Prelude.{◌≡◌, ◌+◌, ◌<◌, ◌≤◌, ◌++◌, All, IfOk, length, map};
ghost use Rattle.lv_base.specs.declared.limits.TheConstants.{TRACKED};
ghost use Rattle.lv_boxes.specs.Members.{IsSlot};
ghost use Rattle.lv_compile.specs.declared.windows.TheConstants.{WINDOW};
ghost use Rattle.lv_meaning.specs.Candidates.{IsTracked};
ghost use Rattle.lv_model.specs.declared.plant.Part.{Part};
ghost use Rattle.lv_window.specs.Joints.{window_slots, any_move, free_masks, window_zones};
ghost use Rattle.lv_window.specs.Longer.{longer, all_longer};

use lv_base::{Cost, Seq};
use lv_boxes::{Grid, Zone};
use lv_model::{Model, TrackedState};
use lv_search_zones::{move_grid, zones_of};
use std::alloc::{AllocError, Global};

/// Adds these slots to the grid.
fn push_slots(grid: &mut Grid, slots: &[Seq<Cost>]) -> Result<(), AllocError>
    requires each { All IsSlot slots.now }
    requires room { length grid.old + length slots.now ≤ 4096 }
    ensures { IfOk result (λ _. grid.new ≡ grid.old ++ slots.now) }
{
    for costs in slots {
        grid.push_slot(costs.as_slice())?;
    }
    Ok(())
}

/// What the moves of each part cost in each of so many steps.
pub fn window_grid(alloc: Global, model: &Model, steps: u32) -> Result<Grid, AllocError>
    requires { steps ≤ WINDOW }
    ensures { IfOk result (λ grid. grid ≡ window_slots model.now steps) }
{
    let _plant = model.plant();
    let own = move_grid(alloc, model)?;
    let mut grid = Grid::new(alloc)?;
    let mut left = steps;
    'steps: while left > 0 {
        push_slots(&mut grid, own.slots())?;
        left -= 1;
    }
    Ok(grid)
}

/// Masks that leave every move of each part.
fn any_moves(alloc: Global, model: &Model) -> Result<Vec<u64>, AllocError>
    ensures { IfOk result (λ masks. masks.items ≡ map (λ (p : Part). any_move) model.now.parts) }
{
    let plant = model.plant();
    plant
        .parts
        .as_slice()
        .iter()
        .map(|_| u64::MAX)
        .collect(alloc)
}

/// Masks that leave every move of each part in each of so many steps.
fn free_masks(alloc: Global, model: &Model, steps: u32) -> Result<Vec<u64>, AllocError>
    ensures { IfOk result (λ masks. masks.items ≡ free_masks model.now steps) }
{
    let own = any_moves(alloc, model)?;
    let mut masks = Vec::new(alloc);
    let mut left = steps;
    'steps: while left > 0 {
        masks.extend_from_slice(own.as_slice())?;
        left -= 1;
    }
    Ok(masks)
}

/// The zone with these masks behind its own.
fn longer(alloc: Global, zone: &Zone, more: &[u64]) -> Result<Zone, AllocError>
    ensures { IfOk result (λ out. out ≡ longer more.now zone.now) }
{
    let mut masks = Vec::from_slice(alloc, zone.masks())?;
    masks.extend_from_slice(more)?;
    Zone::new(alloc, zone.source(), zone.base(), masks.as_slice())
}

/// All of these zones with the masks behind their own.
fn all_longer(alloc: Global, zones: &[Zone], more: &[u64]) -> Result<Vec<Zone>, AllocError>
    ensures { IfOk result (λ out. out.items ≡ all_longer more.now zones.now) }
{
    let mut out = Vec::with_capacity(alloc, zones.len())?;
    for zone in zones {
        out.push(longer(alloc, zone, more)?)?;
    }
    Ok(out)
}

/// The zones of the tracked states over one step and so many later ones.
pub fn window_zones(
    alloc: Global,
    model: &Model,
    tracked: &[TrackedState],
    later: u32,
) -> Result<Vec<Zone>, AllocError>
    requires few { length tracked.now ≤ TRACKED }
    requires states { All (IsTracked (length model.now.parts)) tracked.now }
    ensures { IfOk result (λ zones. zones.items ≡ window_zones model.now later 0 tracked.now) }
{
    let own = zones_of(alloc, model, tracked)?;
    let more = free_masks(alloc, model, later)?;
    all_longer(alloc, own.as_slice(), more.as_slice())
}
