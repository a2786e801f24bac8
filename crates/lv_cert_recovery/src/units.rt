//! The literals that say that a step is nominal and from where it begins.
#![tactic(auto)]

ghost use Rattle.std.specs.Prelude.{◌≡◌, ◌<◌, ◌≤◌, ◌^◌, ◌++◌, true, not, map, length, slice_index_or, All, IfOk};
ghost use Rattle.lv_search_zones.specs.lv_compile.Booleans.{booleans_now};
ghost use Rattle.lv_meaning.specs.Candidates.{type_moves};
ghost use Rattle.lv_model.specs.Lists.{controls, move_counts};
ghost use Rattle.lv_model.specs.Meaning.{is_no_fault};
ghost use Rattle.lv_model.specs.Ranges.{plant_ranges};
ghost use Rattle.lv_meaning.specs.Commands.{control_sizes};
ghost use Rattle.lv_meaning.specs.Ranges.{modes_fit, ObservationFits};
ghost use Rattle.lv_system.specs.System.{IsSystemOf};
ghost use Rattle.lv_cert_laws.specs.lv_cert_meaning.Stated.{observed_literal};
ghost use Rattle.lv_cert_laws.specs.lv_cert_meaning.Units.{mode_literals, no_fault_of, no_fault_literals, control_literal};
ghost use Rattle.lv_cert_writing.specs.Pairs.{HasChoice};

use lv_base::{Lit, MoveId, Pair, PartId, ValId, VarId};
use lv_meaning::Observation;
use lv_meaning::moves::moves_of;
use lv_model::{Model, Move, MoveKind};
use lv_system::{Moment, StepSystem};
use std::alloc::AllocError;

/// Adds that each part is in its mode.
pub fn push_modes(
    model: &Model,
    system: &StepSystem,
    lits: &mut Vec<Lit>,
    modes: &[ValId],
) -> Result<(), AllocError>
    requires system { IsSystemOf model.now system.now }
    requires fit { modes_fit (plant_ranges model.now) model.now.parts modes.now ≡ true }
    requires whole { length modes.now ≡ length model.now.parts }
    ensures { IfOk result (λ _. lits.new.items ≡ lits.old.items ++ mode_literals model.now model.now.parts modes.now) }
{
    let plant = model.plant();
    for (k, part) in plant.parts.as_slice().iter().enumerate() {
        lits.push(system.lit_of(Moment::Now, part.first, modes[k]))?;
    }
    Ok(())
}

/// Adds what is seen before the step.
pub fn push_seen(
    model: &Model,
    system: &StepSystem,
    lits: &mut Vec<Lit>,
    present: &[Observation],
) -> Result<(), AllocError>
    requires system { IsSystemOf model.now system.now }
    requires fit { All (ObservationFits model.now) present.now }
    ensures { IfOk result (λ _. lits.new.items ≡ lits.old.items ++ map (observed_literal (booleans_now model.now)) present.now) }
{
    let _plant = model.plant();
    for o in present {
        lits.push(system.lit_of(Moment::Now, o.var, o.val))?;
    }
    Ok(())
}

/// Adds that controls have these values.
pub fn push_controls(
    model: &Model,
    system: &StepSystem,
    vars: &[VarId],
    lits: &mut Vec<Lit>,
    pairs: &[Pair],
) -> Result<(), AllocError>
    requires system { IsSystemOf model.now system.now }
    requires controls { vars.now ≡ controls model.now }
    requires have { All (HasChoice (control_sizes model.now)) pairs.now }
    ensures { IfOk result (λ _. lits.new.items ≡ lits.old.items ++ map (control_literal model.now) pairs.now) }
{
    let _plant = model.plant();
    for pair in pairs {
        let control = vars[pair.slot as usize];
        lits.push(system.lit_of(Moment::Now, control, ValId(pair.choice)))?;
    }
    Ok(())
}

fn is_fault(m: &Move) -> bool
    ensures { result ≡ not (is_no_fault m.now.kind) }
{
    match m.kind {
        MoveKind::Step => false,
        MoveKind::Stay => false,
        MoveKind::Fault => true,
    }
}

/// Adds that the part of this place, which has these moves, makes none of its faults.
fn push_no_faults_of(
    model: &Model,
    system: &StepSystem,
    lits: &mut Vec<Lit>,
    part: u32,
    moves: &[Move],
) -> Result<(), AllocError>
    requires system { IsSystemOf model.now system.now }
    requires count { slice_index_or (move_counts model.now) part 0 ≡ length moves.now }
    requires few { length moves.now ≤ 64 }
    ensures { IfOk result (λ _. lits.new.items ≡ lits.old.items ++ no_fault_of model.now part 0 moves.now) }
{
    let _plant = model.plant();
    for (n, m) in moves.iter().enumerate() {
        if is_fault(m) {
            let made = MoveId(n as u32);
            lits.push(system.choices().literal(PartId(part), made, false))?;
        }
    }
    Ok(())
}

/// Adds that no part makes a fault.
pub fn push_no_faults(
    model: &Model,
    system: &StepSystem,
    lits: &mut Vec<Lit>,
) -> Result<(), AllocError>
    requires system { IsSystemOf model.now system.now }
    ensures { IfOk result (λ _. lits.new.items ≡ lits.old.items ++ no_fault_literals model.now 0 model.now.parts) }
{
    let plant = model.plant();
    for (k, part) in plant.parts.as_slice().iter().enumerate() {
        let moves = moves_of(plant.types.as_slice(), part);
        push_no_faults_of(model, system, lits, k as u32, moves)?;
    }
    Ok(())
}
