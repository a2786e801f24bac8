//! What is asked of a step, as literals: the modes, commands and observations before it, and of each part that it makes the
//! move that is named, or none that is a fault.
#![tactic(auto)]

ghost use Rattle.std.specs.Prelude.{◌≡◌, ◌++◌, ◌<◌, ◌≤◌, ◌^◌, not, true, IfOk, IsTrue, All, length};
ghost use Rattle.std.specs.Cmp.Lexicographic.{pointwise};
ghost use Rattle.lv_model.specs.Meaning.{is_no_fault};
ghost use Rattle.lv_model.specs.Lists.{move_counts};
ghost use Rattle.lv_system.specs.Choices.{move_count};
ghost use Rattle.lv_system.specs.System.{IsSystemOf};
ghost use Rattle.lv_ident.specs.Literals.{plant_choices};
ghost use Rattle.lv_plant_step.specs.PlantSteps.{AskedFits, fault_fits};
ghost use Rattle.lv_plant_step.specs.Literals.{mode_facts, begin_facts, no_fault_literals, named_literals, move_literals, asked_literals};

use crate::asked::Asked;
use lv_base::{Lit, MoveId, PartId, ValId};
use lv_ident::literals::push_observed;
use lv_meaning::Observation;
use lv_meaning::facts::before_the_step;
use lv_meaning::moves::moves_of;
use lv_model::{Model, Move, MoveKind, Part};
use lv_system::{ChoiceBools, Moment, StepSystem};
use std::alloc::{AllocError, Global};

/// Adds each part's mode, as what is observed of it.
fn push_modes(out: &mut Vec<Observation>, parts: &[Part], modes: &[ValId]) -> Result<(), AllocError>
    requires { length modes.now ≡ length parts.now }
    ensures { IfOk result (λ _. out.new.items ≡ out.old.items ++ mode_facts parts.now modes.now) }
{
    for (k, part) in parts.iter().enumerate() {
        out.push(Observation {
            var: part.first,
            val: modes[k],
        })?;
    }
    Ok(())
}

/// What is to hold before the step: commands, present observations, modes.
fn begin_facts(alloc: Global, model: &Model, asked: &Asked) -> Result<Vec<Observation>, AllocError>
    requires { AskedFits model.now asked.now }
    ensures { IfOk result (λ out. out.items ≡ begin_facts model.now asked.now) }
{
    let mut out = before_the_step(alloc, model, &asked.facts)?;
    let plant = model.plant();
    push_modes(&mut out, plant.parts.as_slice(), asked.modes.as_slice())?;
    Ok(out)
}

fn is_fault(m: &Move) -> bool
    ensures { result ≡ not (is_no_fault m.now.kind) }
{
    match m.kind {
        MoveKind::Step => false,
        MoveKind::Stay => false,
        MoveKind::Fault => true,
    }
}

/// Adds of a part with these moves that it makes none that is a fault.
fn push_no_faults(
    out: &mut Vec<Lit>,
    choices: &ChoiceBools,
    part: u32,
    moves: &[Move],
) -> Result<(), AllocError>
    requires count { move_count choices.now part ≡ length moves.now }
    requires few { length moves.now ≤ 64 }
    ensures { IfOk result (λ _. out.new.items ≡ out.old.items ++ no_fault_literals choices.now part 0 moves.now) }
{
    for (n, m) in moves.iter().enumerate() {
        if is_fault(m) {
            out.push(choices.literal(PartId(part), MoveId(n as u32), false))?;
        }
    }
    Ok(())
}

/// Adds of a part with these moves that it makes the one that is named, or none that is a fault.
fn push_named(
    out: &mut Vec<Lit>,
    choices: &ChoiceBools,
    part: u32,
    moves: &[Move],
    named: Option<MoveId>,
) -> Result<(), AllocError>
    requires count { move_count choices.now part ≡ length moves.now }
    requires few { length moves.now ≤ 64 }
    requires fits { fault_fits named (move_count choices.now part) ≡ true }
    ensures { IfOk result (λ _. out.new.items ≡ out.old.items ++ named_literals choices.now part moves.now named) }
{
    match named {
        Some(mv) => {
            out.push(choices.literal(PartId(part), mv, true))?;
            Ok(())
        }
        None => push_no_faults(out, choices, part, moves),
    }
}

/// Adds of each part what is named of it.
fn push_moves(
    out: &mut Vec<Lit>,
    model: &Model,
    choices: &ChoiceBools,
    faults: &[Option<MoveId>],
) -> Result<(), AllocError>
    requires choices { choices.now ≡ plant_choices model.now }
    requires fit { IsTrue (pointwise fault_fits faults.now (move_counts model.now)) }
    ensures { IfOk result (λ _. out.new.items ≡ out.old.items ++ move_literals model.now.types choices.now 0 model.now.parts faults.now) }
{
    let plant = model.plant();
    for (k, part) in plant.parts.as_slice().iter().enumerate() {
        let moves = moves_of(plant.types.as_slice(), part);
        push_named(out, choices, k as u32, moves, faults[k])?;
    }
    Ok(())
}

/// All that is asked of a step.
pub fn asked_literals(
    alloc: Global,
    model: &Model,
    system: &StepSystem,
    asked: &Asked,
) -> Result<Vec<Lit>, AllocError>
    requires system { IsSystemOf model.now system.now }
    requires fits { AskedFits model.now asked.now }
    ensures { IfOk result (λ out. out.items ≡ asked_literals model.now asked.now) }
{
    let facts = begin_facts(alloc, model, asked)?;
    let mut out = Vec::new(alloc);
    push_observed(&mut out, system.bools_at(Moment::Now), facts.as_slice())?;
    push_moves(&mut out, model, system.choices(), asked.faults.as_slice())?;
    Ok(out)
}
