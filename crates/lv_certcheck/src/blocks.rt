//! The clauses of a block behind the model's: what is stated, and what is to be refuted.
#![tactic(auto, using(crate::proofs::GivingLemmas::one_more, crate::proofs::GivingLemmas::some_more))]

ghost use Rattle.std.specs.Prelude.{◌≡◌, ◌<◌, ◌≤◌, ◌∷◌, [], true, false, not, All, OnOk, length, map, slice_index_or};
ghost use Rattle.std.specs.List.{flat_map};
ghost use Rattle.lv_model.specs.Lists.{sizes, move_counts};
ghost use Rattle.lv_model.specs.Meaning.{is_no_fault};
ghost use Rattle.lv_meaning.specs.Commands.{control_sizes};
ghost use Rattle.lv_meaning.specs.Ranges.{GoalFits};
ghost use Rattle.lv_cert_laws.specs.lv_cert_meaning.Counting.{mode_counts};
ghost use Rattle.lv_cert_laws.specs.lv_cert_meaning.Units as Units;
ghost use Rattle.lv_cert_laws.specs.lv_cert_meaning.Units.{units, choice_literal, mode_literals, no_fault_of, no_fault_literals, control_literal, nominal_units};
ghost use Rattle.lv_cert_meaning.specs.Fitting.{are_values, IsPairOf};
ghost use Rattle.lv_certcheck.specs.Settings.{IsSetting, plant_of};
ghost use Rattle.lv_search_zones.specs.lv_compile.Booleans.{value_literal, booleans_now, choice_bool, literal};
ghost use Rattle.lv_cert_meaning.specs.Blocks.{with_clause};
ghost use Rattle.lv_certcheck.specs.Giving.{with_clauses};

use crate::setting::Setting;
use lv_base::{Condition, Lit, MoveId, Pair, PartId, Seq, ValId, VarId};
use lv_cert_meaning::Block;
use lv_meaning::moves::moves_of;
use lv_model::{Move, MoveKind};
use lv_system::Moment;
use std::alloc::{AllocError, Global};

/// Gives each literal as a clause of its own.
pub fn give_units(block: &mut Block<'_>, lits: &[Lit]) -> Result<(), AllocError>
    ensures { OnOk result (block.new ≡ with_clauses block.old (units lits.now)) }
{
    for lit in lits {
        block.give(&[*lit])?;
    }
    Ok(())
}

/// Gives that a part makes a move.
fn give_choice(setting: &Setting<'_>, block: &mut Block<'_>, pair: Pair) -> Result<(), AllocError>
    requires setting { IsSetting setting.now }
    requires pair { IsPairOf (move_counts (plant_of setting.now)) pair }
    ensures { OnOk result (block.new ≡ with_clause block.old (choice_literal (plant_of setting.now) pair ∷ [])) }
{
    let lit = setting
        .system
        .choice_lit(PartId(pair.slot), MoveId(pair.choice));
    block.give(&[lit])
}

/// Gives that parts make these moves.
pub fn give_choices(
    setting: &Setting<'_>,
    block: &mut Block<'_>,
    pairs: &[Pair],
) -> Result<(), AllocError>
    requires setting { IsSetting setting.now }
    requires pairs { All (IsPairOf (move_counts (plant_of setting.now))) pairs.now }
    ensures { OnOk result (block.new ≡ with_clauses block.old (units (map (choice_literal (plant_of setting.now)) pairs.now))) }
{
    for pair in pairs {
        give_choice(setting, block, *pair)?;
    }
    Ok(())
}

/// Gives that a variable has a value before the step.
fn give_value(
    setting: &Setting<'_>,
    block: &mut Block<'_>,
    var: VarId,
    val: ValId,
) -> Result<(), AllocError>
    requires setting { IsSetting setting.now }
    requires value { val.0 < slice_index_or (sizes (plant_of setting.now)) var.0 0 }
    ensures { OnOk result (block.new ≡ with_clause block.old (value_literal (booleans_now (plant_of setting.now)) var.0 val.0 true ∷ [])) }
{
    block.give(&[setting.system.lit_of(Moment::Now, var, val)])
}

/// Gives that each part is in its mode.
fn give_modes(
    setting: &Setting<'_>,
    block: &mut Block<'_>,
    modes: &[ValId],
) -> Result<(), AllocError>
    requires setting { IsSetting setting.now }
    requires modes { are_values (mode_counts (plant_of setting.now)) modes.now ≡ true }
    ensures { OnOk result (block.new ≡ with_clauses block.old (units (mode_literals (plant_of setting.now) (plant_of setting.now).parts modes.now))) }
{
    for (k, part) in setting.model.plant().parts.as_slice().iter().enumerate() {
        give_value(setting, block, part.first, modes[k])?;
    }
    Ok(())
}

fn is_fault(m: &Move) -> bool
    ensures { result ≡ not (is_no_fault m.now.kind) }
{
    match m.kind {
        MoveKind::Step => false,
        MoveKind::Stay => false,
        MoveKind::Fault => true,
    }
}

/// Gives that a part doesn't make a move.
fn give_not(
    setting: &Setting<'_>,
    block: &mut Block<'_>,
    part: PartId,
    mv: MoveId,
) -> Result<(), AllocError>
    requires setting { IsSetting setting.now }
    requires there { mv.0 < slice_index_or (move_counts (plant_of setting.now)) part.0 0 }
    ensures { OnOk result (block.new ≡ with_clause block.old (literal (choice_bool (plant_of setting.now) part.0 mv.0) false ∷ [])) }
{
    block.give(&[setting.system.choices().literal(part, mv, false)])
}

/// Gives that a part makes none of its faults.
fn give_no_fault_of(
    setting: &Setting<'_>,
    block: &mut Block<'_>,
    part: PartId,
    moves: &[Move],
) -> Result<(), AllocError>
    requires setting { IsSetting setting.now }
    requires count { slice_index_or (move_counts (plant_of setting.now)) part.0 0 ≡ length moves.now }
    requires few { length moves.now ≤ 64 }
    ensures { OnOk result (block.new ≡ with_clauses block.old (units (no_fault_of (plant_of setting.now) part.0 0 moves.now))) }
{
    for (n, m) in moves.iter().enumerate() {
        if is_fault(m) {
            give_not(setting, block, part, MoveId(n as u32))?;
        }
    }
    Ok(())
}

/// Gives that no part makes one.
fn give_no_faults(setting: &Setting<'_>, block: &mut Block<'_>) -> Result<(), AllocError>
    requires setting { IsSetting setting.now }
    ensures { OnOk result (block.new ≡ with_clauses block.old (units (no_fault_literals (plant_of setting.now) 0 (plant_of setting.now).parts))) }
{
    let plant = setting.model.plant();
    for (k, part) in plant.parts.as_slice().iter().enumerate() {
        let moves = moves_of(plant.types.as_slice(), part);
        give_no_fault_of(setting, block, PartId(k as u32), moves)?;
    }
    Ok(())
}

/// Gives that a control has a value.
fn give_control(setting: &Setting<'_>, block: &mut Block<'_>, pair: Pair) -> Result<(), AllocError>
    requires setting { IsSetting setting.now }
    requires pair { IsPairOf (control_sizes (plant_of setting.now)) pair }
    ensures { OnOk result (block.new ≡ with_clause block.old (control_literal (plant_of setting.now) pair ∷ [])) }
{
    let control = setting.counts.controls[pair.slot as usize];
    give_value(setting, block, control, ValId(pair.choice))
}

/// Gives that controls have these values.
fn give_controls(
    setting: &Setting<'_>,
    block: &mut Block<'_>,
    pairs: &[Pair],
) -> Result<(), AllocError>
    requires setting { IsSetting setting.now }
    requires pairs { All (IsPairOf (control_sizes (plant_of setting.now))) pairs.now }
    ensures { OnOk result (block.new ≡ with_clauses block.old (units (map (control_literal (plant_of setting.now)) pairs.now))) }
{
    for pair in pairs {
        give_control(setting, block, *pair)?;
    }
    Ok(())
}

/// Gives what a nominal step from these modes is, with what is stated and these values of controls.
pub fn give_nominal(
    setting: &Setting<'_>,
    block: &mut Block<'_>,
    modes: &[ValId],
    stated: &[Lit],
    pairs: &[Pair],
) -> Result<(), AllocError>
    requires setting { IsSetting setting.now }
    requires modes { are_values (mode_counts (plant_of setting.now)) modes.now ≡ true }
    requires pairs { All (IsPairOf (control_sizes (plant_of setting.now))) pairs.now }
    ensures { OnOk result (block.new ≡ with_clauses block.old (nominal_units (plant_of setting.now) modes.now stated.now pairs.now)) }
{
    give_modes(setting, block, modes)?;
    give_no_faults(setting, block)?;
    give_units(block, stated)?;
    give_controls(setting, block, pairs)
}

fn give_all(block: &mut Block<'_>, clauses: &[Seq<Lit>]) -> Result<(), AllocError>
    ensures { OnOk result (block.new ≡ with_clauses block.old clauses.now) }
{
    for clause in clauses {
        block.give(clause.as_slice())?;
    }
    Ok(())
}

/// Gives that a goal is true after the step, or false, in the other sign.
pub fn give_goal(
    alloc: Global,
    setting: &Setting<'_>,
    block: &mut Block<'_>,
    goal: &Condition,
    sign: bool,
) -> Result<(), AllocError>
    requires setting { IsSetting setting.now }
    requires fits { GoalFits (plant_of setting.now) goal.now }
    ensures { OnOk result (block.new ≡ with_clauses block.old (Units.goal_clauses (plant_of setting.now) sign goal.now)) }
{
    let clauses = setting.system.goal_clauses(alloc, goal.formula(), sign)?;
    give_all(block, clauses.as_slice())
}

/// Gives that all goals are true after the step.
pub fn give_goals(
    alloc: Global,
    setting: &Setting<'_>,
    block: &mut Block<'_>,
    goals: &[Condition],
) -> Result<(), AllocError>
    requires setting { IsSetting setting.now }
    requires fit { All (GoalFits (plant_of setting.now)) goals.now }
    ensures { OnOk result (block.new ≡ with_clauses block.old (flat_map (Units.goal_clauses (plant_of setting.now) true) goals.now)) }
{
    for goal in goals {
        give_goal(alloc, setting, block, goal, true)?;
    }
    Ok(())
}
