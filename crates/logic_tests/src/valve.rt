//! Each public call on the system of a valve. Booleans count from 0: those of mode, command, inflow and outflow are 0, 4, 7
//! and 9 and on before the step, 11, 15, 18 and 20 and on after it; those of the moves are 22 to 31. Of each mode come its
//! steps, then its stay, then its faults.
use lv_base::{BoolId, Lit, MoveId, PartId, ValId, VarId};
use lv_checker::model_of;
use lv_model::Model;
use lv_system::{Moment, StepPair, StepSystem, compile};
use std::alloc::{AllocError, Global};
use test_texts::VALVE;

/// The booleans that are true in the step that opens the valve at a command.
const OPENS: [usize; 9] = [0, 5, 8, 9, 12, 15, 19, 21, 22];

fn valve(alloc: Global) -> Result<Model, AllocError> {
    match model_of(alloc, VALVE) {
        Ok(model) => Ok(model),
        Err(_) => Err(AllocError),
    }
}

fn system(alloc: Global) -> Result<StepSystem, AllocError> {
    let model = valve(alloc)?;
    compile(alloc, &model)
}

/// Whether the clause of this number, counted from 1, has just these literals, written as numbers from 1 on, negative where
/// false.
fn has_clause(system: &StepSystem, n: u32, wanted: &[i32]) -> bool {
    if n == 0 || system.clause_total() < n {
        return false;
    }
    let lits = system.clauses().get(system.clause_id(n));
    lits.len() == wanted.len() && lits.iter().zip(wanted.iter()).all(|(l, w)| is_lit(*l, *w))
}

/// Whether a literal is the one so written.
fn is_lit(lit: Lit, wanted: i32) -> bool {
    lit.sign == (0 < wanted) && lit.var == BoolId(wanted.unsigned_abs().saturating_sub(1))
}

/// Whether a variable's value has this boolean.
fn has_value_at(system: &StepSystem, moment: Moment, var: u32, val: u32, wanted: i32) -> bool {
    let sizes = system.bools_at(moment).sizes();
    if (var as usize) < sizes.len() && (val as usize) < sizes[var as usize] {
        return is_lit(system.lit_of(moment, VarId(var), ValId(val)), wanted);
    }
    false
}

/// Whether the part's move has this boolean.
fn has_move_at(system: &StepSystem, mv: u32, wanted: i32) -> bool {
    let counts = system.choices().counts();
    if 0 < counts.len() && (mv as usize) < counts[0] {
        return is_lit(system.choice_lit(PartId(0), MoveId(mv)), wanted);
    }
    false
}

/// The step that these booleans encode, all others being false; None where a clause is false.
fn decoded(
    alloc: Global,
    system: &StepSystem,
    holding: &[usize],
) -> Result<Option<StepPair>, AllocError> {
    let mut values = Vec::new(alloc);
    for b in 0..system.clauses().bools() as usize {
        values.push(holding.contains(&b))?;
    }
    if values.len() == system.clauses().bools() as usize
        && system.clauses().satisfied(values.as_slice())
    {
        return Ok(Some(system.decode(alloc, values.as_slice())?));
    }
    Ok(None)
}

fn is_opening(step: &StepPair) -> bool {
    step.now.as_slice() == [ValId(0), ValId(1), ValId(1), ValId(0)].as_slice()
        && step.next.as_slice() == [ValId(1), ValId(0), ValId(1), ValId(1)].as_slice()
        && step.moves.as_slice() == [MoveId(0)].as_slice()
}

fn has_clauses(system: &StepSystem) -> bool {
    system.clauses().bools() == 32
        && system.clause_total() == 114
        && has_clause(system, 1, &[1, 2, 3, 4])
        && has_clause(system, 17, &[-2, -10, 8])
        && has_clause(system, 91, &[-23, 1])
        && has_clause(system, 114, &[-32, 15])
}

fn has_literals(system: &StepSystem) -> bool {
    has_value_at(system, Moment::Now, 0, 0, 1)
        && has_value_at(system, Moment::Now, 3, 1, 11)
        && has_value_at(system, Moment::Next, 0, 1, 13)
        && has_value_at(system, Moment::Next, 3, 1, 22)
        && has_move_at(system, 0, 23)
        && has_move_at(system, 9, 32)
}

fn clauses_are_right(alloc: Global) -> Result<bool, AllocError> {
    let system = system(alloc)?;
    Ok(has_clauses(&system))
}

fn literals_are_right(alloc: Global) -> Result<bool, AllocError> {
    let system = system(alloc)?;
    Ok(has_literals(&system))
}

/// Whether the booleans of the step that opens the valve give that step.
fn decodes(alloc: Global, system: &StepSystem) -> Result<bool, AllocError> {
    match decoded(alloc, system, &OPENS)? {
        Some(step) => Ok(is_opening(&step)),
        None => Ok(false),
    }
}

fn step_is_right(alloc: Global) -> Result<bool, AllocError> {
    let system = system(alloc)?;
    decodes(alloc, &system)
}

#[test]
fn clauses_by_number(rt: HostRuntime) -> Result<(), AllocError> {
    let right = clauses_are_right(rt.alloc())?;
    assert!(rt; right);
    Ok(())
}

#[test]
fn literals_of_values_and_moves(rt: HostRuntime) -> Result<(), AllocError> {
    let right = literals_are_right(rt.alloc())?;
    assert!(rt; right);
    Ok(())
}

#[test]
fn a_step_decoded(rt: HostRuntime) -> Result<(), AllocError> {
    let right = step_is_right(rt.alloc())?;
    assert!(rt; right);
    Ok(())
}
