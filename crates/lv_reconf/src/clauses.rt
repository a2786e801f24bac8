//! What is added to a solver's clauses: that no part fails, and what is observed before the step.
#![tactic(auto)]

ghost use Rattle.std.specs.Prelude.{◌≡◌, ◌<◌, ◌≤◌, ◌^◌, ◌∷◌, [], not, nat_eq, true, length, slice_index_or, All, IfOk};
ghost use Rattle.lv_clauses.specs.Literals.{in_range};
ghost use Rattle.lv_compile.specs.Booleans.{bool_count};
ghost use Rattle.lv_compile.specs.Laws.{move_number};
ghost use Rattle.lv_meaning.specs.Facts.{agrees, meets};
ghost use Rattle.lv_model.specs.Lists.{move_counts};
ghost use Rattle.lv_model.specs.Meaning.{is_nominal, is_no_fault};
ghost use Rattle.lv_meaning.specs.Ranges.{ObservationFits};
ghost use Rattle.lv_reconf.specs.Narrowing.{Adds, Narrows, no_fault_from};
ghost use Rattle.lv_system.specs.Numbering.{IsOver};

use super::compiled::Compiled;
use lv_base::{Lit, MoveId, PartId, Seq};
use lv_meaning::Observation;
use lv_meaning::moves::moves_of;
use lv_model::{Move, MoveKind};
use lv_sat::Solver;
use std::alloc::AllocError;

/// Adds the clause that a literal is true.
fn require(solver: &mut Solver, lit: Lit) -> Result<(), AllocError>
    requires { in_range solver.old.set.bools lit ≡ true }
    ensures { IfOk result (λ _. Adds solver.old.set solver.new.set ((lit ∷ []) ∷ [])) }
{
    solver.add(&[lit])?;
    Ok(())
}

/// Adds clauses.
pub fn add_all(solver: &mut Solver, clauses: &[Seq<Lit>]) -> Result<(), AllocError>
    requires { All (IsOver solver.old.set.bools) clauses.now }
    ensures { IfOk result (λ _. Adds solver.old.set solver.new.set clauses.now) }
{
    for clause in clauses {
        solver.add(clause.as_slice())?;
    }
    Ok(())
}

/// Asks for what is observed once before the step.
fn observe_one(compiled: &Compiled, solver: &mut Solver, o: Observation) -> Result<(), AllocError>
    requires bools { solver.old.set.bools ≡ bool_count compiled.now }
    requires fits { ObservationFits compiled.now o }
    ensures { IfOk result (λ _. Narrows compiled.now solver.old.set solver.new.set (λ a b ms. agrees a o)) }
{
    require(solver, compiled.has_value(o.var, o.val))
}

/// Asks for what is observed before the step.
pub fn observe(
    compiled: &Compiled,
    solver: &mut Solver,
    present: &[Observation],
) -> Result<(), AllocError>
    requires bools { solver.old.set.bools ≡ bool_count compiled.now }
    requires fit { All (ObservationFits compiled.now) present.now }
    ensures { IfOk result (λ _. Narrows compiled.now solver.old.set solver.new.set (λ a b ms. meets a present.now)) }
{
    for o in present {
        observe_one(compiled, solver, *o)?;
    }
    Ok(())
}

/// Asks that a part doesn't make a move.
fn exclude_move(
    compiled: &Compiled,
    solver: &mut Solver,
    part: u32,
    mv: u32,
) -> Result<(), AllocError>
    requires bools { solver.old.set.bools ≡ bool_count compiled.now }
    requires there { mv < slice_index_or (move_counts compiled.now) part 0 }
    ensures { IfOk result (λ _. Narrows compiled.now solver.old.set solver.new.set (λ a b ms. not (nat_eq (move_number ms part) mv))) }
{
    require(solver, compiled.makes_not(PartId(part), MoveId(mv)))
}

fn is_fault(m: &Move) -> bool
    ensures { result ≡ not (is_no_fault m.now.kind) }
{
    match m.kind {
        MoveKind::Step => false,
        MoveKind::Stay => false,
        MoveKind::Fault => true,
    }
}

/// Asks that a part with these moves doesn't fail.
fn exclude_faults_of(
    compiled: &Compiled,
    solver: &mut Solver,
    part: u32,
    moves: &[Move],
) -> Result<(), AllocError>
    requires bools { solver.old.set.bools ≡ bool_count compiled.now }
    requires count { slice_index_or (move_counts compiled.now) part 0 ≡ length moves.now }
    requires few { length moves.now ≤ 64 }
    ensures { IfOk result (λ _. Narrows compiled.now solver.old.set solver.new.set (λ a b ms. no_fault_from 0 moves.now (move_number ms part))) }
{
    for (n, m) in moves.iter().enumerate() {
        if is_fault(m) {
            exclude_move(compiled, solver, part, n as u32)?;
        }
    }
    Ok(())
}

/// Asks that no part fails.
pub fn exclude_faults(compiled: &Compiled, solver: &mut Solver) -> Result<(), AllocError>
    requires bools { solver.old.set.bools ≡ bool_count compiled.now }
    ensures { IfOk result (λ _. Narrows compiled.now solver.old.set solver.new.set (λ a b ms. is_nominal compiled.now ms)) }
{
    let plant = compiled.model().plant();
    for (k, part) in plant.parts.as_slice().iter().enumerate() {
        let moves = moves_of(plant.types.as_slice(), part);
        exclude_faults_of(compiled, solver, k as u32, moves)?;
    }
    Ok(())
}
