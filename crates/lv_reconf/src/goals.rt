//! Solvers for the questions of a recovery: the clauses of the model, that no part fails, what is observed before the step,
//! and what is asked of the goals.
#![tactic(auto)]

ghost use Rattle.std.specs.Prelude.{◌≡◌, Bool, true, not, List, All, IfOk};
ghost use Rattle.lv_clauses.specs.Literals.{same_truth};
ghost use Rattle.lv_compile.specs.Booleans.{bool_count};
ghost use Rattle.lv_base.specs.Tree.{truth_of};
ghost use Rattle.lv_meaning.specs.declared.facts.Observation.{Observation};
ghost use Rattle.lv_meaning.specs.Ranges.{ObservationFits, GoalFits};
ghost use Rattle.lv_meaning.specs.Recovers.{meets_goals};
ghost use Rattle.lv_system.specs.System.{IsSystemOf};
ghost use Rattle.lv_reconf.specs.Narrowing.{Narrows, Asks};

use super::clauses::{add_all, exclude_faults, observe};
use super::compiled::Compiled;
use lv_base::Condition;
use lv_meaning::Observation;
use lv_sat::Solver;
use lv_system::StepSystem;
use std::alloc::{AllocError, Global};

/// Nominal steps that meet the observations, whatever they end with.
pub fn plain_solver(
    alloc: Global,
    compiled: &Compiled,
    system: &StepSystem,
    present: &[Observation],
) -> Result<Solver, AllocError>
    requires system { IsSystemOf compiled.now system.now }
    requires fit { All (ObservationFits compiled.now) present.now }
    ensures { IfOk result (λ solver. Asks compiled.now present.now (λ b. true) solver.set) }
{
    let _plant = compiled.model().plant();
    let mut solver = Solver::new(alloc, system.clauses())?;
    observe(compiled, &mut solver, present)?;
    exclude_faults(compiled, &mut solver)?;
    Ok(solver)
}

/// Asks that a goal is true after the step, or, in the other sign, that it is false.
fn ask_goal(
    alloc: Global,
    compiled: &Compiled,
    solver: &mut Solver,
    goal: &Condition,
    sign: bool,
) -> Result<(), AllocError>
    requires bools { solver.old.set.bools ≡ bool_count compiled.now }
    requires fits { GoalFits compiled.now goal.now }
    ensures { IfOk result (λ _. Narrows compiled.now solver.old.set solver.new.set (λ a b ms. same_truth (truth_of b 0 goal.now) sign)) }
{
    let clauses = compiled.goal_clauses(alloc, goal, sign)?;
    add_all(solver, clauses.as_slice())
}

/// Asks that all goals are true after the step.
fn ask_goals(
    alloc: Global,
    compiled: &Compiled,
    solver: &mut Solver,
    goals: &[Condition],
) -> Result<(), AllocError>
    requires bools { solver.old.set.bools ≡ bool_count compiled.now }
    requires fit { All (GoalFits compiled.now) goals.now }
    ensures { IfOk result (λ _. Narrows compiled.now solver.old.set solver.new.set (λ a b ms. meets_goals goals.now b)) }
{
    for goal in goals {
        ask_goal(alloc, compiled, solver, goal, true)?;
    }
    Ok(())
}

/// Those of them that end with all goals true.
pub fn reaching_solver(
    alloc: Global,
    compiled: &Compiled,
    plain: &Solver,
    goals: &[Condition],
) -> Result<Solver, AllocError>
    requires bools { plain.now.set.bools ≡ bool_count compiled.now }
    requires fit { All (GoalFits compiled.now) goals.now }
    ensures { (present : List Observation) → Asks compiled.now present (λ b. true) plain.now.set → IfOk result (λ solver. Asks compiled.now present (meets_goals goals.now) solver.set) }
{
    let mut solver = Solver::new(alloc, plain.clauses())?;
    ask_goals(alloc, compiled, &mut solver, goals)?;
    Ok(solver)
}

/// Those of them that end with a goal false.
pub fn missing_solver(
    alloc: Global,
    compiled: &Compiled,
    plain: &Solver,
    goal: &Condition,
) -> Result<Solver, AllocError>
    requires bools { plain.now.set.bools ≡ bool_count compiled.now }
    requires fits { GoalFits compiled.now goal.now }
    ensures bools { IfOk result (λ solver. solver.set.bools ≡ bool_count compiled.now) }
    ensures asks { (present : List Observation) → Asks compiled.now present (λ b. true) plain.now.set → IfOk result (λ solver. Asks compiled.now present (λ b. not (truth_of b 0 goal.now)) solver.set) }
{
    let mut solver = Solver::new(alloc, plain.clauses())?;
    ask_goal(alloc, compiled, &mut solver, goal, false)?;
    Ok(solver)
}
