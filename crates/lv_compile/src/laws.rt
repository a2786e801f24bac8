//! What the clauses say. Each function does nothing; its clause is the law.
#![tactic(auto)]

ghost use Rattle.lv_compile.specs.Windows.{OneStepIsTheModel};
ghost use Rattle.lv_compile.specs.WindowLaws.{SatisfyingIsAWindow, WindowIsSatisfied, WindowClausesAreClauses};
ghost use Rattle.lv_compile.specs.Laws.{FormulaClausesAreExact, CopyClausesAreExact, ModelClausesAreExact, SatisfyingIsAStep, FormulaCountBounds, PlantCountBounds, CleaningKeepsMeaning, ModelClausesAreClauses};

/// Truth values that encode an assignment make the clauses of a formula in a sign true exactly where the formula has
/// that truth.
pub fn formula_clauses_are_exact()
    ensures { FormulaClausesAreExact }
{}

/// Truth values that encode an assignment make what the clauses say of one time true exactly where it is feasible.
pub fn copy_clauses_are_exact()
    ensures { CopyClausesAreExact }
{}

/// Truth values that encode two assignments and a full choice make the clauses of a plant true exactly where these are a
/// step.
pub fn model_clauses_are_exact()
    ensures { ModelClausesAreExact }
{}

/// Truth values that make the clauses of a plant true encode a step.
pub fn satisfying_is_a_step()
    ensures { SatisfyingIsAStep }
{}

/// A formula's clauses in a sign are no more than its count.
pub fn formula_count_bounds()
    ensures { FormulaCountBounds }
{}

/// A well-formed plant comes to no more clauses than its count, and that is within the limit.
pub fn plant_count_bounds()
    ensures { PlantCountBounds }
{}

/// Leaving out repeated literals and clauses that are true of everything changes nothing that clauses say.
pub fn cleaning_keeps_meaning()
    ensures { CleaningKeepsMeaning }
{}

/// The clauses of a plant are clauses over its booleans: each literal in range, no boolean twice.
pub fn model_clauses_are_clauses()
    ensures { ModelClausesAreClauses }
{}

/// The clauses of a window of one step are those of the plant.
pub fn one_step_is_the_model()
    ensures { OneStepIsTheModel }
{}

/// Truth values that make the clauses of a window true encode steps, one behind the other.
pub fn satisfying_is_a_window()
    ensures { SatisfyingIsAWindow }
{}

/// Truth values that encode steps, one behind the other, make the clauses of their window true.
pub fn window_is_satisfied()
    ensures { WindowIsSatisfied }
{}

/// The clauses of a window are clauses over its booleans.
pub fn window_clauses_are_clauses()
    ensures { WindowClausesAreClauses }
{}
