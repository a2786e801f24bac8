//! What the system's clauses say. Each function does nothing; its clause is the law.
#![tactic(auto)]

ghost use Rattle.lv_system.specs.Laws.{ModelIsAStep, StepHasAModel};
ghost use Rattle.lv_system.specs.Goals.{GoalClausesAreExact};
ghost use Rattle.lv_system.specs.Windows.{ModelIsAWindow, WindowHasAModel};

/// Truth values that make every clause of the system true encode a step.
pub fn a_model_is_a_step()
    ensures { ModelIsAStep }
{}

/// What encodes a step makes every clause of the system true.
pub fn a_step_has_a_model()
    ensures { StepHasAModel }
{}

/// A goal's clauses are clauses over the plant's booleans, and true exactly where the goal has that truth after the step.
pub fn goal_clauses_are_exact()
    ensures { GoalClausesAreExact }
{}

/// Truth values that make every clause of a window's system true encode steps, one behind the other.
pub fn a_model_is_a_window()
    ensures { ModelIsAWindow }
{}

/// What encodes steps, one behind the other, makes every clause of their system true.
pub fn a_window_has_a_model()
    ensures { WindowHasAModel }
{}
