//! What holds of the step that a plant takes. The functions do nothing; their clauses are the laws, and a caller that needs
//! one calls it.
#![tactic(auto)]

ghost use Rattle.lv_plant_step.specs.Laws.{PlantStepIsFirst, AppliedRecoveryReaches};

/// The plant's step is a step of the system in which the named faults happen and no others, and which meets what is
/// commanded and observed. No other such step comes before it, by the values before the step and then by those after it.
/// There is none exactly where no step is so.
pub fn plant_step_is_first()
    ensures { PlantStepIsFirst }
{}

/// Where the controls have the values of a recovery, the plant is in a state from which it is one, and no fault is named,
/// there is a step, and all goals are true after it.
pub fn applied_recovery_reaches()
    ensures { AppliedRecoveryReaches }
{}
