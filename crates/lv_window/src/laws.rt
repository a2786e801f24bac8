//! Laws of windows. The functions do nothing; their clauses are the laws, and a caller that needs one calls it.
#![tactic(auto)]

ghost use Rattle.lv_window.specs.Laws.{TrajectoriesAreAll, ZonesHoldTheTrajectories, OneStepIsADiagnosis, PartsArePossible, SettledWindowIsExact, KeptOfWindowAreMinimal};
ghost use Rattle.lv_window.specs.Worked.{WorkedWindow};

/// Exactly the trajectories are listed, in the order of their ranks.
pub fn trajectories_are_all()
    ensures { TrajectoriesAreAll }
{}

/// The members of a window's zones that contain no joint, in the order of their ranks, are exactly the trajectories.
pub fn zones_hold_the_trajectories()
    ensures { ZonesHoldTheTrajectories }
{}

/// Over one step possible choices, trajectories and walks are those of a diagnosis that lists states repeatedly.
pub fn one_step_is_a_diagnosis()
    ensures { OneStepIsADiagnosis }
{}

/// What is possible stays so with fewer pairs.
pub fn parts_are_possible()
    ensures { PartsArePossible }
{}

/// A settled window lists the first trajectories that are possible.
pub fn settled_window_is_exact()
    ensures { SettledWindowIsExact }
{}

/// Each conflict that a window keeps isn't possible, and none of its choices can be left out; no kept conflict has all
/// choices of another.
pub fn kept_of_window_are_minimal()
    ensures { KeptOfWindowAreMinimal }
{}

/// A valve that was told to open, and what follows from a look at its flow a step later.
pub fn worked_window()
    ensures { WorkedWindow }
{}
