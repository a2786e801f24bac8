//! What the numbers of a probe are. The functions do nothing; their clauses are the laws.
#![tactic(auto)]

ghost use Rattle.lv_probe.specs.Laws.{NumbersAreListed, BestIsLeast};

/// Where a settled diagnosis lists fewer candidates than it might, the number of a value is how many a settled diagnosis of
/// the same tracked states lists where that value is observed after the step too.
pub fn numbers_are_listed()
    ensures { NumbersAreListed }
{}

/// What is best looked at is the first of the observables whose largest number is below the number listed, and no larger than
/// that of any other; where there is none, each observable's largest number is at least the number listed.
pub fn best_is_least()
    ensures { BestIsLeast }
{}
