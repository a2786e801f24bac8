//! Laws of identification. The functions do nothing; their clauses are the laws, and a caller that needs one calls it.
#![tactic(auto)]

ghost use Rattle.lv_ident.specs.Laws.{KeptAreMinimal};

/// Each conflict that a diagnosis keeps isn't possible, and none of its choices can be left out; no kept conflict has all
/// choices of another.
pub fn kept_are_minimal()
    ensures { KeptAreMinimal }
{}
