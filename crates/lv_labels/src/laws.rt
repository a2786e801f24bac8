//! What labellings and claims say. Each function does nothing; its clause is the law.
#![tactic(auto)]

ghost use Rattle.lv_labels.specs.Laws.{LabellingIsOne, LabellingIsFound, LabellingHasNoOrder, ClaimsHaveNoOrder};
ghost use Rattle.lv_labels.specs.Example.{ClosureExample, ValveLabelling};

/// Two labellings of the same literals are equal.
pub fn labelling_is_one()
    ensures { LabellingIsOne }
{}

/// What is computed by adding literals one by one is the labelling.
pub fn labelling_is_found()
    ensures { LabellingIsFound }
{}

/// The order of literals plays no part, nor does how often one is assumed.
pub fn labelling_has_no_order()
    ensures { LabellingHasNoOrder }
{}

/// Closures of a few clauses, computed.
pub fn closure_example()
    ensures { ClosureExample }
{}

/// Labellings of the valve, computed.
pub fn valve_labelling()
    ensures { ValveLabelling }
{}

/// The order of claims plays no part.
pub fn claims_have_no_order()
    ensures { ClaimsHaveNoOrder }
{}
