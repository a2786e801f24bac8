//! What the tracked list promises, in the words of the states that were listed. The functions do nothing; their
//! clauses are the laws, and a caller that needs one calls it.
#![tactic(auto)]

ghost use Rattle.lv_tracker.specs.Laws.{FirstOfEachAreFirsts, FirstOfEachIsOne};

/// The modes of each listed state are kept. What is kept is the first listed with its modes, and so has the cost of that
/// one. No modes are kept twice, and they stand in the order of their first appearance.
pub fn first_of_each_are_firsts()
    ensures { FirstOfEachAreFirsts }
{}

/// No other list is so: what `first_of_each_are_firsts` says determines it.
pub fn first_of_each_is_one()
    ensures { FirstOfEachIsOne }
{}
