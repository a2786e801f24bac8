//! The laws of the unit closure, for the proofs of crates that propagate.
#![tactic(auto)]

ghost use Rattle.lv_clauses.specs.Laws.{ClosureIsLeast, ClosureIsSound};

/// Each set that has the assumptions, and with the negations of a clause's other literals the literal left, has all
/// of the closure.
pub fn closure_is_least()
    ensures { ClosureIsLeast }
{}

/// Values that satisfy the clauses and the assumptions make the closure true, and where it is contradictory there are
/// none.
pub fn closure_is_sound()
    ensures { ClosureIsSound }
{}
