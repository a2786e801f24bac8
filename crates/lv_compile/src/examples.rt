//! The clauses of two small plants. Each function does nothing; its clause is computed.
#![tactic(auto)]

ghost use Rattle.lv_compile.specs.Examples.{ValveClauses, TwoStepsClauses};

/// A valve that opens and closes at commands and may get stuck: 32 booleans and 114 clauses, seven of them by place.
pub fn valve_clauses()
    ensures { ValveClauses }
{}

/// A part with two steps that are always open: 11 booleans, and all 32 clauses.
pub fn two_steps_clauses()
    ensures { TwoStepsClauses }
{}
