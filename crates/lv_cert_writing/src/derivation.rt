//! A line of a block.
#![tactic(auto)]

use lv_base::Seq;
use lv_cert::Literal;

/// A clause, its literals by the numbers of their booleans, and the numbers of the clauses that it follows from, in the
/// order in which they are taken. Both count from 1.
#[derive(Debug, Drop)]
pub struct Derivation {
    pub literals: Seq<Literal>,
    pub hints: Seq<u128>,
}
