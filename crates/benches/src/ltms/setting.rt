//! The systems that the calls run on.
#![tactic(auto)]

use crate::literals::{literal, random_clause};
use crate::numbers::Numbers;
use lv_clauses::is_clause;
use lv_ltms::Ltms;
use std::alloc::{AllocError, Global};

/// A chain of so many booleans, each of which implies the next.
pub fn chain(alloc: Global, length: u32) -> Result<Ltms, AllocError> {
    let mut ltms = Ltms::new(alloc, length)?;
    for next in 1..length {
        let lits = [literal(next - 1, false), literal(next, true)];
        if is_clause(ltms.bools(), &lits) {
            ltms.add_clause(&lits)?;
        }
    }
    Ok(ltms)
}

/// So many clauses of three random literals of distinct booleans; where there are less than three booleans, none.
pub fn random(
    alloc: Global,
    bools: u32,
    clauses: u32,
    numbers: &mut Numbers,
) -> Result<Ltms, AllocError> {
    let mut ltms = Ltms::new(alloc, bools)?;
    for _clause in 0..clauses {
        if let Some(lits) = random_clause(ltms.bools(), numbers) {
            ltms.add_clause(&lits)?;
        }
    }
    Ok(ltms)
}
