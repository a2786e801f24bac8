//! The clauses that are solved.
#![tactic(auto)]

use crate::literals::{literal, random_clause};
use crate::numbers::Numbers;
use lv_base::Lit;
use lv_clauses::{ClauseSet, is_clause};
use lv_sat::Solver;
use std::alloc::{AllocError, Global};

/// So many clauses of three random literals of distinct booleans; where there are less than three booleans, none.
pub fn random(
    alloc: Global,
    bools: u32,
    clauses: u32,
    numbers: &mut Numbers,
) -> Result<Solver, AllocError> {
    let mut set = ClauseSet::new(alloc, bools)?;
    for _clause in 0..clauses {
        if let Some(lits) = random_clause(set.bools(), numbers) {
            set.add(&lits)?;
        }
    }
    Solver::new(alloc, &set)
}

/// Each of so many pigeons sits in a hole, and no two in the same.
pub fn pigeons(alloc: Global, pigeons: u32, holes: u32) -> Result<Solver, AllocError> {
    let mut set = ClauseSet::new(alloc, pigeons.saturating_mul(holes))?;
    for pigeon in 0..pigeons {
        let mut lits = Vec::new(alloc);
        for hole in 0..holes {
            lits.push(sits(pigeon, hole, holes, true))?;
        }
        add(&mut set, lits.as_slice())?;
        for other in 0..pigeon {
            for hole in 0..holes {
                let lits = [
                    sits(pigeon, hole, holes, false),
                    sits(other, hole, holes, false),
                ];
                add(&mut set, &lits)?;
            }
        }
    }
    Solver::new(alloc, &set)
}

/// The literal that says whether a pigeon sits in a hole.
fn sits(pigeon: u32, hole: u32, holes: u32, sign: bool) -> Lit {
    literal(pigeon.wrapping_mul(holes).wrapping_add(hole), sign)
}

/// A chain of so many booleans, each of which implies the next.
pub fn chain(alloc: Global, length: u32) -> Result<Solver, AllocError> {
    let mut set = ClauseSet::new(alloc, length)?;
    for next in 1..length {
        add(&mut set, &[literal(next - 1, false), literal(next, true)])?;
    }
    Solver::new(alloc, &set)
}

/// Adds literals that are a clause.
pub fn add(set: &mut ClauseSet, lits: &[Lit]) -> Result<(), AllocError> {
    if is_clause(set.bools(), lits) {
        set.add(lits)?;
    }
    Ok(())
}
