//! What a trial asks of the solver: whether choices can be made together, beside literals that are assumed each time, and
//! of those that can't the reason. What the choices mean is the caller's: `Asking` tells the truth of any meaning that its
//! clauses and what is assumed decide.
//!
//! | file | what it holds |
//! |---|---|
//! | `asking` | `Asking`: whether pairs are possible together, also beside one literal more, and their reason where they aren't |
//! | `reducing` | `Refuter`, which tells which part of pairs isn't possible, and what is left of pairs when each that isn't needed is left out |
//! | `refutation` | the one question asked of the solver, and the solutions kept from earlier ones |
//! | `lemma_solver` | a solver that keeps short clauses that its searches learned, from one query to the next too |
//! | `literals` | observations and choices as literals |
#![tactic(auto)]

pub mod asking;
pub mod lemma_solver;
pub mod literals;
pub mod reducing;
pub mod refutation;

pub use asking::Asking;
pub use lemma_solver::LemmaSolver;
pub use reducing::{Refuter, reduced};
