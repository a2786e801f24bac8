//! Complete solving with refutations: whether clauses and assumptions can be made true together. Either values say so,
//! or a log derives the clause of negations of assumptions, step by step, so that a checker can follow it.
//!
//! | part | items |
//! |---|---|
//! | the solver | `Solver` |
//! | what it answers, and keeps of an answer | `Answer`, `Refutation` |
//! | copies of logs | `copying` |
//! | whether assumptions hold a core | `part` |
//! | what it did | `Effort` |
//! | what guides it | `guide` |
//! | what clauses force | `propagation` |
//! | the search | `search` |
//! | what the last values say of the next choice | `lead` |
//! | the assumptions on the trail | `front` |
//! | a clause that is added behind them | `entering` |
#![tactic(auto)]

pub mod answer;
mod copying;
pub mod effort;
mod entering;
mod front;
mod guide;
mod lead;
mod part;
mod propagation;
mod search;
pub mod solver;

pub use answer::{Answer, Refutation};
pub use effort::Effort;
pub use solver::Solver;
