//! The checker of refutations: it goes over a log and finds the first step that doesn't follow by its hints. It is
//! linear in the literals that it reads: one array holds the value of each boolean, and a hint leads straight to its
//! clause.
//!
//! Where no step is bad, each clause of the log is true under all values that satisfy the given clauses; a log that
//! ends in the empty clause thus shows that there are none.
#![tactic(auto)]

mod pass;

pub use pass::{check, deny};
