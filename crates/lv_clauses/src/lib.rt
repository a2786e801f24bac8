//! Clauses over booleans, kept in an arena whose keys stay valid while their clause is present, and the definitions
//! that all work on clauses shares: what satisfies them and what unit propagation derives from them. A log of
//! derivations is only kept here; what a valid one is stands in the definitions, and a checker of its own decides it.
//!
//! | part | items |
//! |---|---|
//! | one clause | `Clause` |
//! | the arena | `ClauseSet` |
//! | laws of the unit closure | `closure_is_least`, `closure_is_sound` |
//! | literals | `negation`, `is_clause`, `lit_holds`, `clause_holds`, `all_hold` |
//! | a log of derivations: clauses, each with the hints by which it follows | `Log`, `Step`, `Hint` |
//! | marks of booleans | `Marks`, `is_marked`, `unmark`, `look`, `Finding` |
#![tactic(auto)]

pub mod clause;
pub mod clause_set;
pub mod laws;
pub mod literals;
pub mod log;
pub mod marks;
pub mod noted_marks;

pub use clause::Clause;
pub use clause_set::ClauseSet;
pub use laws::{closure_is_least, closure_is_sound};
pub use literals::{all_hold, clause_holds, is_clause, lit_holds, negation};
pub use log::{Hint, Log, Step};
pub use marks::{Finding, is_marked, look, unmark};
pub use noted_marks::Marks;
