//! Reconfiguration: which command set takes the plant to its goals, found by a best-first search. A query searches the
//! command sets of a model, the cheapest first; its trial asks solvers about nominal steps, so no assignment is ever tried.
//! It is proved to come to the walk of a recovery along all command sets.
//!
//! | file | what it holds |
//! |---|---|
//! | `query` | `recover` and `Query`: the search and what its trials rest on |
//! | `trial`, `judged` | whether a command set recovers, and the reason of one that doesn't |
//! | `reaching` | from which tracked states values reach the goals, and what of them is needed where they don't |
//! | `commanded` | what is asked about values of controls, from one state or several: such a step as a solver's clauses ask for, a goal missed, a value seen |
//! | `test_query` | `find_test` and `TestQuery`: the same search for a command set that tells tracked states apart |
//! | `testing` | whether a command set does, and the reason of one that doesn't |
//! | `setting` | what the questions of a recovery rest on |
//! | `compiled` | a model with its controls and the numbering of its system, and the clauses of goals |
//! | `clauses`, `goals` | solvers for nominal steps, those that meet all goals, those that miss one |
//! | `assumptions` | a state and values of controls as literals |
#![tactic(auto)]

mod assumptions;
mod clauses;
mod commanded;
mod compiled;
mod goals;
mod judged;
pub mod query;
mod reaching;
mod setting;
pub mod test_query;
mod testing;
mod trial;

pub use query::{Query, recover};
pub use test_query::{TestQuery, find_test};
