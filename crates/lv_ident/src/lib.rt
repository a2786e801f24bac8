//! Identification: which candidates explain what was commanded and seen. A query searches the candidates of the tracked
//! states best first; its trial asks the solver about the clauses of the model, so no assignment is ever tried. It is proved
//! to come to the walk of a diagnosis along all candidates.
//!
//! | file | what it holds |
//! |---|---|
//! | `query` | `identify` and `Query`: the search and its trial together; its solver can be handed on to the next query |
//! | `trial` | `IdentTrial`: whether a candidate is possible, and the reason of one that isn't |
//! | `literals` | facts as literals |
//! | `laws` | what kept conflicts are |
#![tactic(auto)]

pub mod laws;
pub mod literals;
pub mod query;
pub mod trial;

pub use lv_asking::LemmaSolver;
pub use query::{Listing, Query, QueryEffort, identify};
pub use trial::IdentTrial;
