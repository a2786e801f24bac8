//! The search for the first candidates that fit, best first and for any trial. It tries the candidates of some zones in
//! the order of their ranks, without ever listing them: what a refused trial leaves behind, a conflict, takes all
//! candidates that contain it out of what is left. It is proved to come to what the plain walk along all of them comes to.
//!
//! | file | what it holds |
//! |---|---|
//! | `search` | `Search`: `new`, `run`, and what it has listed and kept |
//! | `trial` | `Trial`: what a search wants of its trial |
//! | `turn` | one turn of a search, and the turns of one run |
//! | `frontier` | what is left to try, as the turns see it |
//! | `laws` | what the walk's entries are, and where a walk begins |
#![tactic(auto)]

pub mod frontier;
pub mod laws;
pub mod search;
pub mod trial;
pub mod turn;

pub use frontier::Frontier;
pub use lv_boxes::Outcome;
pub use search::Search;
pub use trial::{Trial, Tried};
