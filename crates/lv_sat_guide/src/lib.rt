//! What guides a solver's search and is no part of what it shows: which clauses to look at when a literal became false,
//! which boolean to choose next, and when to begin anew. No clause of the solver rests on it.
//!
//! | part | items |
//! |---|---|
//! | the clauses that watch a literal | `Watches`, `Watch`, `Fate` |
//! | their literals | `arena` |
//! | which boolean to choose, and with which sign | `Order` |
//! | the booleans by the last touch, and by their scores | `queue`, `scores` |
//! | when to take all choices back | `Pace` |
#![tactic(auto)]

mod arena;
pub mod order;
pub mod pace;
mod queue;
mod scores;
pub mod watches;

pub use order::Order;
pub use pace::Pace;
pub use watches::{Fate, Watch, Watches};
