//! What a session keeps of its last commits: what was tracked before each, what was commanded, and what is observed of its
//! time, from which an observation can be taken out later.
//!
//! | file | what it answers |
//! |---|---|
//! | `history` | `History`: the last commits, one kept more, an observation taken out, and those among the last steps |
//! | `steps` | where the last steps start, and what is known of each |
#![tactic(auto)]

pub mod history;
pub mod steps;

pub use history::{HISTORY, History, Past};
pub use steps::{facts_on, tracked_before};
