//! Windows: which trajectories over the last steps explain what was commanded and seen. A trajectory is a tracked state and
//! a full choice for each step, in which each move goes from the mode that the one before it led to. A query searches them
//! best first; its trial asks the solver about the clauses of several steps, so no assignment is ever tried. It is proved to
//! come to the walk of the window along all trajectories.
//!
//! | definitions | the question |
//! |---|---|
//! | `specs/Trajectories` | which trajectories are there, in the order of their ranks? |
//! | `specs/Possible` | do some assignments agree with what is known of each step and with a partial choice? |
//! | `specs/Walk` | which of a trajectory's choices already aren't possible together; which trajectories does a window list? |
//! | `specs/Joints` | how does a search have them: slots, zones, and the moves that don't join |
//! | `specs/Laws` | what these are, in the subject's own words |
//!
//! | file | what it holds |
//! |---|---|
//! | `query` | `window` and `WindowQuery`: the search and its trial together |
//! | `trial` | `WindowTrial`: whether a trajectory is possible, and the reason of one that isn't |
//! | `known` | what is known of each step, as literals |
//! | `zones` | what the moves of each part of each step cost, and the zones of tracked states |
//! | `joints` | the conflicts that are known: a step starts where the one before it ended |
//! | `laws` | the laws; each function does nothing, its contract is the law |
#![tactic(auto)]

pub mod joints;
pub mod known;
pub mod laws;
pub mod query;
pub mod trial;
pub mod zones;

pub use query::{WindowQuery, window};
pub use trial::WindowTrial;
