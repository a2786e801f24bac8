//! The tracked list: the distinct states that the plant may be in, each with what it cost to come to it.
//!
//! | file | what it answers |
//! |---|---|
//! | `tracked` | `Tracked`: the list, how it starts, and how it advances to what was listed |
//! | `distinct` | of states with the same modes the first |
//! | `targets` | the states that listed candidates lead to |
//! | `copies` | copies of tracked states |
//! | `laws` | what the list promises |
#![tactic(auto)]

pub mod copies;
mod distinct;
pub mod laws;
pub mod targets;
pub mod tracked;

pub use copies::copies_of;
pub use targets::target_states;
pub use tracked::Tracked;
