//! The certificate of a settled recovery. It states the tracked states, what is seen now and the goals; gives the command
//! set that was found, if one was, and shows of each state that there is a step under it and that no goal is missed;
//! excludes the other command sets, by values that don't reach the goals from some state and by steps that miss one; and
//! splits the zone of all command sets by these until no part is left open.
//!
//! | file | what it holds |
//! |---|---|
//! | `heading` | the lines that state the question |
//! | `units` | the literals that say that a step is nominal and from where it begins |
//! | `asking` | what is asked of a refuter about nominal steps |
//! | `showing` | the lines of the recovery |
//! | `excluding` | the blocks that exclude command sets |
//! | `whole` | all lines together |
#![tactic(auto)]

mod asking;
mod excluding;
mod heading;
mod showing;
mod units;
mod whole;

pub use lv_cert_writing::Settled;
pub use whole::{RecoveryQuestion, certify_recovery};
