//! The certificate of a settled diagnosis. It states the tracked states, the facts and how many candidates are sought;
//! shows of each listed candidate that it is possible, by values before and after its step; refutes each kept conflict; and
//! splits the zones of the candidates by these until each zone left ranks behind what is listed.
//!
//! | file | what it holds |
//! |---|---|
//! | `limit` | how many candidates are sought, with distinct targets or not |
//! | `heading` | the lines that state the question |
//! | `asking` | what is asked of a refuter about a candidate or a conflict |
//! | `listing` | the lines of listed candidates |
//! | `refuting` | the blocks of conflicts |
//! | `whole` | all lines together |
#![tactic(auto)]

mod asking;
mod heading;
pub mod limit;
mod listing;
mod refuting;
pub mod whole;

pub use limit::Limit;
pub use lv_cert_writing::Settled;
pub use whole::{DiagnosisQuestion, certify_diagnosis};
