//! What is asked of a plant, as definitions: which partial choices are possible under the facts, which candidates there
//! are and in which order, which of them are the answer; which command sets recover, and which of them is the first.
//!
//! | definitions | the question |
//! |---|---|
//! | `specs/Search` | is there some list of numbers that passes a test? |
//! | `specs/Facts` | what is commanded and observed, and what it is to meet that? |
//! | `specs/Possible` | do some assignments and moves agree with the facts and with a partial choice? |
//! | `specs/Candidates` | which candidates do the tracked states have, in the order of their ranks, and which are the first possible? |
//! | `specs/Targets` | to which state does a candidate lead, and which are the first possible that lead to different ones? |
//! | `specs/Diagnosis` | which of a candidate's choices already aren't possible together; which candidates does a diagnosis list, which reasons does it keep, within so many trials? |
//! | `specs/Commands` | which command sets are there, in the order of their ranks? |
//! | `specs/Recovers` | when does a command set recover? |
//! | `specs/Recovery` | what is the reason of one that doesn't, and the walk to the first that does? |
//! | `specs/Ranges` | what is asked of the numbers of an aim? |
//!
//! What these definitions say, in the subject's own words: `laws` of diagnoses (`specs/PossibleLaws`, `CandidateLaws`,
//! `DiagnosisLaws`), `recovery_laws` of recoveries (`specs/RecoveryLaws`). Each function there does nothing: its contract is
//! the law, which callers above cite by calling it. Worked examples are `specs/WorkedValve` and `specs/WorkedRecovery`.
//!
//! | program | what it does |
//! |---|---|
//! | `facts` | commands and observations, and whether an assignment meets them |
//! | `moves` | the moves of a part's type |
//! | `aim` | what is to be recovered: tracked states, control values, goals |
#![tactic(auto)]

pub mod aim;
pub mod facts;
pub mod laws;
pub mod moves;
pub mod recovery_laws;

pub use aim::Aim;
pub use facts::{Facts, Observation};
pub use laws::{
    answer_is_first, answer_is_one, candidates_are_all, candidates_rise, diagnosis_walk_is_exact,
    possible_parts, possible_reads, reason_is_minimal, valve_example,
};
