//! The model that the statements of a text give, or its first fault of checking.
//!
//! A statement is judged over those before it: its place, its names from left to right, whether a new name is in use,
//! whether a formula gives too many clauses, whether a limit is passed. The first of these that speaks against it is the
//! text's fault, with the statement's line; else what it adds goes behind what is there.
//!
//! | part | items |
//! |---|---|
//! | the model of a text, and its canonical text | `model_of`, `printed_model` |
//! | statements so far, and what one more adds | `Draft`, `TypeDraft`, `Entry` of `lv_model_entries` |
//! | what else speaks against a statement than its place and names | `faults` |
//! | what is put behind what is there | `checker`, `types` |
//! | what holds of every text | `laws` |
#![tactic(auto)]

mod checker;
mod checking;
mod faults;
pub mod laws;
mod types;

pub use checking::{model_of, printed_model};
pub use lv_model_entries::{Draft, Entry, TypeDraft, draft};
