//! What propagation alone finds of a model under the facts of a session: the values of variables whose literals are in the unit
//! closure of the model's clauses, the facts, and perhaps the modes of a state.
//!
//! | part | items |
//! |---|---|
//! | facts that come and go, and what is found | `FactLabels`, `Labelling` |
//! | facts given anew with each question | `Labeller` |
//! | the booleans of variables before a step and after it | `Values` |
//! | its laws | `laws` |
#![tactic(auto)]

mod assuming;
mod claims;
mod copying;
pub mod fact_labels;
pub mod labeller;
pub mod labelling;
pub mod laws;
mod modes;
mod reading;
pub mod values;

pub use fact_labels::FactLabels;
pub use labeller::Labeller;
pub use labelling::Labelling;
pub use values::Values;
