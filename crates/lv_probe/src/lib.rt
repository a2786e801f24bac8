//! What an observation would tell: of each observable how many of the candidates that a diagnosis lists go with each of its
//! values, and which observable is best looked at.
//!
//! | file | what it holds |
//! |---|---|
//! | `probing` | `Probing::probe`: the numbers of all observables |
//! | `choosing` | the observable that is best looked at |
//! | `laws` | what the numbers are |
#![tactic(auto)]

pub mod choosing;
pub mod laws;
pub mod probing;

pub use choosing::best;
pub use probing::Probing;
