//! The clauses of a model as a system: a set of them in which each has its number, and the literals that stand for values of
//! variables and for moves of parts.
//!
//! What makes the set's clauses true is a step, and each step makes them true: `laws`.
//!
//! | part | items |
//! |---|---|
//! | the system | `compile`, `StepSystem`, `Moment` |
//! | the system of several steps, one behind the other | `compile_window`, `WindowSystem` |
//! | a step read off truth values | `StepPair` |
//! | the numbering of choices | `ChoiceBools` |
//! | its laws | `laws` |
#![tactic(auto)]

pub mod choices;
mod decoding;
pub mod laws;
pub mod moment;
mod numbered;
pub mod step_pair;
pub mod system;
pub mod window;

pub use choices::ChoiceBools;
pub use moment::Moment;
pub use step_pair::StepPair;
pub use system::{StepSystem, compile};
pub use window::{WindowSystem, compile_window};
