//! The step that a plant takes when it is run: of the steps in which the named faults happen and no others, and that meet
//! what is commanded and observed, the first one, by the values before it and then by those after it.
//!
//! A solver that is kept from step to step tells whether there is one. It is asked once for each value that is tried at
//! most, and each of its answers is a step, so that only values below those of the last one are tried.
//!
//! | file | what it holds |
//! |---|---|
//! | `asked` | what is asked of a step, and a step's values |
//! | `stepper` | `PlantStepper`: the first step of a model that is as asked |
//! | `lead` | how far the search for it has come |
//! | `assumed` | literals that are assumed together, each once |
//! | `literals` | what is asked of a step, as literals |
//! | `places` | the literals of a step's values |
//! | `laws` | that the step is the first, and where it leads after a recovery |
//!
//! What the step is stands in `specs/PlantSteps`, what holds of it in `specs/Laws`.
#![tactic(auto)]

pub mod asked;
mod assumed;
pub mod laws;
mod lead;
mod literals;
mod places;
pub mod stepper;

pub use asked::{Asked, PlantStep};
pub use stepper::PlantStepper;
