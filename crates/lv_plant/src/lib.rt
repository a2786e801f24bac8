//! A plant in the loop: a simulated plant that is run step by step against a session, which diagnoses it and recovers it. The
//! plant knows its own modes; the session is told what its observables show, and nothing else.
//!
//! | file | what it is |
//! |---|---|
//! | `fault` | why a line is refused |
//! | `form` | what a line asks for |
//! | `naming` | the fault of a part that a line names |
//! | `reply` | what is replied to a line, and its text |
//! | `seeing` | what is observed of a step, and the modes that it leads to |
//! | `findings` | whether the plant's modes are tracked, and whether goals are met |
//! | `plant` | the plant, and what each line does |
//! | `laws` | what holds of it, whatever lines came |
#![tactic(auto)]

pub mod fault;
mod findings;
pub mod form;
pub mod laws;
mod naming;
pub mod plant;
pub mod reply;
mod seeing;

pub use fault::PlantFault;
pub use lv_session::{CompiledModel, Session};
pub use plant::Plant;
pub use reply::{GoalsTold, PlantReply, StepTold, plant_text};
