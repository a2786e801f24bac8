//! The state of a session over a model, and what is asked of it: diagnoses, recoveries, tests and windows.
//!
//! | file | what it is |
//! |---|---|
//! | `state` | the state, and what a request does to it |
//! | `observations` | the observations held, by their names |
//! | `goals` | the goals held, by their names |
//! | `diagnoses` | diagnoses, asked for and taken over |
//! | `recoveries` | recoveries |
//! | `tests` | tests |
//! | `windows` | windows of the last steps, asked for and taken over |
//! | `times` | the times that are kept, and what is observed of each |
//! | `applying` | the values that the current recovery gives the controls |
//! | `queries` | the current query asked, gone on with, shown and taken over, and whether it is settled |
//! | `replies` | what a query that has run replies |
//! | `query` | the current query |
//! | `running` | what is kept of it from line to line |
//! | `laws` | what a settled test is, and a settled window |
//!
//! What a request does is a function of the state: the state that it leads to, and the reply.
#![tactic(auto)]

mod applying;
mod diagnoses;
mod goals;
pub mod laws;
mod observations;
mod queries;
pub mod query;
mod recoveries;
mod replies;
pub mod running;
pub mod state;
mod tests;
mod times;
mod windows;

pub use applying::values_of;
pub use goals::texts_of;
pub use lv_ident::QueryEffort;
pub use lv_meaning::Facts;
pub use lv_model_names::Lists;
pub use lv_session_history::{History, Past};
pub use lv_session_request::{
    Command, Goal, Held, Request, Retraction, Sighting, Unread, request_of,
};
pub use lv_system::{StepSystem, compile};
pub use query::Query;
pub use running::Running;
pub use state::State;
