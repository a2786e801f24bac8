//! A session over a model: lines come one by one, each is carried out, and each reply is written before the next line
//! is looked at.
//!
//! | file | what it is |
//! |---|---|
//! | `session` | a session: its state and what a line does |
//! | `compiled` | what all sessions over a model share |
//! | `workings` | what is kept beside the state |
//! | `requests` | what a request does to the state |
//! | `probes` | what observations would leave of the current diagnosis |
//! | `certificates` | certificates of the current query |
//! | `labels` | what propagation finds |
//! | `laws` | what holds of steps and transcripts |
//!
//! What a line does is a function of the state, which lies below (`lv_session_state`); which text stands for its reply is
//! a relation, and so is the transcript of a session: the texts of its replies, one behind the other.
#![tactic(auto)]

mod certificates;
pub mod compiled;
mod labels;
pub mod laws;
mod probes;
mod requests;
pub mod session;
pub mod workings;

pub use compiled::CompiledModel;
pub use lv_session_state::{Goal, Request, Sighting};
pub use session::Session;
