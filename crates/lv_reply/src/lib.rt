//! The replies of a session: what a reply says, as numbers and lists of numbers alone, and its text.
//!
//! | part | items |
//! |---|---|
//! | what a reply says | `Reply`, `Refusal`, `Label`, `Moment`, `Probed` |
//! | its text | `write_reply` |
//!
//! | file | the text of |
//! |---|---|
//! | `diagnosis` | the candidates that a diagnosis lists, settled or not, and the trajectories of a window |
//! | `conflicts` | the conflicts that it kept, or a window, or a recovery |
//! | `recovery` | a recovery or a test, settled or not |
//! | `probes` | what observations would leave of a diagnosis |
//! | `labels` | what propagation finds |
//! | `states` | the tracked states |
//! | `moves`, `variables` | moves, variables and values by the names of the plant |
//! | `pieces` | numbers, names, commas |
#![tactic(auto)]

mod conflicts;
mod diagnosis;
pub mod labels;
mod moves;
mod pieces;
pub mod probes;
mod recovery;
pub mod reply;
pub mod states;
mod text;
mod variables;

pub use labels::{Label, Moment};
pub use probes::Probed;
pub use reply::{Refusal, Reply};
pub use text::write_reply;
