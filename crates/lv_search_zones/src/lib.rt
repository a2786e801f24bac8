//! The candidates of tracked states, and the command sets of a model, as zones over a grid of what choices cost: what a
//! best-first search begins with, and what the splits of a certificate begin with.
//!
//! | file | what it holds |
//! |---|---|
//! | `grid` | what the moves of each part cost |
//! | `targets` | the targets of the moves of each part |
//! | `zones` | the candidates of each tracked state, as a zone |
//! | `commands` | what the values of each control cost, and the one zone of the command sets |
//! | `laws` | that the members of these zones are the candidates and the command sets |
#![tactic(auto)]

pub mod commands;
pub mod grid;
pub mod laws;
pub mod targets;
pub mod zones;

pub use commands::{command_grid, command_zone};
pub use grid::move_grid;
pub use targets::move_targets;
pub use zones::zones_of;
