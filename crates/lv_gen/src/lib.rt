//! Makes plants and sessions of any number of valves in a row, so that the engine can be run, measured and compared on
//! texts that everyone can make again from one number.
//!
//! - `draws`: the linear congruential generator that decides what a session does.
//! - `series`: how many valves there are, and the model's text.
//! - `session`: the session's text.
#![tactic(auto)]

pub mod draws;
pub mod series;
pub mod session;
mod text;

pub use draws::Generator;
pub use series::{make_model, valves};
pub use session::make_session;
