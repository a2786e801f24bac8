//! A whole call of the program, over any shelf of files and any two sinks.
//!
//! - `commands`: a session served, a certificate checked, a model printed, a text made for a number, a made session
//!   summed up.
//! - `inputs`: the model, opened and read or made, and texts that are made.
//! - `session`: the session's file, opened and served.
//! - `tally`: what the replies of a made session come to, counted one by one.
//! - `summary`: the lines that tell it.
//! - `certificate`: the certificate's file, opened, read and judged, and the verdict told.
//! - `writing`: a whole text written and flushed.
//! - `fault`: what ends a run before it is done, and its line on standard error.
//! - `status`: how a call ends, and its number.
//! - `telling`: a fault told on standard error.
//! - `top`: the whole of a call.
//! - `laws`: what holds of the parts of a call together.
#![tactic(auto)]

mod certificate;
mod commands;
pub mod fault;
mod inputs;
pub mod laws;
mod session;
pub mod status;
pub mod summary;
pub mod tally;
pub mod telling;
pub mod top;
mod writing;

pub use fault::RunFault;
pub use status::{Ended, Status};
pub use telling::report;
pub use top::livingstone;
