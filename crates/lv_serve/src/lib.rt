//! Lines served as their text comes: a piece is read, each line that ends in it is answered, and what was replied is
//! handed on before the next piece is waited for. What answers them is a `Responder`.
//!
//! | file | what it is |
//! |---|---|
//! | `responder` | what answers lines |
//! | `pieces` | pieces read of a shelf, until the session ends |
//! | `serving` | a responder between two pieces: its lines answered, replies that wait |
//! | `waiting` | replies that wait to be written |
//! | `unfinished` | a line that hasn't ended yet |
//! | `fault` | why a session was not served to its end |
#![tactic(auto)]

pub mod fault;
pub mod pieces;
pub mod responder;
mod serving;
mod unfinished;
mod waiting;

pub use fault::ServeFault;
pub use pieces::serve;
pub use responder::Responder;
