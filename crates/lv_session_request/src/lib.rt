//! A line of a session as a request: its word, its form, and the names and numbers in it; and the observations that are held
//! by their names. Nothing above a request knows the text of a line.
//!
//! | file | what it answers |
//! |---|---|
//! | `request` | `Request`, and `request_of`: what a line asks for |
//! | `words` | which word a line begins with |
//! | `forms` | how many tokens and which signs it has, its numbers and names |
//! | `names` | which controls, observables and values names stand for |
//! | `goals` | the goal that a line names |
//! | `apart` | `Apart`: what is large of a request, in a box of its own |
//! | `unread` | why a line asks for nothing: a refusal, or want of memory |
//! | `held` | `Held`: observations found by their names; `facts`: control values and what was observed, as facts |
//!
//! The order of refusals is that of the tests: a line too long, a byte not allowed, an unknown word, another form than the
//! word's, and then what the line names, from left to right. That a line nests too deep comes before its form.
#![tactic(auto)]

pub mod apart;
pub mod forms;
pub mod goals;
pub mod held;
pub mod names;
pub mod request;
pub mod unread;
pub mod words;

pub use apart::Apart;
pub use goals::Goal;
pub use held::{Held, facts};
pub use request::{Command, Request, Retraction, Sighting, WINDOW, request_of};
pub use unread::Unread;
