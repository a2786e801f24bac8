//! Lanes: many conversations at a time, each with a responder of its own, over one list of lines. A line is for the lane
//! that it names, or is a turn: each lane with an unsettled query goes on with it for so many trials.
//!
//! | file | what it is |
//! |---|---|
//! | `lane` | what a lane wants of its responder |
//! | `fault` | why a line is refused |
//! | `form` | what a line asks for |
//! | `named` | lanes by their names, in the order of their first use |
//! | `reply` | what is replied to a line, and its text |
//! | `lanes` | the lanes, and what each line does |
//! | `laws` | what holds of each lane, whatever the lines |
#![tactic(auto)]

pub mod fault;
pub mod form;
pub mod lane;
pub mod lanes;
pub mod laws;
pub mod named;
pub mod reply;

pub use fault::LaneFault;
pub use lane::Lane;
pub use lanes::Lanes;
pub use reply::{LaneReply, LaneText, lanes_text};
