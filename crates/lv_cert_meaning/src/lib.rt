//! What a valid certificate is, as definitions that compute: what its lines, read in order, come to, and which of them is
//! the first that is bad; and what it is to certify an answer. Beside them what answers, line by line, as they say: whether
//! a clause follows, what a line's numbers state of a model, and which zones a split leaves. Who writes certificates and who
//! checks them both stand on it. Nothing here knows of a search or a solver.
//!
//! | definitions | what they say |
//! |---|---|
//! | `specs/Following`, `Blocks` | clauses by their numbers, and which of them follow by their hints |
//! | `specs/Counting` | things by their numbers, which count from 1 |
//! | `specs/Stated` | for which tracked states, facts and goals a certificate answers |
//! | `specs/Space` | zones by their numbers, and their splits |
//! | `specs/Units` | the clauses of a block behind the model's |
//! | `specs/Judging` | what each line comes to, and so the whole |
//! | `specs/Laws` | what a valid certificate proves |
//! | `specs/Certifying` | what a certificate of an answer is: a valid one that states the question and gives the answer |
//!
//! In a block clauses are numbered from 1: first the model's, then the block's own, which are the units of what is taken as
//! given and, behind them, the clauses of the block's lines. Each line is a clause with the hints by which it follows from
//! the clauses before it. So lines that are good are true wherever the clauses given are, and a block that ends in the empty
//! clause shows that they are true nowhere. Each call that reads a line's numbers answers what the definition says, or
//! nothing where the line is bad.
//!
//! | file | what it holds |
//! |---|---|
//! | `following` | whether a line follows from numbered clauses |
//! | `block` | `Block`: the clauses of a block, which grow by its good lines |
//! | `laws` | what lines that follow promise |
//! | `counting` | the places that numbers stand for |
//! | `counts` | how many values, modes and moves there are |
//! | `states`, `observations`, `goals` | what is stated |
//! | `candidates` | a candidate of a tracked state |
//! | `pairs` | choices at slots |
//! | `steps` | whether values before and after a step are one |
//! | `space` | zones, which count from 1: a split closes its zone and opens zones with the next numbers |
#![tactic(auto)]

pub mod block;
pub mod candidates;
pub mod counting;
pub mod counts;
mod following;
pub mod goals;
pub mod laws;
pub mod observations;
pub mod pairs;
pub mod space;
pub mod states;
pub mod steps;

pub use block::Block;
pub use candidates::{candidate_of, has_target};
pub use counting::{place_of, places_of, values_of};
pub use counts::Counts;
pub use goals::goal_of;
pub use observations::observation_of;
pub use pairs::conflict_of;
pub use space::Space;
pub use states::state_of;
pub use steps::{has_controls, has_modes, is_nominal_pair};
