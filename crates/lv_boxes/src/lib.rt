//! Sets of candidates as zones, the boxes of a best-first search. A zone holds, for one tracked state, every candidate
//! that keeps to a mask of choices at each slot, so the first of its members in rank order is found slot by slot, and
//! what a conflict excludes is taken out by splitting the zone into smaller ones. Nothing is ever listed. Beside them
//! stand the conflicts that a search keeps, and the plain search for the first candidates that fit, as definitions:
//! candidates are tried in the order of their ranks, and the conflict that a refused one leaves behind rules out later
//! ones. A search that is cleverer is proved to come to the same.
//!
//! | part | items |
//! |---|---|
//! | what choices cost | `Grid` |
//! | a slot's choices as a word | `mask` |
//! | a set of candidates | `Zone` |
//! | its first member | `Grid::best`, `Grid::write_best`, `least::write_least` |
//! | the members without those that contain a conflict | `split` |
//! | groups of choices; the members without those that have one target | `Groups`, `split_by_groups` |
//! | all choices of a candidate as a conflict | `choices_as_conflict` |
//! | laws of zones | `members_need_choices`, `split_by_member_loses_one` |
//! | kept conflicts | `conflicts::Store`, `conflicts::first_contained` |
//! | how a search ends | `Outcome` |
//! | laws of ranked lists, reasons and walks | `walk_laws` |
//!
//! | definitions of the plain search | what they say |
//! |---|---|
//! | `specs/Ranked` | ranks in order |
//! | `specs/Walk` | which candidates are tried, listed and passed over, and how it ends; with a flag, none that is alike a listed one is listed |
//! | `specs/Groups` | which candidates have one target, told by groups of choices |
//! | `specs/Reason` | the reason of a candidate that doesn't fit, by leaving choices out |
//! | `specs/WalkLaws` | what these promise |
#![tactic(auto)]

pub mod conflicts;
pub mod grid;
pub mod groups;
pub mod laws;
pub mod least;
pub mod mask;
pub mod outcome;
pub mod parts;
pub mod walk_laws;
pub mod zone;

pub use grid::Grid;
pub use groups::{Groups, split_by_groups};
pub use laws::{members_need_choices, split_by_member_loses_one};
pub use outcome::Outcome;
pub use parts::{choices_as_conflict, split};
pub use zone::Zone;
