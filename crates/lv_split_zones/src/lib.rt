//! Zones by their places, in the order in which they are made: those that there are at first, and behind them the parts of each
//! split. Of a split nothing is kept but which zone it splits and by what, and what many splits are by is kept once; the
//! masks of a zone are made when they are asked for, from those of the zone that it is a part of. So a split takes little
//! memory, however many parts it makes.
//!
//! | file | what it holds |
//! |---|---|
//! | `split` | a split, and what it is by |
//! | `causes` | what splits are by, each once |
//! | `made` | all zones that were made |
//! | `walk` | a look at one zone behind the other |
//! | `zones` | the same, without those that were split |
#![tactic(auto)]

pub mod causes;
pub mod made;
pub mod split;
pub mod walk;
pub mod zones;

pub use walk::Walk;
pub use zones::SplitZones;
