//! The ground that every crate of the engine stands on: names of numbers as types of their own, the one list type
//! that contracts compare whole, formulas and their truth, candidates and conflicts of a search, the order in which
//! candidates rank, and the limits of a model and a session.
//!
//! | part | items |
//! |---|---|
//! | names | `Name`, `has_name`, `find_name`, `is_same_text`, `Class` |
//! | numbers with names | `VarId`, `ValId`, `PartId`, `MoveId`, `BoolId`, `ClauseId`, `Lit`, `Cost` |
//! | lists | `Seq` |
//! | formulas over variables with finite domains | `Formula`, `Condition`, `boxed` |
//! | what their variables range over | `Range`, `Sort`, `range` |
//! | laws of formulas that fit | `fit_laws` |
//! | a search's values | `Pair`, `Conflict`, `Candidate`, `contains`, `pairs_of` |
//! | their order | `Rank` |
//! | limits | `limits` |
#![tactic(auto)]

pub mod boxed;
mod copies;
pub mod counts;
pub mod fit_laws;
pub mod formula;
pub mod ids;
pub mod limits;
pub mod names;
pub mod range;
pub mod rank;
pub mod search;
pub mod seq;

pub use formula::{Condition, Formula};
pub use ids::{BoolId, ClauseId, Cost, Lit, MoveId, PartId, ValId, VarId};
pub use names::{Class, Name, find_name, has_name, is_same_text};
pub use range::{Range, Sort};
pub use rank::Rank;
pub use search::{Candidate, Conflict, Pair, contains, pairs_of};
pub use seq::Seq;
