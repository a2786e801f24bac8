//! The plant: its plain lists, what it is for them to be well formed, and what an assignment, a move and a step are.
//!
//! | part | items |
//! |---|---|
//! | the lists | `Plant`, `Domain`, `ComponentType`, `Variable`, `ModeFormula`, `Move`, `Part`, `Price` |
//! | states | `State`, `TrackedState` |
//! | the model | `Model`: a plant that is well formed |
//! | its meaning | `Model::is_feasible`, `takes`, `is_step`, `is_nominal`, `moves_from`, `price` |
//! | its lists of numbers | `Model::sizes`, `controls`, `move_counts` |
//! | how many clauses it comes to | `counts`: the share of a type's part, of a law |
//! | its names | `names`: the first item of a list with a name |
//! | its laws | `laws` |
#![tactic(auto)]

pub mod counts;
pub mod laws;
pub mod lookup;
pub mod meaning;
pub mod model;
pub mod names;
pub mod plant;
mod prices;
pub mod ranges;
pub mod state;
pub mod totals;
pub mod variables;

pub use lv_base::{Class, Name};
pub use model::Model;
pub use plant::{ComponentType, Domain, ModeFormula, Move, MoveKind, Part, Plant, Price, Variable};
pub use state::{State, TrackedState};
