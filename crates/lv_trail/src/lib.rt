//! The trail of a solver, and what a clause teaches that is false by it.
//!
//! | part | items |
//! |---|---|
//! | literals taken as true | `Trail`, `Entry` |
//! | the clauses that hints name | `Reasons` |
//! | the analysis of a false clause | `Analysis`, `Conflict`, `Flip` |
//! | which booleans it saw | `seen` |
#![tactic(auto)]

pub mod analysis;
pub mod reasons;
mod seen;
pub mod trail;

pub use analysis::{Analysis, Conflict, Flip};
pub use reasons::Reasons;
pub use trail::{Entry, Trail, count_base};
