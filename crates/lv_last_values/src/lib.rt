//! The last values that satisfied all clauses, by which new values are judged: only what turned needs a look.
//!
//! | part | items |
//! |---|---|
//! | the values | `LastValues`, `Guess` |
//! | which clauses hold each literal | `Occurrences`, `Link` |
//! | values near the last ones | `near_values`, `open_lit` |
#![tactic(auto)]

pub mod last_values;
pub mod near;
pub mod occurrences;

pub use last_values::{Guess, LastValues};
pub use near::{near_values, open_lit};
pub use occurrences::{Link, Occurrences};
