//! What names stand for over a whole plant. Goals are written as laws of the system are: a variable is named by its part
//! and its own name, `mode` stands for a part's mode, and a value is one that the variable on the left has.
//!
//! | file | what it is |
//! |---|---|
//! | `names` | variables and values by their names |
//! | `goals` | the formula that a goal's phrase is |
//! | `lists` | what is kept with a model for look-ups |
//! | `laws` | what is named keeps to what variables range over |
#![tactic(auto)]

pub mod goals;
pub mod laws;
pub mod lists;
pub mod names;

pub use goals::goal_formula;
pub use lists::Lists;
