//! What the writers of certificates share: lines that state what is known and show what follows, refutations as the lines
//! of a block, and splits that close all zones.
//!
//! | part | items |
//! |---|---|
//! | tracked states, observations and values as lines | `stating` |
//! | what a block states, and what a refuter tells of it | `asking` |
//! | a solver for all blocks | `Refuter`, `block_solver` |
//! | what it answers: values, or lines up to the empty clause | `Refuted`, `Derivation` |
//! | what a block states by a literal alone | `assumed` |
//! | the numbers of clauses in a block | `block_numbers` |
//! | which steps of a log are needed | `needed` |
//! | steps of a log as lines | `block_lines` |
//! | a settled answer | `Settled` |
//! | splits that close zones | `close`, `Split` |
//! | the last that counts | `last_if_full` |
//! | what a settled walk explains, and that splits end well | `split_laws` |
//!
//! | definitions | what they say |
//! |---|---|
//! | `specs/Explained` | why a candidate need not be listed |
//! | `specs/Closing` | by what a zone is split, and what splits come to |
//! | `specs/SplitLines` | splits as lines of a certificate |
//! | `specs/SplitLaws` | what a settled walk explains |
//!
//! The solver answers; here its answer is put into the numbers of a block, and what the empty clause doesn't rest on is left
//! out. Splits are made for a settled answer: of zones whose every member is listed, contains an excluded conflict, or ranks
//! behind the last that counts, zone after zone is split until each that is open is empty or ranks behind. Judged line by line
//! by the definition of valid certificates they come to an end that is good.
#![tactic(auto)]

pub mod asking;
mod assumed;
mod block_lines;
mod block_numbers;
mod block_solver;
pub mod closing;
pub mod derivation;
mod needed;
pub mod refuter;
pub mod settled;
pub mod split_laws;
pub mod stating;

pub use closing::{Explanations, Split, close, last_if_full};
pub use derivation::Derivation;
pub use refuter::{Refuted, Refuter};
pub use settled::Settled;
pub use split_laws::{settled_walk_explains, splits_end_well};
