//! Truth maintenance: clauses and assumptions come and go, and each literal's label is what unit propagation derives
//! from those that are there now. A true literal has a reason, a contradiction has a core.
//!
//! Each clause that has two literals or more watches two of them, and is looked at only where one of the two became
//! false; it watches another one then, or derives the other one, or is false. Which literals it watches stays as it is
//! where labels go, so that taking labels back touches no clause but those that derived them and those that watch them.
//! Labels are kept from call to call, each with the support that it has.
//!
//! All room is taken when the system is made and when a clause is added, so every other call succeeds.
//!
//! | part | items |
//! |---|---|
//! | the system | `Ltms`, `Status`, `Label` |
//! | why a literal is true | `Reason`, `Link` |
//!
//! Inside, `labels` keeps labels and their reasons, `arena` the clauses, and `watchers`, once for each side, the literal
//! that each clause watches and the clauses that watch a literal: together a `network`. `propagation` finds what follows,
//! and `revision` what no longer does.
#![tactic(auto)]

mod arena;
mod labels;
mod ltms;
mod network;
mod propagation;
mod revision;
mod watchers;

pub use labels::{Link, Reason};
pub use ltms::{Label, Ltms, Status};
