//! The checker of certificates: it goes over the lines of one and finds the first that is bad. It stands on the definitions of
//! the answer, on the model's clauses and on the zones of candidates, and on nothing that searches or solves.
//!
//! | file | what it holds |
//! |---|---|
//! | `check` | the verdict on a certificate, and on the text of one |
//! | `judge` | what each kind of line asks for |
//! | `setting` | the model with its clauses, counts and lists |
//! | `stated` | what the certificate states so far |
//! | `judged` | all that the lines came to so far |
//! | `blocks` | the clauses of a block behind the model's |
//! | `shown` | whether values before and after show what is to be shown |
#![tactic(auto)]

mod blocks;
pub mod check;
mod judge;
pub mod judged;
pub mod laws;
pub mod setting;
mod shown;
pub mod stated;

pub use check::{Verdict, check_cert, check_text};
