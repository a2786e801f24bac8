//! The two times that a step joins.
#![tactic(auto)]

/// Before the step, or after it.
#[derive(Clone, Copy, Debug, PartialEq, Eq)]
pub enum Moment {
    Now,
    Next,
}
