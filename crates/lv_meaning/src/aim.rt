//! The question of a recovery: to which goals the plant is to be brought, from where, and what is seen of it now.
#![tactic(auto)]

use crate::Observation;
use lv_base::{Condition, Seq};
use lv_model::TrackedState;

/// The states that the plant may be in, what is observed before the step, and the formulas that are to be true after it.
/// What the tracked states cost plays no part.
#[derive(Debug, Drop)]
pub struct Aim {
    pub tracked: Seq<TrackedState>,
    pub present: Seq<Observation>,
    pub goals: Seq<Condition>,
}
