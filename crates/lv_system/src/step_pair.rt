//! A step: what was before it, what is after it, and by which moves.
#![tactic(auto)]

use lv_base::{MoveId, Seq, ValId};

/// A value of each variable before the step and after it, and a move of each part.
#[derive(Debug, Drop)]
pub struct StepPair {
    pub now: Seq<ValId>,
    pub next: Seq<ValId>,
    pub moves: Seq<MoveId>,
}
