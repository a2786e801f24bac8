//! States of the plant, and the tracked ones among them.
#![tactic(auto)]

use lv_base::{Cost, Seq, ValId};

/// A state: a mode for each part, in written order of parts.
#[derive(Debug, Drop)]
pub struct State {
    pub modes: Seq<ValId>,
}

/// A state that the plant may be in, and what it cost to come to it.
#[derive(Debug, Drop)]
pub struct TrackedState {
    pub state: State,
    pub cost: Cost,
}
