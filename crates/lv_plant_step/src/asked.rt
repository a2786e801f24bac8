//! What is asked of a step of a plant, and what comes of it.
#![tactic(auto)]

use lv_base::{MoveId, Seq, ValId};
use lv_meaning::Facts;

/// The modes that the parts are in, what is commanded and observed, and for each part the move that it is to make, if one
/// is named: a fault. A part of which none is named doesn't fail. What is observed after the step plays no part.
#[derive(Debug, Drop)]
pub struct Asked {
    pub modes: Seq<ValId>,
    pub facts: Facts,
    pub faults: Seq<Option<MoveId>>,
}

/// A value for each variable before a step and after it.
#[derive(Debug, Drop)]
pub struct PlantStep {
    pub before: Seq<ValId>,
    pub after: Seq<ValId>,
}
