//! How far the search for a step has come.
#![tactic(auto)]

use crate::assumed::Assumed;
use lv_base::{Seq, ValId};

/// What is assumed of a step, and the values of one that is so: those before it, and behind them those after it.
#[derive(Drop)]
pub struct Lead {
    pub assumed: Assumed,
    pub values: Seq<ValId>,
}
