//! What propagation finds.
#![tactic(auto)]

use lv_base::Seq;
use lv_reply::Label;

/// A contradiction, or the values of variables, those before the step first, each in the order of variables and of their
/// values.
#[derive(Debug, Drop)]
pub enum Labelling {
    Contradiction,
    Labels(Seq<Label>),
}
