//! What a diagnosis seeks.
#![tactic(auto)]

/// How many candidates are sought, and whether no two of them may lead to one state.
#[derive(Clone, Copy, Debug, PartialEq, Eq)]
pub struct Limit {
    pub most: u32,
    pub distinct: bool,
}
