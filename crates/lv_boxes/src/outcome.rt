//! How a search ends.
#![tactic(auto)]

/// A search is settled where as many candidates are listed as are wanted, or none is left; it is unsettled where its
/// budget of trials was used up before.
#[derive(Clone, Copy, Debug, PartialEq, Eq)]
pub enum Outcome {
    Settled,
    Unsettled,
}
