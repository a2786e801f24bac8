//! What is found of a command set that is tried.
#![tactic(auto)]

/// Whether a command set recovers, or tests a variable, and else what its reason is.
#[derive(Clone, Copy, Debug)]
pub enum Judged {
    /// From every tracked state it is sure. In a test, no value of the variable is shared by two of them.
    Recovers,
    /// From the first tracked state from which it isn't sure it reaches the goals, but can miss one. In a test, there is a
    /// step from every tracked state, but a value is shared.
    Misses,
    /// From the first tracked state from which it isn't sure, the one of this place, it doesn't reach the goals. In a test,
    /// there is no step from there.
    Stops(usize),
}
