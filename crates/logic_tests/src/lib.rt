//! Tests of the system of a model.
#![tactic(auto)]

#[cfg(test)]
mod valve;
