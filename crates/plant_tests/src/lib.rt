//! Tests of the plant: texts with the model that they give, or the first fault; names noted and found.
//!
//! The verdicts are those of an independent reference program.
#![tactic(auto)]

#[cfg(test)]
mod first_places;
#[cfg(test)]
mod models;
#[cfg(test)]
mod refusals;
#[cfg(test)]
mod versions;
