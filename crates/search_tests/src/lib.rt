//! Tests of the search: zones, kept conflicts, and the search with a trial that refuses one choice. The candidates, their
//! order and what becomes of them are worked out by hand.
#![tactic(auto)]

mod avoids;
#[cfg(test)]
mod conflicts;
#[cfg(test)]
mod searches;
#[cfg(test)]
mod zones;
