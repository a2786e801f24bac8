//! Tests of clauses, of logs of derivations and their checker, of truth maintenance, and of the solver.
//!
//! They call each public function once with ample memory, which no clause promises; what they want follows from the
//! definitions by hand.
#![tactic(auto)]

#[cfg(test)]
mod arenas;
#[cfg(test)]
mod checking;
#[cfg(test)]
mod literals;
#[cfg(test)]
mod logs;
#[cfg(test)]
mod maintenance;
#[cfg(test)]
mod solving;
