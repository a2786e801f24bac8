//! Tests of the ground: lists and ranks; files and sinks in memory and of the system.
//!
//! They call each public function once with ample memory, which no clause promises; what they want follows from the
//! definitions by hand.
#![tactic(auto)]

#[cfg(test)]
mod host_files;
#[cfg(test)]
mod memory_files;
#[cfg(test)]
mod ranks;
