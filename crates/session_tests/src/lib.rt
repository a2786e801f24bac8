//! Tests of sessions: observations that are held, lines and their replies, a session served piece by piece.
#![tactic(auto)]

#[cfg(test)]
mod observations;
#[cfg(test)]
mod pieces;
#[cfg(test)]
mod replies;
