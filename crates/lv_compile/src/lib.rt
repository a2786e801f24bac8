//! The clauses of a model: over booleans that say which value each variable has before and after a step and which move
//! each part makes, a list of clauses.
//!
//! The list is a definition that computes, `specs/ModelClauses.antt`; every clause has its place in it, so that a
//! refutation can name it by number.
#![tactic(auto)]

pub mod clause_lists;
pub mod cleaning;
pub mod copies;
pub mod examples;
pub mod formula;
pub mod laws;
pub mod moves;
pub mod one_of;
pub mod plant_clauses;
pub mod value_bools;
pub mod windows;
