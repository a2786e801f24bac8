//! What a statement of a model's text adds to the statements before it.
//!
//! Its place is judged first, then its names, from left to right, are given what they stand for.
//!
//! | part | items |
//! |---|---|
//! | statements so far, and what one more adds | `Draft`, `TypeDraft`, `Entry` |
//! | what a statement adds, or why its place or names are wrong | `entry_of` |
//! | what names stand for | `places`, `scope` |
#![tactic(auto)]

mod copies;
pub mod draft;
mod entries;
mod places;
mod scope;

pub use draft::{CheckFault, Draft, Entry, TypeDraft};
pub use entries::entry_of;
