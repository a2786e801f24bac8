//! What is left to try as zones of which the first member without conflict is looked for: a frontier of a search, which
//! splits no zone by a conflict once that makes too many.
//!
//! | file | what it holds |
//! |---|---|
//! | `guide` | the frontier |
//! | `near` | a zone's first member, where it is known of a zone that has all its choices, by some of the conflicts |
//! | `beside` | the first by some of the conflicts, where it is known of a zone that has all its choices |
//! | `narrowed` | a zone with what conflicts leave of its box |
//! | `known` | the known conflicts |
//! | `joined` | the slots that conflicts join, and bans by the slots that they end at |
//! | `remembered` | what was found of parts before |
#![tactic(auto)]

mod beside;
pub mod guide;
mod joined;
mod known;
mod narrowed;
mod near;
mod remembered;

pub use guide::Guide;
