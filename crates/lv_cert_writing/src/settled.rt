//! A settled answer, of which a certificate is written.
#![tactic(auto)]

use lv_base::{Conflict, Rank};

/// What a settled search came to: what it lists, and the conflicts that it kept.
pub struct Settled<'a> {
    pub listed: &'a [Rank],
    pub kept: &'a [Conflict],
}
