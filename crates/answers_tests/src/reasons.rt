//! What a search has refused.

use lv_base::{Conflict, Pair};

fn is_reason(conflict: &Conflict, wanted: Option<Pair>) -> bool {
    match wanted {
        Some(pair) => conflict.pairs() == [pair].as_slice(),
        None => conflict.pairs().is_empty(),
    }
}

/// Whether these are the conflicts, each at most one choice.
pub fn are_reasons(conflicts: &[Conflict], wanted: &[Option<Pair>]) -> bool {
    conflicts.len() == wanted.len()
        && conflicts
            .iter()
            .zip(wanted.iter())
            .all(|(c, w)| is_reason(c, *w))
}
