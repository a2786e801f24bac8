//! The rounds of calls, over systems that are made once before.
#![tactic(auto)]

use super::held::{Held, Sizes};
use super::setting;
use super::tally::{Tally, label_of};
use crate::literals::literal;
use lv_ltms::Label;
use std::alloc::{AllocError, Global};

/// The first literal of a chain assumed and retracted in each round. All labels of the chain count as changed where the
/// last one is.
pub fn chain(alloc: Global, length: u32, rounds: u32) -> Result<Tally, AllocError> {
    let mut ltms = setting::chain(alloc, length)?;
    let first = literal(0, true);
    let last = literal(length.saturating_sub(1), true);
    let mut tally = Tally::new();
    for _round in 0..rounds {
        tally.assume(&mut ltms, first);
        if label_of(&ltms, last) == Some(Label::True) {
            tally.change(length as u64);
        }
        tally.retract(&mut ltms, first);
        if label_of(&ltms, last) == Some(Label::Unknown) {
            tally.change(length as u64);
        }
    }
    Ok(tally)
}

/// Random literals assumed and, once so many are held, the oldest retracted: the same calls in each round. Changed
/// labels aren't counted.
pub fn random(alloc: Global, sizes: Sizes, rounds: u32) -> Result<Tally, AllocError> {
    let mut held = Held::new(alloc, sizes)?;
    let mut tally = Tally::new();
    for _round in 0..rounds {
        held.round(sizes.calls, &mut tally)?;
    }
    Ok(tally)
}

/// One round of the same calls, with a look at every label after each.
pub fn count(alloc: Global, sizes: Sizes) -> Result<Tally, AllocError> {
    let mut held = Held::new(alloc, sizes)?;
    held.note_labels(alloc)?;
    let mut tally = Tally::new();
    held.round(sizes.calls, &mut tally)?;
    Ok(tally)
}
