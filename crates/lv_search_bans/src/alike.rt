//! Bans by their slots: where those stand that may have the same slots as another. It is a help and no more: a ban takes
//! another in only where they are found alike.
#![tactic(auto)]

use super::bans::Choices;
use std::alloc::{AllocError, Global};

/// The places of bans in rows, those of the same slots in one row: of each row the last place, and of each place the one before
/// it in its row.
#[derive(Drop)]
pub(crate) struct Alike {
    last: Vec<Option<usize>>,
    before: Vec<Option<usize>>,
}

impl Alike {
    /// No bans, with rows for so many.
    pub(crate) fn new(alloc: Global, most: usize) -> Result<Alike, AllocError> {
        Ok(Alike {
            last: vec![in alloc; None; most]?,
            before: Vec::with_capacity(alloc, most)?,
        })
    }

    /// The row of bans with these slots.
    pub(crate) fn row_of(&self, sets: &[Choices]) -> usize {
        let mut sum: u64 = 0;
        for set in sets {
            sum = (sum.rotate_left(7) ^ u64::from(set.slot)).wrapping_mul(11400714819323198485);
        }
        match self.last.len() {
            0 => 0,
            rows => ((sum >> 32) as usize) % rows,
        }
    }

    /// The last place in a row.
    pub(crate) fn last_in(&self, row: usize) -> Option<usize> {
        match self.last.get(row) {
            Some(place) => *place,
            None => None,
        }
    }

    /// The place before this one in its row.
    pub(crate) fn before(&self, place: usize) -> Option<usize> {
        match self.before.get(place) {
            Some(place) => *place,
            None => None,
        }
    }

    /// Notes one ban more, at the next place, in this row.
    pub(crate) fn note(&mut self, row: usize) -> Result<(), AllocError> {
        let place = self.before.len();
        let last = self.last_in(row);
        self.before.push(last)?;
        if row < self.last.len() {
            self.last[row] = Some(place);
        }
        Ok(())
    }
}
