//! Paths: how a text names a variable or a value.
#![tactic(auto)]

ghost use Rattle.std.specs.Prelude.{◌≡◌, IfOk};

use smallvec::SmallVec;
use std::alloc::{AllocError, Global};
use std::marker::Model;

/// A word as it is written, seen by contracts as its bytes. A short one, as most are, takes no memory.
#[derive(Debug, Drop)]
pub struct Word {
    bytes: SmallVec<u8, 16>,
}

impl Model for Word {
    ghost use Rattle.std.specs.Prelude.{ℕ, List};

    ghost Value = { List ℕ };

    ghost view = { λ w. w.bytes.items };
}

impl Word {
    /// The word of copies of these bytes.
    pub fn from_slice(alloc: Global, bytes: &[u8]) -> Result<Word, AllocError>
        ensures { IfOk result (λ w. w ≡ bytes.now) }
    {
        Ok(Word {
            bytes: SmallVec::from_slice(alloc, bytes)?,
        })
    }

    /// Its bytes.
    pub fn as_slice(&self) -> &[u8]
        ensures { result.now ≡ self.now }
    {
        self.bytes.as_slice()
    }
}

/// A word alone, which may be a variable of the part's own or a value, or a part and, behind a dot, one of its
/// variables. What the names stand for is not asked.
#[derive(Debug, Drop)]
pub enum Path {
    Own(Word),
    OfPart(Word, Word),
}
