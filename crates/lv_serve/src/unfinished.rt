//! A line that hasn't ended yet.
//!
//! Of a line longer than its limit it makes no difference what stands behind: it is refused for its length. So no more
//! is kept of a line than shows that it is too long, and one byte of that may be a carriage return that belongs to the
//! line's end; whether more came behind it is kept beside it.
#![tactic(auto)]

ghost use Rattle.std.specs.Prelude.{◌≡◌, [], ◌++◌, ◌+◌, ℕ, List, OnOk, OnErr, length, false, nat_eq};
ghost use Rattle.lv_serve.specs.declared.unfinished.TheConstants.{KEPT};
ghost use Rattle.lv_serve.specs.Unfinished.{kept_of, shown};

use lv_base::limits::LINE_BYTES;
use lv_text::lines::last_line;
use std::alloc::{AllocError, Global};
use std::marker;

/// The most bytes that are kept of a line.
pub const KEPT: usize = LINE_BYTES + 1;

/// The front of a line that hasn't ended, and whether it goes on behind that.
#[derive(Drop)]
pub struct Unfinished {
    bytes: Vec<u8>,
    is_longer: bool,
}

impl marker::Model for Unfinished {
    ghost use Rattle.std.specs.Prelude.{length, ◌≤◌};
    ghost use Rattle.lv_serve.specs.Kept.{Kept, most_kept};

    ghost Value = { Kept };

    ghost view = { λ s. record { bytes = s.bytes.items; is_longer = s.is_longer } };

    ghost invariant = { λ s. length s.bytes.items ≤ most_kept };
}

impl Unfinished {
    /// A line of which nothing has come. Takes no memory.
    pub fn new(alloc: Global) -> Unfinished
        ensures { result ≡ kept_of [] }
    {
        Unfinished {
            bytes: Vec::new(alloc),
            is_longer: false,
        }
    }

    /// Nothing has come.
    pub fn is_empty(&self) -> bool
        ensures { result ≡ nat_eq (length self.now.bytes) 0 }
    {
        self.bytes.is_empty()
    }

    /// The line, if it ends here: without the carriage return that belongs to its end.
    pub fn line(&self) -> &[u8]
        ensures { result.now ≡ shown self.now }
    {
        if self.is_longer {
            self.bytes.as_slice()
        } else {
            &self.bytes[..last_line(self.bytes.as_slice())]
        }
    }

    /// More of the line has come.
    pub fn push(&mut self, more: &[u8]) -> Result<(), AllocError>
        ensures ok { (line : List ℕ) → self.old ≡ kept_of line → OnOk result (self.new ≡ kept_of (line ++ more.now)) }
        ensures err { OnErr result (self.new ≡ self.old) }
    {
        let room = KEPT - self.bytes.len();
        let fits = more.len().min(room);
        self.bytes.extend_from_slice(&more[..fits])?;
        self.is_longer = self.is_longer || room < more.len();
        Ok(())
    }

    /// The next line begins.
    pub fn clear(&mut self)
        ensures { self.new ≡ kept_of [] }
    {
        self.bytes.clear();
        self.is_longer = false;
    }
}
