//! A sink in memory, which fails at the calls that it is told to.

ghost use Rattle.std.specs.Prelude.{◌≡◌, ◌≢◌, ◌||◌, ◌↔◌, [], true, min, max, length, Some, OnOk, OnErr, IfOk, IsErrOf};
ghost use Rattle.lv_io.specs.Outside.{HasCause, Rose, Writes, flushed_after};
ghost use Rattle.lv_io.specs.Counts.{one_more};
ghost use Rattle.lv_io.specs.Plan.{after_call, next_fails};
ghost use Rattle.lv_io.specs.MemSink.{mem_text};

use crate::plan::FaultPlan;
use crate::{IoFault, Sink};
use std::alloc::Global;

/// A text in memory. The calls whose numbers were given fail, counted from 1 over `write` and `flush`.
#[derive(Drop)]
pub struct MemSink {
    text: Vec<u8>,
    is_flushed: bool,
    piece: usize,
    plan: FaultPlan,
    faults: u64,
}

impl MemSink {
    /// An empty text. A write takes at most `piece` bytes, but at least one where there is one, so a
    /// `piece` of 0 acts as 1. Takes no memory.
    pub fn new(alloc: Global, piece: usize, fails: Vec<u64>) -> MemSink
        ensures text { mem_text result ≡ Some [] }
        ensures flushed { result.is_flushed ≡ true }
        ensures faults { result.faults ≡ 0 }
        ensures plan { result.plan ≡ record { calls = 0; fails = fails.items } }
        ensures piece { result.piece ≡ piece }
    {
        MemSink {
            text: Vec::new(alloc),
            is_flushed: true,
            piece,
            plan: FaultPlan::new(fails),
            faults: 0,
        }
    }

    /// The text written so far.
    pub fn text(&self) -> &[u8]
        ensures { Some result.now ≡ mem_text self.now }
    {
        self.text.as_slice()
    }

    /// All that was written was flushed.
    pub fn is_flushed(&self) -> bool
        ensures { result ≡ self.now.is_flushed }
    {
        self.is_flushed
    }

    /// The faults so far.
    pub fn faults(&self) -> u64
        ensures { result ≡ self.now.faults }
    {
        self.faults
    }

    /// Counts one more fault.
    fn count_fault(&mut self)
        ensures rose { Rose self.old.faults self.new.faults }
        ensures new { self.new ≡ record self.old { faults = one_more self.old.faults } }
    {
        self.faults = self.faults.saturating_add(1);
    }
}

impl Sink for MemSink {
    ghost text = { mem_text };

    ghost is_flushed = { λ sink. sink.is_flushed };

    ghost faults = { λ sink. sink.faults };

    /// A call whose number was given fails, and every other takes a piece, unless memory is wanting.
    fn write(&mut self, bytes: &[u8]) -> Result<usize, IoFault>
        ensures text { IfOk result (Writes bytes.now (mem_text self.old) (mem_text self.new)) }
        ensures err { OnErr result (mem_text self.new ≡ mem_text self.old) }
        ensures flushed { self.new.is_flushed ≡ flushed_after bytes.now self.old.is_flushed }
        ensures cause { HasCause self.old.faults self.new.faults result }

        // Which calls fail, and how much the others take.
        ensures failed { IsErrOf result IoFault.Failed ↔ (next_fails self.old.plan ≡ true) }
        ensures raised { IsErrOf result IoFault.Failed → self.new.faults ≡ one_more self.old.faults }
        ensures count { IfOk result (λ n. n ≡ min (length bytes.now) (max self.old.piece 1)) }
        ensures plan { self.new.plan ≡ after_call self.old.plan }
        ensures piece { self.new.piece ≡ self.old.piece }
    {
        self.is_flushed = self.is_flushed && bytes.is_empty();
        if self.plan.count_call() {
            self.count_fault();
            return Err(IoFault::Failed);
        }
        let n = bytes.len().min(self.piece.max(1));
        self.text.extend_from_slice(&bytes[..n])?;
        Ok(n)
    }

    /// A call whose number was given fails, and leaves the sink as little flushed as it was; every
    /// other flushes it.
    fn flush(&mut self) -> Result<(), IoFault>
        ensures text { mem_text self.new ≡ mem_text self.old }
        ensures flushed { OnOk result (self.new.is_flushed ≡ true) }
        ensures cause { HasCause self.old.faults self.new.faults result }

        // Which calls fail.
        ensures failed { IsErrOf result IoFault.Failed ↔ (next_fails self.old.plan ≡ true) }
        ensures memory { result ≢ Err IoFault.Memory }
        ensures unflushed { OnErr result (self.new.is_flushed ≡ self.old.is_flushed) }
        ensures raised { IsErrOf result IoFault.Failed → self.new.faults ≡ one_more self.old.faults }
        ensures plan { self.new.plan ≡ after_call self.old.plan }
        ensures piece { self.new.piece ≡ self.old.piece }
    {
        if self.plan.count_call() {
            self.count_fault();
            return Err(IoFault::Failed);
        }
        self.is_flushed = true;
        Ok(())
    }
}
