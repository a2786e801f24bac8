//! A writer of the system as a sink. Of its bytes only what the writer itself tells is claimed.

ghost use Rattle.std.specs.Prelude.{◌≡◌, ◌≢◌, ◌<◌, None, true, length, IfOk, OnOk, OnErr};
ghost use Rattle.std.specs.Io.KnownBytes.{Keeps, WriteAppends};
ghost use Rattle.lv_io.specs.Outside.{HasCause, Rose, Writes, flushed_after};
ghost use Rattle.lv_io.specs.Counts.{one_more};

use crate::{IoFault, Sink};
use std::io::Write;

/// A writer, as standard output or standard error. Every error of the system is a fault that counts,
/// and so is a write that takes no byte of a piece.
#[derive(Drop)]
pub struct HostSink<W> {
    writer: W,
    is_flushed: bool,
    faults: u64,
}

impl<W: Write> HostSink<W> {
    /// A sink that nothing was written to yet.
    pub fn new(writer: W) -> HostSink<W>
        ensures writer { result.writer ≡ writer }
        ensures flushed { result.is_flushed ≡ true }
        ensures faults { result.faults ≡ 0 }
    {
        HostSink {
            writer,
            is_flushed: true,
            faults: 0,
        }
    }

    /// Counts one more fault.
    fn count_fault(&mut self)
        ensures rose { Rose self.old.faults self.new.faults }
        ensures new { self.new ≡ record self.old { faults = one_more self.old.faults } }
    {
        self.faults = self.faults.saturating_add(1);
    }
}

impl<W: Write> Sink for HostSink<W> {
    ghost text = { λ sink. None };

    ghost is_flushed = { λ sink. sink.is_flushed };

    ghost faults = { λ sink. sink.faults };

    /// The bytes that the answer counts, and no others, went to the writer.
    fn write(&mut self, bytes: &[u8]) -> Result<usize, IoFault>
        ensures text { IfOk result (Writes bytes.now None None) }
        ensures flushed { self.new.is_flushed ≡ flushed_after bytes.now self.old.is_flushed }
        ensures cause { HasCause self.old.faults self.new.faults result }

        // What the writer tells of its bytes, and that it takes no memory.
        ensures handed_on { WriteAppends (W.contents self.old.writer) (W.contents self.new.writer) result bytes.now }
        ensures memory { result ≢ Err IoFault.Memory }
    {
        if bytes.is_empty() {
            return Ok(0);
        }
        self.is_flushed = false;
        let written = write_some(&mut self.writer, bytes);
        if written.is_err() {
            self.count_fault();
        }
        written
    }

    /// Adds no byte.
    fn flush(&mut self) -> Result<(), IoFault>
        ensures flushed { OnOk result (self.new.is_flushed ≡ true) }
        ensures cause { HasCause self.old.faults self.new.faults result }

        // What the writer tells of its bytes, and that it takes no memory.
        ensures kept { Keeps (W.contents self.old.writer) (W.contents self.new.writer) }
        ensures unflushed { OnErr result (self.new.is_flushed ≡ self.old.is_flushed) }
        ensures memory { result ≢ Err IoFault.Memory }
    {
        match self.writer.flush() {
            Ok(()) => {
                self.is_flushed = true;
                Ok(())
            }
            Err(_) => {
                self.count_fault();
                Err(IoFault::Failed)
            }
        }
    }
}

/// Hands the front of some bytes to a writer, at least one, and answers how many it took. A writer
/// that takes none has failed.
fn write_some<W: Write>(writer: &mut W, bytes: &[u8]) -> Result<usize, IoFault>
    requires { 0 < length bytes.now }
    ensures count { IfOk result (Writes bytes.now None None) }
    ensures handed_on { WriteAppends (W.contents writer.old) (W.contents writer.new) result bytes.now }
    ensures memory { result ≢ Err IoFault.Memory }
{
    match writer.write(bytes) {
        Ok(n) if n > 0 => Ok(n),
        _ => Err(IoFault::Failed),
    }
}
