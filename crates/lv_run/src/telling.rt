//! A fault told on standard error, in one line.
//!
//! The line may find no memory, or be cut off where a write finds none: then want of memory is told behind it, in a
//! line that is there from the start.
#![tactic(auto)]

ghost use Rattle.std.specs.Prelude.{◌≡◌, ◌≢◌, ◌⊎◌, Ok, Err, OnOk, true};
ghost use Rattle.std.specs.Io.KnownBytes.{append_known};
ghost use Rattle.lv_io.specs.Outside.{HasCause, Rose};
ghost use Rattle.lv_io.specs.Whole.{AddsFront};
ghost use Rattle.lv_run.specs.Faults.{line_of};
ghost use Rattle.lv_run.specs.Telling.{TellsFault};

use crate::fault::{OUT_OF_MEMORY, RunFault};
use crate::status::Status;
use lv_io::{IoFault, Sink, flush_after, write_all};
use std::alloc::Global;

/// Writes the line of a fault and flushes it.
fn tell<E: Sink>(alloc: Global, fault: RunFault, err: &mut E) -> Result<(), IoFault>
    ensures text { OnOk result (E.text err.new ≡ append_known (E.text err.old) (line_of fault)) }
    ensures front { AddsFront (line_of fault) (E.text err.old) (E.text err.new) }
    ensures flushed { OnOk result (E.is_flushed err.new ≡ true) }
    ensures cause { HasCause (E.faults err.old) (E.faults err.new) result }
{
    let line = fault.line(alloc)?;
    let written = write_all(err, line.as_slice());
    flush_after(err, written)
}

/// Writes the line of want of memory, as far as the writes find memory. Takes none itself.
#[tactic(auto, unfolding(crate::specs::Faults::line_of))]
fn tell_memory<E: Sink>(err: &mut E) -> Status
    ensures status { (result ≡ Status.OutOfMemory) ⊎ (result ≡ Status.OutputFailed) }
    ensures front { AddsFront (line_of RunFault.OutOfMemory) (E.text err.old) (E.text err.new) }
    ensures failed { result ≡ Status.OutputFailed → Rose (E.faults err.old) (E.faults err.new) }
    ensures as_before { result ≢ Status.OutputFailed → E.faults err.new ≡ E.faults err.old }
{
    let written = write_all(err, OUT_OF_MEMORY.as_bytes());
    match flush_after(err, written) {
        Ok(()) => Status::OutOfMemory,
        Err(IoFault::Memory) => Status::OutOfMemory,
        Err(IoFault::Failed) => Status::OutputFailed,
    }
}

/// Tells a fault on standard error and answers the status that the call ends with: the fault's, or that of what went
/// wrong in telling it. A failure of the output is not told.
pub fn report<E: Sink>(alloc: Global, fault: RunFault, err: &mut E) -> Status
    // What was written, and with which status.
    ensures told { TellsFault fault (E.text err.old) (E.text err.new) result }
    ensures output { fault ≡ RunFault.OutputFailed → result ≡ Status.OutputFailed }
    ensures untold { fault ≡ RunFault.OutputFailed → E.text err.new ≡ E.text err.old }
    ensures flushed { result ≢ Status.OutputFailed → result ≢ Status.OutOfMemory → E.is_flushed err.new ≡ true }

    // Whose fault it was.
    ensures failed { result ≡ Status.OutputFailed → fault ≢ RunFault.OutputFailed → Rose (E.faults err.old) (E.faults err.new) }
    ensures as_before { result ≢ Status.OutputFailed → E.faults err.new ≡ E.faults err.old }
{
    match fault {
        RunFault::OutputFailed => Status::OutputFailed,
        RunFault::OutOfMemory => tell_memory(err),
        _ => match tell(alloc, fault, err) {
            Ok(()) => fault.status(),
            Err(IoFault::Failed) => Status::OutputFailed,
            Err(IoFault::Memory) => tell_memory(err),
        },
    }
}
