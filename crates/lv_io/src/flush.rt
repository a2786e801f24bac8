//! Handing on what was written to a sink, however the writing ended.
#![tactic(auto)]

ghost use Rattle.std.specs.Prelude.{◌≡◌, ◌≢◌, Ok, Err, OnOk, IsOk, true};
ghost use Rattle.lv_io.specs.Outside.{HasCause};

use crate::{IoFault, Sink};

/// Flushes a sink after writes that ended so, unless one of them failed. Answers how they ended, or how
/// the flush did.
pub fn flush_after<O: Sink>(sink: &mut O, written: Result<(), IoFault>) -> Result<(), IoFault>
    ensures text { O.text sink.new ≡ O.text sink.old }
    ensures flushed { OnOk result (O.is_flushed sink.new ≡ true) }
    ensures written { OnOk result (IsOk written) }
    ensures failed { written ≡ Err IoFault.Failed → (result ≡ written) × (O.faults sink.new ≡ O.faults sink.old) }
    ensures cause { written ≢ Err IoFault.Failed → HasCause (O.faults sink.old) (O.faults sink.new) result }
{
    match written {
        Ok(()) => sink.flush(),
        Err(IoFault::Memory) => {
            sink.flush()?;
            Err(IoFault::Memory)
        }
        Err(IoFault::Failed) => Err(IoFault::Failed),
    }
}
