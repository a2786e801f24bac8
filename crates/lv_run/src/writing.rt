//! A whole text written and flushed.
#![tactic(auto)]

ghost use Rattle.std.specs.Prelude.{◌≡◌, OnOk, true};
ghost use Rattle.std.specs.Io.KnownBytes.{append_known};
ghost use Rattle.lv_io.specs.Outside.{HasCause};
ghost use Rattle.lv_io.specs.Whole.{AddsFront};

use lv_io::{IoFault, Sink, flush_after, write_all};

/// Writes a text and flushes what was written.
pub fn write_text<O: Sink>(text: &[u8], out: &mut O) -> Result<(), IoFault>
    ensures text { OnOk result (O.text out.new ≡ append_known (O.text out.old) text.now) }
    ensures front { AddsFront text.now (O.text out.old) (O.text out.new) }
    ensures flushed { OnOk result (O.is_flushed out.new ≡ true) }
    ensures cause { HasCause (O.faults out.old) (O.faults out.new) result }
{
    let written = write_all(out, text);
    flush_after(out, written)
}
