//! The commands of the program, each over the names of its files.
#![tactic(auto)]

ghost use Rattle.std.specs.Prelude.{◌≡◌, ◌≢◌, Some, List, Option, ℕ, true, IsTrue};
ghost use Rattle.lv_io.specs.Outside.{Opened};
ghost use Rattle.lv_run_words.specs.Words.{runs, checks, prints, generates, drives};
ghost use Rattle.lv_run.specs.Causes.{SinkEnds, ShelfEnds};
ghost use Rattle.lv_run.specs.Faults.{ended_status};
ghost use Rattle.lv_run.specs.Inputs.{opens_of};
ghost use Rattle.lv_run.specs.Expected.{Expected, Expects, Meets, Follows, TellsVerdict, is_silent};
ghost use Rattle.lv_run.specs.Opens.{HasOpened};

use crate::certificate::judge_certificate;
use crate::fault::RunFault;
use crate::inputs::{load_canonical, load_model, load_summary, made_text};
use crate::session::serve_session;
use crate::status::{Ended, Status};
use crate::writing::write_text;
use lv_io::{Shelf, Sink};
use lv_run_words::{Kind, Service};
use std::alloc::Global;

/// Reads a model, then serves a session, sessions in lanes, or a plant's script over it.
pub fn run<F: Shelf, O: Sink>(
    alloc: Global,
    service: Service,
    model: &str,
    session: &str,
    shelf: &mut F,
    out: &mut O,
) -> Result<Ended, RunFault>
    // What is expected.
    ensures meets { (e : Expected) → Expects (F.file shelf.old) (Some (runs service model.now session.now)) e → Meets e (O.text out.old) (O.text out.new) (ended_status result) }
    ensures follows { Follows (F.file shelf.old) (Some (runs service model.now session.now)) (ended_status result) }
    ensures verdict { TellsVerdict (F.file shelf.old) (Some (runs service model.now session.now)) result }
    ensures silent { IsTrue (is_silent (Some (runs service model.now session.now)) (ended_status result)) → O.text out.new ≡ O.text out.old }

    // What is recorded.
    ensures opens { HasOpened (opens_of (Some (runs service model.now session.now))) (F.opens shelf.old) (F.opens shelf.new) (ended_status result) }

    // Whose fault it was, and what was flushed.
    ensures shelf { ShelfEnds (ended_status result) (F.faults shelf.old) (F.faults shelf.new) }
    ensures sink { SinkEnds (ended_status result) (O.is_flushed out.old) (O.is_flushed out.new) (O.faults out.old) (O.faults out.new) }
{
    let model = load_model(alloc, shelf, model)?;
    serve_session(alloc, service, &model, session, shelf, out)
}

/// Reads a model, then judges a certificate over it, and writes the verdict.
pub fn check<F: Shelf, O: Sink>(
    alloc: Global,
    model: &str,
    cert: &str,
    shelf: &mut F,
    out: &mut O,
) -> Result<Ended, RunFault>
    // What is expected.
    ensures meets { (e : Expected) → Expects (F.file shelf.old) (Some (checks model.now cert.now)) e → Meets e (O.text out.old) (O.text out.new) (ended_status result) }
    ensures follows { Follows (F.file shelf.old) (Some (checks model.now cert.now)) (ended_status result) }
    ensures verdict { TellsVerdict (F.file shelf.old) (Some (checks model.now cert.now)) result }
    ensures silent { IsTrue (is_silent (Some (checks model.now cert.now)) (ended_status result)) → O.text out.new ≡ O.text out.old }

    // What is recorded.
    ensures opens { HasOpened (opens_of (Some (checks model.now cert.now))) (F.opens shelf.old) (F.opens shelf.new) (ended_status result) }

    // Whose fault it was, and what was flushed.
    ensures shelf { ShelfEnds (ended_status result) (F.faults shelf.old) (F.faults shelf.new) }
    ensures sink { SinkEnds (ended_status result) (O.is_flushed out.old) (O.is_flushed out.new) (O.faults out.old) (O.faults out.new) }
{
    let plant = load_model(alloc, shelf, model)?;
    judge_certificate(alloc, &plant, cert, shelf, out)
}

/// Reads a model and writes its canonical text.
pub fn print<F: Shelf, O: Sink>(
    alloc: Global,
    model: &str,
    shelf: &mut F,
    out: &mut O,
) -> Result<Ended, RunFault>
    // What is expected.
    ensures meets { (e : Expected) → Expects (F.file shelf.old) (Some (prints model.now)) e → Meets e (O.text out.old) (O.text out.new) (ended_status result) }
    ensures follows { Follows (F.file shelf.old) (Some (prints model.now)) (ended_status result) }
    ensures verdict { TellsVerdict (F.file shelf.old) (Some (prints model.now)) result }
    ensures silent { IsTrue (is_silent (Some (prints model.now)) (ended_status result)) → O.text out.new ≡ O.text out.old }

    // What is recorded.
    ensures opens { HasOpened (opens_of (Some (prints model.now))) (F.opens shelf.old) (F.opens shelf.new) (ended_status result) }

    // Whose fault it was, and what was flushed.
    ensures shelf { ShelfEnds (ended_status result) (F.faults shelf.old) (F.faults shelf.new) }
    ensures sink { SinkEnds (ended_status result) (O.is_flushed out.old) (O.is_flushed out.new) (O.faults out.old) (O.faults out.new) }
{
    let canonical = load_canonical(alloc, shelf, model)?;
    write_text(canonical.as_slice(), out)?;
    Ok(Ended::Done)
}

/// Writes a text that a number stands for.
pub fn generate<O: Sink>(
    alloc: Global,
    kind: Kind,
    number: u32,
    out: &mut O,
) -> Result<Ended, RunFault>
    // What is expected, whatever the files.
    ensures meets { (file : List ℕ → Option (List ℕ)) (e : Expected) → Expects file (Some (generates kind number)) e → Meets e (O.text out.old) (O.text out.new) (ended_status result) }
    ensures follows { (file : List ℕ → Option (List ℕ)) → Follows file (Some (generates kind number)) (ended_status result) }
    ensures verdict { (file : List ℕ → Option (List ℕ)) → TellsVerdict file (Some (generates kind number)) result }
    ensures silent { IsTrue (is_silent (Some (generates kind number)) (ended_status result)) → O.text out.new ≡ O.text out.old }

    // Nothing is opened or read.
    ensures opens { (opens : List Opened) → HasOpened (opens_of (Some (generates kind number))) opens opens (ended_status result) }
    ensures model_read { ended_status result ≢ Status.ModelUnread }
    ensures session_read { ended_status result ≢ Status.SecondUnread }

    // Whose fault it was, and what was flushed.
    ensures sink { SinkEnds (ended_status result) (O.is_flushed out.old) (O.is_flushed out.new) (O.faults out.old) (O.faults out.new) }
{
    let text = made_text(alloc, kind, number)?;
    write_text(text.as_slice(), out)?;
    Ok(Ended::Done)
}

/// Runs the session of a number over the model of the number, and writes a summary.
pub fn drive<O: Sink>(alloc: Global, number: u32, out: &mut O) -> Result<Ended, RunFault>
    // What is expected, whatever the files.
    ensures meets { (file : List ℕ → Option (List ℕ)) (e : Expected) → Expects file (Some (drives number)) e → Meets e (O.text out.old) (O.text out.new) (ended_status result) }
    ensures follows { (file : List ℕ → Option (List ℕ)) → Follows file (Some (drives number)) (ended_status result) }
    ensures verdict { (file : List ℕ → Option (List ℕ)) → TellsVerdict file (Some (drives number)) result }
    ensures silent { IsTrue (is_silent (Some (drives number)) (ended_status result)) → O.text out.new ≡ O.text out.old }

    // Nothing is opened or read.
    ensures opens { (opens : List Opened) → HasOpened (opens_of (Some (drives number))) opens opens (ended_status result) }
    ensures model_read { ended_status result ≢ Status.ModelUnread }
    ensures session_read { ended_status result ≢ Status.SecondUnread }

    // Whose fault it was, and what was flushed.
    ensures sink { SinkEnds (ended_status result) (O.is_flushed out.old) (O.is_flushed out.new) (O.faults out.old) (O.faults out.new) }
{
    let text = load_summary(alloc, number)?;
    write_text(text.as_slice(), out)?;
    Ok(Ended::Done)
}
