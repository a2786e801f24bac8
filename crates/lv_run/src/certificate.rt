//! The certificate's file, opened, read and judged, and the verdict on it told. Nothing is written before all is read.

ghost use Rattle.std.specs.Prelude.{◌≡◌, ◌≢◌, ◌≤◌, ◌++◌, ◌∷◌, [], List, ℕ, true, length, IfOk, IfErr, IfSome};
ghost use Rattle.lv_io.specs.Outside.{Rose};
ghost use Rattle.lv_io.specs.Whole.{IsLonger};
ghost use Rattle.lv_io.specs.declared.Role.{Role};
ghost use Rattle.lv_io.specs.declared.Role.TheVariants.{Second as OfSecond};
ghost use Rattle.lv_base.specs.declared.limits.TheConstants.{CERTIFICATE_BYTES as MOST};
ghost use Rattle.lv_run.specs.Judged.{verdict_line, verdict_end, JudgesTold};
ghost use Rattle.lv_run.specs.Inputs.{second_open, AddsOpens};
ghost use Rattle.lv_run.specs.Causes.{SinkEnds};
ghost use Rattle.lv_run.specs.Faults.{EndsReading, EndsWriting, EndsCheck, ended_status};

use crate::fault::{RunFault, push_number};
use crate::status::{Ended, Status};
use crate::writing::write_text;
use lv_base::limits::CERTIFICATE_BYTES;
use lv_certcheck::{Verdict, check_text};
use lv_io::{ReadFault, Role, Shelf, Sink, read_file};
use lv_model::Model;
use std::alloc::{AllocError, Global};

/// Opens the certificate's file, judges it over a model and writes the verdict.
pub fn judge_certificate<F: Shelf, O: Sink>(
    alloc: Global,
    model: &Model,
    cert: &str,
    shelf: &mut F,
    out: &mut O,
) -> Result<Ended, RunFault>
    // What was written.
    ensures told { (text : List ℕ) → F.file shelf.old cert.now ≡ Some text → JudgesTold model.now text (O.text out.old) (O.text out.new) result }
    ensures ends { IfErr result EndsCheck }
    ensures unread { ended_status result ≡ Status.SecondUnread → O.text out.new ≡ O.text out.old }
    ensures too_long { ended_status result ≡ Status.SecondTooLong → O.text out.new ≡ O.text out.old }

    // What is recorded.
    ensures opens { AddsOpens (F.opens shelf.old) (second_open cert.now ∷ []) (F.opens shelf.new) }
    ensures opened { ended_status result ≢ Status.OutOfMemory → F.opens shelf.new ≡ F.opens shelf.old ++ second_open cert.now ∷ [] }

    // Whose fault it was, and what was flushed.
    ensures failed { ended_status result ≡ Status.SecondUnread → Rose (F.faults shelf.old OfSecond) (F.faults shelf.new OfSecond) }
    ensures as_before { ended_status result ≢ Status.SecondUnread → (r : Role) → F.faults shelf.new r ≡ F.faults shelf.old r }
    ensures sink { SinkEnds (ended_status result) (O.is_flushed out.old) (O.is_flushed out.new) (O.faults out.old) (O.faults out.new) }
{
    let text = load_certificate(alloc, shelf, cert)?;
    tell_verdict(alloc, model, text.as_slice(), out)
}

/// Opens the certificate's file and reads it to its end.
fn load_certificate<F: Shelf>(alloc: Global, shelf: &mut F, name: &str) -> Result<Vec<u8>, RunFault>
    // What was read.
    ensures text { IfOk result (λ bytes. IfSome (F.file shelf.old name.now) (λ text. text ≡ bytes.items)) }
    ensures within { IfOk result (λ bytes. length bytes.items ≤ MOST) }
    ensures too_long { result ≡ Err RunFault.CertificateTooLong → IsLonger MOST (F.file shelf.old name.now) }
    ensures ends { IfErr result EndsReading }

    // What is recorded.
    ensures opens { AddsOpens (F.opens shelf.old) (second_open name.now ∷ []) (F.opens shelf.new) }
    ensures opened { result ≢ Err RunFault.OutOfMemory → F.opens shelf.new ≡ F.opens shelf.old ++ second_open name.now ∷ [] }

    // Whose fault it was.
    ensures failed { result ≡ Err RunFault.CertificateUnread → Rose (F.faults shelf.old OfSecond) (F.faults shelf.new OfSecond) }
    ensures as_before { result ≢ Err RunFault.CertificateUnread → (r : Role) → F.faults shelf.new r ≡ F.faults shelf.old r }
{
    match read_file(alloc, shelf, Role::Second, name, CERTIFICATE_BYTES) {
        Ok(text) => Ok(text),
        Err(ReadFault::Failed) => Err(RunFault::CertificateUnread),
        Err(ReadFault::TooLong) => Err(RunFault::CertificateTooLong),
        Err(ReadFault::Memory) => Err(RunFault::OutOfMemory),
    }
}

/// Judges the text of a certificate over a model and writes the verdict.
fn tell_verdict<O: Sink>(
    alloc: Global,
    model: &Model,
    text: &[u8],
    out: &mut O,
) -> Result<Ended, RunFault>
    // What was written, and flushed.
    ensures told { length text.now ≤ MOST → JudgesTold model.now text.now (O.text out.old) (O.text out.new) result }
    ensures ends { IfErr result EndsWriting }
    ensures flushed { ended_status result ≢ Status.OutputFailed → ended_status result ≢ Status.OutOfMemory → O.is_flushed out.new ≡ true }

    // Whose fault it was.
    ensures output_failed { ended_status result ≡ Status.OutputFailed → Rose (O.faults out.old) (O.faults out.new) }
    ensures out_as_before { ended_status result ≢ Status.OutputFailed → O.faults out.new ≡ O.faults out.old }
{
    let verdict = check_text(alloc, model, text)?;
    let line = verdict_line(alloc, verdict)?;
    write_text(line.as_slice(), out)?;
    Ok(verdict_end(verdict))
}

/// The verdict as a line.
fn verdict_line(alloc: Global, verdict: Verdict) -> Result<Vec<u8>, AllocError>
    ensures { IfOk result (λ line. line.items ≡ verdict_line verdict) }
{
    match verdict {
        Verdict::Valid => Vec::from_slice(alloc, b"valid\n"),
        Verdict::Invalid(line) => invalid_line(alloc, line),
    }
}

/// The line that tells the first bad line.
fn invalid_line(alloc: Global, line: u64) -> Result<Vec<u8>, AllocError>
    ensures { IfOk result (λ text. text.items ≡ verdict_line (Verdict.Invalid line)) }
{
    let mut text = Vec::from_slice(alloc, b"invalid ")?;
    push_number(&mut text, line)?;
    text.extend_from_slice(b"\n")?;
    Ok(text)
}

/// How a check ends with this verdict.
fn verdict_end(verdict: Verdict) -> Ended
    ensures { result ≡ verdict_end verdict }
{
    match verdict {
        Verdict::Valid => Ended::Done,
        Verdict::Invalid(_) => Ended::Invalid,
    }
}
