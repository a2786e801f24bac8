//! The whole of a call: the words, the command that they say, and the status that it ends with.

ghost use Rattle.std.specs.Prelude.{◌≡◌, ◌≢◌, ◌⊎◌, None, Some, List, ℕ, map, string_bytes, true, IsTrue};
ghost use Rattle.std.specs.Io.KnownBytes.{append_known};
ghost use Rattle.lv_io.specs.Outside.{Rose};
ghost use Rattle.lv_io.specs.declared.Role.{Role};
ghost use Rattle.lv_io.specs.declared.Role.TheVariants.{Model as OfModel, Second as OfSecond};
ghost use Rattle.lv_run_words.specs.Words.{command_of, drives};
ghost use Rattle.lv_run_words.specs.declared.commands.Service.{Service};
ghost use Rattle.lv_run_words.specs.declared.commands.Service.TheVariants.{Single, Lanes, Simulation};
ghost use Rattle.lv_run.specs.OfLanes.{AddsLanes, AddsOwnParts};
ghost use Rattle.lv_run.specs.OfPlants.{AddsScript};
ghost use Rattle.lv_run.specs.Causes.{SinkEnds, ShelfEnds};
ghost use Rattle.lv_run.specs.Faults.{ended_status};
ghost use Rattle.lv_run.specs.Inputs.{opens_of};
ghost use Rattle.lv_run.specs.Expected.{Expected, Expects, status_expected, Meets, Follows, TellsVerdict, is_silent, keeps_shelf};
ghost use Rattle.lv_run.specs.Opens.{HasOpened};
ghost use Rattle.lv_run.specs.Telling.{Tells};
ghost use Rattle.lv_plant.specs.lv_session.Transcript.{AddsTranscript};
ghost use Rattle.lv_plant.specs.lv_session.Answers.{AddsTrueTranscript};
ghost use Rattle.lv_run.specs.Printed.{AddsCertified};
ghost use Rattle.lv_run.specs.Top.{Asks, AsksToCheck, AsksForText, HasNoFault, TellsItsVerdict, EndsWithVerdict, TellsOwnEnd};
ghost use Rattle.lv_run.specs.Ends.{AreTold, EndsAsExpected};
ghost use Rattle.lv_run.specs.Judged.{verdict_status};
ghost use Rattle.lv_certcheck.specs.Verdicts.{IsVerdictOn};
ghost use Rattle.lv_certcheck.specs.declared.check.Verdict.{Verdict};
ghost use Rattle.lv_model.specs.declared.plant.Plant.{Plant};

use crate::commands::{check, drive, generate, print, run};
use crate::fault::RunFault;
use crate::status::{Ended, Status};
use crate::telling::report;
use lv_io::{Shelf, Sink};
use lv_run_words::{Command, read_words};
use std::alloc::Global;

/// A whole call of the program: `words` are those of the process, its own name first. What is written
/// goes to `out`, and one line on the status, where it has one, to `err`.
pub fn livingstone<F: Shelf, O: Sink, E: Sink>(
    alloc: Global,
    words: Vec<String>,
    shelf: &mut F,
    out: &mut O,
    err: &mut E,
) -> Status
    // For every accepted model and every session, what is written is its transcript: each settled diagnosis lists the
    // first k, by cost and then written order, of the transitions from the tracked states that some assignment allows
    // with commands and observations; each settled recovery is the first command set that takes every tracked state
    // nominally to the goals, or 'no recovery' exactly where none does.
    ensures headline { (plant : Plant) (session : List ℕ) → Asks Single (F.file shelf.old) (map string_bytes words.items) plant session → result ≡ Status.Done
        → AddsTranscript plant session (O.text out.old) (O.text out.new) × (E.text err.new ≡ E.text err.old) }
    // The same in the words of the definitions: in what is written each settled diagnosis is the first k candidates of the
    // tracked states that are possible under the facts, each recovery the first command set that recovers, and 'no
    // recovery' stands exactly where none does; each test is the first command set that tests its observable, and 'no
    // test' stands exactly where none does (`lv_session::laws::settled_answers_are_first`).
    ensures answers { (plant : Plant) (session : List ℕ) → Asks Single (F.file shelf.old) (map string_bytes words.items) plant session → result ≡ Status.Done
        → AddsTrueTranscript plant session (O.text out.old) (O.text out.new) }
    // Each certificate among the replies is valid for the model, so that a check over it calls it valid.
    ensures certified { (plant : Plant) (session : List ℕ) → Asks Single (F.file shelf.old) (map string_bytes words.items) plant session → result ≡ Status.Done
        → AddsCertified plant session (O.text out.old) (O.text out.new) }
    ensures complete { (plant : Plant) (session : List ℕ) → Asks Single (F.file shelf.old) (map string_bytes words.items) plant session
        → HasNoFault (F.faults shelf.old) (F.faults shelf.new) (O.faults out.old) (O.faults out.new) (E.faults err.old) (E.faults err.new)
        → (result ≡ Status.Done) ⊎ (result ≡ Status.OutOfMemory) }

    // Of sessions in lanes what is written is the text of the reply to each line, in order; and for every interleaving what
    // belongs to each lane is the transcript of the lane's own session over its own lines.
    ensures lanes { (plant : Plant) (lines : List ℕ) → Asks Lanes (F.file shelf.old) (map string_bytes words.items) plant lines → result ≡ Status.Done
        → AddsLanes plant lines (O.text out.old) (O.text out.new) × (E.text err.new ≡ E.text err.old) }
    // The same byte by byte: of what is written, the lines that begin with `@NAME `, that taken off, are the transcript of
    // the lane's own session.
    ensures lanes_bytes { (plant : Plant) (lines : List ℕ) → Asks Lanes (F.file shelf.old) (map string_bytes words.items) plant lines → result ≡ Status.Done
        → AddsOwnParts plant lines (O.text out.old) (O.text out.new) }
    ensures lanes_complete { (plant : Plant) (lines : List ℕ) → Asks Lanes (F.file shelf.old) (map string_bytes words.items) plant lines
        → HasNoFault (F.faults shelf.old) (F.faults shelf.new) (O.faults out.old) (O.faults out.new) (E.faults err.old) (E.faults err.new)
        → (result ≡ Status.Done) ⊎ (result ≡ Status.OutOfMemory) }

    // Of a simulated plant in the loop what is written are the texts of the replies to its script's lines, in order; what
    // each step replies, and what that promises of the diagnosis and of a recovery that is applied, is said of
    // `lv_plant::Plant::step`.
    ensures plant { (plant : Plant) (script : List ℕ) → Asks Simulation (F.file shelf.old) (map string_bytes words.items) plant script → result ≡ Status.Done
        → AddsScript plant script (O.text out.old) (O.text out.new) × (E.text err.new ≡ E.text err.old) }
    ensures plant_complete { (plant : Plant) (script : List ℕ) → Asks Simulation (F.file shelf.old) (map string_bytes words.items) plant script
        → HasNoFault (F.faults shelf.old) (F.faults shelf.new) (O.faults out.old) (O.faults out.new) (E.faults err.old) (E.faults err.new)
        → (result ≡ Status.Done) ⊎ (result ≡ Status.OutOfMemory) }

    // A check writes `valid` with status 0 exactly where the certificate is valid for the model, else `invalid LINE` with
    // the first bad line and status 9. A valid one proves its answer, whoever wrote it.
    ensures checked { (plant : Plant) (certificate : List ℕ) → AsksToCheck (F.file shelf.old) (map string_bytes words.items) plant certificate
        → (result ≡ Status.Done) ⊎ (result ≡ Status.Invalid)
        → TellsItsVerdict plant certificate (O.text out.old) (O.text out.new) result × (E.text err.new ≡ E.text err.old) }
    ensures judged { (plant : Plant) (certificate : List ℕ) (verdict : Verdict) → AsksToCheck (F.file shelf.old) (map string_bytes words.items) plant certificate
        → IsVerdictOn plant certificate verdict
        → HasNoFault (F.faults shelf.old) (F.faults shelf.new) (O.faults out.old) (O.faults out.new) (E.faults err.old) (E.faults err.new)
        → (result ≡ verdict_status verdict) ⊎ (result ≡ Status.OutOfMemory) }
    // Every certificate within its limit has a verdict, so with no fault a check ends with 0 exactly where it is valid and
    // with 9 where it isn't, or memory was wanting; and never as too long.
    ensures settles { (plant : Plant) (certificate : List ℕ) → AsksToCheck (F.file shelf.old) (map string_bytes words.items) plant certificate
        → HasNoFault (F.faults shelf.old) (F.faults shelf.new) (O.faults out.old) (O.faults out.new) (E.faults err.old) (E.faults err.new)
        → EndsWithVerdict plant certificate result }
    ensures short_certificate { (plant : Plant) (certificate : List ℕ) → AsksToCheck (F.file shelf.old) (map string_bytes words.items) plant certificate → result ≢ Status.SecondTooLong }
    ensures short_session { (service : Service) (plant : Plant) (session : List ℕ) → Asks service (F.file shelf.old) (map string_bytes words.items) plant session → result ≢ Status.SecondTooLong }

    // The same of a text that the words ask for, the canonical text of a model, one made for a number, or a summary: what
    // is written is that text.
    ensures written { (text : List ℕ) → AsksForText (F.file shelf.old) (map string_bytes words.items) text → result ≡ Status.Done
        → (O.text out.new ≡ append_known (O.text out.old) text) × (E.text err.new ≡ E.text err.old) }
    ensures writes { (text : List ℕ) → AsksForText (F.file shelf.old) (map string_bytes words.items) text
        → HasNoFault (F.faults shelf.old) (F.faults shelf.new) (O.faults out.old) (O.faults out.new) (E.faults err.old) (E.faults err.new)
        → (result ≡ Status.Done) ⊎ (result ≡ Status.OutOfMemory) }

    // Which status: with no fault the one that is expected, and none without its cause in the words and the model.
    ensures exact { (e : Expected) → Expects (F.file shelf.old) (command_of (map string_bytes words.items)) e
        → HasNoFault (F.faults shelf.old) (F.faults shelf.new) (O.faults out.old) (O.faults out.new) (E.faults err.old) (E.faults err.new)
        → (result ≡ status_expected e) ⊎ (result ≡ Status.OutOfMemory) }
    // Every bytes have a verdict as a model, and every certificate one for a model: so where the shelf tells the files that the words
    // speak of, something is expected, and with no fault the call ends so.
    ensures ends { AreTold (F.file shelf.old) (command_of (map string_bytes words.items))
        → HasNoFault (F.faults shelf.old) (F.faults shelf.new) (O.faults out.old) (O.faults out.new) (E.faults err.old) (E.faults err.new)
        → EndsAsExpected (F.file shelf.old) (command_of (map string_bytes words.items)) result }
    ensures meets { (e : Expected) → Expects (F.file shelf.old) (command_of (map string_bytes words.items)) e → Meets e (O.text out.old) (O.text out.new) result }
    ensures follows { Follows (F.file shelf.old) (command_of (map string_bytes words.items)) result }
    ensures words { result ≡ Status.WordsRefused → command_of (map string_bytes words.items) ≡ None }
    ensures refused { command_of (map string_bytes words.items) ≡ None → result ≢ Status.OutputFailed → result ≢ Status.OutOfMemory → result ≡ Status.WordsRefused }
    // Each model that is made for a number is accepted, so the words `drive N` never end with a refused one.
    ensures driven { (n : ℕ) → command_of (map string_bytes words.items) ≡ Some (drives n) → result ≢ Status.ModelRefused }
    ensures model_refused { (e : Expected) → Expects (F.file shelf.old) (command_of (map string_bytes words.items)) e
        → status_expected e ≡ Status.ModelRefused → ¬ Rose (F.faults shelf.old OfModel) (F.faults shelf.new OfModel)
        → result ≢ Status.OutputFailed → result ≢ Status.OutOfMemory → result ≡ Status.ModelRefused }

    // What was written otherwise, and flushed. The line on standard error is of what this call came to.
    ensures silent { IsTrue (is_silent (command_of (map string_bytes words.items)) result) → O.text out.new ≡ O.text out.old }
    ensures told { TellsOwnEnd (F.file shelf.old) (command_of (map string_bytes words.items)) (O.text out.old) (O.text out.new) (E.text err.old) (E.text err.new) result }
    ensures out_flushed { result ≢ Status.OutputFailed → result ≢ Status.OutOfMemory → O.is_flushed out.old ≡ true → O.is_flushed out.new ≡ true }
    ensures err_flushed { result ≢ Status.OutputFailed → result ≢ Status.OutOfMemory → E.is_flushed err.old ≡ true → E.is_flushed err.new ≡ true }

    // What was opened.
    ensures opens { HasOpened (opens_of (command_of (map string_bytes words.items))) (F.opens shelf.old) (F.opens shelf.new) result }

    // Whose fault it was.
    ensures model_unread { result ≡ Status.ModelUnread → Rose (F.faults shelf.old OfModel) (F.faults shelf.new OfModel) }
    ensures session_unread { result ≡ Status.SecondUnread → Rose (F.faults shelf.old OfSecond) (F.faults shelf.new OfSecond) }
    ensures output_failed { result ≡ Status.OutputFailed
        → (Rose (O.faults out.old) (O.faults out.new) × (E.text err.new ≡ E.text err.old)) ⊎ Rose (E.faults err.old) (E.faults err.new) }
    ensures shelf_as_before { IsTrue (keeps_shelf result) → (r : Role) → F.faults shelf.new r ≡ F.faults shelf.old r }
    ensures out_as_before { result ≢ Status.OutputFailed → O.faults out.new ≡ O.faults out.old }
    ensures err_as_before { result ≢ Status.OutputFailed → E.faults err.new ≡ E.faults err.old }
{
    let ended = carry_out(alloc, words.as_slice(), shelf, out);
    tell_end(alloc, ended, err)
}

/// Tells how a run ended, if a fault did, and answers the status that the call ends with.
fn tell_end<E: Sink>(alloc: Global, ended: Result<Ended, RunFault>, err: &mut E) -> Status
    // Which status.
    ensures status { result ≢ Status.OutputFailed → result ≢ Status.OutOfMemory → result ≡ ended_status ended }
    ensures output { ended_status ended ≡ Status.OutputFailed → result ≡ Status.OutputFailed }

    // What was written, and flushed.
    ensures told { Tells ended (E.text err.old) (E.text err.new) result }
    ensures untold { ended_status ended ≡ Status.OutputFailed → E.text err.new ≡ E.text err.old }
    ensures flushed { result ≢ Status.OutputFailed → result ≢ Status.OutOfMemory → E.is_flushed err.old ≡ true → E.is_flushed err.new ≡ true }

    // Whose fault it was.
    ensures failed { result ≡ Status.OutputFailed → ended_status ended ≢ Status.OutputFailed → Rose (E.faults err.old) (E.faults err.new) }
    ensures as_before { result ≢ Status.OutputFailed → E.faults err.new ≡ E.faults err.old }
{
    match ended {
        Ok(ended) => ended.status(),
        Err(fault) => report(alloc, fault, err),
    }
}

/// Carries out the command that the words say.
fn carry_out<F: Shelf, O: Sink>(
    alloc: Global,
    words: &[String],
    shelf: &mut F,
    out: &mut O,
) -> Result<Ended, RunFault>
    // What is expected.
    ensures meets { (e : Expected) → Expects (F.file shelf.old) (command_of (map string_bytes words.now)) e → Meets e (O.text out.old) (O.text out.new) (ended_status result) }
    ensures follows { Follows (F.file shelf.old) (command_of (map string_bytes words.now)) (ended_status result) }
    ensures verdict { TellsVerdict (F.file shelf.old) (command_of (map string_bytes words.now)) result }
    ensures silent { IsTrue (is_silent (command_of (map string_bytes words.now)) (ended_status result)) → O.text out.new ≡ O.text out.old }

    // What is recorded.
    ensures opens { HasOpened (opens_of (command_of (map string_bytes words.now))) (F.opens shelf.old) (F.opens shelf.new) (ended_status result) }

    // Whose fault it was, and what was flushed.
    ensures shelf { ShelfEnds (ended_status result) (F.faults shelf.old) (F.faults shelf.new) }
    ensures sink { SinkEnds (ended_status result) (O.is_flushed out.old) (O.is_flushed out.new) (O.faults out.old) (O.faults out.new) }
{
    match read_words(alloc, words)? {
        Command::Run {
            service,
            model,
            session,
        } => run(alloc, service, model.as_str(), session.as_str(), shelf, out),
        Command::Check { model, cert } => check(alloc, model.as_str(), cert.as_str(), shelf, out),
        Command::Print { model } => print(alloc, model.as_str(), shelf, out),
        Command::Generate { kind, number } => generate(alloc, kind, number, out),
        Command::Drive { number } => drive(alloc, number, out),
    }
}
