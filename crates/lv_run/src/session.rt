//! The session's file, opened and served.

ghost use Rattle.std.specs.Prelude.{◌≡◌, ◌≢◌, ◌++◌, ◌∷◌, [], List, ℕ, Some, true, IfOk, IfErr, IsTrue};
ghost use Rattle.lv_io.specs.Outside.{Rose};
ghost use Rattle.lv_io.specs.declared.Role.{Role};
ghost use Rattle.lv_io.specs.declared.Role.TheVariants.{Second as OfSecond};
ghost use Rattle.lv_serve.specs.Faults.{HasShelfCause, HasSinkCause, IsFlushed};
ghost use Rattle.lv_run.specs.Services.{Serves};
ghost use Rattle.lv_run.specs.Expected.{ServesTold};
ghost use Rattle.lv_run.specs.Inputs.{second_open, AddsOpens};
ghost use Rattle.lv_run.specs.Causes.{SinkEnds};
ghost use Rattle.lv_run.specs.Faults.{EndsOpening, EndsSession, ended_status};

use crate::fault::RunFault;
use crate::status::{Ended, Status};
use lv_io::{IoFault, Role, Shelf, Sink, Slot};
use lv_lanes::Lanes;
use lv_model::Model;
use lv_plant::{CompiledModel, Plant, Session};
use lv_run_words::Service;
use lv_serve::{ServeFault, serve};
use std::alloc::Global;

/// Opens the session's file and serves it over a model.
pub fn serve_session<F: Shelf, O: Sink>(
    alloc: Global,
    service: Service,
    model: &Model,
    session: &str,
    shelf: &mut F,
    out: &mut O,
) -> Result<Ended, RunFault>
    // What was written.
    ensures told { (text : List ℕ) → F.file shelf.old session.now ≡ Some text → ServesTold service model.now text (O.text out.old) (O.text out.new) result }
    ensures done { IfOk result (λ ended. ended ≡ Ended.Done) }
    ensures ends { IfErr result EndsSession }

    // What is recorded.
    ensures opens { AddsOpens (F.opens shelf.old) (second_open session.now ∷ []) (F.opens shelf.new) }
    ensures opened { ended_status result ≢ Status.OutOfMemory → F.opens shelf.new ≡ F.opens shelf.old ++ second_open session.now ∷ [] }

    // Whose fault it was, and what was flushed.
    ensures failed { ended_status result ≡ Status.SecondUnread → Rose (F.faults shelf.old OfSecond) (F.faults shelf.new OfSecond) }
    ensures as_before { ended_status result ≢ Status.SecondUnread → (r : Role) → F.faults shelf.new r ≡ F.faults shelf.old r }
    ensures sink { SinkEnds (ended_status result) (O.is_flushed out.old) (O.is_flushed out.new) (O.faults out.old) (O.faults out.new) }
{
    let slot = open_session(shelf, session)?;
    serve_opened(alloc, service, model, shelf, slot, out)?;
    Ok(Ended::Done)
}

/// Serves the session that is left of a slot over a model, which is compiled before anything is read: all lines by one
/// session, each by the session of its lane, or all by a simulated plant.
fn serve_opened<F: Shelf, O: Sink>(
    alloc: Global,
    service: Service,
    model: &Model,
    shelf: &mut F,
    slot: Slot,
    out: &mut O,
) -> Result<(), ServeFault>
    requires known { IsTrue (F.knows shelf.old slot) }
    ensures told { (text : List ℕ) → F.rest shelf.old slot ≡ Some text → Serves service model.now text (O.text out.old) (O.text out.new) result }
    ensures flushed { O.is_flushed out.old ≡ true → IsFlushed result (O.is_flushed out.new ≡ true) }
    ensures opens { F.opens shelf.new ≡ F.opens shelf.old }
    ensures shelf_cause { HasShelfCause (F.faults shelf.old slot.role) (F.faults shelf.new slot.role) result }
    ensures others { (r : Role) → r ≢ slot.role → F.faults shelf.new r ≡ F.faults shelf.old r }
    ensures sink_cause { HasSinkCause (O.faults out.old) (O.faults out.new) result }
{
    let compiled = CompiledModel::new(alloc, model)?;
    match service {
        Service::Single => {
            let session = Session::new(alloc, &compiled)?;
            serve(alloc, session, shelf, slot, out)
        }
        Service::Lanes => {
            let first = Session::new(alloc, &compiled)?;
            serve(alloc, Lanes::new(alloc, first), shelf, slot, out)
        }
        Service::Simulation => {
            let plant = Plant::new(alloc, &compiled)?;
            serve(alloc, plant, shelf, slot, out)
        }
    }
}

/// Opens the session's file.
fn open_session<F: Shelf>(shelf: &mut F, name: &str) -> Result<Slot, RunFault>
    ensures role { IfOk result (λ slot. slot.role ≡ Role.Second) }
    ensures known { IfOk result (λ slot. IsTrue (F.knows shelf.new slot)) }
    ensures bytes { IfOk result (λ slot. F.rest shelf.new slot ≡ F.file shelf.old name.now) }
    ensures ends { IfErr result EndsOpening }

    // What is recorded.
    ensures opens { AddsOpens (F.opens shelf.old) (second_open name.now ∷ []) (F.opens shelf.new) }
    ensures opened { result ≢ Err RunFault.OutOfMemory → F.opens shelf.new ≡ F.opens shelf.old ++ second_open name.now ∷ [] }

    // Whose fault it was.
    ensures failed { result ≡ Err RunFault.SessionUnread → Rose (F.faults shelf.old OfSecond) (F.faults shelf.new OfSecond) }
    ensures as_before { result ≢ Err RunFault.SessionUnread → (r : Role) → F.faults shelf.new r ≡ F.faults shelf.old r }
{
    match shelf.open(Role::Second, name) {
        Ok(slot) => Ok(slot),
        Err(IoFault::Failed) => Err(RunFault::SessionUnread),
        Err(IoFault::Memory) => Err(RunFault::OutOfMemory),
    }
}
