//! A session read of a shelf, piece by piece.
#![tactic(auto)]

ghost use Rattle.std.specs.Prelude.{◌≡◌, ◌≢◌, ◌<◌, ◌≤◌, ℕ, List, Option, [], Ok, Err, OnErr, IfOk, Some, IsTrue, true, false, length, vec_len};
ghost use Rattle.lv_io.specs.declared.Role.{Role};
ghost use Rattle.lv_io.specs.declared.Slot.{Slot};
ghost use Rattle.lv_serve.specs.Faults.{HasShelfCause, HasSinkCause, IsFlushed};
ghost use Rattle.lv_serve.specs.Pieces.{Came};
ghost use Rattle.lv_serve.specs.Served.{Serves};
ghost use Rattle.lv_serve.specs.Told.{ServesText};
ghost use Rattle.lv_serve.specs.Unfinished.{kept_of};

use crate::fault::ServeFault;
use crate::responder::Responder;
use crate::serving::Serving;
use lv_base::limits::SESSION_BYTES;
use lv_io::{IoFault, Shelf, Sink, Slot};
use std::alloc::Global;

/// The most that is read at a time, in bytes.
const PIECE: usize = 4096;

/// Serves the session that is left of a slot: reads it piece by piece, at most one byte past its limit, and nothing once
/// the responder has ended; has each line that ends in a piece answered, and writes and flushes the replies before the
/// next piece is waited for. What stands behind the last line feed is a line where the session ends there.
pub fn serve<L: Responder + Drop, F: Shelf, O: Sink>(
    alloc: Global,
    responder: L,
    shelf: &mut F,
    slot: Slot,
    out: &mut O,
) -> Result<(), ServeFault>
    requires known { IsTrue (F.knows shelf.old slot) }
    requires goes_on { L.has_ended responder ≡ false }

    // What was read and written; and the same where the shelf tells the session.
    ensures serves { Serves L.next L.says L.has_ended responder (F.rest shelf.old slot) (F.rest shelf.new slot) (O.text out.old) (O.text out.new) result }
    ensures told { (session : List ℕ) → F.rest shelf.old slot ≡ Some session
        → ServesText L.next L.says L.has_ended responder session (O.text out.old) (O.text out.new) result }
    ensures flushed { O.is_flushed out.old ≡ true → IsFlushed result (O.is_flushed out.new ≡ true) }

    // What stays.
    ensures left { (s : Slot) → s ≢ slot → F.rest shelf.new s ≡ F.rest shelf.old s }
    ensures known { F.knows shelf.new ≡ F.knows shelf.old }
    ensures opens { F.opens shelf.new ≡ F.opens shelf.old }
    ensures files { F.file shelf.new ≡ F.file shelf.old }

    // Whose fault it was.
    ensures shelf_cause { HasShelfCause (F.faults shelf.old slot.role) (F.faults shelf.new slot.role) result }
    ensures others { (r : Role) → r ≢ slot.role → F.faults shelf.new r ≡ F.faults shelf.old r }
    ensures sink_cause { HasSinkCause (O.faults out.old) (O.faults out.new) result }
{
    let mut serving = Serving::new(alloc, responder);
    serve_all(&mut serving, shelf, slot, out)
}

/// Serves the session that is left of a slot, of which nothing has come yet.
fn serve_all<L: Responder, F: Shelf, O: Sink>(
    serving: &mut Serving<L>,
    shelf: &mut F,
    slot: Slot,
    out: &mut O,
) -> Result<(), ServeFault>
    requires known { IsTrue (F.knows shelf.old slot) }
    requires goes_on { L.has_ended serving.old.at ≡ false }
    requires line { serving.old.line ≡ kept_of [] }
    requires none { serving.old.replies ≡ [] }
    ensures serves { Serves L.next L.says L.has_ended serving.old.at (F.rest shelf.old slot) (F.rest shelf.new slot) (O.text out.old) (O.text out.new) result }
    ensures flushed { O.is_flushed out.old ≡ true → IsFlushed result (O.is_flushed out.new ≡ true) }
    ensures left { (s : Slot) → s ≢ slot → F.rest shelf.new s ≡ F.rest shelf.old s }
    ensures known { F.knows shelf.new ≡ F.knows shelf.old }
    ensures opens { F.opens shelf.new ≡ F.opens shelf.old }
    ensures files { F.file shelf.new ≡ F.file shelf.old }
    ensures shelf_cause { HasShelfCause (F.faults shelf.old slot.role) (F.faults shelf.new slot.role) result }
    ensures others { (r : Role) → r ≢ slot.role → F.faults shelf.new r ≡ F.faults shelf.old r }
    ensures sink_cause { HasSinkCause (O.faults out.old) (O.faults out.new) result }
{
    let mut piece = [0u8; PIECE];
    let mut left = SESSION_BYTES;
    'read: loop {
        let n = read_piece(shelf, slot, next_piece(left), &mut piece)?;
        if n == 0 {
            serving.finish(out)?;
            return Ok(());
        }
        if left == 0 {
            return Err(ServeFault::TooLong);
        }
        serving.serve_piece(&piece[..n], out)?;
        if serving.is_ended() {
            return Ok(());
        }
        left -= n as u64;
    }
}
/// How many bytes to ask for where so many are left within the limit; where none are, one, which shows that the session
/// goes on.
fn next_piece(left: u64) -> usize
    ensures some { 0 < result }
    ensures piece { result ≤ PIECE }
    ensures within { 0 < left → result ≤ left }
    ensures one { left ≡ 0 → result ≡ 1 }
{
    left.min(PIECE as u64).max(1) as usize
}

/// Reads once, at most `most` bytes.
fn read_piece<F: Shelf>(
    shelf: &mut F,
    slot: Slot,
    most: usize,
    buf: &mut [u8],
) -> Result<usize, ServeFault>
    requires known { IsTrue (F.knows shelf.old slot) }
    requires some { 0 < most }
    requires room { most ≤ length buf.old }
    ensures bytes { IfOk result (Came most buf.new (F.rest shelf.old slot) (F.rest shelf.new slot)) }
    ensures room { length buf.new ≡ length buf.old }
    ensures err { OnErr result (F.rest shelf.new slot ≡ F.rest shelf.old slot) }
    ensures fault { result ≢ Err ServeFault.Write }
    ensures short { result ≢ Err ServeFault.TooLong }
    ensures left { (s : Slot) → s ≢ slot → F.rest shelf.new s ≡ F.rest shelf.old s }
    ensures known { F.knows shelf.new ≡ F.knows shelf.old }
    ensures opens { F.opens shelf.new ≡ F.opens shelf.old }
    ensures files { F.file shelf.new ≡ F.file shelf.old }
    ensures cause { HasShelfCause (F.faults shelf.old slot.role) (F.faults shelf.new slot.role) result }
    ensures others { (r : Role) → r ≢ slot.role → F.faults shelf.new r ≡ F.faults shelf.old r }
{
    match shelf.read(slot, &mut buf[..most]) {
        Ok(n) => Ok(n),
        Err(IoFault::Failed) => Err(ServeFault::Read),
        Err(IoFault::Memory) => Err(ServeFault::Memory),
    }
}
