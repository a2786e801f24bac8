//! Whole files and whole texts over shelves and sinks that take a piece at a time.

ghost use Rattle.std.specs.Prelude.{◌≡◌, ◌≢◌, ℕ, ◌+◌, ◌<◌, ◌≤◌, IfOk, OnOk, OnErr, IfErr, IfSome, IsTrue, length, vec_len, true};
ghost use Rattle.std.specs.Io.KnownBytes.{append_known};
ghost use Rattle.lv_io.specs.declared.Role.{Role};
ghost use Rattle.lv_io.specs.declared.Slot.{Slot};
ghost use Rattle.lv_io.specs.declared.ReadFault.TheVariants.{Failed as ReadFailed, TooLong as IsTooLong, Memory as ReadMemory};
ghost use Rattle.lv_io.specs.declared.whole.TheConstants.{PIECE};
ghost use Rattle.lv_io.specs.Outside.{HasCause, flushed_after};
ghost use Rattle.lv_io.specs.Whole.{TakesAll, IsLonger, TakesAtMost, Grows, HasReadCause, OpensOne, AddsFront};

use crate::{IoFault, ReadFault, Role, Shelf, Sink, Slot};
use std::alloc::Global;

/// The most that is read or asked for at a time, in bytes.
const PIECE: usize = 4096;

/// Reads all that is left of a slot, if it is at most `limit` bytes. Memory is taken as bytes come, and
/// at most one byte past the limit is read. Of a shelf that tells nothing, `TooLong` says that more than
/// `limit` bytes came.
pub fn read_all<F: Shelf>(
    alloc: Global,
    shelf: &mut F,
    slot: Slot,
    limit: u64,
) -> Result<Vec<u8>, ReadFault>
    requires { IsTrue (F.knows shelf.old slot) }

    // What was read.
    ensures bytes { IfOk result (λ bytes. TakesAll bytes.items (F.rest shelf.old slot) (F.rest shelf.new slot)) }
    ensures within { IfOk result (λ bytes. length bytes.items ≤ limit) }
    ensures too_long { result ≡ Err ReadFault.TooLong → IsLonger limit (F.rest shelf.old slot) }
    ensures taken { TakesAtMost (limit + 1) (F.rest shelf.old slot) (F.rest shelf.new slot) }

    // What stays.
    ensures left { (s : Slot) → s ≢ slot → F.rest shelf.new s ≡ F.rest shelf.old s }
    ensures known { F.knows shelf.new ≡ F.knows shelf.old }
    ensures opens { F.opens shelf.new ≡ F.opens shelf.old }
    ensures files { F.file shelf.new ≡ F.file shelf.old }

    // Whose fault it was.
    ensures cause { HasReadCause (F.faults shelf.old slot.role) (F.faults shelf.new slot.role) result }
    ensures others { (r : Role) → r ≢ slot.role → F.faults shelf.new r ≡ F.faults shelf.old r }
{
    let mut bytes = Vec::new(alloc);
    'read: loop {
        let most = next_piece(limit, bytes.len());
        if read_piece(shelf, slot, most, &mut bytes)? == 0 {
            return Ok(bytes);
        }
        if bytes.len() as u64 > limit {
            return Err(ReadFault::TooLong);
        }
    }
}

/// Opens a file and reads it whole, as `read_all` does.
pub fn read_file<F: Shelf>(
    alloc: Global,
    shelf: &mut F,
    role: Role,
    name: &str,
    limit: u64,
) -> Result<Vec<u8>, ReadFault>
    // What was read.
    ensures bytes { IfOk result (λ bytes. IfSome (F.file shelf.old name.now) (λ file. file ≡ bytes.items)) }
    ensures within { IfOk result (λ bytes. length bytes.items ≤ limit) }
    ensures too_long { result ≡ Err ReadFault.TooLong → IsLonger limit (F.file shelf.old name.now) }

    // What is recorded, and what stays.
    ensures opens { OpensOne (F.opens shelf.old) (record { role = role; name = name.now }) (F.opens shelf.new) result }
    ensures files { F.file shelf.new ≡ F.file shelf.old }

    // Whose fault it was.
    ensures cause { HasReadCause (F.faults shelf.old role) (F.faults shelf.new role) result }
    ensures others { (r : Role) → r ≢ role → F.faults shelf.new r ≡ F.faults shelf.old r }
{
    let slot = shelf.open(role, name)?;
    read_all(alloc, shelf, slot, limit)
}

/// How many bytes to ask for next where `len` came: a piece, and at most one byte past the limit.
fn next_piece(limit: u64, len: usize) -> usize
    requires { len ≤ limit }
    ensures some { 0 < result }
    ensures piece { result ≤ PIECE }
    ensures past { result + len ≤ limit + 1 }
{
    (limit - len as u64).saturating_add(1).min(PIECE as u64) as usize
}

/// Reads once, at most `most` bytes, and puts what came behind `bytes`.
fn read_piece<F: Shelf>(
    shelf: &mut F,
    slot: Slot,
    most: usize,
    bytes: &mut Vec<u8>,
) -> Result<usize, ReadFault>
    requires known { IsTrue (F.knows shelf.old slot) }
    requires some { 0 < most }
    requires piece { most ≤ PIECE }
    ensures bytes { IfOk result (Grows bytes.old.items bytes.new.items (F.rest shelf.old slot) (F.rest shelf.new slot)) }
    ensures count { IfOk result (λ n. n ≤ most) }
    ensures taken { TakesAtMost most (F.rest shelf.old slot) (F.rest shelf.new slot) }
    ensures long { result ≢ Err ReadFault.TooLong }
    ensures left { (s : Slot) → s ≢ slot → F.rest shelf.new s ≡ F.rest shelf.old s }
    ensures known { F.knows shelf.new ≡ F.knows shelf.old }
    ensures opens { F.opens shelf.new ≡ F.opens shelf.old }
    ensures files { F.file shelf.new ≡ F.file shelf.old }
    ensures cause { HasReadCause (F.faults shelf.old slot.role) (F.faults shelf.new slot.role) result }
    ensures others { (r : Role) → r ≢ slot.role → F.faults shelf.new r ≡ F.faults shelf.old r }
{
    let mut piece = [0u8; PIECE];
    let n = shelf.read(slot, &mut piece[..most])?;
    bytes.extend_from_slice(&piece[..n])?;
    Ok(n)
}

/// Writes all of `bytes`. After an error a front of them was written.
pub fn write_all<O: Sink>(sink: &mut O, bytes: &[u8]) -> Result<(), IoFault>
    ensures text { OnOk result (O.text sink.new ≡ append_known (O.text sink.old) bytes.now) }
    ensures front { AddsFront bytes.now (O.text sink.old) (O.text sink.new) }
    ensures flushed { O.is_flushed sink.new ≡ flushed_after bytes.now (O.is_flushed sink.old) }
    ensures cause { HasCause (O.faults sink.old) (O.faults sink.new) result }
{
    let mut written = 0;
    while written < bytes.len() {
        written += sink.write(&bytes[written..])?;
    }
    Ok(())
}
