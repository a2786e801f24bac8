//! A shelf in memory, which fails at the calls that it is told to.

ghost use Rattle.std.specs.Prelude.{◌≡◌, ◌≢◌, ◌+◌, ◌++◌, ◌∷◌, ◌<◌, ◌||◌, ◌↔◌, true, false, [], length, vec_len, vec_capacity, OnOk, OnErr, IfOk, IsSome, IsTrue, IsErrOf, is_none, unwrap_or};
ghost use Rattle.lv_io.specs.declared.Role.{Role};
ghost use Rattle.lv_io.specs.declared.Slot.{Slot};
ghost use Rattle.lv_io.specs.Outside.{recorded, HasCause, Reads};
ghost use Rattle.lv_io.specs.Counts.{raised};
ghost use Rattle.lv_io.specs.Plan.{after_call, next_fails};
ghost use Rattle.lv_io.specs.Memory.{file_of, place_of, left_of, piece_of};
ghost use Rattle.lv_io.specs.MemShelf.{mem_file, mem_rest, mem_knows, mem_faults};

use crate::plan::FaultPlan;
use crate::shelf_log::{Counts, Opens};
use crate::{IoFault, Role, Shelf, Slot};
use std::alloc::Global;

/// How far an open file was read.
#[derive(Clone, Copy)]
struct Reader {
    role: Role,
    file: usize,
    at: usize,
}

/// Files in memory, by name. An `open` of a name that isn't there fails, and so do the calls whose
/// numbers were given, counted from 1 over `open` and `read`.
#[derive(Drop)]
pub struct MemShelf {
    files: Vec<(String, Vec<u8>)>,
    piece: usize,
    plan: FaultPlan,
    readers: Vec<Reader>,
    opens: Opens,
    faults: Counts,
}

impl MemShelf {
    /// A shelf of these files; of files of one name the first counts. A read gives at most `piece`
    /// bytes, but at least one where one is left, so a `piece` of 0 acts as 1. Takes no memory.
    pub fn new(
        alloc: Global,
        files: Vec<(String, Vec<u8>)>,
        piece: usize,
        fails: Vec<u64>,
    ) -> MemShelf
        ensures files { mem_file result ≡ file_of files.items }
        ensures opens { result.opens ≡ [] }
        ensures faults { (r : Role) → mem_faults result r ≡ 0 }
        ensures known { (s : Slot) → mem_knows result s ≡ false }
        ensures plan { result.plan ≡ record { calls = 0; fails = fails.items } }
        ensures piece { result.piece ≡ piece }
    {
        MemShelf {
            files,
            piece,
            plan: FaultPlan::new(fails),
            readers: Vec::new(alloc),
            opens: Opens::new(alloc),
            faults: Counts::zero(),
        }
    }

    /// The faults of a role so far.
    pub fn faults(&self, role: Role) -> u64
        ensures { result ≡ mem_faults self.now role }
    {
        self.faults.of(role)
    }
}

impl Shelf for MemShelf {
    ghost file = { mem_file };

    ghost rest = { mem_rest };

    ghost knows = { mem_knows };

    ghost opens = { λ shelf. shelf.opens };

    ghost faults = { mem_faults };

    /// A name that isn't there fails, and so does a call whose number was given. Want of memory counts
    /// as a call too.
    fn open(&mut self, role: Role, name: &str) -> Result<Slot, IoFault>
        ensures role { IfOk result (λ slot. slot.role ≡ role) }
        ensures known { IfOk result (λ slot. IsTrue (mem_knows self.new slot)) }
        ensures bytes { IfOk result (λ slot. mem_rest self.new slot ≡ mem_file self.old name.now) }
        ensures stays { (s : Slot) → IsTrue (mem_knows self.old s) → IsTrue (mem_knows self.new s) }
        ensures left { (s : Slot) → IsTrue (mem_knows self.old s) → mem_rest self.new s ≡ mem_rest self.old s }
        ensures opens { self.new.opens ≡ recorded self.old.opens (record { role = role; name = name.now }) result }
        ensures files { mem_file self.new ≡ mem_file self.old }
        ensures cause { HasCause (mem_faults self.old role) (mem_faults self.new role) result }
        ensures others { (r : Role) → r ≢ role → mem_faults self.new r ≡ mem_faults self.old r }

        // Which calls fail.
        ensures found { OnOk result ((next_fails self.old.plan ≡ false) × IsSome (mem_file self.old name.now)) }
        ensures failed { IsErrOf result IoFault.Failed → IsTrue (next_fails self.old.plan || is_none (mem_file self.old name.now)) }
        ensures raised { IsErrOf result IoFault.Failed → self.new.faults ≡ raised role self.old.faults }
        ensures plan { self.new.plan ≡ after_call self.old.plan }
        ensures piece { self.new.piece ≡ self.old.piece }
    {
        let fails = self.plan.count_call();
        self.readers.reserve(1)?;
        self.opens.note(role, name)?;
        match place_of(self.files.as_slice(), name) {
            Some(file) if !fails => Ok(add_reader(&mut self.readers, role, file)),
            _ => {
                self.faults.raise(role);
                Err(IoFault::Failed)
            }
        }
    }

    /// Takes no memory: a call whose number was given fails, and every other reads.
    fn read(&mut self, slot: Slot, buf: &mut [u8]) -> Result<usize, IoFault>
        requires { IsTrue (mem_knows self.old slot) }
        ensures bytes { IfOk result (Reads buf.new (mem_rest self.old slot) (mem_rest self.new slot)) }
        ensures err { OnErr result (mem_rest self.new slot ≡ mem_rest self.old slot) }
        ensures left { (s : Slot) → s ≢ slot → mem_rest self.new s ≡ mem_rest self.old s }
        ensures known { mem_knows self.new ≡ mem_knows self.old }
        ensures opens { self.new.opens ≡ self.old.opens }
        ensures files { mem_file self.new ≡ mem_file self.old }
        ensures cause { HasCause (mem_faults self.old slot.role) (mem_faults self.new slot.role) result }
        ensures others { (r : Role) → r ≢ slot.role → mem_faults self.new r ≡ mem_faults self.old r }

        // Which calls fail, and how much the others read.
        ensures failed { IsErrOf result IoFault.Failed ↔ (next_fails self.old.plan ≡ true) }
        ensures memory { result ≢ Err IoFault.Memory }
        ensures raised { IsErrOf result IoFault.Failed → self.new.faults ≡ raised slot.role self.old.faults }
        ensures count { IfOk result (λ n. n ≡ piece_of self.old.piece (length buf.old) (length (unwrap_or (mem_rest self.old slot) []))) }
        ensures plan { self.new.plan ≡ after_call self.old.plan }
        ensures piece { self.new.piece ≡ self.old.piece }
    {
        if self.plan.count_call() {
            self.faults.raise(slot.role);
            return Err(IoFault::Failed);
        }
        let mut reader = self.readers[slot.index];
        let n = read_next(self.files.as_slice(), &mut reader, self.piece, buf);
        self.readers[slot.index] = reader;
        Ok(n)
    }
}

fn place_of(files: &[(String, Vec<u8>)], name: &str) -> Option<usize>
    ensures { result ≡ place_of files.now name.now }
{
    files.iter().position(|file| file.0.as_str() == name)
}

/// Adds a reader at the start of a file, in room that is there.
fn add_reader(readers: &mut Vec<Reader>, role: Role, file: usize) -> Slot
    requires { vec_len readers.old < vec_capacity readers.old }
    ensures added { readers.new.items ≡ readers.old.items ++ (record { role = role; file = file; at = 0 }) ∷ [] }
    ensures slot { result ≡ record { index = length readers.old.items; role = role } }
{
    let index = readers.len();
    readers.push(Reader { role, file, at: 0 }).unwrap();
    Slot { index, role }
}

/// Reads the next piece of a file into `buf`.
fn read_next(
    files: &[(String, Vec<u8>)],
    reader: &mut Reader,
    piece: usize,
    buf: &mut [u8],
) -> usize
    ensures bytes { Reads buf.new (left_of files.now reader.old) (left_of files.now reader.new) result }
    ensures count { result ≡ piece_of piece (length buf.old) (length (unwrap_or (left_of files.now reader.old) [])) }
    ensures reader { reader.new ≡ record reader.old { at = reader.old.at + result } }
{
    let left = left_of(files, reader);
    let n = buf.len().min(piece.max(1)).min(left.len());
    buf[..n].copy_from_slice(&left[..n]);
    reader.at += n;
    n
}

/// What is left to a reader; nothing where its file is not there.
fn left_of<'a>(files: &'a [(String, Vec<u8>)], reader: &Reader) -> &'a [u8]
    ensures { result.now ≡ unwrap_or (left_of files.now reader.now) [] }
{
    match files.get(reader.file) {
        Some(file) => match file.1.get(reader.at..) {
            Some(left) => left,
            None => &[],
        },
        None => &[],
    }
}
