//! The files of the system and its standard input as a shelf. Of their bytes only what each stream
//! itself tells is claimed.

ghost use Rattle.std.specs.Prelude.{◌≡◌, ◌≢◌, ℕ, ◌<◌, ◌≤◌, ◌++◌, ◌∷◌, [], true, false, not, None, is_ok, length, vec_len, vec_capacity, slice_get, codes, IfOk, IfSome, IsErr, IsTrue};
ghost use Rattle.std.specs.Io.{ReadsAtMost};
ghost use Rattle.std.specs.Io.KnownBytes.{ReadConsumes};
ghost use Rattle.lv_io.specs.declared.Role.{Role};
ghost use Rattle.lv_io.specs.declared.Slot.{Slot};
ghost use Rattle.lv_io.specs.Outside.{HasCause, Reads};
ghost use Rattle.lv_io.specs.Counts.{count_of};
ghost use Rattle.lv_io.specs.Slots.{is_slot};
ghost use Rattle.lv_io.specs.Streams.{stream_role, stream_roles, left_at};

use crate::shelf_log::{Counts, Opens};
use crate::{IoFault, Role, Shelf, Slot};
use std::alloc::Global;
use std::fs::Files;
use std::io::{Input, Read};
use std::{fs, io};

/// The name that stands for standard input.
const STDIN: &str = "stdin";

/// An open file, or standard input.
#[derive(Drop)]
pub enum Stream<F, I> {
    File(F),
    Stdin(I),
}

/// A stream, and the role that it was opened for.
#[derive(Drop)]
pub struct OpenStream<F, I> {
    role: Role,
    stream: Stream<F, I>,
}

/// The files of the system, by path. The name `stdin` is standard input, which can be opened once; a
/// file of that name is `./stdin`. Every error of the system is a fault that counts.
#[derive(Drop)]
pub struct HostShelf<R: Files + Input> {
    rt: R,
    streams: Vec<OpenStream<R::File, R::Reader>>,
    stdin_taken: bool,
    opens: Opens,
    faults: Counts,
}

impl<R: Files + Input> HostShelf<R> {
    /// A shelf with nothing open. Takes no memory.
    pub fn new(alloc: Global, rt: R) -> HostShelf<R>
        ensures opens { result.opens ≡ [] }
        ensures faults { (r : Role) → count_of result.faults r ≡ 0 }
        ensures known { result.streams.items ≡ [] }
        ensures stdin { result.stdin_taken ≡ false }
    {
        HostShelf {
            rt,
            streams: Vec::new(alloc),
            stdin_taken: false,
            opens: Opens::new(alloc),
            faults: Counts::zero(),
        }
    }
}

impl<R: Files + Input> Shelf for HostShelf<R> {
    ghost file = { λ shelf name. None };

    ghost rest = { λ shelf slot. None };

    ghost knows = { λ shelf. is_slot (stream_roles shelf.streams.items) };

    ghost opens = { λ shelf. shelf.opens };

    ghost faults = { λ shelf. count_of shelf.faults };

    fn open(&mut self, role: Role, name: &str) -> Result<Slot, IoFault> {
        self.streams.reserve(1)?;
        self.opens.note(role, name)?;
        match open_stream(&self.rt, &mut self.stdin_taken, name) {
            Ok(stream) => Ok(add_stream(&mut self.streams, role, stream)),
            Err(_) => {
                self.faults.raise(role);
                Err(IoFault::Failed)
            }
        }
    }

    /// The bytes that the answer counts, and no others, were taken from the stream of the slot alone.
    fn read(&mut self, slot: Slot, buf: &mut [u8]) -> Result<usize, IoFault>
        requires { IsTrue (is_slot (stream_roles self.old.streams.items) slot) }
        ensures bytes { IfOk result (Reads buf.new None None) }
        ensures known { is_slot (stream_roles self.new.streams.items) ≡ is_slot (stream_roles self.old.streams.items) }
        ensures opens { self.new.opens ≡ self.old.opens }
        ensures cause { HasCause (count_of self.old.faults slot.role) (count_of self.new.faults slot.role) result }
        ensures others { (r : Role) → r ≢ slot.role → count_of self.new.faults r ≡ count_of self.old.faults r }

        // What the streams tell of their bytes, and that no memory is taken.
        ensures taken { ReadConsumes (left_at R.File.remaining R.Reader.remaining self.old.streams.items slot.index)
            (left_at R.File.remaining R.Reader.remaining self.new.streams.items slot.index) result buf.new }
        ensures untouched { (i : ℕ) → i ≢ slot.index → slice_get self.new.streams.items i ≡ slice_get self.old.streams.items i }
        ensures memory { result ≢ Err IoFault.Memory }
    {
        match read_stream(&mut self.streams, slot.index, buf) {
            Ok(n) => Ok(n),
            Err(_) => {
                self.faults.raise(slot.role);
                Err(IoFault::Failed)
            }
        }
    }
}

/// Opens a file, or standard input where it isn't taken yet.
fn open_stream<R: Files + Input>(
    rt: &R,
    stdin_taken: &mut bool,
    name: &str,
) -> io::Result<Stream<R::File, R::Reader>>
    ensures once { name.now ≡ codes "stdin" → is_ok result ≡ not stdin_taken.old }
    ensures taken { name.now ≡ codes "stdin" → stdin_taken.new ≡ true }
    ensures files { name.now ≢ codes "stdin" → stdin_taken.new ≡ stdin_taken.old }
{
    if name != STDIN {
        return Ok(Stream::File(fs::open(rt, name)?));
    }
    if *stdin_taken {
        return Err(io::Error::other("standard input is open already"));
    }
    *stdin_taken = true;
    Ok(Stream::Stdin(rt.reader()))
}

/// Adds a stream in room that is there.
fn add_stream<F: Drop, I: Drop>(
    streams: &mut Vec<OpenStream<F, I>>,
    role: Role,
    stream: Stream<F, I>,
) -> Slot
    requires { vec_len streams.old < vec_capacity streams.old }
    ensures added { streams.new.items ≡ streams.old.items ++ (record { role = role; stream = stream }) ∷ [] }
    ensures slot { result ≡ record { index = length streams.old.items; role = role } }
{
    let index = streams.len();
    streams.push(OpenStream { role, stream }).unwrap();
    Slot { index, role }
}

/// Reads the next bytes of a stream.
fn read_stream<F: Read, I: Read>(
    streams: &mut Vec<OpenStream<F, I>>,
    index: usize,
    buf: &mut [u8],
) -> io::Result<usize>
    requires { index < vec_len streams.old }
    ensures bound { ReadsAtMost result buf.new }
    ensures taken { ReadConsumes (left_at F.remaining I.remaining streams.old.items index) (left_at F.remaining I.remaining streams.new.items index) result buf.new }
    ensures untouched { (i : ℕ) → i ≢ index → slice_get streams.new.items i ≡ slice_get streams.old.items i }
    ensures roles { stream_roles streams.new.items ≡ stream_roles streams.old.items }
{
    match &mut streams[index].stream {
        Stream::File(file) => file.read(buf),
        Stream::Stdin(input) => input.read(buf),
    }
}
