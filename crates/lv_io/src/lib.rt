//! What lies outside: shelves of files that are opened by name and read piece by piece, and sinks that
//! texts are written to.
//!
//! The two traits say what any shelf and any sink keeps. `MemShelf` and `MemSink` are exact, for tests
//! and proofs; `HostShelf` and `HostSink` stand for the files and streams of the system, of whose bytes
//! nothing can be claimed. `read_all`, `read_file`, `write_all` and `flush_after` work over any of them.
#![tactic(auto)]

ghost use Rattle.std.specs.Prelude.{◌≡◌, ◌≢◌, ℕ, Bool, true, List, Option, IfOk, OnOk, OnErr, IsTrue};
ghost use Rattle.lv_io.specs.declared.IoFault.TheVariants.{Memory as IoMemory};
ghost use Rattle.lv_io.specs.declared.ReadFault.TheVariants.{Memory as ReadMemory};
ghost use Rattle.lv_io.specs.Faults.{read_fault_of};

mod flush;
mod host_shelf;
mod host_sink;
mod mem_shelf;
mod mem_sink;
mod plan;
mod shelf_log;
mod whole;

pub use flush::flush_after;
pub use host_shelf::HostShelf;
pub use host_sink::HostSink;
pub use mem_shelf::MemShelf;
pub use mem_sink::MemSink;
use std::alloc::{AllocError, AllocFailed};
use thiserror::Error;
pub use whole::{read_all, read_file, write_all};

/// Why a call on a shelf or a sink gave nothing.
#[derive(Debug, Drop, PartialEq, Eq, Error)]
pub enum IoFault {
    /// The outside failed. The count of faults of the object that was called rose.
    #[error("the file or stream failed")]
    Failed,
    /// Memory was wanting. No count of faults changes.
    #[error("out of memory")]
    Memory,
}

/// Why a file was not read whole.
#[derive(Debug, Drop, PartialEq, Eq, Error)]
pub enum ReadFault {
    /// The shelf failed. The count of faults of the slot's role rose.
    #[error("the file failed")]
    Failed,
    /// More bytes are there than the limit allows.
    #[error("the file is too long")]
    TooLong,
    /// Memory was wanting. No count of faults changes.
    #[error("out of memory")]
    Memory,
}

/// What a file is opened for. Faults are counted for each role apart.
#[derive(Clone, Copy, Debug, PartialEq, Eq)]
pub enum Role {
    /// The model text.
    Model,
    /// The other file: a session or a certificate.
    Second,
}

/// A file that a shelf has opened. It is good for the shelf that answered it, and for no other.
#[derive(Clone, Copy, Debug, PartialEq, Eq)]
pub struct Slot {
    /// The place of the open among those that the shelf answered, from 0.
    pub index: usize,
    /// What the file was opened for.
    pub role: Role,
}

/// Files that are opened by name, and then read piece by piece.
pub trait Shelf {
    ghost use Rattle.lv_io.specs.declared.Role.{Role};
    ghost use Rattle.lv_io.specs.declared.Slot.{Slot};
    ghost use Rattle.lv_io.specs.Outside.{Opened, recorded, HasCause, Reads};

    // The bytes of the file of a name, where the shelf tells it and has one.
    ghost file: { Self → List ℕ → Option (List ℕ) };

    // What is left to read of a slot, where the shelf tells it.
    ghost rest: { Self → Slot → Option (List ℕ) };

    // A slot was answered by an `open` of this shelf.
    ghost knows: { Self → Slot → Bool };

    // The opens made so far, in order.
    ghost opens: { Self → List Opened };

    // The faults so far of each role.
    ghost faults: { Self → Role → ℕ };

    /// Opens the file of a name for a role. The slot stands at the first byte.
    fn open(&mut self, role: Role, name: &str) -> Result<Slot, IoFault>
        ensures role { IfOk result (λ slot. slot.role ≡ role) }
        ensures known { IfOk result (λ slot. IsTrue (knows self.new slot)) }
        ensures bytes { IfOk result (λ slot. rest self.new slot ≡ file self.old name.now) }
        ensures stays { (s : Slot) → IsTrue (knows self.old s) → IsTrue (knows self.new s) }
        ensures left { (s : Slot) → IsTrue (knows self.old s) → rest self.new s ≡ rest self.old s }

        // What is recorded, and what never changes.
        ensures opens { opens self.new ≡ recorded (opens self.old) (record { role = role; name = name.now }) result }
        ensures files { file self.new ≡ file self.old }

        // Whose fault it was.
        ensures cause { HasCause (faults self.old role) (faults self.new role) result }
        ensures others { (r : Role) → r ≢ role → faults self.new r ≡ faults self.old r };

    /// Reads the next bytes of a slot into the front of `buf`, at least one where there is one and the
    /// buffer has room, and answers how many. After an error nothing of the slot was taken.
    fn read(&mut self, slot: Slot, buf: &mut [u8]) -> Result<usize, IoFault>
        requires { IsTrue (knows self.old slot) }
        ensures bytes { IfOk result (Reads buf.new (rest self.old slot) (rest self.new slot)) }
        ensures err { OnErr result (rest self.new slot ≡ rest self.old slot) }
        ensures left { (s : Slot) → s ≢ slot → rest self.new s ≡ rest self.old s }

        // What never changes.
        ensures known { knows self.new ≡ knows self.old }
        ensures opens { opens self.new ≡ opens self.old }
        ensures files { file self.new ≡ file self.old }

        // Whose fault it was.
        ensures cause { HasCause (faults self.old slot.role) (faults self.new slot.role) result }
        ensures others { (r : Role) → r ≢ slot.role → faults self.new r ≡ faults self.old r };
}

/// A stream that text is written to.
pub trait Sink {
    ghost use Rattle.lv_io.specs.Outside.{HasCause, Writes, flushed_after};

    // The text written so far, where the sink tells it.
    ghost text: { Self → Option (List ℕ) };

    // All that was written is handed on.
    ghost is_flushed: { Self → Bool };

    // The faults so far.
    ghost faults: { Self → ℕ };

    /// Takes the front of `bytes`, at least one byte where there is one, and answers how many it took.
    /// After an error nothing was taken.
    fn write(&mut self, bytes: &[u8]) -> Result<usize, IoFault>
        ensures text { IfOk result (Writes bytes.now (text self.old) (text self.new)) }
        ensures err { OnErr result (text self.new ≡ text self.old) }
        ensures flushed { is_flushed self.new ≡ flushed_after bytes.now (is_flushed self.old) }
        ensures cause { HasCause (faults self.old) (faults self.new) result };

    /// Hands on all that was written.
    fn flush(&mut self) -> Result<(), IoFault>
        ensures text { text self.new ≡ text self.old }
        ensures flushed { OnOk result (is_flushed self.new ≡ true) }
        ensures cause { HasCause (faults self.old) (faults self.new) result };
}

impl From<AllocError> for IoFault {
    ghost from_gives = { λ _ fault. fault ≡ IoMemory };

    fn from(_error: AllocError) -> IoFault {
        IoFault::Memory
    }
}

impl<T: Drop> From<AllocFailed<T>> for IoFault {
    ghost from_gives = { λ _ fault. fault ≡ IoMemory };

    fn from(_error: AllocFailed<T>) -> IoFault {
        IoFault::Memory
    }
}

impl From<AllocError> for ReadFault {
    ghost from_gives = { λ _ fault. fault ≡ ReadMemory };

    fn from(_error: AllocError) -> ReadFault {
        ReadFault::Memory
    }
}

impl From<IoFault> for ReadFault {
    ghost from_gives = { λ cause fault. fault ≡ read_fault_of cause };

    fn from(fault: IoFault) -> ReadFault {
        match fault {
            IoFault::Failed => ReadFault::Failed,
            IoFault::Memory => ReadFault::Memory,
        }
    }
}
