//! The files of the system, and writers, as shelf and sink.

use lv_io::{HostShelf, HostSink, IoFault, Role, Shelf, Sink, read_file, write_all};
use std::alloc::Global;
use std::io;
use std::io::Write;

/// A writer that takes few bytes at a time, and counts its flushes.
#[derive(Drop)]
struct SlowWriter {
    text: Vec<u8>,
    most: usize,
    flushes: u32,
    flush_fails: bool,
}

impl SlowWriter {
    fn new(alloc: Global, most: usize, flush_fails: bool) -> SlowWriter {
        SlowWriter {
            text: Vec::new(alloc),
            most,
            flushes: 0,
            flush_fails,
        }
    }
}

impl Write for SlowWriter {
    fn write(&mut self, bytes: &[u8]) -> io::Result<usize> {
        let n = bytes.len().min(self.most);
        self.text.extend_from_slice(&bytes[..n])?;
        Ok(n)
    }

    fn flush(&mut self) -> io::Result<()> {
        self.flushes = self.flushes.saturating_add(1);
        if self.flush_fails {
            return Err(io::Error::other("no flush"));
        }
        Ok(())
    }
}

/// A file that isn't there fails, standard input opens once, and this program begins as a program does.
#[test]
fn reads_files_of_the_system(rt: HostRuntime) {
    let alloc = rt.alloc();
    let mut shelf = HostShelf::new(alloc, &rt);
    let missing = shelf.open(Role::Model, "no such folder/no such file");
    assert_eq!(rt; missing.err(), Some(IoFault::Failed));
    assert!(rt; shelf.open(Role::Second, "stdin").is_ok());
    let again = shelf.open(Role::Second, "stdin");
    assert_eq!(rt; again.err(), Some(IoFault::Failed));
    let read = read_file(alloc, &mut shelf, Role::Model, "/dev/null", 0).expect(&rt, "read");
    assert!(rt; read.is_empty());
    let slot = shelf
        .open(Role::Model, "/proc/self/exe")
        .expect(&rt, "open");
    let mut front = [0u8; 4];
    assert_eq!(rt; shelf.read(slot, &mut front), Ok(4));
    assert_eq!(rt; front, [0x7f, b'E', b'L', b'F']);
}

/// A folder opens as a file does, and then can't be read.
#[test]
fn a_folder_is_not_read(rt: HostRuntime) {
    let alloc = rt.alloc();
    let mut shelf = HostShelf::new(alloc, &rt);
    let slot = shelf.open(Role::Second, "/").expect(&rt, "open");
    let mut front = [0u8; 4];
    assert_eq!(rt; shelf.read(slot, &mut front), Err(IoFault::Failed));
}

/// Every byte of a text goes to a writer that takes one at a time, and each flush is one of the writer.
#[test]
fn writes_and_flushes(rt: HostRuntime) {
    let mut writer = SlowWriter::new(rt.alloc(), 1, false);
    let mut sink = HostSink::new(&mut writer);
    assert_eq!(rt; write_all(&mut sink, b"ok\n"), Ok(()));
    assert_eq!(rt; sink.flush(), Ok(()));
    assert_eq!(rt; write_all(&mut sink, b"settled 0\n"), Ok(()));
    assert_eq!(rt; sink.flush(), Ok(()));
    assert!(rt; writer.text.as_slice() == b"ok\nsettled 0\n".as_slice());
    assert_eq!(rt; writer.flushes, 2);
}

/// A write that takes nothing fails, and so does a flush that fails.
#[test]
fn a_stuck_writer_fails(rt: HostRuntime) {
    let mut writer = SlowWriter::new(rt.alloc(), 0, true);
    let mut sink = HostSink::new(&mut writer);
    assert_eq!(rt; sink.write(b""), Ok(0));
    assert_eq!(rt; write_all(&mut sink, b"ok\n"), Err(IoFault::Failed));
    assert_eq!(rt; sink.flush(), Err(IoFault::Failed));
    assert!(rt; writer.text.is_empty());
    assert_eq!(rt; writer.flushes, 1);
}
