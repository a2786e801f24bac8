//! Shelves and sinks in memory, and whole files and texts over them.

use lv_io::{
    IoFault, MemShelf, MemSink, ReadFault, Role, Shelf, Sink, read_all, read_file, write_all,
};
use std::alloc::{AllocError, Global};

/// A shelf of two files, read three bytes at a time.
fn shelf(alloc: Global, fails: Vec<u64>) -> Result<MemShelf, AllocError> {
    let mut files = Vec::new(alloc);
    files.push((
        String::from_str(alloc, "valve")?,
        Vec::from_slice(alloc, b"model valve\n")?,
    ))?;
    files.push((String::from_str(alloc, "empty")?, Vec::new(alloc)))?;
    Ok(MemShelf::new(alloc, files, 3, fails))
}

#[test]
fn reads_whole_files_up_to_the_limit(rt: HostRuntime) {
    let alloc = rt.alloc();
    let mut shelf = shelf(alloc, Vec::new(alloc)).expect(&rt, "memory");
    let table: [(&str, u64, Result<&[u8], ReadFault>); 5] = [
        ("valve", 12, Ok(b"model valve\n")),
        ("valve", 11, Err(ReadFault::TooLong)),
        ("empty", 0, Ok(b"")),
        ("valve", u64::MAX, Ok(b"model valve\n")),
        ("pump", 12, Err(ReadFault::Failed)),
    ];
    for (name, limit, want) in table.iter() {
        let got = read_file(alloc, &mut shelf, Role::Model, name, *limit);
        match (&got, want) {
            (Ok(got), Ok(want)) => assert!(rt; got.as_slice() == *want, "{name}"),
            (Err(got), Err(want)) => assert_eq!(rt; got, want, "{name}"),
            _ => assert!(rt; false, "{name} {limit}"),
        }
    }
    assert_eq!(rt; shelf.faults(Role::Model), 1);
    assert_eq!(rt; shelf.faults(Role::Second), 0);
}

/// The third call, a read in mid-stream, fails, and counts for its role alone.
#[test]
fn a_failed_read_counts(rt: HostRuntime) {
    let alloc = rt.alloc();
    let fails = Vec::from_slice(alloc, &[3]).expect(&rt, "memory");
    let mut shelf = shelf(alloc, fails).expect(&rt, "memory");
    let slot = shelf.open(Role::Second, "valve").expect(&rt, "open");
    let got = read_all(alloc, &mut shelf, slot, 100);
    assert_eq!(rt; got.err(), Some(ReadFault::Failed));
    assert_eq!(rt; shelf.faults(Role::Second), 1);
    assert_eq!(rt; shelf.faults(Role::Model), 0);
}

/// The fifth call, a write in mid-stream, fails, and leaves a front of the bytes.
#[test]
fn writes_texts_whole_or_a_front(rt: HostRuntime) {
    let alloc = rt.alloc();
    let fails = Vec::from_slice(alloc, &[5]).expect(&rt, "memory");
    let mut sink = MemSink::new(alloc, 2, fails);
    assert_eq!(rt; write_all(&mut sink, b"ok\n"), Ok(()));
    assert!(rt; !sink.is_flushed());
    assert_eq!(rt; sink.flush(), Ok(()));
    assert!(rt; sink.is_flushed());
    assert_eq!(rt; write_all(&mut sink, b"more"), Err(IoFault::Failed));
    assert!(rt; sink.text() == b"ok\nmo".as_slice());
    assert_eq!(rt; write_all(&mut sink, b"more"), Ok(()));
    assert!(rt; sink.text() == b"ok\nmomore".as_slice());
    assert_eq!(rt; sink.faults(), 1);
}
