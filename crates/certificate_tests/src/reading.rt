//! Each public call with ample memory, and the first line out of form of small texts.
use super::texts::RECOVERY;
use lv_cert::laws::{
    certificate_is_one, every_text_is_read, fault_is_no_certificate, fault_is_one, line_reads_back,
};
use lv_cert::{CertFault, Head, Line, Literal, read_cert, write_cert};
use std::alloc::{AllocError, Global};
use std::test::Fail;
use test_texts::STUCK_CLOSED;

/// Whether bytes are a certificate that is written as these same bytes.
fn stays(alloc: Global, bytes: &[u8]) -> Result<bool, Fail> {
    let cert = read_cert(alloc, bytes)?;
    let text = write_cert(alloc, &cert)?;
    Ok(text.as_slice() == bytes)
}

/// The first line of a text that is out of form or order; 0 where none is.
fn fault(alloc: Global, bytes: &[u8]) -> Result<u64, Fail> {
    match read_cert(alloc, bytes) {
        Ok(_) => Ok(0),
        Err(CertFault::Form(line)) => Ok(line),
        Err(CertFault::Memory) => Err(Fail::from(CertFault::Memory)),
    }
}

/// The fault of a text that begins a diagnosis and goes on with this.
fn fault_behind(alloc: Global, more: &[u8]) -> Result<u64, Fail> {
    let mut text = Vec::from_slice(
        alloc,
        b"certificate diagnosis\nmodel v\nk 1\nstate 0\ncontrol\n",
    )?;
    text.extend_from_slice(more)?;
    fault(alloc, text.as_slice())
}

#[test]
fn certificates_are_read_and_written(rt: HostRuntime) -> Result<(), Fail> {
    line_reads_back();
    certificate_is_one();
    fault_is_one();
    fault_is_no_certificate();
    every_text_is_read();
    assert!(rt; stays(rt.alloc(), STUCK_CLOSED)?);
    assert!(rt; stays(rt.alloc(), RECOVERY)?);
    Ok(())
}

/// Whether the line is a limit of 4.
fn is_limit(line: &Line) -> bool {
    matches!(line, Line::Numbers(Head::Limit, numbers) if numbers.as_slice() == [4].as_slice())
}

/// Whether the line is a limit of 4 with distinct targets.
fn is_distinct_limit(line: &Line) -> bool {
    matches!(line, Line::Distinct(4))
}

/// Whether the line is the clause of the literal -3, by the hints 1 and 2.
fn is_clause(line: &Line) -> bool {
    let literal = Literal {
        negated: true,
        number: 3,
    };
    matches!(line, Line::Clause(literals, hints) if literals.as_slice() == [literal].as_slice() && hints.as_slice() == [1, 2].as_slice())
}

#[test]
fn lines_are_values(rt: HostRuntime) -> Result<(), Fail> {
    let text =
        b"certificate diagnosis\nmodel v\nk 4\nstate 0\ncontrol\nconflict\nclause -3 0 1 2 0\nend\n";
    let cert = read_cert(rt.alloc(), text)?;
    assert_eq!(rt; cert.lines().len(), 8);
    assert!(rt; cert.lines().get(2).is_some_and(is_limit));
    assert!(rt; cert.lines().get(6).is_some_and(is_clause));
    Ok(())
}

/// The text of a diagnosis with this line for its limit.
fn with_limit(alloc: Global, line: &[u8]) -> Result<Vec<u8>, AllocError> {
    let mut text = Vec::from_slice(alloc, b"certificate diagnosis\nmodel v\n")?;
    text.extend_from_slice(line)?;
    text.extend_from_slice(b"\nstate 0\ncontrol\nend\n")?;
    Ok(text)
}

#[test]
fn limits_of_distinct_targets(rt: HostRuntime) -> Result<(), Fail> {
    let text = with_limit(rt.alloc(), b"k 4 distinct")?;
    let cert = read_cert(rt.alloc(), text.as_slice())?;
    assert!(rt; cert.lines().get(2).is_some_and(is_distinct_limit));
    assert!(rt; stays(rt.alloc(), text.as_slice())?);
    for line in [
        b"k distinct".as_slice(),
        b"k distinct 4".as_slice(),
        b"k 4 Distinct".as_slice(),
        b"k 4 distinct 1".as_slice(),
        b"k 04 distinct".as_slice(),
    ] {
        let text = with_limit(rt.alloc(), line)?;
        assert_eq!(rt; fault(rt.alloc(), text.as_slice())?, 3);
    }
    let recovery = b"certificate recovery\nmodel v\nstate 0\ngoal g\nsplit 1 target 1\nend\n";
    assert_eq!(rt; fault(rt.alloc(), recovery)?, 5);
    Ok(())
}

#[test]
fn faults_of_order(rt: HostRuntime) -> Result<(), Fail> {
    assert_eq!(rt; fault(rt.alloc(), b"")?, 1);
    assert_eq!(rt; fault_behind(rt.alloc(), b"end\n")?, 0);
    assert_eq!(rt; fault_behind(rt.alloc(), b"")?, 6);
    assert_eq!(rt; fault_behind(rt.alloc(), b"end\nend\n")?, 7);
    assert_eq!(rt;
        fault_behind(
            rt.alloc(),
            b"listed 1\nnow\nnext\nlisted 1\nnow\nnext\nend\n"
        )?,
        9
    );
    assert_eq!(rt;
        fault_behind(rt.alloc(), b"conflict\nsplit 1 conflict 1\nend\n")?,
        7
    );
    assert_eq!(rt; fault_behind(rt.alloc(), b"split 1 recovery\nend\n")?, 6);
    assert_eq!(rt; fault_behind(rt.alloc(), b"split 1 target 1\nend\n")?, 0);
    assert_eq!(rt; fault_behind(rt.alloc(), b"split 1 target\nend\n")?, 6);
    Ok(())
}

#[test]
fn faults_of_lines(rt: HostRuntime) -> Result<(), Fail> {
    assert_eq!(rt; fault_behind(rt.alloc(), b"end")?, 6);
    assert_eq!(rt; fault_behind(rt.alloc(), b"end\r\n")?, 6);
    assert_eq!(rt; fault_behind(rt.alloc(), b"fact  now 1 1\nend\n")?, 6);
    assert_eq!(rt; fault_behind(rt.alloc(), b"fact now 01 1\nend\n")?, 6);
    assert_eq!(rt;
        fault_behind(rt.alloc(), b"conflict 1\nclause 0 0\nend\n")?,
        6
    );
    assert_eq!(rt;
        fault_behind(rt.alloc(), b"conflict 1 1\nclause 0 1 0\nend\n")?,
        0
    );
    assert_eq!(rt;
        fault_behind(rt.alloc(), b"conflict 1 1\nclause -0 0 1 0\nend\n")?,
        7
    );
    let largest = b"fact now 1000000000000000000000000000000 1\nend\n";
    assert_eq!(rt; fault_behind(rt.alloc(), largest)?, 0);
    let too_large = b"fact now 1000000000000000000000000000001 1\nend\n";
    assert_eq!(rt; fault_behind(rt.alloc(), too_large)?, 6);
    Ok(())
}
