//! Each public call once with ample memory.
use crate::expected_texts::{MODEL, SESSION};
use lv_gen::{Generator, make_model, make_session, valves};
use std::test::Fail;

/// How many lines a text has.
fn lines(text: &[u8]) -> usize {
    text.iter().filter(|byte| **byte == b'\n').count()
}

#[test]
fn smallest_and_largest_series(rt: HostRuntime) -> Result<(), Fail> {
    assert_eq!(rt;
        (valves(31), valves(1), valves(30), valves(62)),
        (2, 3, 32, 2)
    );
    let two = make_model(rt.alloc(), 31)?;
    assert!(rt; two.as_slice() == MODEL);
    let again = make_model(rt.alloc(), 62)?;
    assert!(rt; again.as_slice() == MODEL);
    assert_eq!(rt; lines(make_model(rt.alloc(), 1)?.as_slice()), 28);
    assert_eq!(rt; lines(make_model(rt.alloc(), 30)?.as_slice()), 86);
    Ok(())
}

#[test]
fn session_of_two_valves(rt: HostRuntime) -> Result<(), Fail> {
    let session = make_session(rt.alloc(), 31)?;
    assert!(rt; session.starts_with(b"command v1.cmd = close\n"));
    assert!(rt; session.as_slice() == SESSION);
    Ok(())
}

#[test]
fn draws_stay_below_their_bound(rt: HostRuntime) -> Result<(), Fail> {
    let mut generator = Generator::new(31);
    assert_eq!(rt; generator.draw(4), 1);
    assert_eq!(rt; generator.draw(1), 0);
    Ok(())
}
