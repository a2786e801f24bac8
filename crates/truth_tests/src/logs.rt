//! Each public call once, with ample memory.

use lv_base::{BoolId, ClauseId, Lit};
use lv_clauses::{Hint, Log};
use std::alloc::AllocError;
use std::process::Abort;

const LIT: Lit = Lit {
    var: BoolId(4),
    sign: false,
};

/// Pushes two steps, and answers their places and the mark between them.
fn push_two(log: &mut Log) -> Result<(usize, usize, usize), AllocError> {
    let first = log.push(&[LIT], &[Hint::Given(ClauseId(7))])?;
    let mark = log.mark();
    let second = log.push(&[], &[Hint::Earlier(first), Hint::Given(ClauseId(2))])?;
    Ok((first, mark, second))
}

fn hints_are(log: &Log, place: usize, hints: &[Hint]) -> bool {
    place < log.len() && log.step(place).hints.as_slice() == hints
}

fn clause_is(log: &Log, place: usize, clause: &[Lit]) -> bool {
    place < log.len() && log.step(place).clause.as_slice() == clause
}

fn second_is_cut(rt: &impl Abort, log: &mut Log) -> Result<(), AllocError> {
    assert!(rt; log.is_empty());
    let (first, mark, second) = push_two(log)?;
    assert_eq!(rt; (first, second, log.len()), (0, 1, 2));
    assert!(rt; hints_are(log, second, &[Hint::Earlier(0), Hint::Given(ClauseId(2))]));
    assert!(rt; mark <= log.len());
    log.cut(mark);
    assert!(rt; log.len() == 1);
    assert!(rt; clause_is(log, first, &[LIT]));
    Ok(())
}

#[test]
fn steps_are_kept_and_cut(rt: HostRuntime) -> Result<(), AllocError> {
    let mut log = Log::new(rt.alloc())?;
    second_is_cut(&rt, &mut log)
}
