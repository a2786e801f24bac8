//! Logs that are valid and logs that aren't, over the clauses `a or b`, `not a or b`, `not b`.
ghost use Rattle.std.specs.Prelude.{◌≡◌};

use crate::literals::{A, B, NOT_A, NOT_B};
use lv_base::{ClauseId, Lit};
use lv_clauses::{ClauseSet, Hint, Log, Marks};
use lv_refcheck::check;
use std::alloc::{AllocError, Global};
use std::process::Abort;

const ONE: Hint = Hint::Given(ClauseId(0));

const TWO: Hint = Hint::Given(ClauseId(1));

const THREE: Hint = Hint::Given(ClauseId(2));

fn add_clauses(set: &mut ClauseSet) -> Result<(), AllocError>
    requires { set.old.bools ≡ 2 }
{
    set.add(&[A, B])?;
    set.add(&[NOT_A, B])?;
    set.add(&[NOT_B])?;
    Ok(())
}

fn three_clauses(alloc: Global) -> Result<ClauseSet, AllocError> {
    let mut set = ClauseSet::new(alloc, 2)?;
    add_clauses(&mut set)?;
    Ok(set)
}

fn log_of(
    alloc: Global,
    first: (&[Lit], &[Hint]),
    second: (&[Lit], &[Hint]),
) -> Result<Log, AllocError> {
    let mut log = Log::new(alloc)?;
    log.push(first.0, first.1)?;
    log.push(second.0, second.1)?;
    Ok(log)
}

fn answer_for(alloc: Global, log: &Log) -> Result<Option<usize>, AllocError> {
    check(alloc, &three_clauses(alloc)?, log)
}

/// What the checker answers for a log of one step and another over the three clauses.
fn answer(
    alloc: Global,
    first: (&[Lit], &[Hint]),
    second: (&[Lit], &[Hint]),
) -> Result<Option<usize>, AllocError> {
    answer_for(alloc, &log_of(alloc, first, second)?)
}

fn marks_are(marks: &Marks, wanted: &[Option<bool>]) -> bool {
    marks.as_slice() == wanted
}

fn marks_are_taken_and_cleared(rt: &impl Abort, marks: &mut Marks) -> Result<(), AllocError> {
    assert!(rt; marks.is_open(A) && marks.is_open(NOT_B));
    marks.take(NOT_A)?;
    assert!(rt; !marks.is_open(A) && marks.is_open(B));
    assert!(rt; marks_are(marks, &[Some(false), None]));
    marks.clear();
    assert!(rt; marks_are(marks, &[None, None]));
    Ok(())
}

#[test]
fn marks_come_and_go(rt: HostRuntime) -> Result<(), AllocError> {
    let mut marks = Marks::new(rt.alloc(), 2)?;
    marks_are_taken_and_cleared(&rt, &mut marks)
}

#[test]
fn valid_steps_follow(rt: HostRuntime) -> Result<(), AllocError> {
    let found = answer(
        rt.alloc(),
        (&[B], &[ONE, TWO]),
        (&[], &[Hint::Earlier(0), THREE]),
    )?;
    assert!(rt; found.is_none());
    Ok(())
}

/// A log of two steps, and the place of the first that doesn't follow.
struct BadLog {
    name: &'static str,
    first: (&'static [Lit], &'static [Hint]),
    second: (&'static [Lit], &'static [Hint]),
    place: usize,
}

const BAD_LOGS: &[BadLog] = &[
    BadLog {
        name: "ends early",
        first: (&[B], &[ONE, TWO]),
        second: (&[], &[Hint::Earlier(0)]),
        place: 1,
    },
    BadLog {
        name: "goes on",
        first: (&[B], &[ONE, TWO]),
        second: (&[], &[Hint::Earlier(0), THREE, ONE]),
        place: 1,
    },
    BadLog {
        name: "isn't unit",
        first: (&[], &[ONE, TWO]),
        second: (&[B], &[ONE, TWO]),
        place: 0,
    },
    BadLog {
        name: "looks ahead",
        first: (&[B], &[Hint::Earlier(1)]),
        second: (&[B], &[ONE, TWO]),
        place: 0,
    },
    BadLog {
        name: "repeats",
        first: (&[B, B], &[ONE, TWO]),
        second: (&[B], &[ONE, TWO]),
        place: 0,
    },
];

fn is_found(alloc: Global, bad: &BadLog) -> Result<bool, AllocError> {
    Ok(answer(alloc, bad.first, bad.second)? == Some(bad.place))
}

#[test]
fn bad_steps_are_found(rt: HostRuntime) -> Result<(), AllocError> {
    for bad in BAD_LOGS {
        assert!(rt; is_found(rt.alloc(), bad)?, "{}", bad.name);
    }
    Ok(())
}
