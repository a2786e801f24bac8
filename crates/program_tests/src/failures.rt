//! Each call on the shelf and on the sinks failing in its turn, until a run meets no fault: files come byte by byte or whole, and
//! sinks take a byte at a time or all.
#![tactic(auto)]

use crate::calls::{Call, Fails, NOTHING, Pieces, Wanted, status_of};
use crate::checks::{CHECK, UNREAD};
use lv_run::Status;
use std::alloc::{AllocError, Global};
use test_texts::{STUCK_CLOSED, VALVE};

const RUN: &[&str] = &["livingstone", "run", "valve.lv", "a.ses"];

/// An open command without an outflow, diagnosed.
const SESSION: &[u8] = b"command v.cmd = open
observe o v.out = zero
diagnose
conflicts
";

const REPLIES: &[u8] = b"ok
ok
settled 1
1 cost 3 from 1: v closed>stuck_closed #3
conflicts 3 trials 4
1: v closed>open #1
2: v closed stay
3: v closed>stuck_open #6
";

const VERDICT: &[u8] = b"valid\n";

const REFUSAL: &[u8] = b"model 1 M04\n";

/// Whose calls fail.
#[derive(Clone, Copy)]
enum Failing {
    Shelf,
    Output,
    Errors,
}

/// A call, and what it comes to where nothing fails.
#[derive(Clone, Copy)]
struct Row {
    name: &'static str,
    words: &'static [&'static str],
    second: &'static [u8],
    status: Status,
    wanted: Wanted<'static>,
}

const RUNS: Row = Row {
    name: "run",
    words: RUN,
    second: SESSION,
    status: Status::Done,
    wanted: Wanted::OrFault {
        out: REPLIES,
        err: b"",
        unread: b"cannot read session\n",
    },
};

const CHECKS: Row = Row {
    name: "check",
    words: CHECK,
    second: STUCK_CLOSED,
    status: Status::Done,
    wanted: Wanted::OrFault {
        out: VERDICT,
        err: b"",
        unread: UNREAD,
    },
};

const REFUSED: Row = Row {
    name: "refused",
    words: &["livingstone", "run", "bad.lv", "a.ses"],
    second: SESSION,
    status: Status::ModelRefused,
    wanted: Wanted::OrFault {
        out: b"",
        err: REFUSAL,
        unread: b"",
    },
};

/// The calls of these numbers fail.
fn fails_of(failing: Failing, numbers: &[u64]) -> Fails<'_> {
    match failing {
        Failing::Shelf => Fails {
            shelf: numbers,
            ..NOTHING
        },
        Failing::Output => Fails {
            out: numbers,
            ..NOTHING
        },
        Failing::Errors => Fails {
            err: numbers,
            ..NOTHING
        },
    }
}

fn call_of<'a>(row: &Row, fails: Fails<'a>) -> Call<'a> {
    Call {
        words: row.words,
        second: row.second,
        fails,
    }
}

/// The row's call with the call of this number failing: its status, if its texts are as they should be.
fn status_with(
    alloc: Global,
    row: &Row,
    pieces: Pieces,
    failing: Failing,
    number: u64,
) -> Result<Option<Status>, AllocError> {
    let numbers = [number];
    let call = call_of(row, fails_of(failing, numbers.as_slice()));
    status_of(alloc, &call, pieces, row.wanted)
}

/// How many calls on the shelf are for the model, and for the second file: each is opened, read, and read once more at its
/// end.
fn shelf_calls(row: &Row, piece: usize) -> (u64, u64) {
    if piece == 1 {
        return (VALVE.len() as u64 + 2, row.second.len() as u64 + 2);
    }
    (3, 3)
}

/// The status where the shelf's call of this number fails.
fn shelf_status(row: &Row, piece: usize, number: u64) -> Status {
    let (model, second) = shelf_calls(row, piece);
    if number <= model {
        return Status::ModelUnread;
    }
    if number - model <= second {
        return Status::SecondUnread;
    }
    Status::Done
}

/// Whether the faults of the shelf are some of the model and then some of the second file, and then there is none.
fn fails_on_the_shelf(alloc: Global, row: &Row, piece: usize) -> Result<bool, AllocError> {
    let pieces = Pieces {
        file: piece,
        out: 4096,
        err: 7,
    };
    for number in 1..2000u64 {
        let due = shelf_status(row, piece, number);
        if status_with(alloc, row, pieces, Failing::Shelf, number)? != Some(due) {
            return Ok(false);
        }
        if due == row.status {
            return Ok(true);
        }
    }
    Ok(false)
}

#[test]
fn each_call_on_the_shelf_failing(rt: HostRuntime) -> Result<(), AllocError> {
    for row in [&RUNS, &CHECKS] {
        assert!(rt;
            fails_on_the_shelf(rt.alloc(), row, 1)?,
            "{}, byte by byte",
            row.name
        );
        assert!(rt; fails_on_the_shelf(rt.alloc(), row, 4096)?, "{}", row.name);
    }
    Ok(())
}

/// A row, whose calls fail, how much the sinks take at a time, and how many calls fail at least.
struct Sunk {
    row: Row,
    failing: Failing,
    taken: usize,
    least: u64,
}

const SINKS: &[Sunk] = &[
    Sunk {
        row: RUNS,
        failing: Failing::Output,
        taken: 1,
        least: REPLIES.len() as u64 + 1,
    },
    Sunk {
        row: CHECKS,
        failing: Failing::Output,
        taken: 1,
        least: VERDICT.len() as u64 + 1,
    },
    Sunk {
        row: REFUSED,
        failing: Failing::Errors,
        taken: 1,
        least: REFUSAL.len() as u64,
    },
    Sunk {
        row: RUNS,
        failing: Failing::Output,
        taken: 4096,
        least: 2,
    },
    Sunk {
        row: CHECKS,
        failing: Failing::Output,
        taken: 4096,
        least: 2,
    },
    Sunk {
        row: REFUSED,
        failing: Failing::Errors,
        taken: 4096,
        least: 1,
    },
];

/// Whether each call on a sink that is reached ends the run with the status of a failed output, so many at least.
fn fails_on_a_sink(alloc: Global, sunk: &Sunk) -> Result<bool, AllocError> {
    let pieces = Pieces {
        file: 4096,
        out: sunk.taken,
        err: sunk.taken,
    };
    for number in 1..2000u64 {
        let status = status_with(alloc, &sunk.row, pieces, sunk.failing, number)?;
        if status == Some(sunk.row.status) {
            return Ok(number > sunk.least);
        }
        if status != Some(Status::OutputFailed) {
            return Ok(false);
        }
    }
    Ok(false)
}

#[test]
fn each_call_on_a_sink_failing(rt: HostRuntime) -> Result<(), AllocError> {
    for sunk in SINKS {
        assert!(rt;
            fails_on_a_sink(rt.alloc(), sunk)?,
            "{} {}",
            sunk.row.name,
            sunk.taken
        );
    }
    Ok(())
}
