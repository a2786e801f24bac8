//! Sessions over a valve on a shelf and a sink in memory: what no clause says is that serving succeeds with ample memory,
//! and that the replies to a piece are one write.
#![tactic(auto)]

use lv_checker::model_of;
use lv_io::{MemShelf, MemSink, Role, Shelf};
use lv_model::Model;
use lv_serve::{ServeFault, serve};
use lv_session::{CompiledModel, Session};
use std::alloc::{AllocError, Global};
use test_texts::VALVE;

/// Which calls of the shelf fail, of which the first opens the session, and which of the sink; how serving then ends, and
/// whether what was written is flushed.
struct Outside {
    shelf_fails: &'static [u64],
    out_fails: &'static [u64],
    result: Result<(), ServeFault>,
    is_flushed: bool,
}

const FAULTLESS: Outside = Outside {
    shelf_fails: &[],
    out_fails: &[],
    result: Ok(()),
    is_flushed: true,
};

/// A session and the replies to it.
struct Case {
    name: &'static str,
    session: &'static [u8],
    replies: &'static [u8],
    outside: Outside,
}

const LINES: &[Case] = &[
    Case {
        name: "no line",
        session: b"",
        replies: b"",
        outside: FAULTLESS,
    },
    Case {
        name: "a line with no line feed",
        session: b"jump",
        replies: b"error S01\n",
        outside: FAULTLESS,
    },
    Case {
        name: "a line",
        session: b"jump\n",
        replies: b"error S01\n",
        outside: FAULTLESS,
    },
    Case {
        name: "lines with no reply",
        session: b"jump\r\n\n# x\ncommand v.cmd=none",
        replies: b"error S01\nok\n",
        outside: FAULTLESS,
    },
    Case {
        name: "carriage returns",
        session: b"jump\r\r\n\r",
        replies: b"error S16\n",
        outside: FAULTLESS,
    },
    Case {
        name: "a quit",
        session: b"quit\njump\n",
        replies: b"ok\n",
        outside: FAULTLESS,
    },
    Case {
        name: "no quit",
        session: b"quit x\njump\n",
        replies: b"error S02\nerror S01\n",
        outside: FAULTLESS,
    },
];

/// Two lines of one piece are one write and one flush, and the next read is the third call that can fail.
const WRITES: &[Case] = &[
    Case {
        name: "the write fails",
        session: b"jump\njump\n",
        replies: b"",
        outside: Outside {
            shelf_fails: &[],
            out_fails: &[1],
            result: Err(ServeFault::Write),
            is_flushed: false,
        },
    },
    Case {
        name: "the flush fails",
        session: b"jump\njump\n",
        replies: b"error S01\nerror S01\n",
        outside: Outside {
            shelf_fails: &[],
            out_fails: &[2],
            result: Err(ServeFault::Write),
            is_flushed: false,
        },
    },
    Case {
        name: "there is no third call",
        session: b"jump\njump\n",
        replies: b"error S01\nerror S01\n",
        outside: Outside {
            shelf_fails: &[],
            out_fails: &[3],
            result: Ok(()),
            is_flushed: true,
        },
    },
];

/// What was replied before a failed read stands and is flushed; a line torn by it is not served.
const READS: &[Case] = &[
    Case {
        name: "the second read fails",
        session: b"jump\n",
        replies: b"error S01\n",
        outside: Outside {
            shelf_fails: &[3],
            out_fails: &[],
            result: Err(ServeFault::Read),
            is_flushed: true,
        },
    },
    Case {
        name: "a line is torn",
        session: b"jump\njump",
        replies: b"error S01\n",
        outside: Outside {
            shelf_fails: &[3],
            out_fails: &[],
            result: Err(ServeFault::Read),
            is_flushed: true,
        },
    },
    Case {
        name: "nothing is read after a quit",
        session: b"quit\njump",
        replies: b"ok\n",
        outside: Outside {
            shelf_fails: &[3],
            out_fails: &[],
            result: Ok(()),
            is_flushed: true,
        },
    },
];

fn add_file(
    alloc: Global,
    files: &mut Vec<(String, Vec<u8>)>,
    bytes: &[u8],
) -> Result<(), AllocError> {
    let name = String::from_str(alloc, "a.ses")?;
    let bytes = Vec::from_slice(alloc, bytes)?;
    files.push((name, bytes))?;
    Ok(())
}

fn files_of(alloc: Global, case: &Case) -> Result<Vec<(String, Vec<u8>)>, AllocError> {
    let mut files = Vec::new(alloc);
    add_file(alloc, &mut files, case.session)?;
    Ok(files)
}

fn shelf_of(alloc: Global, case: &Case, piece: usize) -> Result<MemShelf, AllocError> {
    let fails = Vec::from_slice(alloc, case.outside.shelf_fails)?;
    Ok(MemShelf::new(alloc, files_of(alloc, case)?, piece, fails))
}

fn sink_of(alloc: Global, case: &Case) -> Result<MemSink, AllocError> {
    let fails = Vec::from_slice(alloc, case.outside.out_fails)?;
    Ok(MemSink::new(alloc, 4096, fails))
}

fn is_written(out: &MemSink, case: &Case) -> bool {
    out.text() == case.replies && out.is_flushed() == case.outside.is_flushed
}

fn is_served_to(
    alloc: Global,
    compiled: &CompiledModel<'_>,
    shelf: &mut MemShelf,
    out: &mut MemSink,
    case: &Case,
) -> Result<bool, AllocError> {
    match shelf.open(Role::Second, "a.ses") {
        Ok(slot) => {
            let session = Session::new(alloc, compiled)?;
            Ok(serve(alloc, session, shelf, slot, out) == case.outside.result)
        }
        Err(_) => Ok(false),
    }
}

fn is_served_from(
    alloc: Global,
    compiled: &CompiledModel<'_>,
    shelf: &mut MemShelf,
    case: &Case,
) -> Result<bool, AllocError> {
    let mut out = sink_of(alloc, case)?;
    Ok(is_served_to(alloc, compiled, shelf, &mut out, case)? && is_written(&out, case))
}

fn is_served_over(
    alloc: Global,
    model: &Model,
    case: &Case,
    piece: usize,
) -> Result<bool, AllocError> {
    let compiled = CompiledModel::new(alloc, model)?;
    let mut shelf = shelf_of(alloc, case, piece)?;
    is_served_from(alloc, &compiled, &mut shelf, case)
}

/// Whether a session of which at most so many bytes come at a time is served so.
fn is_served(alloc: Global, case: &Case, piece: usize) -> Result<bool, AllocError> {
    match model_of(alloc, VALVE) {
        Ok(model) => is_served_over(alloc, &model, case, piece),
        Err(_) => Ok(false),
    }
}

#[test]
fn lines_in_pieces(rt: HostRuntime) -> Result<(), AllocError> {
    for case in LINES {
        assert!(rt; is_served(rt.alloc(), case, 4096)?, "{}", case.name);
        assert!(rt;
            is_served(rt.alloc(), case, 1)?,
            "{}, byte by byte",
            case.name
        );
    }
    Ok(())
}

#[test]
fn one_write_for_a_piece(rt: HostRuntime) -> Result<(), AllocError> {
    for case in WRITES {
        assert!(rt; is_served(rt.alloc(), case, 4096)?, "{}", case.name);
    }
    Ok(())
}

#[test]
fn failed_reads(rt: HostRuntime) -> Result<(), AllocError> {
    for case in READS {
        assert!(rt; is_served(rt.alloc(), case, 4096)?, "{}", case.name);
    }
    Ok(())
}
