//! Whole calls over files and sinks in memory. What is filled is handed on by reference, and a function owns one shelf or
//! one sink, so little is let go of at its exits.

use lv_io::{MemShelf, MemSink, Role};
use lv_run::{Status, livingstone};
use std::alloc::{AllocError, Global};
use test_texts::VALVE;

pub const USAGE: &[u8] =
    b"usage: livingstone run MODEL SESSION, check MODEL CERT, print MODEL, generate KIND N, drive N, lanes MODEL SESSION, plant MODEL SCRIPT
";

/// What tells that the model's file could not be read.
pub const MODEL_UNREAD: &[u8] = b"cannot read model\n";

/// The numbers of the calls on the shelf and on the sinks that fail. Where all comes at once, the first three on the shelf
/// open and read the model, the next three the second file.
#[derive(Clone, Copy)]
pub struct Fails<'a> {
    pub shelf: &'a [u64],
    pub out: &'a [u64],
    pub err: &'a [u64],
}

pub const NOTHING: Fails<'static> = Fails {
    shelf: &[],
    out: &[],
    err: &[],
};

/// How many bytes of a file come and the sinks take at a time.
#[derive(Clone, Copy)]
pub struct Pieces {
    pub file: usize,
    pub out: usize,
    pub err: usize,
}

const WHOLE: Pieces = Pieces {
    file: 4096,
    out: 4096,
    err: 7,
};

const BYTES: Pieces = Pieces {
    file: 1,
    out: 4096,
    err: 7,
};

/// A call: its words, the second file's text, and what fails.
#[derive(Clone, Copy)]
pub struct Call<'a> {
    pub words: &'a [&'a str],
    pub second: &'a [u8],
    pub fails: Fails<'a>,
}

/// What a call ends with: its status, and the texts on the output and on standard error.
#[derive(Clone, Copy)]
pub struct End<'a> {
    pub status: Status,
    pub out: &'a [u8],
    pub err: &'a [u8],
}

/// What is wanted of a call.
#[derive(Clone, Copy)]
pub enum Wanted<'a> {
    /// That it ends so.
    Just(End<'a>),
    /// That it is done, and so many lines are written.
    Lines(usize),
    /// That these are the texts, or what it tells is of a fault: this line of one of the second file.
    OrFault {
        out: &'a [u8],
        err: &'a [u8],
        unread: &'a [u8],
    },
}

fn add_file(
    alloc: Global,
    files: &mut Vec<(String, Vec<u8>)>,
    name: &str,
    text: &[u8],
) -> Result<(), AllocError> {
    let name = String::from_str(alloc, name)?;
    let text = Vec::from_slice(alloc, text)?;
    files.push((name, text))?;
    Ok(())
}

/// Adds `valve.lv`, `bad.lv`, which is no model, and the second file as `a.ses`.
fn add_files(
    alloc: Global,
    files: &mut Vec<(String, Vec<u8>)>,
    second: &[u8],
) -> Result<(), AllocError> {
    add_file(alloc, files, "valve.lv", VALVE)?;
    add_file(alloc, files, "bad.lv", b"no model\n")?;
    add_file(alloc, files, "a.ses", second)
}

fn files_of(alloc: Global, second: &[u8]) -> Result<Vec<(String, Vec<u8>)>, AllocError> {
    let mut files = Vec::new(alloc);
    add_files(alloc, &mut files, second)?;
    Ok(files)
}

fn shelf_of(alloc: Global, call: &Call<'_>, piece: usize) -> Result<MemShelf, AllocError> {
    let fails = Vec::from_slice(alloc, call.fails.shelf)?;
    Ok(MemShelf::new(alloc, files_of(alloc, call.second)?, piece, fails))
}

fn sink_of(alloc: Global, takes: usize, fails: &[u64]) -> Result<MemSink, AllocError> {
    Ok(MemSink::new(alloc, takes, Vec::from_slice(alloc, fails)?))
}

fn add_words(alloc: Global, words: &mut Vec<String>, texts: &[&str]) -> Result<(), AllocError> {
    for text in texts {
        words.push(String::from_str(alloc, text)?)?;
    }
    Ok(())
}

fn words_of(alloc: Global, texts: &[&str]) -> Result<Vec<String>, AllocError> {
    let mut words = Vec::new(alloc);
    add_words(alloc, &mut words, texts)?;
    Ok(words)
}

fn line_count(text: &[u8]) -> usize {
    text.iter().filter(|byte| **byte == b'\n').count()
}

/// Whether what stands on the output is a front of what is due, and on standard error is the line of the status.
fn tells(out: &[u8], err: &[u8], unread: &[u8], end: End<'_>) -> bool {
    out.starts_with(end.out)
        && match end.status {
            Status::ModelUnread => end.out.is_empty() && end.err == MODEL_UNREAD,
            Status::SecondUnread => end.err == unread,
            Status::OutputFailed => err.starts_with(end.err),
            _ => end.out == out && end.err == err,
        }
}

fn is_just(due: End<'_>, end: End<'_>) -> bool {
    end.status == due.status && end.out == due.out && end.err == due.err
}

fn is_wanted(wanted: Wanted<'_>, end: End<'_>) -> bool {
    match wanted {
        Wanted::Just(due) => is_just(due, end),
        Wanted::Lines(count) => end.status == Status::Done && line_count(end.out) == count,
        Wanted::OrFault { out, err, unread } => tells(out, err, unread, end),
    }
}

/// Whether a count of the shelf rose just where the status tells of it.
fn tells_of_faults(shelf: &MemShelf, status: Status) -> bool {
    (shelf.faults(Role::Model) > 0) == (status == Status::ModelUnread)
        && (shelf.faults(Role::Second) > 0) == (status == Status::SecondUnread)
}

/// The status, if all is as wanted.
fn status_if_wanted(
    status: Status,
    shelf: &MemShelf,
    out: &MemSink,
    err: &MemSink,
    wanted: Wanted<'_>,
) -> Option<Status> {
    let end = End {
        status,
        out: out.text(),
        err: err.text(),
    };
    if tells_of_faults(shelf, status) && is_wanted(wanted, end) {
        return Some(status);
    }
    None
}

fn status_over(
    alloc: Global,
    call: &Call<'_>,
    shelf: &mut MemShelf,
    out: &mut MemSink,
    err: &mut MemSink,
) -> Result<Status, AllocError> {
    let words = words_of(alloc, call.words)?;
    Ok(livingstone(alloc, words, shelf, out, err))
}

fn status_over_sinks(
    alloc: Global,
    call: &Call<'_>,
    shelf: &mut MemShelf,
    out: &mut MemSink,
    takes: usize,
    wanted: Wanted<'_>,
) -> Result<Option<Status>, AllocError> {
    let mut err = sink_of(alloc, takes, call.fails.err)?;
    let status = status_over(alloc, call, shelf, out, &mut err)?;
    Ok(status_if_wanted(status, shelf, out, &err, wanted))
}

fn status_over_shelf(
    alloc: Global,
    call: &Call<'_>,
    shelf: &mut MemShelf,
    pieces: Pieces,
    wanted: Wanted<'_>,
) -> Result<Option<Status>, AllocError> {
    let mut out = sink_of(alloc, pieces.out, call.fails.out)?;
    status_over_sinks(alloc, call, shelf, &mut out, pieces.err, wanted)
}

/// The status that a call ends with, if all is as wanted.
pub fn status_of(
    alloc: Global,
    call: &Call<'_>,
    pieces: Pieces,
    wanted: Wanted<'_>,
) -> Result<Option<Status>, AllocError> {
    let mut shelf = shelf_of(alloc, call, pieces.file)?;
    status_over_shelf(alloc, call, &mut shelf, pieces, wanted)
}

/// Whether a call ends as wanted where so much comes at a time.
fn ends_so(
    alloc: Global,
    call: &Call<'_>,
    pieces: Pieces,
    wanted: Wanted<'_>,
) -> Result<bool, AllocError> {
    Ok(status_of(alloc, call, pieces, wanted)?.is_some())
}

/// Whether a call ends as wanted where all comes at once, and where it comes byte by byte.
pub fn ends_so_in_pieces(
    alloc: Global,
    call: &Call<'_>,
    wanted: Wanted<'_>,
) -> Result<bool, AllocError> {
    Ok(ends_so(alloc, call, WHOLE, wanted)? && ends_so(alloc, call, BYTES, wanted)?)
}

/// A call of a table, and what is wanted of it.
pub struct Case {
    pub name: &'static str,
    pub call: Call<'static>,
    pub wanted: Wanted<'static>,
}

/// Whether a call ends as wanted where all comes at once.
pub fn is_met(alloc: Global, case: &Case) -> Result<bool, AllocError> {
    ends_so(alloc, &case.call, WHOLE, case.wanted)
}

/// A case of a table: its name, the words, and the second file's text; behind `;` which call fails, on the shelf, the output or
/// standard error; behind `=>` the status and the texts on the output and on standard error, or how many lines are written.
#[macro_export]
macro_rules! case {
    ($name:expr, $words:expr, $second:expr; shelf fails at $at:literal => $status:ident, $out:expr, $err:expr) => {
        case!(failing, $name, $words, $second, [$at], [], [] => $status, $out, $err)
    };
    ($name:expr, $words:expr, $second:expr; out fails at $at:literal => $status:ident, $out:expr, $err:expr) => {
        case!(failing, $name, $words, $second, [], [$at], [] => $status, $out, $err)
    };
    ($name:expr, $words:expr, $second:expr; err fails at $at:literal => $status:ident, $out:expr, $err:expr) => {
        case!(failing, $name, $words, $second, [], [], [$at] => $status, $out, $err)
    };
    (failing, $name:expr, $words:expr, $second:expr, $shelf_at:expr, $out_at:expr, $err_at:expr => $status:ident, $out:expr, $err:expr) => {
        Case {
            name: $name,
            call: Call {
                words: $words,
                second: $second,
                fails: Fails {
                    shelf: &$shelf_at,
                    out: &$out_at,
                    err: &$err_at,
                },
            },
            wanted: Wanted::Just(End {
                status: Status::$status,
                out: $out,
                err: $err,
            }),
        }
    };
    ($name:expr, $words:expr, $second:expr => $count:literal lines) => {
        Case {
            name: $name,
            call: Call {
                words: $words,
                second: $second,
                fails: NOTHING,
            },
            wanted: Wanted::Lines($count),
        }
    };
    ($name:expr, $words:expr, $second:expr => $status:ident, $out:expr, $err:expr) => {
        case!(failing, $name, $words, $second, [], [], [] => $status, $out, $err)
    };
}

/// Whether a call with a text as its second file is done, and writes these replies, all at once and byte by byte.
pub fn replies_so<'a>(
    alloc: Global,
    words: &'a [&'a str],
    second: &'a [u8],
    replies: &'a [u8],
) -> Result<bool, AllocError> {
    let call = Call {
        words,
        second,
        fails: NOTHING,
    };
    let end = End {
        status: Status::Done,
        out: replies,
        err: b"",
    };
    ends_so_in_pieces(alloc, &call, Wanted::Just(end))
}

/// Lines over the valve, and what is replied to them.
pub struct Script {
    pub name: &'static str,
    pub lines: &'static [u8],
    pub replies: &'static [u8],
}

/// Whether the lines get their replies, with these words.
pub fn are_replied<'a>(
    alloc: Global,
    words: &'a [&'a str],
    script: &'a Script,
) -> Result<bool, AllocError> {
    replies_so(alloc, words, script.lines, script.replies)
}
