//! Checks of certificates as whole calls: each status once.
#![tactic(auto)]

use crate::calls::{Call, Case, End, Fails, NOTHING, USAGE, Wanted, ends_so_in_pieces, is_met};
use crate::case;
use lv_run::Status;
use std::alloc::{AllocError, Global};
use test_texts::STUCK_CLOSED;

pub const CHECK: &[&str] = &["livingstone", "check", "valve.lv", "a.ses"];

pub const UNREAD: &[u8] = b"cannot read certificate\n";

/// A line, and what stands in its place.
#[derive(Clone, Copy)]
struct Edit {
    old: &'static [u8],
    new: &'static [u8],
}

/// A certificate that is `STUCK_CLOSED` but for some lines, and what is said of it.
struct Certificate {
    name: &'static str,
    edits: &'static [Edit],
    status: Status,
    says: &'static [u8],
}

const BY_TARGET: Edit = Edit {
    old: b"split 3 listed 1\n",
    new: b"split 3 target 1\n",
};

const CERTIFICATES: &[Certificate] = &[
    Certificate {
        name: "a valid certificate",
        edits: &[],
        status: Status::Done,
        says: b"valid\n",
    },
    Certificate {
        name: "a split by a target",
        edits: &[
            Edit {
                old: b"k 4\n",
                new: b"k 4 distinct\n",
            },
            BY_TARGET,
        ],
        status: Status::Done,
        says: b"valid\n",
    },
    Certificate {
        name: "a split by a target that is not asked for",
        edits: &[BY_TARGET],
        status: Status::Invalid,
        says: b"invalid 18\n",
    },
    Certificate {
        name: "what is left of the candidates is not looked at",
        edits: &[Edit {
            old: b"split 4 conflict 3\n",
            new: b"",
        }],
        status: Status::Invalid,
        says: b"invalid 19\n",
    },
];

/// What stands in the place of a line.
fn in_place_of<'a>(line: &'a [u8], edits: &[Edit]) -> &'a [u8] {
    for edit in edits {
        if edit.old == line {
            return edit.new;
        }
    }
    line
}

fn edited(alloc: Global, text: &[u8], edits: &[Edit]) -> Result<Vec<u8>, AllocError> {
    let mut out = Vec::new(alloc);
    for line in text.split_inclusive(|byte| *byte == b'\n') {
        out.extend_from_slice(in_place_of(line, edits))?;
    }
    Ok(out)
}

/// Whether this is said of the certificate.
fn is_judged(alloc: Global, certificate: &Certificate) -> Result<bool, AllocError> {
    let text = edited(alloc, STUCK_CLOSED, certificate.edits)?;
    let call = Call {
        words: CHECK,
        second: text.as_slice(),
        fails: NOTHING,
    };
    let end = End {
        status: certificate.status,
        out: certificate.says,
        err: b"",
    };
    ends_so_in_pieces(alloc, &call, Wanted::Just(end))
}

const CALLS: &[Case] = &[
    case!("a text out of form", CHECK, b"" => Invalid, b"invalid 1\n", b""),
    case!(
        "too few words", &["livingstone", "check", "valve.lv"], STUCK_CLOSED
        => WordsRefused, b"", USAGE
    ),
    case!(
        "a refused model", &["livingstone", "check", "bad.lv", "absent"], STUCK_CLOSED
        => ModelRefused, b"", b"model 1 M04\n"
    ),
    case!(
        "a certificate that is not there", &["livingstone", "check", "valve.lv", "absent"], STUCK_CLOSED
        => SecondUnread, b"", UNREAD
    ),
    case!("the write fails", CHECK, STUCK_CLOSED; out fails at 1 => OutputFailed, b"", b""),
    case!("the flush fails", CHECK, b""; out fails at 2 => OutputFailed, b"invalid 1\n", b""),
    case!(
        "the line on standard error fails", &["livingstone", "check", "bad.lv", "a.ses"], STUCK_CLOSED; err fails at 1
        => OutputFailed, b"", b""
    ),
];

#[test]
fn certificates_in_pieces(rt: HostRuntime) -> Result<(), AllocError> {
    for certificate in CERTIFICATES {
        assert!(rt; is_judged(rt.alloc(), certificate)?, "{}", certificate.name);
    }
    Ok(())
}

#[test]
fn calls_to_check(rt: HostRuntime) -> Result<(), AllocError> {
    for case in CALLS {
        assert!(rt; is_met(rt.alloc(), case)?, "{}", case.name);
    }
    Ok(())
}

#[test]
fn numbers_of_the_statuses(rt: HostRuntime) -> Result<(), AllocError> {
    assert!(rt; Status::Done.code() == 0);
    assert!(rt; Status::Invalid.code() == 9);
    Ok(())
}
