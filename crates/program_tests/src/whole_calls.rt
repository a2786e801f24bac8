//! Whole calls over files and sinks in memory: what no clause says is that they succeed with ample
//! memory, and what the texts of the examples are.
#![tactic(auto)]

use crate::calls::{
    Call, Case, End, Fails, MODEL_UNREAD, NOTHING, USAGE, Wanted, ends_so_in_pieces, is_met,
    replies_so,
};
use crate::case;
use crate::expected_texts::MODEL;
use lv_run::Status;
use std::alloc::{AllocError, Global};

/// A text of the second version, with each form that the first lacks.
const SECOND: &[u8] = b"version 2
model m
domain d a b
type t
control c d
mode m
mode n
in m | n c = a
fault -> m cost 7
fault m -> n cost 3 repair c = a
end
part p t m
";

const SECOND_CANONICAL: &[u8] = b"version 2
model m
domain d a b
type t
control c d
mode m
mode n
in m|n c=a
fault->m cost 7
fault m->n cost 3 repair c=a
end
part p t m
";

const COMMANDED: &[u8] = b"ok
settled 3
1 cost 0 from 1: v closed>open #1
2 cost 3 from 1: v closed>stuck_closed #3
3 cost 8 from 1: v closed>stuck_open #6
";

const AT_REST: &[u8] = b"settled 3
1 cost 0 from 1: -
2 cost 3 from 1: v closed>stuck_closed #3
3 cost 8 from 1: v closed>stuck_open #6
";

const RUN: &[&str] = &["livingstone", "run", "valve.lv", "a.ses"];

const FIRST: &[u8] = b"command v.cmd = open\ndiagnose\n";

const PRINT: &[&str] = &["livingstone", "print", "a.ses"];

/// The session of 31 as an independent reference program runs it.
const DRIVEN: &[u8] = b"drive 31
replies 123
errors 4
settled 20
unsettled 0
trials 55
tracked 1
";

const CALLS: &[Case] = &[
    case!("an empty session", RUN, b"" => Done, b"", b""),
    case!(
        "a refused model", &["livingstone", "run", "bad.lv", "a.ses"], FIRST
        => ModelRefused, b"", b"model 1 M04\n"
    ),
    case!("too few words", &["livingstone", "run", "valve.lv"], FIRST => WordsRefused, b"", USAGE),
    case!(
        "a file word of a dash", &["livingstone", "run", "-", "a.ses"], FIRST
        => WordsRefused, b"", USAGE
    ),
    // Behind `--` a word that begins with `-` is the name of a file.
    case!(
        "names behind dashes", &["livingstone", "run", "valve.lv", "--", "-a.ses"], FIRST
        => SecondUnread, b"", b"cannot read session\n"
    ),
    case!(
        "a model that is not there", &["livingstone", "run", "no.lv", "a.ses"], FIRST
        => ModelUnread, b"", MODEL_UNREAD
    ),
    case!(
        "a session that is not there", &["livingstone", "run", "valve.lv", ""], FIRST
        => SecondUnread, b"", b"cannot read session\n"
    ),
    case!(
        "no model has the number 0", &["livingstone", "generate", "model", "0"], b""
        => WordsRefused, b"", USAGE
    ),
    case!(
        "a printed model of the second version", PRINT, SECOND
        => Done, SECOND_CANONICAL, b""
    ),
    case!(
        "a form of the second version in a text of the first", PRINT, b"version 1\nmodel m\ntype t\nin m | n c = a\n"
        => ModelRefused, b"", b"model 4 M05\n"
    ),
    case!(
        "a version that is none", PRINT, b"version 3"
        => ModelRefused, b"", b"model 1 M06\n"
    ),
    case!(
        "a printed model that is not there", &["livingstone", "print", "absent"], b""
        => ModelUnread, b"", MODEL_UNREAD
    ),
    case!(
        "a refused model is not printed", &["livingstone", "print", "bad.lv"], b""
        => ModelRefused, b"", b"model 1 M04\n"
    ),
    // The model is opened and read in two calls, and the session in one more each; then nothing more comes.
    case!(
        "a failed read of the model", RUN, FIRST; shelf fails at 3
        => ModelUnread, b"", MODEL_UNREAD
    ),
    case!(
        "a failed read of the session", RUN, b"diagnose"; shelf fails at 5
        => SecondUnread, b"", b"cannot read session\n"
    ),
    case!(
        "a failed read at the end", RUN, FIRST; shelf fails at 6
        => SecondUnread, COMMANDED, b"cannot read session\n"
    ),
    case!(
        "a line torn by it", RUN, b"command v.cmd = open\ndiagnose"; shelf fails at 6
        => SecondUnread, b"ok\n", b"cannot read session\n"
    ),
    case!("a failed write", RUN, b"diagnose"; out fails at 1 => OutputFailed, b"", b""),
    // Both replies of a piece are one write; the flush behind it fails.
    case!("a failed flush", RUN, FIRST; out fails at 2 => OutputFailed, COMMANDED, b""),
    // The second write of the line on standard error, which takes seven bytes at a time, fails.
    case!(
        "a failed write of a line", &["livingstone", "run", "bad.lv", "a.ses"], FIRST; err fails at 2
        => OutputFailed, b"", b"model 1"
    ),
    case!("the model of 1", &["livingstone", "generate", "model", "1"], b"" => 28 lines),
    case!("the model of 30", &["livingstone", "generate", "model", "30"], b"" => 86 lines),
    case!("the model of 31", &["livingstone", "generate", "model", "0031"], b"" => 26 lines),
    case!("a driven session", &["livingstone", "drive", "31"], b"" => Done, DRIVEN, b""),
];

const LINES: &[Case] = &[
    case!("a command and a diagnosis", RUN, FIRST => Done, COMMANDED, b""),
    case!("a last line without its end", RUN, b"diagnose" => Done, AT_REST, b""),
    case!("a comment and a quit", RUN, b"# x\nquit\njump\n" => Done, b"ok\n", b""),
    case!("carriage returns", RUN, b"jump\r\n\njump\r" => Done, b"error S01\nerror S01\n", b""),
];

#[test]
fn each_call_ends_as_wanted(rt: HostRuntime) -> Result<(), AllocError> {
    for case in CALLS {
        assert!(rt; is_met(rt.alloc(), case)?, "{}", case.name);
    }
    Ok(())
}

#[test]
fn every_cut_into_pieces(rt: HostRuntime) -> Result<(), AllocError> {
    for case in LINES {
        assert!(rt;
            ends_so_in_pieces(rt.alloc(), &case.call, case.wanted)?,
            "{}",
            case.name
        );
    }
    Ok(())
}

/// Whether what is printed of a canonical text of the first version is the text, behind the line of the second.
fn is_printed(alloc: Global, text: &[u8]) -> Result<bool, AllocError> {
    let mut printed = Vec::from_slice(alloc, b"version 2\n")?;
    printed.extend_from_slice(text)?;
    replies_so(alloc, PRINT, text, printed.as_slice())
}

#[test]
fn a_canonical_model(rt: HostRuntime) -> Result<(), AllocError> {
    assert!(rt; is_printed(rt.alloc(), MODEL)?);
    Ok(())
}

/// A line of so many bytes `#` with this end, and behind it a line that is no request: the replies.
struct LongLine {
    bytes: usize,
    end: &'static [u8],
    replies: &'static [u8],
}

const LONG_LINES: &[LongLine] = &[
    LongLine {
        bytes: 4097,
        end: b"\n",
        replies: b"error S15\nerror S01\n",
    },
    LongLine {
        bytes: 4096,
        end: b"\r\n",
        replies: b"error S01\n",
    },
    LongLine {
        bytes: 4096,
        end: b"\r#\n",
        replies: b"error S15\nerror S01\n",
    },
];

fn add_line(session: &mut Vec<u8>, line: &LongLine) -> Result<(), AllocError> {
    for _ in 0..line.bytes {
        session.push(b'#')?;
    }
    session.extend_from_slice(line.end)?;
    session.extend_from_slice(b"jump\n")
}

fn session_of(alloc: Global, line: &LongLine) -> Result<Vec<u8>, AllocError> {
    let mut session = Vec::new(alloc);
    add_line(&mut session, line)?;
    Ok(session)
}

/// Whether a session with the line is replied to so.
fn is_limited(alloc: Global, line: &LongLine) -> Result<bool, AllocError> {
    let session = session_of(alloc, line)?;
    replies_so(alloc, RUN, session.as_slice(), line.replies)
}

#[test]
fn lines_that_are_too_long(rt: HostRuntime) -> Result<(), AllocError> {
    for line in LONG_LINES {
        assert!(rt; is_limited(rt.alloc(), line)?);
    }
    Ok(())
}
