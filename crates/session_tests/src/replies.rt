//! Lines of a session over a valve: what no clause says is that they succeed with ample memory, and which replies
//! they have.
#![tactic(auto)]

use lv_checker::model_of;
use lv_model::Model;
use lv_session::{CompiledModel, Session};
use std::alloc::{AllocError, Global};
use test_texts::VALVE;

const OPENED: &str = "settled 3
1 cost 0 from 1: v closed>open #1
2 cost 3 from 1: v closed>stuck_closed #3
3 cost 8 from 1: v closed>stuck_open #6
";

const CONFLICTS: &str = "conflicts 3 trials 4
1: v closed>open #1
2: v closed stay
3: v closed>stuck_open #6
";

fn valve(alloc: Global) -> Result<Model, AllocError> {
    match model_of(alloc, VALVE) {
        Ok(model) => Ok(model),
        Err(_) => Err(AllocError),
    }
}

/// Whether each line of a text gets the reply that stands at its place, all written in the same room.
fn all_reply(
    alloc: Global,
    session: &mut Session<'_>,
    lines: &[&str],
    wanted: &[&str],
) -> Result<bool, AllocError> {
    let mut text = Vec::new(alloc);
    for (line, wanted) in lines.iter().zip(wanted.iter()) {
        let reply = session.step(line.as_bytes())?;
        session.write_text(&reply, &mut text)?;
        if text.as_slice() != wanted.as_bytes() {
            return Ok(false);
        }
    }
    Ok(lines.len() == wanted.len())
}

/// Lines of a new session over the valve, and the reply that each gets.
struct Talk {
    name: &'static str,
    lines: &'static [&'static str],
    replies: &'static [&'static str],
}

fn talks_over(
    alloc: Global,
    compiled: &CompiledModel<'_>,
    talk: &Talk,
) -> Result<bool, AllocError> {
    let mut session = Session::new(alloc, compiled)?;
    all_reply(alloc, &mut session, talk.lines, talk.replies)
}

/// Whether the lines get their replies.
fn is_talk(alloc: Global, talk: &Talk) -> Result<bool, AllocError> {
    let model = valve(alloc)?;
    let compiled = CompiledModel::new(alloc, &model)?;
    talks_over(alloc, &compiled, talk)
}

const TALKS: &[Talk] = &[
    Talk {
        name: "lines of a session",
        lines: &[
            " # nothing",
            "command v.cmd = open",
            "command v.inn = some",
            "command w.cmd = close",
            "command v.cmd = some",
            "command v.cmd",
            "diagnose",
        ],
        replies: &[
            "",
            "ok\n",
            "error S04\n",
            "error S03\n",
            "error S06\n",
            "error S02\n",
            OPENED,
        ],
    },
    Talk {
        name: "a query that goes on",
        lines: &[
            "budget 2",
            "command v.cmd = open",
            "observe o v.out = zero",
            "diagnose",
            "more 1",
            "more 1",
            "conflicts",
            "commit",
            "states",
        ],
        replies: &[
            "ok\n",
            "ok\n",
            "ok\n",
            "unsettled 0 trials 2\n",
            "unsettled 1 trials 3\n1 cost 3 from 1: v closed>stuck_closed #3\n",
            "settled 1\n1 cost 3 from 1: v closed>stuck_closed #3\n",
            CONFLICTS,
            "time 1 tracked 1\n",
            "time 1 tracked 1\n1 cost 3: v=stuck_closed\n",
        ],
    },
    Talk {
        name: "certificates of no settled query",
        lines: &[
            "certificate",
            "certificate 1",
            "budget 1",
            "goal g v.out = some",
            "recover",
            "certificate",
            "conflicts",
            "drop g",
            "certificate",
        ],
        replies: &[
            "error S10\n",
            "error S02\n",
            "ok\n",
            "ok\n",
            "unsettled trials 1\n",
            "error S10\n",
            "conflicts 1 trials 1\n1: v.cmd=none\n",
            "ok\n",
            "error S10\n",
        ],
    },
    Talk {
        name: "commands that test",
        lines: &[
            "observe o v.out = zero",
            "diagnose",
            "commit",
            "test v.out",
            "conflicts",
            "commit",
            "test v.inn",
        ],
        replies: &[
            "ok\n",
            "settled 2\n1 cost 0 from 1: -\n2 cost 3 from 1: v closed>stuck_closed #3\n",
            "time 1 tracked 2\n",
            "test cost 1: v.cmd=open\n",
            "conflicts 1 trials 2\n1: v.cmd=none\n",
            "error S10\n",
            "error S05\n",
        ],
    },
];

#[test]
fn talks_with_a_session(rt: HostRuntime) -> Result<(), AllocError> {
    for talk in TALKS {
        assert!(rt; is_talk(rt.alloc(), talk)?, "{}", talk.name);
    }
    Ok(())
}
