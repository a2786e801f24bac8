//! Sessions in lanes, as whole calls over files and sinks in memory: what no clause says is that they succeed with ample
//! memory. The replies are those of an independent program.
#![tactic(auto)]

use crate::calls::{Script, are_replied};
use std::alloc::AllocError;

const LANES: &[&str] = &["livingstone", "lanes", "valve.lv", "a.ses"];

const SCRIPTS: &[Script] = &[
    Script {
        name: "lanes interleaved, and turns",
        lines: b"@a budget 2
@a command v.cmd = open
@a observe o v.out = zero
@b observe o v.out = zero
@a diagnose
@b diagnose
turn 2
turn 1
",
        replies: b"@a ok
@a ok
@a ok
@b ok
@a unsettled 0 trials 2
@b settled 2
@b 1 cost 0 from 1: -
@b 2 cost 3 from 1: v closed>stuck_closed #3
@a settled 1
@a 1 cost 3 from 1: v closed>stuck_closed #3
",
    },
    Script {
        name: "lines of neither form, and a lane with nothing said",
        lines: b"turn\nturn 0\n@ x\n@c\n",
        replies: b"error L01\nerror L03\nerror L01\n",
    },
    Script {
        name: "refusals",
        lines: b"@a#x
@a.b x
 @a x
@
@1 x
turn 1000001
turn 1 2
turn x
states
$
",
        replies: b"error L01
error L01
error L01
error L01
error L01
error L03
error L01
error L01
error L01
error L01
",
    },
    Script {
        name: "names of 64 bytes and of 65",
        lines: b"@nnnnnnnnnnnnnnnnnnnnnnnnnnnnnnnnnnnnnnnnnnnnnnnnnnnnnnnnnnnnnnnn track 1
@nnnnnnnnnnnnnnnnnnnnnnnnnnnnnnnnnnnnnnnnnnnnnnnnnnnnnnnnnnnnnnnnn track 1
",
        replies: b"@nnnnnnnnnnnnnnnnnnnnnnnnnnnnnnnnnnnnnnnnnnnnnnnnnnnnnnnnnnnnnnnn ok
error L02
",
    },
    Script {
        name: "lines with no reply",
        lines: b"# x\n\n \t# turn 1\n@a # x\n@a\r\nturn 5\n",
        replies: b"",
    },
    Script {
        name: "bytes of a lane's own line",
        lines: b"@a $\n@a track 0\n@a\ttrack 1 # one\n@a track 1\r\r\n",
        replies: b"@a error S16\n@a error S09\n@a ok\n@a error S16\n",
    },
    Script {
        name: "a lane that has quit",
        lines: b"@a budget 1
@a observe o v.out = zero
@a diagnose
@b budget 1
@b observe o v.out = zero
@b diagnose
@a quit
@a states
turn 3
",
        replies: b"@a ok
@a ok
@a unsettled 0 trials 1
@b ok
@b ok
@b unsettled 0 trials 1
@a ok
@b settled 2
@b 1 cost 0 from 1: -
@b 2 cost 3 from 1: v closed>stuck_closed #3
",
    },
    Script {
        name: "a last line without its end",
        lines: b"@a track 1\n@a states",
        replies: b"@a ok\n@a time 0 tracked 1\n@a 1 cost 0: v=closed\n",
    },
];

#[test]
fn lanes(rt: HostRuntime) -> Result<(), AllocError> {
    for script in SCRIPTS {
        assert!(rt; are_replied(rt.alloc(), LANES, script)?, "{}", script.name);
    }
    Ok(())
}
