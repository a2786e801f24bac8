//! A plant in the loop, as whole calls over files and sinks in memory: what no clause says is that they succeed with ample
//! memory. The replies are those of an independent program.
#![tactic(auto)]

use crate::calls::{Script, are_replied};
use std::alloc::AllocError;

const PLANT: &[&str] = &["livingstone", "plant", "valve.lv", "a.ses"];

const SCRIPTS: &[Script] = &[
    Script {
        name: "a fault that is named, and a step",
        lines: b"fault v 3\ncommand v.cmd = open\nstep\n",
        replies: b"ok
ok
plant time 1: v=stuck_closed
settled 1
1 cost 3 from 1: v closed>stuck_closed #3
time 1 tracked 1
held yes
goals none
",
    },
    Script {
        name: "a recovery applied, and the step that meets its goal",
        lines: b"goal g v.out = some
recover
apply
step
",
        replies: b"ok
recovery cost 1: v.cmd=open
ok
plant time 1: v=open
settled 2
1 cost 0 from 1: v closed>open #1
2 cost 8 from 1: v closed>stuck_open #6
time 1 tracked 2
held yes
goals met
",
    },
    Script {
        name: "no such fault, no recovery, no such line",
        lines: b"fault v 4\napply\nobserve o v.out = zero\n",
        replies: b"error P02\nerror P05\nerror P01\n",
    },
    Script {
        name: "refusals of form",
        lines: b"fault
fault v
fault v x
fault 3 v
fault v 3 3
fault v.cmd 3
fault nobody 3
fault v 0
fault v 1
fault v 340282366920938463463374607431768211456
fault mode 3
step 1
step step
apply now
Step
= step
diagnose
reset
quit
$
",
        replies: b"error P01
error P01
error P01
error P01
error P01
error P01
error P02
error P02
error P02
error P02
error P02
error P01
error P01
error P01
error P01
error P01
error P01
error P01
error P01
error S16
",
    },
    Script {
        name: "lines with no reply",
        lines: b"# step\n\n \t# fault v 3\n",
        replies: b"",
    },
    Script {
        name: "a recovery that isn't current any more, and none found",
        lines: b"goal g v.out = some
apply
recover
release v.cmd
apply
drop g
goal h false
recover
apply
",
        replies: b"ok
error P05
recovery cost 1: v.cmd=open
ok
error P05
ok
ok
no recovery
error P05
",
    },
    Script {
        name: "an unsettled recovery",
        lines: b"goal g v.out = some
budget 1
recover
apply
",
        replies: b"ok
ok
unsettled trials 1
error P05
",
    },
    Script {
        name: "an unsettled diagnosis halts the plant",
        lines: b"budget 1
fault v 3
step
step
fault v 3
states
",
        replies: b"ok
ok
plant time 1: v=stuck_closed
unsettled 0 trials 1
halted
held no
goals none
error P04
error P02
time 0 tracked 1
1 cost 0: v=closed
",
    },
    Script {
        name: "a later fault for a part replaces the one before",
        lines: b"fault v 3
fault v 6
step
step
fault v 3
states
",
        replies: b"ok
ok
plant time 1: v=stuck_open
settled 1
1 cost 8 from 1: v closed>stuck_open #6
time 1 tracked 1
held yes
goals none
plant time 2: v=stuck_open
settled 1
1 cost 8 from 1: -
time 2 tracked 1
held yes
goals none
error P02
time 2 tracked 1
1 cost 8: v=stuck_open
",
    },
    Script {
        name: "a tracked list that lacks the plant's mode",
        lines: b"track 1
fault v 3
step
states
command v.cmd = open
step
states
",
        replies: b"ok
ok
plant time 1: v=stuck_closed
settled 1
1 cost 0 from 1: -
time 1 tracked 1
held no
goals none
time 1 tracked 1
1 cost 0: v=closed
ok
plant time 2: v=stuck_closed
settled 1
1 cost 3 from 1: v closed>stuck_closed #3
time 2 tracked 1
held yes
goals none
time 2 tracked 1
1 cost 3: v=stuck_closed
",
    },
    Script {
        name: "the goal is open",
        lines: b"goal g v.out = some\nstep\n",
        replies: b"ok
plant time 1: v=closed
settled 2
1 cost 0 from 1: -
2 cost 3 from 1: v closed>stuck_closed #3
time 1 tracked 2
held yes
goals open
",
    },
    Script {
        name: "a last line without its end",
        lines: b"track 1\nstep",
        replies: b"ok
plant time 1: v=closed
settled 1
1 cost 0 from 1: -
time 1 tracked 1
held yes
goals none
",
    },
    Script {
        name: "the session's refusals",
        lines: b"track 0
command w.cmd = open
command v.cmd
goal g
drop g
recover
conflicts
budget 0
release v.out
states states
",
        replies: b"error S09
error S03
error S02
error S02
error S08
error S13
error S10
error S09
error S04
error S02
",
    },
];

#[test]
fn plants(rt: HostRuntime) -> Result<(), AllocError> {
    for script in SCRIPTS {
        assert!(rt; are_replied(rt.alloc(), PLANT, script)?, "{}", script.name);
    }
    Ok(())
}
