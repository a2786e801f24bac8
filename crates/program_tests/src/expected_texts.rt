//! What an independent generator writes for the number 31: two valves.
#![tactic(auto)]

/// The model.
pub const MODEL: &[u8] = b"\
model series
domain flow zero some
domain order none open close
type valve
control cmd order
variable inn flow
observable out flow
mode closed
mode open
mode stuck_closed
mode stuck_open
in closed out=zero
in open out=inn
in stuck_closed out=zero
in stuck_open out=inn
step closed->open when cmd=open
step open->closed when cmd=close
fault closed->stuck_closed cost 3
fault open->stuck_open cost 5
fault open->stuck_closed cost 4
fault closed->stuck_open cost 8
end
part v1 valve closed
part v2 valve closed
law v1.inn=some
law v2.inn=v1.out
";

/// The session.
pub const SESSION: &[u8] = b"\
command v1.cmd = close
observe o1 v2.out = zero
diagnose
conflicts
commit
retract o1
command v1.cmd = open
command v2.cmd = close
observe o2 v2.out = zero
diagnose
conflicts
commit
retract o2
observe o3 v2.out = zero
diagnose
conflicts
commit
retract o3
command v1.cmd = close
command v2.cmd = open
observe o4 v2.out = some
diagnose
conflicts
commit
retract o4
command v1.cmd = open
observe o5 v2.out = some
diagnose
conflicts
commit
retract o5
command v1.cmd = open
command v2.cmd = open
observe o6 v2.out = some
diagnose
conflicts
commit
retract o6
observe o7 v2.out = zero
diagnose
conflicts
commit
retract o7
command v2.cmd = close
observe o8 v2.out = zero
diagnose
conflicts
commit
retract o8
command v2.cmd = close
observe o9 v2.out = some
diagnose
conflicts
commit
retract o9
command v1.cmd = close
observe o10 v2.out = zero
diagnose
conflicts
commit
retract o10
command v1.cmd = open
command v2.cmd = open
observe o11 v2.out = zero
diagnose
conflicts
commit
retract o11
command v1.cmd = open
command v2.cmd = close
observe o12 v2.out = zero
diagnose
conflicts
commit
retract o12
observe o13 v2.out = some
diagnose
conflicts
commit
retract o13
observe o14 v2.out = zero
diagnose
conflicts
commit
retract o14
observe o15 v2.out = zero
diagnose
conflicts
commit
retract o15
command v2.cmd = close
observe o16 v2.out = zero
diagnose
conflicts
commit
retract o16
command v1.cmd = open
observe o17 v2.out = some
diagnose
conflicts
commit
retract o17
command v1.cmd = close
observe o18 v2.out = some
diagnose
conflicts
commit
retract o18
command v1.cmd = close
command v2.cmd = close
observe o19 v2.out = zero
diagnose
conflicts
commit
retract o19
command v1.cmd = close
command v2.cmd = close
observe o20 v2.out = zero
diagnose
conflicts
commit
retract o20
states
";
