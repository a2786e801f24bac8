//! Texts that the tests of several crates read.
#![tactic(auto)]

/// A valve that follows its command or is stuck, with its inflow present. Its variables are its mode, its command, its
/// inflow and its outflow.
pub const VALVE: &[u8] = b"model valve
domain flow zero some
domain order none open close
type valve
control cmd order
variable inn flow
observable out flow
mode closed
mode open
mode stuck_closed
mode stuck_open
in closed out = zero
in open out = inn
in stuck_closed out = zero
in stuck_open out = inn
step closed -> open when cmd = open
step open -> closed when cmd = close
fault closed -> stuck_closed cost 3
fault open -> stuck_open cost 5
fault open -> stuck_closed cost 4
fault closed -> stuck_open cost 8
end
part v valve closed
law v.inn = some
";

/// The only diagnosis of the valve where it should open and shows no flow: it is stuck closed.
pub const STUCK_CLOSED: &[u8] = b"certificate diagnosis
model valve
k 4
state 0 1
control 2
fact next 4 1
listed 1 3
now 1 2 2 1
next 3 1 2 1
conflict 1 1
clause 0 117 92 116 39 44 35 0
conflict 1 2
clause 0 117 115 96 0
conflict 1 4
clause 0 117 100 116 42 44 35 0
split 1 conflict 1
split 2 conflict 2
split 3 listed 1
split 4 conflict 3
end
";
