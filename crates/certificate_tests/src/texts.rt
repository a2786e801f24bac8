//! Texts of certificates that have their form.
#![tactic(auto)]

/// A recovery with each kind of line that one can have.
pub const RECOVERY: &[u8] = b"\
certificate recovery
model valve
state 0 1
state 3 2 1
fact now 4 1
goal v.out=some
goal v.inn=some
recovery 2
good 1
now 1 2 2 1
next 3 1 2 1
proof 1 1
clause -5 7 0 1 2 3 0
clause 0 12 4 0
proof 1 2
clause 0 12 4 0
good 2
now 1 2 2 1
next 3 1 2 1
proof 2 1
clause 0 12 4 0
proof 2 2
clause 0 12 4 0
conflict 1 1 2
clause 0 12 4 0
counter 2 1
now 1 2
next 2 1
split 1 conflict 1
split 2 recovery
end
";
