//! What was asked last, and can be gone on with.
#![tactic(auto)]

ghost use Rattle.std.specs.Prelude.{◌≡◌, ◌+◌, ◌<◌, ◌^◌};
ghost use Rattle.lv_session_state.specs.State.{sum_of, with_more};

use lv_base::VarId;

/// The current query of a session. What it came to is determined by the session's state: whatever would change that
/// takes the query away.
#[derive(Clone, Copy, Debug, PartialEq, Eq)]
pub enum Query {
    Absent,
    /// A diagnosis, with the trials that it may make, those that were added to it included.
    Diagnosis(u64),
    /// A recovery, with the trials that it may make, those that were added to it included.
    Recovery(u64),
    /// A test of an observable, with the trials that it may make, those that were added to it included.
    Test(VarId, u64),
    /// A window over so many steps, with the trials that it may make, those that were added to it included.
    Window(u32, u64),
}

impl Query {
    /// The same query with so many trials more.
    pub(crate) fn with_more(self, n: u64) -> Query
        requires { sum_of self + n < 2 ^ 64 }
        ensures { result ≡ with_more self n }
    {
        match self {
            Query::Absent => Query::Absent,
            Query::Diagnosis(sum) => Query::Diagnosis(sum + n),
            Query::Recovery(sum) => Query::Recovery(sum + n),
            Query::Test(var, sum) => Query::Test(var, sum + n),
            Query::Window(steps, sum) => Query::Window(steps, sum + n),
        }
    }
}
