//! What the replies of a session come to.
#![tactic(auto)]

ghost use Rattle.std.specs.Prelude.{◌≡◌, ◌<◌, ◌≤◌, ◌^◌, ◌-◌, ◌+◌, IfOk};
ghost use Rattle.lv_run.specs.Tallies.{none_counted, replied, counted, IsSmall};
ghost use Rattle.lv_plant.specs.lv_session.Answering.{begun};
ghost use Rattle.lv_run.specs.Drives.{tally_of};

use lv_model::Model;
use lv_plant::{CompiledModel, Session};
use lv_reply::Reply;
use lv_text::lines::next_line;
use std::alloc::{AllocError, Global};

/// What the replies of a session come to.
#[derive(Clone, Copy, Debug, PartialEq, Eq)]
pub struct Tally {
    /// Lines that were replied to.
    pub replies: u64,
    /// Lines that were refused.
    pub errors: u64,
    /// Diagnoses and windows that settled.
    pub settled: u64,
    /// Diagnoses, recoveries, tests and windows whose budget was used up before.
    pub unsettled: u64,
    /// The trials told where conflicts were shown, of all kinds of queries together.
    pub trials: u128,
    /// The tracked states told by the last reply; none where it tells no such number.
    pub tracked: u64,
}

impl Tally {
    /// Before any reply.
    pub fn none() -> Tally
        ensures { result ≡ none_counted }
    {
        Tally {
            replies: 0,
            errors: 0,
            settled: 0,
            unsettled: 0,
            trials: 0,
            tracked: 0,
        }
    }

    /// One more reply, which tells of so many tracked states.
    fn replied(self, tracked: u64) -> Tally
        requires { self.replies < 2 ^ 64 - 1 }
        ensures { result ≡ replied self tracked }
    {
        Tally {
            replies: self.replies + 1,
            tracked,
            ..self
        }
    }

    /// With one more reply.
    pub fn with(self, reply: &Reply) -> Tally
        requires small { IsSmall self }
        requires room { self.replies < 2 ^ 64 - 1 }
        ensures counted { result ≡ counted self reply.now }
        ensures small { IsSmall result }
        ensures one { result.replies ≤ self.replies + 1 }
    {
        match reply {
            Reply::Nothing => self,
            Reply::Refused(_) => Tally {
                errors: self.errors + 1,
                ..self.replied(0)
            },
            Reply::Settled(_) | Reply::SettledWindow(_, _) => Tally {
                settled: self.settled + 1,
                ..self.replied(0)
            },
            Reply::Unsettled(_, _) | Reply::Undecided(_) | Reply::UnsettledWindow(_, _, _) =>
                Tally {
                    unsettled: self.unsettled + 1,
                    ..self.replied(0)
                },
            Reply::Conflicts(_, trials)
            | Reply::CommandConflicts(_, trials)
            | Reply::WindowConflicts(_, _, trials) => Tally {
                trials: self.trials + *trials as u128,
                ..self.replied(0)
            },
            Reply::Committed(_, tracked) => self.replied(*tracked),
            Reply::States(_, tracked) => self.replied(tracked.len() as u64),
            _ => self.replied(0),
        }
    }
}

/// Counts the replies to a text's lines, in a session at its start.
fn tally_lines(
    compiled: &CompiledModel<'_>,
    session: &mut Session<'_>,
    text: &[u8],
) -> Result<Tally, AllocError>
    requires { session.old ≡ begun compiled.now }
    ensures { IfOk result (λ tally. tally ≡ tally_of compiled.now text.now) }
{
    let mut tally = Tally::none();
    let mut rest = text;
    while let Some(line) = next_line(rest) {
        let reply = session.step(&rest[..line.length])?;
        tally = tally.with(&reply);
        rest = &rest[line.whole..];
    }
    Ok(tally)
}

/// Runs a session over a model and counts its replies.
pub fn tally_session(alloc: Global, model: &Model, text: &[u8]) -> Result<Tally, AllocError>
    ensures { IfOk result (λ tally. tally ≡ tally_of model.now text.now) }
{
    let compiled = CompiledModel::new(alloc, model)?;
    tally_compiled(alloc, &compiled, text)
}

/// Runs a session over a compiled model and counts its replies.
fn tally_compiled(
    alloc: Global,
    compiled: &CompiledModel<'_>,
    text: &[u8],
) -> Result<Tally, AllocError>
    ensures { IfOk result (λ tally. tally ≡ tally_of compiled.now text.now) }
{
    let mut session = Session::new(alloc, compiled)?;
    tally_lines(compiled, &mut session, text)
}
