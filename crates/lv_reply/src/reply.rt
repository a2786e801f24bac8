//! What a reply says. Names stand in its text alone: here parts, moves and states are numbers of the plant, so that a
//! reply can be compared, and counted, without the plant.
#![tactic(auto)]

ghost use Rattle.std.specs.Prelude.{◌≡◌};
ghost use Rattle.lv_reply.specs.Texts.{code_of};

use crate::labels::Label;
use crate::probes::Probed;
use lv_base::{Pair, Rank, Seq, VarId};
use lv_model::TrackedState;

/// Why a line was refused. A refused line leaves the session as it was.
#[derive(Clone, Copy, Debug, PartialEq, Eq)]
pub enum Refusal {
    /// Its first token is no word of a session.
    UnknownWord,
    /// It has not the form of its word.
    Form,
    /// The plant has no such part, or the part no such variable.
    UnknownName,
    /// The variable is no control.
    NoControl,
    /// The variable is no observable.
    NoObservable,
    /// The variable has no such value.
    NoValue,
    /// An observation, or a goal, of that name is held.
    NameHeld,
    /// No observation, or no goal, of that name is held.
    NameNotHeld,
    /// The number is outside its limits.
    OutOfLimits,
    /// No query is current that could answer.
    NoQuery,
    /// No unsettled query is current.
    NotUnsettled,
    /// The settled diagnosis, or window, lists nothing.
    NothingListed,
    /// No goal is held.
    NoGoal,
    /// As many observations, or goals, are held as may be, or the name is too long for one.
    TooManyHeld,
    /// The line has too many bytes.
    LineTooLong,
    /// A byte of the line begins no token.
    ByteNotAllowed,
    /// The line nests too deep, or its goal gives too many clauses.
    TooComplex,
    /// As many commits were made as may be.
    TooManyCommits,
}

impl Refusal {
    /// The code that it is told by. Takes no memory.
    pub fn code(self) -> &'static str
        ensures { result.now ≡ code_of self }
    {
        match self {
            Refusal::UnknownWord => "S01",
            Refusal::Form => "S02",
            Refusal::UnknownName => "S03",
            Refusal::NoControl => "S04",
            Refusal::NoObservable => "S05",
            Refusal::NoValue => "S06",
            Refusal::NameHeld => "S07",
            Refusal::NameNotHeld => "S08",
            Refusal::OutOfLimits => "S09",
            Refusal::NoQuery => "S10",
            Refusal::NotUnsettled => "S11",
            Refusal::NothingListed => "S12",
            Refusal::NoGoal => "S13",
            Refusal::TooManyHeld => "S14",
            Refusal::LineTooLong => "S15",
            Refusal::ByteNotAllowed => "S16",
            Refusal::TooComplex => "S17",
            Refusal::TooManyCommits => "S18",
        }
    }
}

/// The reply to a line.
#[derive(Debug, Drop)]
pub enum Reply {
    /// Nothing is said.
    Nothing,
    /// The line was carried out.
    Accepted,
    Refused(Refusal),
    /// A diagnosis that is settled: the candidates that it lists, in the order of their ranks.
    Settled(Seq<Rank>),
    /// A diagnosis whose budget was used up before: the candidates listed so far, and the number of trials.
    Unsettled(Seq<Rank>, u64),
    /// The conflicts that a diagnosis kept, in the order of their trials, and the number of all trials.
    Conflicts(Seq<Seq<Pair>>, u64),
    /// A diagnosis became the tracked states: the time now, and how many they are.
    Committed(u64, u64),
    /// The time, and the tracked states.
    States(u64, Seq<TrackedState>),
    /// A set of commands that recovers: what it costs, and a value for each control.
    Recovered(Rank),
    /// No set of commands recovers.
    NoRecovery,
    /// A recovery, or a test, whose budget was used up before: the number of trials.
    Undecided(u64),
    /// The conflicts that a recovery, or a test, kept, in the order of their trials, and the number of all trials. Slots are places
    /// among the controls, and choices are values.
    CommandConflicts(Seq<Seq<Pair>>, u64),
    /// What propagation finds.
    Labels(Seq<Label>),
    /// Propagation finds a contradiction.
    Contradiction,
    /// A certificate of the current query. It is written where the query is.
    Certificate,
    /// What one observation more would leave of a settled diagnosis: how many candidates it lists, each observable, and the
    /// one that is best looked at, if some tells anything.
    Probed(u64, Seq<Probed>, Option<VarId>),
    /// A set of commands that tells the tracked states apart: what it costs, and a value for each control.
    Tested(Rank),
    /// No set of commands does.
    NoTest,
    /// A window over so many steps that is settled: the trajectories that it lists, in the order of their ranks. Each has a
    /// choice for each part of each step.
    SettledWindow(u32, Seq<Rank>),
    /// A window over so many steps whose budget was used up before: the trajectories listed so far, and the number of trials.
    UnsettledWindow(u32, Seq<Rank>, u64),
    /// The time from which the first step of a window starts, the conflicts that it kept, in the order of their trials, and
    /// the number of all trials. Slots count the parts of one step after those of the one before.
    WindowConflicts(u32, Seq<Seq<Pair>>, u64),
}
