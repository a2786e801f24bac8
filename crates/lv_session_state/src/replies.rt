//! What a query that has run replies, and the conflicts that it kept.
#![tactic(auto)]

ghost use Rattle.std.specs.Prelude.{◌≡◌, IfOk};
ghost use Rattle.lv_boxes.specs.declared.outcome.Outcome.TheVariants.{Settled as IsSettled, Unsettled as IsUnsettled};
ghost use Rattle.lv_session_state.specs.State.{found, found_test, reply_to};
ghost use Rattle.lv_session_state.specs.Current.{kept_walk};

use crate::query::Query;
use crate::running::Running;
use lv_base::{Conflict, Pair, Rank, Seq};
use lv_boxes::Outcome;
use lv_reply::{Refusal, Reply};
use std::alloc::{AllocError, Global};

/// Copies of ranks.
fn copied_ranks(alloc: Global, ranks: &[Rank]) -> Result<Vec<Rank>, AllocError>
    ensures { IfOk result (λ out. out.items ≡ ranks.now) }
{
    let mut out = Vec::new(alloc);
    for rank in ranks {
        out.push(rank.copied(alloc)?)?;
    }
    Ok(out)
}

/// Copies of conflicts.
fn copied_conflicts(alloc: Global, conflicts: &[Conflict]) -> Result<Vec<Seq<Pair>>, AllocError>
    ensures { IfOk result (λ out. out.items ≡ conflicts.now) }
{
    let mut out = Vec::new(alloc);
    for conflict in conflicts {
        out.push(Seq::from_slice(alloc, conflict.pairs())?)?;
    }
    Ok(out)
}

/// A copy of what it listed.
fn listed(alloc: Global, run: &Running<'_>) -> Result<Seq<Rank>, AllocError>
    ensures { IfOk result (λ out. out ≡ (kept_walk run.now).listed) }
{
    Ok(Seq::from_vec(copied_ranks(alloc, run.listed())?))
}

/// A copy of the conflicts that it kept.
pub(crate) fn conflicts(alloc: Global, run: &Running<'_>) -> Result<Seq<Seq<Pair>>, AllocError>
    ensures { IfOk result (λ out. out ≡ (kept_walk run.now).kept) }
{
    Ok(Seq::from_vec(copied_conflicts(alloc, run.conflicts())?))
}

/// The command set that a recovery listed, if there is one.
fn found(alloc: Global, listed: &[Rank]) -> Result<Reply, AllocError>
    ensures { IfOk result (λ reply. reply ≡ found listed.now) }
{
    match listed.first() {
        Some(rank) => Ok(Reply::Recovered(rank.copied(alloc)?)),
        None => Ok(Reply::NoRecovery),
    }
}

/// The command set that a test listed, if there is one.
fn found_test(alloc: Global, listed: &[Rank]) -> Result<Reply, AllocError>
    ensures { IfOk result (λ reply. reply ≡ found_test listed.now) }
{
    match listed.first() {
        Some(rank) => Ok(Reply::Tested(rank.copied(alloc)?)),
        None => Ok(Reply::NoTest),
    }
}

/// What a settled query replies.
fn settled(alloc: Global, query: Query, run: &Running<'_>) -> Result<Reply, AllocError>
    requires { (kept_walk run.now).outcome ≡ IsSettled }
    ensures { IfOk result (λ reply. reply ≡ reply_to query (kept_walk run.now)) }
{
    match query {
        Query::Absent => Ok(Reply::Refused(Refusal::NoQuery)),
        Query::Diagnosis(_) => Ok(Reply::Settled(listed(alloc, run)?)),
        Query::Recovery(_) => found(alloc, run.listed()),
        Query::Test(_, _) => found_test(alloc, run.listed()),
        Query::Window(steps, _) => Ok(Reply::SettledWindow(steps, listed(alloc, run)?)),
    }
}

/// What a query that isn't settled replies.
fn unsettled(alloc: Global, query: Query, run: &Running<'_>) -> Result<Reply, AllocError>
    requires { (kept_walk run.now).outcome ≡ IsUnsettled }
    ensures { IfOk result (λ reply. reply ≡ reply_to query (kept_walk run.now)) }
{
    let trials = run.trials();
    match query {
        Query::Absent => Ok(Reply::Refused(Refusal::NoQuery)),
        Query::Diagnosis(_) => Ok(Reply::Unsettled(listed(alloc, run)?, trials)),
        Query::Recovery(_) => Ok(Reply::Undecided(trials)),
        Query::Test(_, _) => Ok(Reply::Undecided(trials)),
        Query::Window(steps, _) => Ok(Reply::UnsettledWindow(steps, listed(alloc, run)?, trials)),
    }
}

/// What a query that has run replies.
pub(crate) fn reply_to(alloc: Global, query: Query, run: &Running<'_>) -> Result<Reply, AllocError>
    ensures { IfOk result (λ reply. reply ≡ reply_to query (kept_walk run.now)) }
{
    match run.outcome() {
        Outcome::Settled => settled(alloc, query, run),
        Outcome::Unsettled => unsettled(alloc, query, run),
    }
}
