//! What is known of the last steps: of those of commits that are kept, and of the one that isn't committed.
#![tactic(auto)]

ghost use Rattle.std.specs.Prelude.{◌≡◌, IfOk};
ghost use Rattle.lv_session_history.specs.Steps.{tracked_before, observed_before, facts_of_step, facts_on};

use crate::history::Past;
use lv_meaning::Facts;
use lv_session_request::{Held, facts};
use lv_tracker::Tracked;
use std::alloc::{AllocError, Global};

/// What was tracked before these commits, where this is tracked behind them.
pub fn tracked_before<'a>(commits: &'a [Past], tracked: &'a Tracked) -> &'a Tracked
    ensures { result.now ≡ tracked_before commits.now tracked.now }
{
    match commits.first() {
        Some(past) => &past.tracked,
        None => tracked,
    }
}

/// What is observed of the time before these commits, where this is observed of the time behind them.
fn observed_before<'a>(commits: &'a [Past], present: &'a Held) -> &'a Held
    ensures { result.now ≡ observed_before commits.now present.now }
{
    match commits.first() {
        Some(past) => &past.observed,
        None => present,
    }
}

/// What is known of the step of a commit, where this is observed of the time behind it.
fn facts_of_step(alloc: Global, past: &Past, next: &Held) -> Result<Facts, AllocError>
    ensures { IfOk result (λ facts. facts ≡ facts_of_step past.now next.now) }
{
    facts(alloc, past.controls.as_slice(), &past.observed, next)
}

/// What is known of the steps of these commits, and this of the step behind them, before which this is observed.
pub fn facts_on(
    alloc: Global,
    commits: &[Past],
    present: &Held,
    last: Facts,
) -> Result<Vec<Facts>, AllocError>
    ensures { IfOk result (λ out. out.items ≡ facts_on commits.now present.now last) }
{
    let mut out = Vec::new(alloc);
    let mut rest = commits;
    while let Some((past, more)) = rest.split_first() {
        let next = observed_before(more, present);
        out.push(facts_of_step(alloc, past, next)?)?;
        rest = more;
    }
    out.push(last)?;
    Ok(out)
}
