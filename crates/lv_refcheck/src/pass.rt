//! The pass over a log.
#![tactic(auto)]

ghost use Rattle.std.specs.Prelude.{◌≡◌, ◌<◌, length, take, true, All, IfOk, IfSome, slice_get, option_map, unwrap_or};
ghost use Rattle.lv_clauses.specs.Literals.{is_clause};
ghost use Rattle.lv_clauses.specs.Marks.{nothing, look_at};
ghost use Rattle.lv_clauses.specs.Following as Following;
ghost use Rattle.lv_clauses.specs.Following.{IsImplied, denied, first_bad_step, follows_by_hints};

use lv_base::Lit;
use lv_clauses::{ClauseSet, Finding, Hint, Log, Marks, Step, look, negation};
use std::alloc::{AllocError, Global};

/// The first step, from 0, that doesn't follow by its hints; None exactly where all do. The clause of each step before
/// it, or of every step where there is none, is true under all values that satisfy the set.
pub fn check(alloc: Global, set: &ClauseSet, log: &Log) -> Result<Option<usize>, AllocError>
    ensures first { IfOk result (λ bad. bad ≡ first_bad_step set.now log.now) }
    ensures sound { IfOk result (λ bad. All (IsImplied set.now) (take (unwrap_or bad (length log.now)) log.now)) }
{
    let mut marks = Marks::new(alloc, set.bools())?;
    for place in 0..log.len() {
        if !follows(set, log, place, &mut marks)? {
            return Ok(Some(place));
        }
        marks.clear();
    }
    Ok(None)
}

/// Whether the step at a place follows from the set and the steps before it.
fn follows(set: &ClauseSet, log: &Log, place: usize, marks: &mut Marks) -> Result<bool, AllocError>
    requires place { place < length log.now }
    requires blank { marks.old ≡ nothing set.now.bools }
    ensures follows { IfOk result (λ good. IfSome (slice_get log.now place) (λ step. good ≡ follows_by_hints set.now (take place log.now) step)) }
    ensures len { length marks.new ≡ length marks.old }
{
    let step = log.step(place);
    if !deny(step.clause.as_slice(), marks)? {
        return Ok(false);
    }
    ends_well(set, log, place, step.hints.as_slice(), marks)
}

/// Takes the negations of a clause's literals as true, and says whether they are of distinct booleans in range: where they
/// aren't, some of them may be taken.
pub fn deny(clause: &[Lit], marks: &mut Marks) -> Result<bool, AllocError>
    requires { marks.old ≡ nothing (length marks.old) }
    ensures is_clause { IfOk result (λ good. good ≡ is_clause (length marks.old) clause.now) }
    ensures denied { IfOk result (λ good. good ≡ true → marks.new ≡ denied marks.old clause.now) }
    ensures len { length marks.new ≡ length marks.old }
{
    for lit in clause {
        if !marks.is_open(*lit) {
            return Ok(false);
        }
        marks.take(negation(*lit))?;
    }
    Ok(true)
}

/// Whether the hints of a step at this place end well from these marks on.
fn ends_well(
    set: &ClauseSet,
    log: &Log,
    place: usize,
    hints: &[Hint],
    marks: &mut Marks,
) -> Result<bool, AllocError>
    ensures well { IfOk result (λ good. good ≡ Following.ends_well set.now.slots (take place log.now) hints.now marks.old) }
    ensures len { length marks.new ≡ length marks.old }
{
    for (at, hint) in hints.iter().enumerate() {
        match look_at_hint(set, log, place, *hint, marks.as_slice()) {
            None => return Ok(false),
            Some(Finding::Open) => return Ok(false),
            Some(Finding::AllFalse) => return Ok(at + 1 == hints.len()),
            Some(Finding::Unit(lit)) => marks.take(lit)?,
        }
    }
    Ok(false)
}

/// What the clause that a hint of a step at this place names says under the marks, None exactly where it names none.
fn look_at_hint(
    set: &ClauseSet,
    log: &Log,
    place: usize,
    hint: Hint,
    marks: &[Option<bool>],
) -> Option<Finding>
    ensures { result ≡ option_map (look_at marks.now) (Following.clause_of set.now.slots (take place log.now) hint) }
{
    match hint {
        Hint::Given(id) => match set.find(id) {
            Some(clause) => Some(look(marks, clause)),
            None => None,
        },
        Hint::Earlier(earlier) => {
            if earlier < place && earlier < log.len() {
                Some(look(marks, log.step(earlier).clause.as_slice()))
            } else {
                None
            }
        }
    }
}
