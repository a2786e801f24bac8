//! One turn of a search, and the turns of one run. A turn looks at the first candidate left: it ends the search, or takes
//! out what a kept conflict rules out, or tries the candidate.
#![tactic(auto)]

ghost use Rattle.std.specs.Prelude.{◌≡◌, ◌≢◌, ◌==◌, ◌+◌, ◌-◌, ◌<◌, ◌≤◌, ◌^◌, ◌++◌, ◌∷◌, [], List, true, false, length, slice_get, drop, IfOk, OnOk, IsTrue, Some};
ghost use Rattle.lv_base.specs.declared.rank.Rank.{Rank};
ghost use Rattle.std.specs.List.{list_any};
ghost use Rattle.lv_boxes.specs.Walk.{candidate_of, is_ruled_out};
ghost use Rattle.lv_boxes.specs.Groups.{have_same_groups, alike_by};
ghost use Rattle.lv_search.specs.Frontier.{Thins, LeftAfter};
ghost use Rattle.lv_search.specs.Standing.{Standing, trials_of, all_suit, walk_on, Follows, conflict_at};
ghost use Rattle.lv_search.specs.Turn.{standing, PassesOver, IsListed, NextTells, EndsAt, TurnTells};

use super::frontier::Frontier;
use super::trial::{Trial, Tried};
use lv_base::{Candidate, Rank, Seq};
use lv_boxes::conflicts::Store;
use lv_boxes::{Groups, Outcome};
use std::alloc::{AllocError, Global};

/// What a search holds beside the candidates left. Where it has groups, it lists no two candidates of one target.
#[derive(Debug, Drop)]
pub(crate) struct Held {
    pub(crate) k: u32,
    pub(crate) groups: Option<Groups>,
    pub(crate) listed: Seq<Rank>,
    pub(crate) conflicts: Store,
}

impl Held {
    /// How many trials there were: each added one to what is listed or kept.
    pub(crate) fn trials(&self) -> u64
        ensures { result ≡ length self.now.listed + length self.now.conflicts }
    {
        self.listed.as_slice().len() as u64 + self.conflicts.as_slice().len() as u64
    }

    fn is_full(&self) -> bool
        ensures { result ≡ (length self.now.listed == self.now.k) }
    {
        self.listed.len() == self.k as usize
    }

    /// Whether a listed candidate has the target of this one; none has where the search has no groups.
    fn has_alike(&self, rank: &Rank) -> bool
        ensures { result ≡ list_any (alike_by self.now.groups rank.now) self.now.listed }
    {
        match &self.groups {
            Some(groups) => any_alike(groups, self.listed.as_slice(), rank.choices.as_slice()),
            None => false,
        }
    }
}

/// Whether one of these has the target of the choices.
fn any_alike(groups: &Groups, listed: &[Rank], choices: &[u32]) -> bool
    ensures { result ≡ list_any (λ (q : Rank). have_same_groups groups.now choices.now q.choices) listed.now }
{
    listed
        .iter()
        .any(|other| groups.are_one(choices, other.choices.as_slice()))
}

/// What comes next: the search ends, or a kept conflict rules the first candidate out, or it has the target of a listed
/// one, or it is tried.
#[derive(Debug, Drop)]
enum Next {
    Ends(Outcome),
    PassOver(usize),
    Repeat,
    Try(Rank, Candidate),
}

/// Whether a search goes on after a turn.
#[derive(Clone, Copy, Debug, PartialEq, Eq)]
enum Turn {
    GoesOn,
    Ends(Outcome),
}

/// A copy of the first candidate's rank.
fn first_of<F: Frontier>(alloc: Global, frontier: &F) -> Result<Option<Rank>, AllocError>
    ensures { IfOk result (λ first. first ≡ slice_get (F.left frontier.now) 0) }
{
    match frontier.first() {
        Some(rank) => Ok(Some(Rank {
            cost: rank.cost,
            source: rank.source,
            choices: Seq::from_slice(alloc, rank.choices.as_slice())?,
        })),
        None => Ok(None),
    }
}

/// What comes next where this candidate is the first, and no kept conflict rules it out.
fn next_allowed(held: &Held, budget: u64, rank: Rank, candidate: Candidate) -> Next
    requires fewer { length held.now.listed ≢ held.now.k }
    requires candidate { candidate ≡ candidate_of rank }
    requires allowed { is_ruled_out held.now.conflicts rank.choices ≡ false }
    ensures { (left : List Rank) → slice_get left 0 ≡ Some rank → NextTells result budget (standing left held.now) }
{
    if held.has_alike(&rank) {
        return Next::Repeat;
    }
    if held.trials() == budget {
        return Next::Ends(Outcome::Unsettled);
    }
    Next::Try(rank, candidate)
}

/// What comes next where this candidate is the first.
fn next_at(alloc: Global, held: &Held, budget: u64, rank: Rank) -> Result<Next, AllocError>
    requires { length held.now.listed ≢ held.now.k }
    ensures { IfOk result (λ next. (left : List Rank) → slice_get left 0 ≡ Some rank → NextTells next budget (standing left held.now)) }
{
    let candidate = Candidate::new(alloc, rank.source, rank.choices.as_slice())?;
    match held.conflicts.contained_in(&candidate) {
        Some(number) => Ok(Next::PassOver(number)),
        None => Ok(next_allowed(held, budget, rank, candidate)),
    }
}

/// What comes next.
fn look<F: Frontier>(
    alloc: Global,
    frontier: &F,
    held: &Held,
    budget: u64,
) -> Result<Next, AllocError>
    ensures { IfOk result (λ next. NextTells next budget (standing (F.left frontier.now) held.now)) }
{
    if held.is_full() {
        return Ok(Next::Ends(Outcome::Settled));
    }
    match first_of(alloc, frontier)? {
        Some(rank) => next_at(alloc, held, budget, rank),
        None => Ok(Next::Ends(Outcome::Settled)),
    }
}

/// Leaves out the first candidate, which the kept conflict of this number rules out.
fn pass_over<F: Frontier>(frontier: &mut F, held: &Held, number: usize) -> Result<(), AllocError>
    requires { PassesOver number (standing (F.left frontier.old) held.now) }
    ensures { IfOk result (λ _. Thins (conflict_at held.now.conflicts number) (F.left frontier.old) (F.left frontier.new)) }
{
    frontier.split_first(held.conflicts.get(number))
}

/// Leaves out the first candidate, which has the target of a listed one; with groups, maybe others too.
fn leave_out<F: Frontier>(frontier: &mut F, held: &Held) -> Result<(), AllocError>
    requires { F.left frontier.old ≢ [] }
    ensures { IfOk result (λ _. LeftAfter held.now.groups (F.left frontier.old) (F.left frontier.new)) }
{
    match &held.groups {
        Some(groups) => frontier.drop_alike(groups),
        None => frontier.drop_first(),
    }
}

/// Lists the first candidate, and leaves it out of what is left. With the last that is to be listed the search ends, so
/// that nothing more is asked of what is left.
fn list_first<F: Frontier>(frontier: &mut F, held: &mut Held, rank: Rank) -> Result<(), AllocError>
    requires { F.left frontier.old ≢ [] }
    ensures { IfOk result (λ _. IsListed rank (standing (F.left frontier.old) held.old) (standing (F.left frontier.new) held.new)) }
{
    held.listed.push(rank)?;
    if held.is_full() {
        return Ok(());
    }
    leave_out(frontier, held)
}

/// Tries the first candidate: lists it, or keeps its conflict.
fn try_first<F: Frontier, T: Trial>(
    frontier: &mut F,
    trial: &mut T,
    held: &mut Held,
    rank: Rank,
    candidate: &Candidate,
) -> Result<(), AllocError>
    requires first { slice_get (F.left frontier.old) 0 ≡ Some rank }
    requires suits { IsTrue (T.suits trial.old candidate.now) }
    ensures same { trial.new ≡ trial.old }
    ensures fits { IfOk result (λ _. T.fits trial.old candidate.now ≡ true → IsListed rank (standing (F.left frontier.old) held.old) (standing (F.left frontier.new) held.new)) }
    ensures refused { IfOk result (λ _. T.fits trial.old candidate.now ≡ false → standing (F.left frontier.new) held.new ≡ record { k = held.old.k; groups = held.old.groups; listed = held.old.listed; kept = held.old.conflicts ++ T.reason trial.old candidate.now ∷ []; left = F.left frontier.old }) }
{
    match trial.attempt(candidate)? {
        Tried::Fits => list_first(frontier, held, rank),
        Tried::Refused(conflict) => held.conflicts.add(conflict),
    }
}

/// One turn of a search.
fn take_turn<F: Frontier, T: Trial>(
    alloc: Global,
    frontier: &mut F,
    trial: &mut T,
    held: &mut Held,
    budget: u64,
) -> Result<Turn, AllocError>
    requires suit { all_suit (T.suits trial.old) (standing (F.left frontier.old) held.old) ≡ true }
    requires few { trials_of (standing (F.left frontier.old) held.old) ≤ budget }
    ensures same { trial.new ≡ trial.old }
    ensures told { IfOk result (λ turn. TurnTells turn (T.suits trial.old) (T.fits trial.old) (T.reason trial.old) budget (standing (F.left frontier.old) held.old) (standing (F.left frontier.new) held.new)) }
{
    match look(alloc, frontier, held, budget)? {
        Next::Ends(outcome) => Ok(Turn::Ends(outcome)),
        Next::PassOver(number) => {
            pass_over(frontier, held, number)?;
            Ok(Turn::GoesOn)
        }
        Next::Repeat => {
            leave_out(frontier, held)?;
            Ok(Turn::GoesOn)
        }
        Next::Try(rank, candidate) => {
            try_first(frontier, trial, held, rank, &candidate)?;
            Ok(Turn::GoesOn)
        }
    }
}

/// Turns until the search ends.
pub(crate) fn take_turns<F: Frontier, T: Trial>(
    alloc: Global,
    frontier: &mut F,
    trial: &mut T,
    held: &mut Held,
    budget: u64,
) -> Result<Outcome, AllocError>
    requires suit { all_suit (T.suits trial.old) (standing (F.left frontier.old) held.old) ≡ true }
    requires few { trials_of (standing (F.left frontier.old) held.old) ≤ budget }
    ensures same { trial.new ≡ trial.old }
    ensures few { IfOk result (λ _. trials_of (standing (F.left frontier.new) held.new) ≤ budget) }
    ensures follows { IfOk result (λ _. Follows (T.suits trial.old) (T.fits trial.old) (T.reason trial.old) (standing (F.left frontier.old) held.old) (standing (F.left frontier.new) held.new)) }
    ensures ends { IfOk result (λ outcome. EndsAt outcome (T.fits trial.old) (T.reason trial.old) budget (standing (F.left frontier.old) held.old) (standing (F.left frontier.new) held.new)) }
{
    'turns: loop {
        match take_turn(alloc, frontier, trial, held, budget)? {
            Turn::GoesOn => {}
            Turn::Ends(outcome) => return Ok(outcome),
        }
    }
}
