//! Diagnoses of a valve that is closed at the start. Its variables are its mode, its command, its inflow and its outflow; its
//! moves from closed are to open, the stay, and the faults that leave it stuck closed and stuck open.
//!
//! A function owns one value and hands it on by reference, so little is let go of at its exits.
ghost use Rattle.std.specs.Prelude.{◌≡◌, ◌<◌, true, All, IfOk, length};
ghost use Rattle.lv_model.specs.Lists.{move_counts};
ghost use Rattle.lv_meaning.specs.Facts.{FactsFit, FactsInRange};
ghost use Rattle.lv_meaning.specs.Candidates.{IsTracked};
ghost use Rattle.lv_ident.specs.lv_search.Standing.{trials_of, all_suit};
ghost use Rattle.lv_system.specs.System.{IsSystemOf};
ghost use Rattle.lv_ident.specs.lv_search_zones.Moves.{is_full_choice};

use crate::asked::{Asked, answers};
use crate::facts_that_fit::{are_in_range, fit};
use crate::reasons::are_reasons;
use lv_base::{Cost, Pair, Rank, Seq, ValId, VarId};
use lv_boxes::Outcome;
use lv_ident::{IdentTrial, Listing, Query, identify};
use lv_meaning::{Facts, Observation};
use lv_model::{Model, Part, State, TrackedState};
use lv_system::StepSystem;
use std::alloc::{AllocError, Global};
use test_texts::VALVE;

const NOTHING_OUT: Observation = Observation {
    var: VarId(3),
    val: ValId(0),
};

/// What the valve is commanded, and what is seen after it.
pub struct Told {
    command: ValId,
    next: &'static [Observation],
}

/// The command to open, and that nothing flows.
const OPENED: Told = Told {
    command: ValId(1),
    next: &[NOTHING_OUT],
};

/// No command and no observation.
const RESTING: Told = Told {
    command: ValId(0),
    next: &[],
};

/// How a diagnosis is run.
pub enum Runs {
    One,
    Two,
}

/// What a diagnosis is to come to: what each candidate listed costs, and its move; the moves that each are a conflict.
pub struct Diagnosis {
    listed: &'static [(u64, u32)],
    refused: &'static [Option<Pair>],
}

const OPENS: Option<Pair> = Some(Pair { slot: 0, choice: 0 });

const STAYS: Option<Pair> = Some(Pair { slot: 0, choice: 1 });

const STICKS_OPEN: Option<Pair> = Some(Pair { slot: 0, choice: 3 });

/// Of the command to open, after which nothing flows.
const AFTER_COMMAND: Diagnosis = Diagnosis {
    listed: &[(3, 2)],
    refused: &[OPENS, STAYS, STICKS_OPEN],
};

/// Of a valve that rests and isn't looked at.
const AFTER_NOTHING: Diagnosis = Diagnosis {
    listed: &[(0, 1), (3, 2), (8, 3)],
    refused: &[OPENS],
};

struct Case {
    name: &'static str,
    asked: Asked,
}

const CASES: &[Case] = &[
    Case {
        name: "nothing flows after a command",
        asked: Asked::Diagnosis(OPENED, Runs::One, AFTER_COMMAND),
    },
    Case {
        name: "the same in two runs",
        asked: Asked::Diagnosis(OPENED, Runs::Two, AFTER_COMMAND),
    },
    Case {
        name: "a valve that rests",
        asked: Asked::Diagnosis(RESTING, Runs::One, AFTER_NOTHING),
    },
    Case {
        name: "moves tried alone",
        asked: Asked::Moves(OPENED),
    },
];

fn told_facts(alloc: Global, told: &Told) -> Result<Facts, AllocError> {
    Ok(Facts {
        controls: Seq::from_slice(alloc, &[told.command])?,
        present: Seq::new(alloc),
        next: Seq::from_slice(alloc, told.next)?,
    })
}

fn facts_are_of(alloc: Global, model: &Model, facts: &Facts) -> Result<bool, AllocError>
    ensures fit { IfOk result (λ are. are ≡ true → FactsFit model.now facts.now) }
    ensures in_range { IfOk result (λ are. are ≡ true → FactsInRange model.now facts.now) }
{
    if fit(alloc, model, facts)? {
        return are_in_range(alloc, model, facts);
    }
    Ok(false)
}

/// The facts of what is told, which are to be of the model.
fn facts_of(alloc: Global, model: &Model, told: &Told) -> Result<Facts, AllocError>
    ensures fit { IfOk result (FactsFit model.now) }
    ensures in_range { IfOk result (FactsInRange model.now) }
{
    let facts = told_facts(alloc, told)?;
    if facts_are_of(alloc, model, &facts)? {
        return Ok(facts);
    }
    Err(AllocError)
}

/// Of each part its first mode.
fn first_modes(alloc: Global, parts: &[Part]) -> Result<Vec<ValId>, AllocError>
    ensures { IfOk result (λ modes. length modes.items ≡ length parts.now) }
{
    parts.iter().map(|_| ValId(0)).collect(alloc)
}

/// The state in which each part is in its first mode.
fn first_state(alloc: Global, model: &Model) -> Result<TrackedState, AllocError>
    ensures { IfOk result (IsTracked (length model.now.parts)) }
{
    let modes = first_modes(alloc, model.plant().parts.as_slice())?;
    Ok(TrackedState {
        state: State {
            modes: Seq::from_vec(modes),
        },
        cost: Cost(0),
    })
}

/// The closed valve alone.
fn closed(alloc: Global, model: &Model) -> Result<Vec<TrackedState>, AllocError>
    ensures one { IfOk result (λ out. length out.items ≡ 1) }
    ensures states { IfOk result (λ out. All (IsTracked (length model.now.parts)) out.items) }
{
    let mut out = Vec::new(alloc);
    out.push(first_state(alloc, model)?)?;
    Ok(out)
}

fn is_listed(rank: &Rank, cost: u64, mv: u32) -> bool {
    rank.cost == Cost(cost) && rank.source == 0 && rank.choices.as_slice() == [mv].as_slice()
}

fn are_listed(listed: &[Rank], wanted: &[(u64, u32)]) -> bool {
    listed.len() == wanted.len()
        && listed
            .iter()
            .zip(wanted.iter())
            .all(|(rank, w)| is_listed(rank, w.0, w.1))
}

fn has_come_to(query: &Query<'_>, wanted: &Diagnosis) -> bool {
    let search = query.search();
    search.trials() == 4
        && are_listed(search.listed(), wanted.listed)
        && are_reasons(search.conflicts(), wanted.refused)
}

/// Whether it isn't settled after one trial, but with further ones.
fn settles_later(query: &mut Query<'_>) -> Result<bool, AllocError>
    requires suit { all_suit (is_full_choice query.old.plant) query.old.standing ≡ true }
    requires start { trials_of query.old.standing ≡ 0 }
{
    let before = query.run(1)?;
    let search = query.search();
    let is_under_way = search.trials() == 1
        && search.listed().is_empty()
        && are_reasons(search.conflicts(), &[OPENS]);
    let after = query.run(3)?;
    Ok(before == Outcome::Unsettled && is_under_way && after == Outcome::Settled)
}

fn settles(query: &mut Query<'_>, runs: &Runs) -> Result<bool, AllocError>
    requires suit { all_suit (is_full_choice query.old.plant) query.old.standing ≡ true }
    requires start { trials_of query.old.standing ≡ 0 }
{
    match runs {
        Runs::One => Ok(query.run(10)? == Outcome::Settled),
        Runs::Two => settles_later(query),
    }
}

fn comes_to(query: &mut Query<'_>, runs: &Runs, wanted: &Diagnosis) -> Result<bool, AllocError>
    requires suit { all_suit (is_full_choice query.old.plant) query.old.standing ≡ true }
    requires start { trials_of query.old.standing ≡ 0 }
{
    Ok(settles(query, runs)? && has_come_to(query, wanted))
}

fn query_comes_to(
    alloc: Global,
    model: &Model,
    system: &StepSystem,
    tracked: &[TrackedState],
    told: &Told,
    runs: &Runs,
    wanted: &Diagnosis,
) -> Result<bool, AllocError>
    requires system { IsSystemOf model.now system.now }
    requires one { length tracked.now ≡ 1 }
    requires states { All (IsTracked (length model.now.parts)) tracked.now }
{
    let facts = facts_of(alloc, model, told)?;
    let listing = Listing {
        k: 4,
        distinct: false,
    };
    let mut query = identify(alloc, model, system, None, tracked, facts, listing)?;
    let right = comes_to(&mut query, runs, wanted);
    drop(query);
    right
}

/// Whether what is told of the closed valve is diagnosed so.
pub fn is_diagnosed(
    alloc: Global,
    model: &Model,
    system: &StepSystem,
    told: &Told,
    runs: &Runs,
    wanted: &Diagnosis,
) -> Result<bool, AllocError>
    requires { IsSystemOf model.now system.now }
{
    let tracked = closed(alloc, model)?;
    query_comes_to(alloc, model, system, tracked.as_slice(), told, runs, wanted)
}

/// Whether the move is possible; None where there is no such move.
fn is_possible(
    trial: &mut IdentTrial<'_>,
    counts: &[usize],
    mv: u32,
) -> Result<Option<bool>, AllocError>
    requires { counts.now ≡ move_counts trial.old.plant }
    ensures { trial.new ≡ trial.old }
{
    if !counts.is_empty() && (mv as usize) < counts[0] {
        let pair = Pair {
            slot: 0,
            choice: mv,
        };
        return Ok(Some(trial.possible(&[pair])?));
    }
    Ok(None)
}

/// Whether of the moves from closed just the fault that leaves the valve stuck closed is possible, it isn't possible to stay
/// stuck open, and there is no eleventh move, where the valve was commanded to open and nothing flows after it.
fn moves_are_right(trial: &mut IdentTrial<'_>, counts: &[usize]) -> Result<bool, AllocError>
    requires { counts.now ≡ move_counts trial.old.plant }
{
    let found = [
        is_possible(trial, counts, 0)?,
        is_possible(trial, counts, 1)?,
        is_possible(trial, counts, 2)?,
        is_possible(trial, counts, 3)?,
        is_possible(trial, counts, 9)?,
        is_possible(trial, counts, 10)?,
    ];
    Ok(
        found
            == [
                Some(false),
                Some(false),
                Some(true),
                Some(false),
                Some(false),
                None,
            ],
    )
}

/// Whether moves tried alone are right under what is told.
pub fn has_right_moves(
    alloc: Global,
    model: &Model,
    system: &StepSystem,
    told: &Told,
) -> Result<bool, AllocError>
    requires { IsSystemOf model.now system.now }
{
    let facts = facts_of(alloc, model, told)?;
    let mut trial = IdentTrial::new(alloc, model, system, None, facts)?;
    let right = moves_are_right(&mut trial, system.choices().counts());
    drop(trial);
    right
}

#[test]
fn a_closed_valve(rt: HostRuntime) -> Result<(), AllocError> {
    for case in CASES {
        assert!(rt; answers(rt.alloc(), VALVE, &case.asked)?, "{}", case.name);
    }
    Ok(())
}
