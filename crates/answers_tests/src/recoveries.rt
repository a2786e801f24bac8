//! Recoveries of valves that follow their commands or are stuck, with their inflows present. The variables of a valve are its
//! mode, its command, its inflow and its outflow.
ghost use Rattle.std.specs.Prelude.{◌≡◌, true, IfOk};
ghost use Rattle.lv_meaning.specs.Ranges.{AimFits};
ghost use Rattle.lv_reconf.specs.lv_search.Standing.{trials_of, all_suit};
ghost use Rattle.lv_system.specs.System.{IsSystemOf};
ghost use Rattle.lv_reconf.specs.Judging.{candidate_commands};

use crate::aims_that_fit::is_of;
use crate::asked::{Asked, answers};
use crate::reasons::are_reasons;
use lv_base::{Condition, Cost, Formula, Pair, Rank, Seq, ValId, VarId};
use lv_boxes::Outcome;
use lv_meaning::Aim;
use lv_model::ranges::plant_ranges;
use lv_model::{Model, State, TrackedState};
use lv_reconf::{Query, recover};
use lv_system::StepSystem;
use std::alloc::{AllocError, Global};
use test_texts::VALVE;

/// What makes three valves of one. What flows out of the second is the eighth variable.
const TWO_MORE: &[u8] = b"part b valve closed
part c valve closed
law b.inn = some
law c.inn = some
";

const CLOSED: ValId = ValId(0);

const OPEN: ValId = ValId(1);

const STUCK: ValId = ValId(2);

/// A recovery from these states to one in which the variable has a flow, and what it is to come to: the reasons of the command
/// sets that don't recover, each at most one value of a control, and the values of the one that does, none where there is none.
pub struct Recovery {
    states: &'static [&'static [ValId]],
    flowing: u32,
    reasons: &'static [Option<Pair>],
    values: &'static [u32],
}

fn in_modes(alloc: Global, modes: &[ValId]) -> Result<TrackedState, AllocError> {
    Ok(TrackedState {
        state: State {
            modes: Seq::from_slice(alloc, modes)?,
        },
        cost: Cost(0),
    })
}

/// That the variable has a flow.
fn flowing(alloc: Global, var: u32) -> Result<Seq<Condition>, AllocError> {
    let mut goals = Vec::new(alloc);
    goals.push(Condition::new(Formula::Is(VarId(var), ValId(1))))?;
    Ok(Seq::from_vec(goals))
}

fn add_states(
    alloc: Global,
    tracked: &mut Vec<TrackedState>,
    states: &[&[ValId]],
) -> Result<(), AllocError> {
    for modes in states {
        tracked.push(in_modes(alloc, *modes)?)?;
    }
    Ok(())
}

fn wanted_aim(alloc: Global, wanted: &Recovery) -> Result<Aim, AllocError> {
    let mut tracked = Vec::new(alloc);
    add_states(alloc, &mut tracked, wanted.states)?;
    let goals = flowing(alloc, wanted.flowing)?;
    Ok(Aim {
        tracked: Seq::from_vec(tracked),
        present: Seq::new(alloc),
        goals,
    })
}

fn is_aim(alloc: Global, model: &Model, aim: &Aim) -> Result<bool, AllocError>
    ensures { IfOk result (λ is. is ≡ true → AimFits model.now aim.now) }
{
    let plant = model.plant();
    let ranges = plant_ranges(alloc, plant)?;
    Ok(is_of(plant, ranges.as_slice(), aim))
}

/// The aim of the recovery, which is to be of the model.
fn aim_of(alloc: Global, model: &Model, wanted: &Recovery) -> Result<Aim, AllocError>
    ensures { IfOk result (AimFits model.now) }
{
    let aim = wanted_aim(alloc, wanted)?;
    if is_aim(alloc, model, &aim)? {
        return Ok(aim);
    }
    Err(AllocError)
}

fn is_listed(listed: &[Rank], values: &[u32]) -> bool {
    match listed.first() {
        Some(rank) => rank.choices.as_slice() == values,
        None => values.is_empty(),
    }
}

fn has_come_to(query: &Query<'_>, wanted: &Recovery) -> bool {
    let found = if wanted.values.is_empty() { 0 } else { 1 };
    let search = query.search();
    search.trials() == wanted.reasons.len() as u64 + found
        && are_reasons(search.conflicts(), wanted.reasons)
        && is_listed(search.listed(), wanted.values)
}

/// One trial, and then as many as it takes; whether it is settled then, and has come to what is wanted.
fn comes_to(query: &mut Query<'_>, wanted: &Recovery) -> Result<bool, AllocError>
    requires suit { all_suit (candidate_commands query.old.plant) query.old.standing ≡ true }
    requires start { trials_of query.old.standing ≡ 0 }
{
    query.run(1)?;
    let outcome = query.run(5)?;
    Ok(outcome == Outcome::Settled && has_come_to(query, wanted))
}

/// Whether the recovery comes to what is wanted.
pub fn recovers(
    alloc: Global,
    model: &Model,
    system: &StepSystem,
    wanted: &Recovery,
) -> Result<bool, AllocError>
    requires { IsSystemOf model.now system.now }
{
    let aim = aim_of(alloc, model, wanted)?;
    let mut query = recover(alloc, model, system, aim)?;
    let right = comes_to(&mut query, wanted);
    drop(query);
    right
}

/// Without a command nothing flows, since the valve rests; it opens at one.
const CLOSED_IS_OPENED: &Asked = &Asked::Recovery(Recovery {
    states: &[&[CLOSED]],
    flowing: 3,
    reasons: &[Some(Pair { slot: 0, choice: 0 })],
    values: &[1],
});

/// Of the command to open the reason is the second state, from which no command helps.
const STUCK_HAS_NONE: &Asked = &Asked::Recovery(Recovery {
    states: &[&[CLOSED], &[STUCK]],
    flowing: 3,
    reasons: &[Some(Pair { slot: 0, choice: 0 }), None],
    values: &[],
});

const OPEN_RESTS: &Asked = &Asked::Recovery(Recovery {
    states: &[&[OPEN]],
    flowing: 3,
    reasons: &[],
    values: &[0],
});

/// That the second rests is the reason of each set in which it does, so that one trial more is enough.
const SECOND_IS_OPENED: &Asked = &Asked::Recovery(Recovery {
    states: &[&[CLOSED, CLOSED, CLOSED]],
    flowing: 7,
    reasons: &[Some(Pair { slot: 1, choice: 0 })],
    values: &[0, 1, 0],
});

const SECOND_IS_STUCK: &Asked = &Asked::Recovery(Recovery {
    states: &[&[CLOSED, STUCK, CLOSED]],
    flowing: 7,
    reasons: &[None],
    values: &[],
});

/// Whether three valves answer as they are to.
fn three_answer(alloc: Global, asked: &Asked) -> Result<bool, AllocError> {
    let mut text = Vec::from_slice(alloc, VALVE)?;
    text.extend_from_slice(TWO_MORE)?;
    answers(alloc, text.as_slice(), asked)
}

#[test]
fn a_closed_valve(rt: HostRuntime) -> Result<(), AllocError> {
    let right = answers(rt.alloc(), VALVE, CLOSED_IS_OPENED)?;
    assert!(rt; right);
    Ok(())
}

#[test]
fn a_valve_closed_or_stuck(rt: HostRuntime) -> Result<(), AllocError> {
    let right = answers(rt.alloc(), VALVE, STUCK_HAS_NONE)?;
    assert!(rt; right);
    Ok(())
}

#[test]
fn an_open_valve(rt: HostRuntime) -> Result<(), AllocError> {
    let right = answers(rt.alloc(), VALVE, OPEN_RESTS)?;
    assert!(rt; right);
    Ok(())
}

#[test]
fn three_valves(rt: HostRuntime) -> Result<(), AllocError> {
    let right = three_answer(rt.alloc(), SECOND_IS_OPENED)?;
    assert!(rt; right);
    Ok(())
}

#[test]
fn three_valves_with_one_stuck(rt: HostRuntime) -> Result<(), AllocError> {
    let right = three_answer(rt.alloc(), SECOND_IS_STUCK)?;
    assert!(rt; right);
    Ok(())
}
