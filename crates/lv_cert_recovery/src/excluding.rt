//! The blocks that exclude command sets: by values that don't reach the goals from some state, or by a step with values of
//! all controls that misses a goal.
#![tactic(auto)]

ghost use Rattle.std.specs.Prelude.{◌≡◌, ◌+◌, ◌∷◌, true, All, IfOk, IsTrue};
ghost use Rattle.lv_base.specs.Choices.{slots_rise};
ghost use Rattle.lv_cert.specs.declared.line.Head.TheVariants as head;
ghost use Rattle.lv_cert.specs.declared.line.Line.TheVariants.{Numbers};
ghost use Rattle.lv_model.specs.Ranges.{plant_ranges};
ghost use Rattle.lv_meaning.specs.Commands.{control_sizes};
ghost use Rattle.lv_meaning.specs.Ranges.{modes_fit};
ghost use Rattle.lv_cert_writing.specs.Lines.{numbers_of, pair_numbers};
ghost use Rattle.lv_cert_writing.specs.Pairs.{HasChoice};
ghost use Rattle.lv_cert_recovery.specs.Keeping.{AreValues, IsReason, choices_of};
ghost use Rattle.lv_cert_recovery.specs.Leading.{AddsConflict, AddsCounter, Excludes, ExcludesAll};
ghost use Rattle.lv_cert_recovery.specs.Telling.{TellsMissing};

use crate::asking::{Asking, Told};
use crate::showing::push_step;
use lv_base::{Conflict, Pair, Seq};
use lv_cert::{Head, Line};
use lv_cert_writing::Refuter;
use lv_cert_writing::asking::push_clauses;
use lv_cert_writing::stating::push_pairs;
use lv_model::State;
use lv_system::StepPair;
use std::alloc::{AllocError, Global};

/// That from the state of this place no step with these values reaches the goals.
fn conflict_line(alloc: Global, place: usize, pairs: &[Pair]) -> Result<Line, AllocError>
    ensures { IfOk result (λ line. line ≡ Numbers head.Conflict ((place + 1) ∷ pair_numbers pairs.now)) }
{
    let mut numbers = Seq::new(alloc);
    numbers.push(place as u128 + 1)?;
    push_pairs(&mut numbers, pairs)?;
    Ok(Line::Numbers(Head::Conflict, numbers))
}

/// That from the state of this place a step with these values misses a goal.
fn counter_line(alloc: Global, place: usize, pairs: &[Pair]) -> Result<Line, AllocError>
    ensures { IfOk result (λ line. line ≡ Numbers head.Counter ((place + 1) ∷ numbers_of (choices_of pairs.now))) }
{
    let mut numbers = Seq::new(alloc);
    numbers.push(place as u128 + 1)?;
    for pair in pairs {
        numbers.push(u128::from(pair.choice) + 1)?;
    }
    Ok(Line::Numbers(Head::Counter, numbers))
}

/// Excludes these values by the first state from which they don't reach the goals, if there is one.
fn push_conflict(
    asking: &Asking,
    refuter: &mut Refuter<'_>,
    pairs: &[Pair],
    lines: &mut Vec<Line>,
) -> Result<bool, AllocError>
    requires refuter { refuter.old ≡ asking.now.system }
    requires have { All (HasChoice (control_sizes asking.now.plant)) pairs.now }
    requires rising { slots_rise pairs.now ≡ true }
    ensures told { IfOk result (AddsConflict asking.now.plant asking.now.aim pairs.now lines.old.items lines.new.items) }
    ensures kept { refuter.new ≡ refuter.old }
{
    let aim = asking.aim();
    for (place, s) in aim.tracked.as_slice().iter().enumerate() {
        match asking.reach(refuter, &s.state, pairs)? {
            Told::Step(_) => {}
            Told::Lines(told) => {
                lines.push(conflict_line(asking.alloc(), place, pairs)?)?;
                push_clauses(lines, told)?;
                return Ok(true);
            }
        }
    }
    Ok(false)
}

/// A nominal step from the state, with these values, that misses a goal, if there is one.
fn missing_step(
    asking: &Asking,
    refuter: &mut Refuter<'_>,
    state: &State,
    pairs: &[Pair],
) -> Result<Option<StepPair>, AllocError>
    requires refuter { refuter.old ≡ asking.now.system }
    requires fit { modes_fit (plant_ranges asking.now.plant) asking.now.plant.parts state.now.modes ≡ true }
    requires have { All (HasChoice (control_sizes asking.now.plant)) pairs.now }
    ensures told { IfOk result (TellsMissing asking.now.plant asking.now.aim state.now pairs.now) }
    ensures kept { refuter.new ≡ refuter.old }
{
    let aim = asking.aim();
    for goal in aim.goals.as_slice() {
        match asking.miss(refuter, state, pairs, goal)? {
            Told::Step(step) => return Ok(Some(step)),
            Told::Lines(_) => {}
        }
    }
    Ok(None)
}

/// Excludes these values of all controls by the first state from which they can miss a goal, if there is one.
fn push_counter(
    asking: &Asking,
    refuter: &mut Refuter<'_>,
    pairs: &[Pair],
    lines: &mut Vec<Line>,
) -> Result<bool, AllocError>
    requires refuter { refuter.old ≡ asking.now.system }
    requires given { AreValues asking.now.plant pairs.now }
    ensures told { IfOk result (AddsCounter asking.now.plant asking.now.aim pairs.now lines.old.items lines.new.items) }
    ensures kept { refuter.new ≡ refuter.old }
{
    let aim = asking.aim();
    for (place, s) in aim.tracked.as_slice().iter().enumerate() {
        if let Some(step) = missing_step(asking, refuter, &s.state, pairs)? {
            lines.push(counter_line(asking.alloc(), place, pairs)?)?;
            push_step(
                asking.alloc(),
                lines,
                step.now.as_slice(),
                step.next.as_slice(),
            )?;
            return Ok(true);
        }
    }
    Ok(false)
}

/// Excludes the reason of a command set that doesn't recover.
fn push_block(
    asking: &Asking,
    refuter: &mut Refuter<'_>,
    conflict: &Conflict,
    lines: &mut Vec<Line>,
) -> Result<(), AllocError>
    requires refuter { refuter.old ≡ asking.now.system }
    requires given { IsReason asking.now.plant asking.now.aim conflict.now }
    ensures told { IfOk result (λ _. Excludes asking.now.plant asking.now.aim conflict.now lines.old.items lines.new.items) }
    ensures kept { refuter.new ≡ refuter.old }
{
    let _aim = asking.aim();
    if push_conflict(asking, refuter, conflict.pairs(), lines)? {
        return Ok(());
    }
    push_counter(asking, refuter, conflict.pairs(), lines)?;
    Ok(())
}

/// Excludes each of these.
pub fn push_blocks(
    asking: &Asking,
    refuter: &mut Refuter<'_>,
    kept: &[Conflict],
    lines: &mut Vec<Line>,
) -> Result<(), AllocError>
    requires refuter { refuter.old ≡ asking.now.system }
    requires given { All (IsReason asking.now.plant asking.now.aim) kept.now }
    ensures told { IfOk result (λ _. ExcludesAll asking.now.plant asking.now.aim kept.now lines.old.items lines.new.items) }
    ensures kept { refuter.new ≡ refuter.old }
{
    for conflict in kept {
        push_block(asking, refuter, conflict, lines)?;
    }
    Ok(())
}
