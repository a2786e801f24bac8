//! Tracked states, observations and values as lines. Their numbers count from 1.
#![tactic(auto)]

ghost use Rattle.std.specs.Prelude.{◌≡◌, ◌++◌, ◌∷◌, IfOk};
ghost use Rattle.lv_cert.specs.declared.line.Line.TheVariants.{Model as OfModel};
ghost use Rattle.lv_cert_writing.specs.Lines as Lines;
ghost use Rattle.lv_cert_writing.specs.Lines.{value_numbers, numbers_of, pair_numbers};

use crate::Split;
use lv_base::{Pair, Seq, ValId};
use lv_cert::{Head, Line, Moment};
use lv_meaning::Observation;
use lv_model::{Model, TrackedState};
use std::alloc::{AllocError, Global};

/// The model's name.
pub fn model_line(alloc: Global, model: &Model) -> Result<Line, AllocError>
    ensures { IfOk result (λ line. line ≡ OfModel model.now.name) }
{
    let plant = model.plant();
    Ok(Line::Model(Seq::from_slice(alloc, plant.name.as_slice())?))
}

/// Adds the numbers of values.
pub fn push_values(out: &mut Seq<u128>, values: &[ValId]) -> Result<(), AllocError>
    ensures { IfOk result (λ _. out.new ≡ out.old ++ value_numbers values.now) }
{
    for value in values {
        out.push(u128::from(value.0) + 1)?;
    }
    Ok(())
}

/// Adds the numbers of places.
pub fn push_places(out: &mut Seq<u128>, places: &[u32]) -> Result<(), AllocError>
    ensures { IfOk result (λ _. out.new ≡ out.old ++ numbers_of places.now) }
{
    for place in places {
        out.push(u128::from(*place) + 1)?;
    }
    Ok(())
}

/// Adds the numbers of pairs, a slot and a choice each.
pub fn push_pairs(out: &mut Seq<u128>, pairs: &[Pair]) -> Result<(), AllocError>
    ensures { IfOk result (λ _. out.new ≡ out.old ++ pair_numbers pairs.now) }
{
    for pair in pairs {
        out.push(u128::from(pair.slot) + 1)?;
        out.push(u128::from(pair.choice) + 1)?;
    }
    Ok(())
}

/// A line of the numbers of values.
pub fn values_line(alloc: Global, head: Head, values: &[ValId]) -> Result<Line, AllocError>
    ensures { IfOk result (λ line. line ≡ Lines.values_line head values.now) }
{
    let mut numbers = Seq::new(alloc);
    push_values(&mut numbers, values)?;
    Ok(Line::Numbers(head, numbers))
}

/// A tracked state: its cost and its modes.
fn state_line(alloc: Global, state: &TrackedState) -> Result<Line, AllocError>
    ensures { IfOk result (λ line. line ≡ Lines.state_line state.now) }
{
    let mut numbers = Seq::new(alloc);
    numbers.push(u128::from(state.cost.0))?;
    push_values(&mut numbers, state.state.modes.as_slice())?;
    Ok(Line::Numbers(Head::State, numbers))
}

/// Adds a line for each tracked state.
pub fn push_states(
    alloc: Global,
    lines: &mut Vec<Line>,
    tracked: &[TrackedState],
) -> Result<(), AllocError>
    ensures { IfOk result (λ _. lines.new.items ≡ lines.old.items ++ Lines.state_lines tracked.now) }
{
    for state in tracked {
        lines.push(state_line(alloc, state)?)?;
    }
    Ok(())
}

/// Adds a line for each observation.
pub fn push_facts(
    lines: &mut Vec<Line>,
    moment: Moment,
    observations: &[Observation],
) -> Result<(), AllocError>
    ensures { IfOk result (λ _. lines.new.items ≡ lines.old.items ++ Lines.fact_lines moment observations.now) }
{
    for o in observations {
        let x = u128::from(o.var.0) + 1;
        lines.push(Line::Fact(moment, x, u128::from(o.val.0) + 1))?;
    }
    Ok(())
}

/// Adds a line for each split.
pub fn push_splits(lines: &mut Vec<Line>, made: &[Split]) -> Result<(), AllocError>
    ensures { IfOk result (λ _. lines.new.items ≡ lines.old.items ++ Lines.split_lines made.now) }
{
    for split in made {
        lines.push(Line::Split(split.zone, split.by))?;
    }
    Ok(())
}
