//! The text of tracked states: the time, how many they are, and a line for each with its cost and the mode of each part.
#![tactic(auto)]

ghost use Rattle.std.specs.Prelude.{◌≡◌, ◌+◌, ◌++◌, IfOk, drop, decimal, codes};
ghost use Rattle.lv_reply.specs.Pieces.{joined};
ghost use Rattle.lv_reply.specs.States.{part_text, part_texts, state_line, state_lines, committed_text, states_text};

use crate::pieces::{push_joined, push_name, push_number};
use lv_base::{Seq, ValId};
use lv_model::lookup::type_of;
use lv_model::{ComponentType, Name, Part, Plant, TrackedState};
use std::alloc::{AllocError, Global};

/// A part and its mode.
fn text_of_part(
    alloc: Global,
    types: &[ComponentType],
    part: &Part,
    mode: ValId,
) -> Result<Vec<u8>, AllocError>
    ensures { IfOk result (λ out. out.items ≡ part_text types.now part.now mode) }
{
    let mut out = Vec::from_slice(alloc, part.name.as_slice())?;
    out.extend_from_slice(b"=")?;
    match type_of(types, part) {
        Some(t) => {
            push_name(&mut out, t.modes.as_slice(), mode.0)?;
            Ok(out)
        }
        None => Ok(out),
    }
}

/// The parts and their modes, in order.
fn texts_of_parts(
    alloc: Global,
    types: &[ComponentType],
    parts: &[Part],
    modes: &[ValId],
) -> Result<Vec<Name>, AllocError>
    ensures { IfOk result (λ out. out.items ≡ part_texts types.now parts.now modes.now) }
{
    let mut out = Vec::new(alloc);
    for (i, part) in parts.iter().enumerate() {
        if i >= modes.len() {
            return Ok(out);
        }
        out.push(Seq::from_vec(text_of_part(alloc, types, part, modes[i])?))?;
    }
    Ok(out)
}

/// Adds the mode of each part.
pub fn push_modes(
    alloc: Global,
    out: &mut Vec<u8>,
    plant: &Plant,
    modes: &[ValId],
) -> Result<(), AllocError>
    ensures { IfOk result (λ _. out.new.items ≡ out.old.items ++ joined (part_texts plant.now.types plant.now.parts modes.now)) }
{
    let texts = texts_of_parts(alloc, plant.types.as_slice(), plant.parts.as_slice(), modes)?;
    push_joined(out, texts.as_slice())
}

/// Adds the line of a tracked state.
fn push_line(
    alloc: Global,
    out: &mut Vec<u8>,
    plant: &Plant,
    n: u64,
    tracked: &TrackedState,
) -> Result<(), AllocError>
    ensures { IfOk result (λ _. out.new.items ≡ out.old.items ++ state_line plant.now n tracked.now) }
{
    push_number(out, n)?;
    out.extend_from_slice(b" cost ")?;
    push_number(out, tracked.cost.0)?;
    out.extend_from_slice(b": ")?;
    push_modes(alloc, out, plant, tracked.state.modes.as_slice())?;
    out.extend_from_slice(b"\n")?;
    Ok(())
}

/// Adds the lines of the tracked states.
fn push_lines(
    alloc: Global,
    out: &mut Vec<u8>,
    plant: &Plant,
    tracked: &[TrackedState],
) -> Result<(), AllocError>
    ensures { IfOk result (λ _. out.new.items ≡ out.old.items ++ state_lines plant.now 1 tracked.now) }
{
    for (i, state) in tracked.iter().enumerate() {
        push_line(alloc, out, plant, i as u64 + 1, state)?;
    }
    Ok(())
}

/// The text of the time and the number of tracked states.
#[tactic(auto, unfolding(crate::specs::States::committed_text))]
pub fn committed_text(alloc: Global, time: u64, tracked: u64) -> Result<Vec<u8>, AllocError>
    ensures { IfOk result (λ out. out.items ≡ committed_text time tracked) }
{
    let mut out = Vec::from_slice(alloc, b"time ")?;
    push_number(&mut out, time)?;
    out.extend_from_slice(b" tracked ")?;
    push_number(&mut out, tracked)?;
    out.extend_from_slice(b"\n")?;
    Ok(out)
}

/// The text of the tracked states.
#[tactic(auto, unfolding(crate::specs::States::states_text))]
pub fn states_text(
    alloc: Global,
    plant: &Plant,
    time: u64,
    tracked: &[TrackedState],
) -> Result<Vec<u8>, AllocError>
    ensures { IfOk result (λ out. out.items ≡ states_text plant.now time tracked.now) }
{
    let mut out = committed_text(alloc, time, tracked.len() as u64)?;
    push_lines(alloc, &mut out, plant, tracked)?;
    Ok(out)
}
