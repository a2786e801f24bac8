//! The text of a diagnosis or a window: how many candidates or trajectories are listed, and a line for each with its cost,
//! the tracked state that it starts from, and the steps and faults of each step of the plant.
#![tactic(auto)]

ghost use Rattle.std.specs.Prelude.{◌≡◌, ◌+◌, ◌<◌, ◌^◌, ◌++◌, [], ◌∷◌, IfOk, All, length, drop, decimal, codes, map};
ghost use Rattle.std.specs.Option.{option_copied};
ghost use Rattle.lv_reply.specs.Moves.{move_text};
ghost use Rattle.lv_reply.specs.Diagnosis.{shown, shown_move, shown_moves, moves_text, later_moves, listed_head, listed_line, listed_lines, settled_text, unsettled_text};

use crate::moves::text_of_move;
use crate::pieces::{push_joined, push_number};
use lv_base::{MoveId, Rank, Seq};
use lv_model::lookup::{move_of, type_of};
use lv_model::{ComponentType, Move, MoveKind, Name, Part, Plant};
use std::alloc::{AllocError, Global};

/// Adds what a move shows: a stay nothing.
fn push_shown(
    alloc: Global,
    out: &mut Vec<Name>,
    part: &Part,
    modes: &[Name],
    m: &Move,
) -> Result<(), AllocError>
    ensures { IfOk result (λ _. out.new.items ≡ out.old.items ++ shown m.now.kind (move_text part.now modes.now m.now)) }
{
    match m.kind {
        MoveKind::Stay => Ok(()),
        MoveKind::Step => {
            out.push(Seq::from_vec(text_of_move(alloc, part, modes, m)?))?;
            Ok(())
        }
        MoveKind::Fault => {
            out.push(Seq::from_vec(text_of_move(alloc, part, modes, m)?))?;
            Ok(())
        }
    }
}

/// Adds what the part's move of this number shows.
fn push_shown_move(
    alloc: Global,
    out: &mut Vec<Name>,
    types: &[ComponentType],
    part: &Part,
    n: u32,
) -> Result<(), AllocError>
    ensures { IfOk result (λ _. out.new.items ≡ out.old.items ++ shown_move types.now part.now n) }
{
    match type_of(types, part) {
        Some(t) => match move_of(t.moves.as_slice(), MoveId(n)) {
            Some(m) => push_shown(alloc, out, part, t.modes.as_slice(), m),
            None => Ok(()),
        },
        None => Ok(()),
    }
}

/// What the moves of the parts show, in order.
fn shown_moves(
    alloc: Global,
    types: &[ComponentType],
    parts: &[Part],
    choices: &[u32],
) -> Result<Vec<Name>, AllocError>
    ensures { IfOk result (λ out. out.items ≡ shown_moves types.now parts.now choices.now) }
{
    let mut out = Vec::new(alloc);
    for (i, part) in parts.iter().enumerate() {
        if i >= choices.len() {
            return Ok(out);
        }
        push_shown_move(alloc, &mut out, types, part, choices[i])?;
    }
    Ok(out)
}

/// Adds what a step of the plant shows, of whose choices these are the first.
fn push_moves(
    alloc: Global,
    out: &mut Vec<u8>,
    plant: &Plant,
    choices: &[u32],
) -> Result<(), AllocError>
    ensures { IfOk result (λ _. out.new.items ≡ out.old.items ++ moves_text plant.now choices.now) }
{
    let moves = shown_moves(
        alloc,
        plant.types.as_slice(),
        plant.parts.as_slice(),
        choices,
    )?;
    push_joined(out, moves.as_slice())
}

/// The choices behind those of one step.
fn behind_step<'c>(plant: &Plant, choices: &'c [u32]) -> &'c [u32]
    ensures { result.now ≡ drop (length plant.now.parts) choices.now }
{
    let parts = plant.parts.len().min(choices.len());
    &choices[parts..]
}

/// Adds what so many later steps show, each behind a semicolon.
#[tactic(auto, using(crate::proofs::MoveLemmas::gone_on))]
fn push_later_moves(
    alloc: Global,
    out: &mut Vec<u8>,
    plant: &Plant,
    later: u32,
    choices: &[u32],
) -> Result<(), AllocError>
    ensures { IfOk result (λ _. out.new.items ≡ out.old.items ++ later_moves plant.now later choices.now) }
{
    let mut rest = choices;
    for _step in 0..later {
        out.extend_from_slice(b" ; ")?;
        push_moves(alloc, out, plant, rest)?;
        rest = behind_step(plant, rest);
    }
    Ok(())
}

/// Adds what stands before the moves in the line of what is listed.
fn push_head(out: &mut Vec<u8>, n: u64, rank: &Rank) -> Result<(), AllocError>
    ensures { IfOk result (λ _. out.new.items ≡ out.old.items ++ listed_head n rank.now) }
{
    push_number(out, n)?;
    out.extend_from_slice(b" cost ")?;
    push_number(out, rank.cost.0)?;
    out.extend_from_slice(b" from ")?;
    push_number(out, rank.source as u64 + 1)?;
    out.extend_from_slice(b": ")?;
    Ok(())
}

/// Adds the line of what is listed over so many steps.
fn push_line(
    alloc: Global,
    out: &mut Vec<u8>,
    plant: &Plant,
    steps: u32,
    n: u64,
    rank: &Rank,
) -> Result<(), AllocError>
    ensures { IfOk result (λ _. out.new.items ≡ out.old.items ++ listed_line plant.now steps n rank.now) }
{
    let choices = rank.choices.as_slice();
    push_head(out, n, rank)?;
    push_moves(alloc, out, plant, choices)?;
    let later = behind_step(plant, choices);
    push_later_moves(alloc, out, plant, steps.saturating_sub(1), later)?;
    out.extend_from_slice(b"\n")?;
    Ok(())
}

/// Adds the lines of what is listed over so many steps.
fn push_lines(
    alloc: Global,
    out: &mut Vec<u8>,
    plant: &Plant,
    steps: u32,
    ranks: &[Rank],
) -> Result<(), AllocError>
    ensures { IfOk result (λ _. out.new.items ≡ out.old.items ++ listed_lines plant.now steps 1 ranks.now) }
{
    for (i, rank) in ranks.iter().enumerate() {
        push_line(alloc, out, plant, steps, i as u64 + 1, rank)?;
    }
    Ok(())
}

/// The text of what is settled and lists these over so many steps; of a diagnosis it is one.
#[tactic(auto, unfolding(crate::specs::Diagnosis::settled_text))]
pub fn settled_text(
    alloc: Global,
    plant: &Plant,
    steps: u32,
    ranks: &[Rank],
) -> Result<Vec<u8>, AllocError>
    ensures { IfOk result (λ out. out.items ≡ settled_text plant.now steps ranks.now) }
{
    let mut out = Vec::from_slice(alloc, b"settled ")?;
    push_number(&mut out, ranks.len() as u64)?;
    out.extend_from_slice(b"\n")?;
    push_lines(alloc, &mut out, plant, steps, ranks)?;
    Ok(out)
}

/// The text of what listed these over so many steps in so many trials and isn't settled.
#[tactic(auto, unfolding(crate::specs::Diagnosis::unsettled_text))]
pub fn unsettled_text(
    alloc: Global,
    plant: &Plant,
    steps: u32,
    ranks: &[Rank],
    trials: u64,
) -> Result<Vec<u8>, AllocError>
    ensures { IfOk result (λ out. out.items ≡ unsettled_text plant.now steps ranks.now trials) }
{
    let mut out = Vec::from_slice(alloc, b"unsettled ")?;
    push_number(&mut out, ranks.len() as u64)?;
    out.extend_from_slice(b" trials ")?;
    push_number(&mut out, trials)?;
    out.extend_from_slice(b"\n")?;
    push_lines(alloc, &mut out, plant, steps, ranks)?;
    Ok(out)
}
