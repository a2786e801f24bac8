//! What the choice of a move asks for.
#![tactic(auto)]

ghost use Rattle.std.specs.Prelude.{◌≡◌, ◌+◌, ◌<◌, ◌≤◌, ◌^◌, ◌++◌, ◌∷◌, [], true, false, IfOk, All, IsTrue, map, length, take, sum_by, slice_get};
ghost use Rattle.std.specs.List.{flat_map};
ghost use Rattle.std.specs.Option.{option_map_or};
ghost use Rattle.lv_compile.specs.Booleans.{Booleans};
ghost use Rattle.lv_compile.specs.Speaking.{GuardSpeaks, MoveSpeaks, PartSpeaks};
ghost use Rattle.lv_compile.specs.FormulaClauses.{size_of};
ghost use Rattle.lv_compile.specs.ModelClauses.{unless, guard_clauses, closed_clauses, goes_clauses, move_clauses, moves_clauses, choice_clauses, part_choice_clauses, choices_clauses};
ghost use Rattle.lv_model.specs.Lists.{part_moves};
ghost use Rattle.lv_model.specs.Counts.{is_step_from};

use crate::clause_lists::{both_lists, push_unless, when_true};
use crate::formula::formula_clauses;
use crate::one_of::{literal, push_one_of};
use crate::value_bools::ValueBools;
use lv_base::{Lit, Seq, ValId};
use lv_model::lookup::type_of;
use lv_model::{ComponentType, Move, MoveKind, Part};
use std::alloc::{AllocError, Global};

/// The booleans of the variables before a step and after it, and the boolean of the first part's first move.
#[derive(Drop)]
pub struct Copies {
    pub before: ValueBools,
    pub after: ValueBools,
    pub first_choice: u32,
}

/// Where a part's variables begin, and the booleans of its choices.
#[derive(Clone, Copy)]
struct Instance {
    base: u32,
    choice: u32,
}

/// That the guard has this truth; what has none is open.
fn guard_clauses(
    alloc: Global,
    bools: &ValueBools,
    base: u32,
    sign: bool,
    m: &Move,
) -> Result<Vec<Seq<Lit>>, AllocError>
    requires { GuardSpeaks bools.now base m.now }
    ensures { IfOk result (λ out. out.items ≡ guard_clauses bools.now base sign m.now) }
{
    match &m.guard {
        Some(guard) => formula_clauses(alloc, bools, base, guard.formula(), sign),
        None => when_true(alloc, sign),
    }
}

fn is_step_from(mode: ValId, m: &Move) -> bool
    ensures { result ≡ is_step_from mode.0 m.now }
{
    match m.kind {
        MoveKind::Step => m.source.0 == mode.0,
        MoveKind::Stay => false,
        MoveKind::Fault => false,
    }
}

/// That no step from the mode among these moves is open.
fn closed_clauses(
    alloc: Global,
    bools: &ValueBools,
    base: u32,
    mode: ValId,
    moves: &[Move],
) -> Result<Vec<Seq<Lit>>, AllocError>
    requires { All (GuardSpeaks bools.now base) moves.now }
    ensures { IfOk result (λ out. out.items ≡ closed_clauses bools.now base mode.0 moves.now) }
{
    let mut out = Vec::new(alloc);
    for m in moves {
        if is_step_from(mode, m) {
            let denied = guard_clauses(alloc, bools, base, false, m)?;
            out = both_lists(out, denied)?;
        }
    }
    Ok(out)
}

/// When the move may go on that stands behind so many others of these.
fn goes_clauses(
    alloc: Global,
    bools: &ValueBools,
    base: u32,
    moves: &[Move],
    others: usize,
    m: &Move,
) -> Result<Vec<Seq<Lit>>, AllocError>
    requires own { GuardSpeaks bools.now base m.now }
    requires all { All (GuardSpeaks bools.now base) moves.now }
    requires within { others ≤ length moves.now }
    ensures { IfOk result (λ out. out.items ≡ goes_clauses m.now.kind bools.now base moves.now others m.now) }
{
    match m.kind {
        MoveKind::Step => {
            let is_open = guard_clauses(alloc, bools, base, true, m)?;
            let closed = closed_clauses(alloc, bools, base, m.source, &moves[..others])?;
            both_lists(is_open, closed)
        }
        MoveKind::Stay => closed_clauses(alloc, bools, base, m.source, moves),
        MoveKind::Fault => guard_clauses(alloc, bools, base, true, m),
    }
}

/// What choosing the move asks for that stands behind so many others of these: its source before the step, its target
/// after it, and that it may go on.
fn push_move(
    out: &mut Vec<Seq<Lit>>,
    alloc: Global,
    copies: &Copies,
    at: Instance,
    moves: &[Move],
    others: usize,
    m: &Move,
) -> Result<(), AllocError>
    requires own { GuardSpeaks copies.now.before at.base m.now }
    requires ends { MoveSpeaks copies.now.before copies.now.after at.base m.now }
    requires all { All (GuardSpeaks copies.now.before at.base) moves.now }
    requires within { others < length moves.now }
    requires fit { at.choice + length moves.now < 2 ^ 32 }
    ensures { IfOk result (λ _. out.new.items ≡ out.old.items ++ move_clauses copies.now.before copies.now.after at.base at.choice moves.now others m.now) }
{
    let goes = goes_clauses(alloc, &copies.before, at.base, moves, others, m)?;
    let chosen = literal(at.choice + others as u32, false);
    let source = copies.before.literal(at.base as usize, m.source.0, true);
    let target = copies.after.literal(at.base as usize, m.target.0, true);
    out.push(Seq::from_slice(alloc, &[chosen, source])?)?;
    out.push(Seq::from_slice(alloc, &[chosen, target])?)?;
    push_unless(out, alloc, chosen, goes.as_slice())
}

/// What each choice asks for.
fn push_moves(
    out: &mut Vec<Seq<Lit>>,
    alloc: Global,
    copies: &Copies,
    at: Instance,
    moves: &[Move],
) -> Result<(), AllocError>
    requires guards { All (GuardSpeaks copies.now.before at.base) moves.now }
    requires ends { All (MoveSpeaks copies.now.before copies.now.after at.base) moves.now }
    requires fit { at.choice + length moves.now < 2 ^ 32 }
    ensures { IfOk result (λ _. out.new.items ≡ out.old.items ++ moves_clauses copies.now.before copies.now.after at.base at.choice moves.now 0 moves.now) }
{
    for (others, m) in moves.iter().enumerate() {
        push_move(out, alloc, copies, at, moves, others, m)?;
    }
    Ok(())
}

/// That one move is chosen, and what each choice asks for.
fn push_choice(
    out: &mut Vec<Seq<Lit>>,
    alloc: Global,
    copies: &Copies,
    at: Instance,
    moves: &[Move],
) -> Result<(), AllocError>
    requires guards { All (GuardSpeaks copies.now.before at.base) moves.now }
    requires ends { All (MoveSpeaks copies.now.before copies.now.after at.base) moves.now }
    requires fit { at.choice + length moves.now < 2 ^ 32 }
    ensures { IfOk result (λ _. out.new.items ≡ out.old.items ++ choice_clauses copies.now.before copies.now.after at.base at.choice moves.now) }
{
    push_one_of(out, alloc, at.choice, moves.len() as u32)?;
    push_moves(out, alloc, copies, at, moves)
}

/// Of the part the choice of a move, of which the first is this boolean's; nothing where it has no type.
fn push_part_choice(
    out: &mut Vec<Seq<Lit>>,
    alloc: Global,
    copies: &Copies,
    types: &[ComponentType],
    choice: u32,
    part: &Part,
) -> Result<(), AllocError>
    requires speaks { PartSpeaks copies.now.before copies.now.after types.now part.now }
    requires fit { choice + part_moves types.now part.now < 2 ^ 32 }
    ensures { IfOk result (λ _. out.new.items ≡ out.old.items ++ part_choice_clauses copies.now.before copies.now.after types.now choice part.now) }
{
    match type_of(types, part) {
        Some(t) => {
            let at = Instance {
                base: part.first.0,
                choice,
            };
            push_choice(out, alloc, copies, at, t.moves.as_slice())
        }
        None => Ok(()),
    }
}

/// How many moves the part has to choose from.
pub fn moves_of_part(types: &[ComponentType], part: &Part) -> usize
    ensures { result ≡ part_moves types.now part.now }
{
    match type_of(types, part) {
        Some(t) => t.moves.len(),
        None => 0,
    }
}

/// Of each part the choice of a move, of which the very first is this boolean's.
pub fn push_choices(
    out: &mut Vec<Seq<Lit>>,
    alloc: Global,
    copies: &Copies,
    types: &[ComponentType],
    first: u32,
    parts: &[Part],
) -> Result<(), AllocError>
    requires speak { All (PartSpeaks copies.now.before copies.now.after types.now) parts.now }
    requires fit { first + sum_by (part_moves types.now) parts.now < 2 ^ 32 }
    ensures { IfOk result (λ _. out.new.items ≡ out.old.items ++ choices_clauses copies.now.before copies.now.after types.now first parts.now) }
{
    let mut choice = first;
    for part in parts {
        push_part_choice(out, alloc, copies, types, choice, part)?;
        choice += moves_of_part(types, part) as u32;
    }
    Ok(())
}
