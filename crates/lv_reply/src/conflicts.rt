//! The text of conflicts: how many were kept in how many trials, and a line for each with its moves, those of a window with
//! the time from which each starts, or, of a recovery, its values of controls.
#![tactic(auto)]

ghost use Rattle.std.specs.Prelude.{ℕ, ◌≡◌, ◌+◌, ◌/◌, ◌%◌, ◌++◌, List, IfOk, map, drop, decimal, codes};
ghost use Rattle.lv_base.specs.declared.search.Pair.{Pair};
ghost use Rattle.lv_reply.specs.Conflicts.{choice_text, choice_at, pair_text, timed_pair_text, command_text, conflict_line, conflict_lines, conflicts_by, conflicts_text, window_conflicts_text, command_conflicts_text};

use crate::moves::text_of_item;
use crate::pieces::{push_joined, push_number};
use crate::recovery::text_of_setting;
use lv_base::{MoveId, Pair, PartId, Seq, VarId};
use lv_model::lookup::{move_of, part_of, type_of};
use lv_model::{ComponentType, Model, Name, Part, Plant};
use std::alloc::{AllocError, Global};

/// The part's move of this number; nothing where there is no such move.
fn text_of_choice(
    alloc: Global,
    types: &[ComponentType],
    part: &Part,
    n: u32,
) -> Result<Vec<u8>, AllocError>
    ensures { IfOk result (λ out. out.items ≡ choice_text types.now part.now n) }
{
    match type_of(types, part) {
        Some(t) => match move_of(t.moves.as_slice(), MoveId(n)) {
            Some(m) => text_of_item(alloc, part, t.modes.as_slice(), m),
            None => Ok(Vec::new(alloc)),
        },
        None => Ok(Vec::new(alloc)),
    }
}

/// The value of a control that a pair names; nothing where there is no such control.
fn text_of_command(
    alloc: Global,
    model: &Model,
    controls: &[VarId],
    pair: Pair,
) -> Result<Vec<u8>, AllocError>
    ensures { IfOk result (λ out. out.items ≡ command_text model.now controls.now pair) }
{
    match controls.get(pair.slot as usize) {
        Some(control) => text_of_setting(alloc, model, *control, pair.choice),
        None => Ok(Vec::new(alloc)),
    }
}

/// What a pair of a conflict is called.
trait PairText {
    ghost text: { Self → Pair → List ℕ };

    fn text(&self, alloc: Global, pair: Pair) -> Result<Vec<u8>, AllocError>
        ensures { IfOk result (λ out. out.items ≡ text self.now pair) };
}

/// Pairs of a part and one of its moves.
#[derive(Drop)]
struct Choices<'a> {
    plant: &'a Plant,
}

impl PairText for Choices<'_> {
    ghost text = { λ s. pair_text s.plant.now };

    /// Nothing where there is no such part or move.
    fn text(&self, alloc: Global, pair: Pair) -> Result<Vec<u8>, AllocError> {
        match part_of(self.plant.parts.as_slice(), PartId(pair.slot)) {
            Some(part) => text_of_choice(alloc, self.plant.types.as_slice(), part, pair.choice),
            None => Ok(Vec::new(alloc)),
        }
    }
}

/// Which step a slot is of, where each has so many parts.
fn step_of(parts: usize, slot: u32) -> u32
    ensures { result ≡ slot / parts }
{
    if parts == 0 {
        return 0;
    }
    (slot as usize / parts) as u32
}

/// The place of a slot among the parts of its step.
fn place_of(parts: usize, slot: u32) -> usize
    ensures { result ≡ slot % parts }
{
    if parts == 0 {
        return slot as usize;
    }
    slot as usize % parts
}

/// The part's move of this number; nothing where there is no such part or move.
fn text_at(alloc: Global, plant: &Plant, place: usize, n: u32) -> Result<Vec<u8>, AllocError>
    ensures { IfOk result (λ out. out.items ≡ choice_at plant.now place n) }
{
    match plant.parts.as_slice().get(place) {
        Some(part) => text_of_choice(alloc, plant.types.as_slice(), part, n),
        None => Ok(Vec::new(alloc)),
    }
}

/// Pairs of a part in a step of a window, whose first step starts from this time, and one of the part's moves.
#[derive(Drop)]
struct TimedChoices<'a> {
    plant: &'a Plant,
    first: u32,
}

impl PairText for TimedChoices<'_> {
    ghost text = { λ s. timed_pair_text s.plant.now s.first };

    /// Nothing but the time where there is no such part or move.
    fn text(&self, alloc: Global, pair: Pair) -> Result<Vec<u8>, AllocError> {
        let parts = self.plant.parts.len();
        let time = u64::from(self.first) + u64::from(step_of(parts, pair.slot));
        let text = text_at(alloc, self.plant, place_of(parts, pair.slot), pair.choice)?;
        let mut out = Vec::from_slice(alloc, b"at ")?;
        push_number(&mut out, time)?;
        out.extend_from_slice(b" ")?;
        out.extend_from_slice(text.as_slice())?;
        Ok(out)
    }
}

/// Pairs of a place among the controls and a value.
#[derive(Drop)]
struct Commands<'a> {
    model: &'a Model,
    controls: &'a [VarId],
}

impl PairText for Commands<'_> {
    ghost text = { λ s. command_text s.model.now s.controls.now };

    fn text(&self, alloc: Global, pair: Pair) -> Result<Vec<u8>, AllocError> {
        text_of_command(alloc, self.model, self.controls, pair)
    }
}

/// The texts of the pairs.
fn texts_of_pairs<T: PairText>(
    alloc: Global,
    texts: &T,
    pairs: &[Pair],
) -> Result<Vec<Name>, AllocError>
    ensures { IfOk result (λ out. out.items ≡ map (T.text texts.now) pairs.now) }
{
    let mut out = Vec::new(alloc);
    for pair in pairs {
        out.push(Seq::from_vec(texts.text(alloc, *pair)?))?;
    }
    Ok(out)
}

/// Adds the line of a conflict.
fn push_line<T: PairText>(
    alloc: Global,
    out: &mut Vec<u8>,
    texts: &T,
    n: u64,
    pairs: &[Pair],
) -> Result<(), AllocError>
    ensures { IfOk result (λ _. out.new.items ≡ out.old.items ++ conflict_line (T.text texts.now) n pairs.now) }
{
    let items = texts_of_pairs(alloc, texts, pairs)?;
    push_number(out, n)?;
    out.extend_from_slice(b": ")?;
    push_joined(out, items.as_slice())?;
    out.extend_from_slice(b"\n")?;
    Ok(())
}

/// Adds the lines of the conflicts.
fn push_lines<T: PairText>(
    alloc: Global,
    out: &mut Vec<u8>,
    texts: &T,
    kept: &[Seq<Pair>],
) -> Result<(), AllocError>
    ensures { IfOk result (λ _. out.new.items ≡ out.old.items ++ conflict_lines (T.text texts.now) 1 kept.now) }
{
    for (i, pairs) in kept.iter().enumerate() {
        push_line(alloc, out, texts, i as u64 + 1, pairs.as_slice())?;
    }
    Ok(())
}

/// The text of conflicts whose pairs have these texts.
fn conflicts_by<T: PairText>(
    alloc: Global,
    texts: &T,
    kept: &[Seq<Pair>],
    trials: u64,
) -> Result<Vec<u8>, AllocError>
    ensures { IfOk result (λ out. out.items ≡ conflicts_by (T.text texts.now) kept.now trials) }
{
    let mut out = Vec::from_slice(alloc, b"conflicts ")?;
    push_number(&mut out, kept.len() as u64)?;
    out.extend_from_slice(b" trials ")?;
    push_number(&mut out, trials)?;
    out.extend_from_slice(b"\n")?;
    push_lines(alloc, &mut out, texts, kept)?;
    Ok(out)
}

/// The text of these conflicts of a diagnosis, which were kept in so many trials.
#[tactic(auto, unfolding(crate::specs::Conflicts::conflicts_text))]
pub fn conflicts_text(
    alloc: Global,
    plant: &Plant,
    kept: &[Seq<Pair>],
    trials: u64,
) -> Result<Vec<u8>, AllocError>
    ensures { IfOk result (λ out. out.items ≡ conflicts_text plant.now kept.now trials) }
{
    conflicts_by(alloc, &Choices { plant }, kept, trials)
}

/// The text of these conflicts of a window whose first step starts from this time, which were kept in so many trials.
#[tactic(auto, unfolding(crate::specs::Conflicts::window_conflicts_text))]
pub fn window_conflicts_text(
    alloc: Global,
    plant: &Plant,
    first: u32,
    kept: &[Seq<Pair>],
    trials: u64,
) -> Result<Vec<u8>, AllocError>
    ensures { IfOk result (λ out. out.items ≡ window_conflicts_text plant.now first kept.now trials) }
{
    conflicts_by(alloc, &TimedChoices { plant, first }, kept, trials)
}

/// The text of these conflicts of a recovery, which were kept in so many trials.
#[tactic(auto, unfolding(crate::specs::Conflicts::command_conflicts_text))]
pub fn command_conflicts_text(
    alloc: Global,
    model: &Model,
    kept: &[Seq<Pair>],
    trials: u64,
) -> Result<Vec<u8>, AllocError>
    ensures { IfOk result (λ out. out.items ≡ command_conflicts_text model.now kept.now trials) }
{
    let controls = model.controls(alloc)?;
    let texts = Commands {
        model,
        controls: controls.as_slice(),
    };
    conflicts_by(alloc, &texts, kept, trials)
}
