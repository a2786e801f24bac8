//! A goal by its text.
#![tactic(auto)]

ghost use Rattle.std.specs.Prelude.{◌≡◌, true, false, nat_eq, IfOk, IfSome, Some, None, if◌then◌else◌, ◌&&◌};
ghost use Rattle.std.specs.Cmp.Lexicographic.{pointwise};
ghost use Rattle.lv_text.specs.Lexemes.{reads};
ghost use Rattle.lv_formula_text.specs.Canonical.{canonical_text};
ghost use Rattle.lv_formula_text.specs.Nesting.{is_too_deep};
ghost use Rattle.lv_formula_text.specs.Resolving.{resolved};
ghost use Rattle.lv_formula_text.specs.Descent.{phrase_of};
ghost use Rattle.lv_model_names.specs.Lists.{lists_of};
ghost use Rattle.lv_model_names.specs.Names.{plant_names};
ghost use Rattle.lv_model.specs.Counts.{has_count};
ghost use Rattle.lv_meaning.specs.Ranges.{GoalFits};
ghost use Rattle.lv_cert_meaning.specs.Stated as Stated;

use lv_base::Condition;
use lv_formula_text::{Phrase, PhraseFault, ResolveFault, is_too_deep, print_phrase, read_phrase};
use lv_model::{Model, Plant};
use lv_model_names::{Lists, goal_formula};
use lv_text::{TextFault, TokenLine};
use std::alloc::{AllocError, Global};

/// The phrase that the line is, if it nests within the limits and is one.
fn phrase_of(alloc: Global, line: &TokenLine<'_>) -> Result<Option<Phrase>, AllocError>
    ensures { IfOk result (λ found. found ≡ (if is_too_deep line.now then None else phrase_of line.now)) }
{
    if is_too_deep(line) {
        return Ok(None);
    }
    match read_phrase(alloc, line, 0) {
        Ok(phrase) => Ok(Some(phrase)),
        Err(PhraseFault::Memory) => Err(AllocError),
        Err(PhraseFault::TooDeep) => Ok(None),
        Err(PhraseFault::Form) => Ok(None),
    }
}

/// Whether the formula gives few enough clauses, in either sign.
fn is_simple(lists: &Lists, f: &Condition) -> bool
    ensures { result ≡ (has_count lists.now.sizes true f.now && has_count lists.now.sizes false f.now) }
{
    let sizes = lists.sizes.as_slice();
    f.clause_count(true, sizes).is_some() && f.clause_count(false, sizes).is_some()
}

/// The formula that a phrase is over the plant, if it is one that gives few enough clauses.
fn formula_of(
    alloc: Global,
    plant: &Plant,
    lists: &Lists,
    phrase: &Phrase,
) -> Result<Option<Condition>, AllocError>
    requires { lists.now ≡ lists_of plant.now }
    ensures formula { IfOk result (λ found. found ≡ Stated.simple_goal plant.now (resolved (plant_names plant.now) phrase.now)) }
    ensures fits { IfOk result (λ found. IfSome found (GoalFits plant.now)) }
{
    match goal_formula(alloc, plant, lists.ranges.as_slice(), phrase) {
        Ok(f) => {
            if is_simple(lists, &f) {
                Ok(Some(f))
            } else {
                Ok(None)
            }
        }
        Err(ResolveFault::Memory) => Err(AllocError),
        Err(ResolveFault::UnknownName) => Ok(None),
        Err(ResolveFault::NoFit) => Ok(None),
    }
}

/// Whether the text is the canonical text of the phrase.
fn is_canonical(alloc: Global, phrase: &Phrase, text: &[u8]) -> Result<bool, AllocError>
    ensures { IfOk result (λ is. is ≡ pointwise nat_eq (canonical_text phrase.now) text.now) }
{
    let canonical = print_phrase(alloc, phrase)?;
    Ok(canonical.as_slice() == text)
}

/// The goal that a phrase is, if the text is its canonical text.
fn goal_as(
    alloc: Global,
    plant: &Plant,
    lists: &Lists,
    text: &[u8],
    phrase: &Phrase,
) -> Result<Option<Condition>, AllocError>
    requires { lists.now ≡ lists_of plant.now }
    ensures goal { IfOk result (λ found. found ≡ Stated.goal_as plant.now text.now phrase.now) }
    ensures fits { IfOk result (λ found. IfSome found (GoalFits plant.now)) }
{
    if is_canonical(alloc, phrase, text)? {
        formula_of(alloc, plant, lists, phrase)
    } else {
        Ok(None)
    }
}

/// The goal that the line of a text is.
fn goal_in(
    alloc: Global,
    plant: &Plant,
    lists: &Lists,
    text: &[u8],
    line: &TokenLine<'_>,
) -> Result<Option<Condition>, AllocError>
    requires { lists.now ≡ lists_of plant.now }
    ensures goal { IfOk result (λ found. found ≡ Stated.goal_in plant.now text.now (reads line.now)) }
    ensures fits { IfOk result (λ found. IfSome found (GoalFits plant.now)) }
{
    match phrase_of(alloc, line)? {
        Some(phrase) => goal_as(alloc, plant, lists, text, &phrase),
        None => Ok(None),
    }
}

/// The goal of this text: the canonical text, within the limits of a line, of a formula over the model's plant that gives
/// few enough clauses.
#[tactic(auto, unfolding(crate::specs::Stated::goal_of))]
pub fn goal_of(
    alloc: Global,
    model: &Model,
    lists: &Lists,
    text: &[u8],
) -> Result<Option<Condition>, AllocError>
    requires { lists.now ≡ lists_of model.now }
    ensures goal { IfOk result (λ found. found ≡ Stated.goal_of model.now text.now) }
    ensures fits { IfOk result (λ found. IfSome found (GoalFits model.now)) }
{
    match TokenLine::read(alloc, text) {
        Ok(line) => goal_in(alloc, model.plant(), lists, text, &line),
        Err(TextFault::Memory) => Err(AllocError),
        Err(TextFault::LongLine) => Ok(None),
        Err(TextFault::BadByte(_)) => Ok(None),
    }
}
