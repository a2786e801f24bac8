//! The goal that a line names.
#![tactic(auto)]

ghost use Rattle.std.specs.Prelude.{◌≡◌, ◌≢◌, None, true, false, IfOk, IfErr, Ok, Some, Err, drop, take};
ghost use Rattle.std.specs.List.{list_all};
ghost use Rattle.std.specs.Option.{ok_or};
ghost use Rattle.lv_model.specs.Counts.{has_count};
ghost use Rattle.lv_text.specs.Lexemes.{word_at};
ghost use Rattle.lv_formula_text.specs.Nesting.{is_too_deep};
ghost use Rattle.lv_formula_text.specs.Laws.{is_flat};
ghost use Rattle.lv_formula_text.specs.Descent.{phrase_of};
ghost use Rattle.lv_session_request.specs.Goals.{phrase_in, formula_of, is_simple, simple, goal_as, goal_of, AreRead, ReadsBack, IsGoalIn};
ghost use Rattle.lv_session_request.specs.Names.{AreNames};
ghost use Rattle.lv_session_request.specs.Requests.{Explains};

use crate::forms::name_at;
use crate::names::Names;
use crate::unread::Unread;
use lv_base::{Condition, Name, Seq};
use lv_formula_text::{Phrase, PhraseFault, ResolveFault, print_phrase, read_phrase};
use lv_model_names::{Lists, goal_formula};
use lv_reply::Refusal;
use lv_text::TokenLine;
use std::alloc::Global;

/// A goal by its name: a formula over the whole plant, which is to be true after a step.
#[derive(Debug, Drop)]
pub struct Goal {
    pub name: Name,
    /// The formula's canonical text.
    pub text: Seq<u8>,
    pub formula: Condition,
}

/// The formula that the tokens behind a goal's name are, its names as they are written.
fn phrase_in(alloc: Global, line: &TokenLine<'_>) -> Result<Phrase, Unread>
    requires shallow { is_too_deep line.now ≡ false }
    requires read { AreRead line.now }
    requires front { list_all is_flat (take 2 line.now) ≡ true }
    ensures ok { IfOk result (λ phrase. phrase_in line.now ≡ Ok phrase) }
    ensures fault { IfErr result (λ fault. Explains fault (phrase_in line.now)) }
    ensures back { IfOk result (λ phrase. ReadsBack phrase) }
{
    match read_phrase(alloc, line, 2) {
        Ok(phrase) => Ok(phrase),
        Err(PhraseFault::TooDeep) => Err(Unread::Refused(Refusal::TooComplex)),
        Err(PhraseFault::Form) => Err(Unread::Refused(Refusal::Form)),
        Err(PhraseFault::Memory) => Err(Unread::Memory),
    }
}

/// The formula that a phrase is over the plant.
fn formula_of(alloc: Global, names: Names, phrase: &Phrase) -> Result<Condition, Unread>
    ensures ok { IfOk result (λ f. formula_of names.entry.plant.now names.entry.lists.now phrase.now ≡ Ok f) }
    ensures fault { IfErr result (λ fault. Explains fault (formula_of names.entry.plant.now names.entry.lists.now phrase.now)) }
{
    match goal_formula(alloc, names.plant, names.lists.ranges.as_slice(), phrase) {
        Ok(formula) => Ok(formula),
        Err(ResolveFault::UnknownName) => Err(Unread::Refused(Refusal::UnknownName)),
        Err(ResolveFault::NoFit) => Err(Unread::Refused(Refusal::NoValue)),
        Err(ResolveFault::Memory) => Err(Unread::Memory),
    }
}

fn has_count(lists: &Lists, formula: &Condition, sign: bool) -> bool
    ensures { result ≡ has_count lists.now.sizes sign formula.now }
{
    formula.clause_count(sign, lists.sizes.as_slice()).is_some()
}

/// Whether a formula gives few enough clauses, in either sign.
fn is_simple(lists: &Lists, formula: &Condition) -> bool
    ensures { result ≡ is_simple lists.now formula.now }
{
    has_count(lists, formula, true) && has_count(lists, formula, false)
}

fn simple(lists: &Lists, formula: Condition) -> Result<Condition, Refusal>
    ensures { result ≡ simple lists.now formula }
{
    if is_simple(lists, &formula) {
        Ok(formula)
    } else {
        Err(Refusal::TooComplex)
    }
}

/// A phrase as a goal of this name, with its canonical text.
fn goal_as(alloc: Global, names: Names, name: &[u8], phrase: &Phrase) -> Result<Goal, Unread>
    requires names { AreNames names }
    requires back { ReadsBack phrase.now }
    ensures ok { IfOk result (λ g. goal_as names.entry.plant.now names.entry.lists.now name.now phrase.now ≡ Ok g) }
    ensures fault { IfErr result (λ fault. Explains fault (goal_as names.entry.plant.now names.entry.lists.now name.now phrase.now)) }
    ensures within { IfOk result (IsGoalIn names.entry.plant.now) }
{
    let name = Seq::from_slice(alloc, name)?;
    let formula = formula_of(alloc, names, phrase)?;
    let formula = simple(names.lists, formula)?;
    let text = Seq::from_vec(print_phrase(alloc, phrase)?);
    Ok(Goal {
        name,
        text,
        formula,
    })
}

/// `goal NAME FORMULA`
#[tactic(auto, unfolding(crate::specs::Goals::goal_of))]
pub fn goal_of(alloc: Global, names: Names, line: &TokenLine<'_>) -> Result<Goal, Unread>
    requires names { AreNames names }
    requires shallow { is_too_deep line.now ≡ false }
    requires read { AreRead line.now }
    requires word { word_at line.now 0 ≢ None }
    ensures ok { IfOk result (λ g. goal_of names.entry.plant.now names.entry.lists.now line.now ≡ Ok g) }
    ensures fault { IfErr result (λ fault. Explains fault (goal_of names.entry.plant.now names.entry.lists.now line.now)) }
    ensures within { IfOk result (IsGoalIn names.entry.plant.now) }
{
    let name = name_at(line, 1).ok_or(Refusal::Form)?;
    let phrase = phrase_in(alloc, line)?;
    goal_as(alloc, names, name, &phrase)
}
