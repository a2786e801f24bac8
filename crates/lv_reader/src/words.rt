//! The words, numbers and formulas of a line, by the places of their tokens.
#![tactic(auto)]

ghost use Rattle.std.specs.Prelude.{◌≡◌, IfOk, Some, None, false, drop};
ghost use Rattle.lv_base.specs.Names.{is_named};
ghost use Rattle.lv_formula_text.specs.Nesting.{is_too_deep};
ghost use Rattle.lv_text.specs.Lexemes.{word_at, is_number};
ghost use Rattle.lv_reader.specs.declared.fault.FormFault.TheVariants.{Form};
ghost use Rattle.lv_reader.specs.Words.{is_arrow, is_equals, is_dot, is_or, has_kind_at, is_reserved, free_word_at, words_of, capped, numeral_at, only_numeral, only_name, name_and_names, two_names, three_names, one_or_more, both_ends, bare_target, repair_of, priced_names, EndsInFormula, EndsInNone, HasGuard, HasNoGuard};

use crate::fault::FormFault;
use crate::statement::Repair;
use lv_base::{Name, Seq};
use lv_formula_text::{Phrase, PhraseFault, read_shallow_phrase};
use lv_text::{TokenKind, TokenLine};
use std::alloc::Global;

/// A number that is over every limit of a number in a model's text.
pub const OVER_EVERY_LIMIT: u64 = 1_000_001;

/// A name, and others behind it.
#[derive(Debug, Drop)]
pub struct NameAndNames {
    pub name: Name,
    pub others: Seq<Name>,
}

/// Two names of a line.
#[derive(Debug, Drop)]
pub struct TwoNames {
    pub first: Name,
    pub second: Name,
}

/// Three names of a line.
#[derive(Debug, Drop)]
pub struct ThreeNames {
    pub first: Name,
    pub second: Name,
    pub third: Name,
}

/// Whether the token at this place, counted from 0, is `->`.
pub fn is_arrow_at(line: &TokenLine<'_>, place: usize) -> bool
    ensures { result ≡ has_kind_at is_arrow line.now place }
{
    matches!(line.kind(place), Some(TokenKind::Arrow))
}

fn is_equals_at(line: &TokenLine<'_>, place: usize) -> bool
    ensures { result ≡ has_kind_at is_equals line.now place }
{
    matches!(line.kind(place), Some(TokenKind::Equals))
}

fn is_dot_at(line: &TokenLine<'_>, place: usize) -> bool
    ensures { result ≡ has_kind_at is_dot line.now place }
{
    matches!(line.kind(place), Some(TokenKind::Dot))
}

fn is_or_at(line: &TokenLine<'_>, place: usize) -> bool
    ensures { result ≡ has_kind_at is_or line.now place }
{
    matches!(line.kind(place), Some(TokenKind::Or))
}

fn is_number_at(line: &TokenLine<'_>, place: usize) -> bool
    ensures { result ≡ has_kind_at is_number line.now place }
{
    matches!(line.kind(place), Some(TokenKind::Number))
}

fn is_text(word: &[u8], text: &[u8]) -> bool
    ensures { result ≡ is_named text.now word.now }
{
    word == text
}

fn is_reserved(word: &[u8]) -> bool
    ensures { result ≡ is_reserved word.now }
{
    is_text(word, b"true") || is_text(word, b"false") || is_text(word, b"mode")
}

/// The word at this place, as a name.
pub fn name_at(alloc: Global, line: &TokenLine<'_>, place: usize) -> Result<Name, FormFault>
    ensures ok { IfOk result (λ name. word_at line.now place ≡ Some name) }
    ensures refused { result ≡ Err Form → word_at line.now place ≡ None }
{
    let word = line.word(place).ok_or(FormFault::Form)?;
    Ok(Seq::from_slice(alloc, word)?)
}

/// The word at this place, as the name of a part or a variable, which `true`, `false` and `mode` can't be.
fn free_name_at(alloc: Global, line: &TokenLine<'_>, place: usize) -> Result<Name, FormFault>
    ensures ok { IfOk result (λ name. free_word_at line.now place ≡ Some name) }
    ensures refused { result ≡ Err Form → free_word_at line.now place ≡ None }
{
    let word = line.word(place).ok_or(FormFault::Form)?;
    if is_reserved(word) {
        return Err(FormFault::Form);
    }
    Ok(Seq::from_slice(alloc, word)?)
}

/// The words from this place to the end, where nothing else stands there.
fn names_from(alloc: Global, line: &TokenLine<'_>, place: usize) -> Result<Seq<Name>, FormFault>
    ensures ok { IfOk result (λ names. words_of (drop place line.now) ≡ Some names) }
    ensures refused { result ≡ Err Form → words_of (drop place line.now) ≡ None }
{
    let mut names = Vec::new(alloc);
    for at in place..line.len() {
        names.push(name_at(alloc, line, at)?)?;
    }
    Ok(Seq::from_vec(names))
}

/// The line's only name behind its first word.
pub fn only_name(alloc: Global, line: &TokenLine<'_>) -> Result<Name, FormFault>
    ensures ok { IfOk result (λ name. only_name line.now ≡ Some name) }
    ensures refused { result ≡ Err Form → only_name line.now ≡ None }
{
    if line.len() != 2 {
        return Err(FormFault::Form);
    }
    name_at(alloc, line, 1)
}

/// A name and one or more behind it.
pub fn name_and_names(alloc: Global, line: &TokenLine<'_>) -> Result<NameAndNames, FormFault>
    ensures ok { IfOk result (λ names. name_and_names line.now ≡ Some names) }
    ensures refused { result ≡ Err Form → name_and_names line.now ≡ None }
{
    if line.len() < 3 {
        return Err(FormFault::Form);
    }
    let name = name_at(alloc, line, 1)?;
    let others = names_from(alloc, line, 2)?;
    Ok(NameAndNames { name, others })
}

/// The name of a variable, and one more.
pub fn two_names(alloc: Global, line: &TokenLine<'_>) -> Result<TwoNames, FormFault>
    ensures ok { IfOk result (λ names. two_names line.now ≡ Some names) }
    ensures refused { result ≡ Err Form → two_names line.now ≡ None }
{
    if line.len() != 3 {
        return Err(FormFault::Form);
    }
    let first = free_name_at(alloc, line, 1)?;
    let second = name_at(alloc, line, 2)?;
    Ok(TwoNames { first, second })
}

/// The name of a part, and two more.
pub fn three_names(alloc: Global, line: &TokenLine<'_>) -> Result<ThreeNames, FormFault>
    ensures ok { IfOk result (λ names. three_names line.now ≡ Some names) }
    ensures refused { result ≡ Err Form → three_names line.now ≡ None }
{
    if line.len() != 4 {
        return Err(FormFault::Form);
    }
    let first = free_name_at(alloc, line, 1)?;
    let second = name_at(alloc, line, 2)?;
    let third = name_at(alloc, line, 3)?;
    Ok(ThreeNames {
        first,
        second,
        third,
    })
}

/// A name and those behind it that may stand in its place, as far as these go.
#[tactic(auto, using(crate::proofs::WordLists::first_taken, crate::proofs::WordLists::first_missing, crate::proofs::WordLists::other_taken, crate::proofs::WordLists::other_missing, crate::proofs::WordLists::sign_inside, crate::proofs::WordLists::word_inside))]
pub fn one_or_more(alloc: Global, line: &TokenLine<'_>) -> Result<Seq<Name>, FormFault>
    ensures ok { IfOk result (λ names. one_or_more line.now ≡ Some names) }
    ensures refused { result ≡ Err Form → one_or_more line.now ≡ None }
{
    let mut names = Vec::new(alloc);
    names.push(name_at(alloc, line, 1)?)?;
    let most = line.len();
    let mut place: usize = 2;
    'others: while place < most && is_or_at(line, place) {
        names.push(name_at(alloc, line, place + 1)?)?;
        place += 2;
    }
    Ok(Seq::from_vec(names))
}

/// The name behind an arrow that nothing stands before.
pub fn bare_target(alloc: Global, line: &TokenLine<'_>) -> Result<Name, FormFault>
    ensures ok { IfOk result (λ name. bare_target line.now ≡ Some name) }
    ensures refused { result ≡ Err Form → bare_target line.now ≡ None }
{
    if !is_arrow_at(line, 1) {
        return Err(FormFault::Form);
    }
    name_at(alloc, line, 2)
}

/// The control and the value of the repair behind the cost of a fault.
pub fn repair_of(alloc: Global, line: &TokenLine<'_>) -> Result<Repair, FormFault>
    ensures ok { IfOk result (λ repair. repair_of line.now ≡ Some repair) }
    ensures refused { result ≡ Err Form → repair_of line.now ≡ None }
{
    if !line.says(6, b"repair") || !is_equals_at(line, 8) {
        return Err(FormFault::Form);
    }
    let control = name_at(alloc, line, 7)?;
    let value = name_at(alloc, line, 9)?;
    Ok(Repair { control, value })
}

/// The names before and behind an arrow.
pub fn both_ends(alloc: Global, line: &TokenLine<'_>) -> Result<TwoNames, FormFault>
    ensures ok { IfOk result (λ names. both_ends line.now ≡ Some names) }
    ensures refused { result ≡ Err Form → both_ends line.now ≡ None }
{
    if !is_arrow_at(line, 2) {
        return Err(FormFault::Form);
    }
    let first = name_at(alloc, line, 1)?;
    let second = name_at(alloc, line, 3)?;
    Ok(TwoNames { first, second })
}

/// The names of a part, a control and a value, with a price behind them.
pub fn priced_names(alloc: Global, line: &TokenLine<'_>) -> Result<ThreeNames, FormFault>
    ensures ok { IfOk result (λ names. priced_names line.now ≡ Some names) }
    ensures refused { result ≡ Err Form → priced_names line.now ≡ None }
{
    if line.len() != 7 || !is_dot_at(line, 2) || !is_equals_at(line, 4) {
        return Err(FormFault::Form);
    }
    let first = name_at(alloc, line, 1)?;
    let second = name_at(alloc, line, 3)?;
    let third = name_at(alloc, line, 5)?;
    Ok(ThreeNames {
        first,
        second,
        third,
    })
}

/// The number, or the least over every limit where it is greater.
fn capped(number: Option<u128>) -> u64
    ensures { result ≡ capped number }
{
    match number {
        Some(n) if n < u128::from(OVER_EVERY_LIMIT) => n as u64,
        _ => OVER_EVERY_LIMIT,
    }
}

/// The number at this place.
pub fn numeral_at(line: &TokenLine<'_>, place: usize) -> Result<u64, FormFault>
    ensures ok { IfOk result (λ n. numeral_at line.now place ≡ Some n) }
    ensures refused { result ≡ Err Form → numeral_at line.now place ≡ None }
{
    if !is_number_at(line, place) {
        return Err(FormFault::Form);
    }
    Ok(capped(line.number(place)))
}

/// The line's only number behind its first word.
pub fn only_numeral(line: &TokenLine<'_>) -> Result<u64, FormFault>
    ensures ok { IfOk result (λ n. only_numeral line.now ≡ Some n) }
    ensures refused { result ≡ Err Form → only_numeral line.now ≡ None }
{
    if line.len() != 2 {
        return Err(FormFault::Form);
    }
    numeral_at(line, 1)
}

/// The formula that the tokens from this place to the end are.
pub fn formula_from(alloc: Global, line: &TokenLine<'_>, place: usize) -> Result<Phrase, FormFault>
    requires { is_too_deep line.now ≡ false }
    ensures ok { IfOk result (λ f. EndsInFormula line.now place f) }
    ensures refused { result ≡ Err Form → EndsInNone line.now place }
{
    match read_shallow_phrase(alloc, line, place) {
        Ok(phrase) => Ok(phrase),
        Err(PhraseFault::Form) => Err(FormFault::Form),
        Err(PhraseFault::TooDeep) => Err(FormFault::Form),
        Err(PhraseFault::Memory) => Err(FormFault::Memory),
    }
}

/// The guard that the tokens from this place to the end are, if there are any.
pub fn guard_from(
    alloc: Global,
    line: &TokenLine<'_>,
    place: usize,
) -> Result<Option<Phrase>, FormFault>
    requires { is_too_deep line.now ≡ false }
    ensures ok { IfOk result (λ guard. HasGuard line.now place guard) }
    ensures refused { result ≡ Err Form → HasNoGuard line.now place }
{
    if line.len() == place {
        return Ok(None);
    }
    if !line.says(place, b"when") {
        return Err(FormFault::Form);
    }
    Ok(Some(formula_from(alloc, line, place + 1)?))
}
