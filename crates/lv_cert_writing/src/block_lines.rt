//! The steps of a log as lines of a block.
#![tactic(auto)]

ghost use Rattle.std.specs.Prelude.{◌≡◌, ◌<◌, ◌^◌, ℕ, true, List, IfOk, length, map};
ghost use Rattle.lv_base.specs.declared.ids.Lit.{Lit};
ghost use Rattle.lv_clauses.specs.ClauseMap.{ClauseMap};
ghost use Rattle.lv_cert_meaning.specs.Deriving.{refutes};
ghost use Rattle.lv_cert_writing.specs.BlockLines as Lines;
ghost use Rattle.lv_cert_writing.specs.BlockLines.{derived_of, IsRefuting};

use crate::block_numbers::number_at;
use crate::derivation::Derivation;
use lv_base::{Lit, Seq};
use lv_cert::Literal;
use lv_clauses::{Hint, Log, Step};
use std::alloc::{AllocError, Global};

/// The literal by the number of its boolean, which is counted from 1.
fn literal_of(lit: Lit) -> Literal
    ensures { result ≡ Lines.literal_with lit }
{
    Literal {
        negated: !lit.sign,
        number: u128::from(lit.var.0) + 1,
    }
}

/// The number of the clause that a hint names.
fn hint_of(numbers: &[u128], placed: &[u128], hint: Hint) -> u128
    ensures { result ≡ Lines.hint_number numbers.now placed.now hint }
{
    match hint {
        Hint::Given(id) => number_at(numbers, id.0),
        Hint::Earlier(place) => number_at(placed, place),
    }
}

fn literals_of(alloc: Global, lits: &[Lit]) -> Result<Vec<Literal>, AllocError>
    ensures { IfOk result (λ literals. literals.items ≡ map Lines.literal_with lits.now) }
{
    lits.iter().map(|lit| literal_of(*lit)).collect(alloc)
}

fn hints_of(
    alloc: Global,
    numbers: &[u128],
    placed: &[u128],
    hints: &[Hint],
) -> Result<Vec<u128>, AllocError>
    ensures { IfOk result (λ out. out.items ≡ map (Lines.hint_number numbers.now placed.now) hints.now) }
{
    hints
        .iter()
        .map(|hint| hint_of(numbers, placed, *hint))
        .collect(alloc)
}

fn line_of(
    alloc: Global,
    numbers: &[u128],
    placed: &[u128],
    step: &Step,
) -> Result<Derivation, AllocError>
    ensures { IfOk result (λ line. line ≡ Lines.line_of numbers.now placed.now step.now) }
{
    let literals = literals_of(alloc, step.clause.as_slice())?;
    let hints = hints_of(alloc, numbers, placed, step.hints.as_slice())?;
    Ok(Derivation {
        literals: Seq::from_vec(literals),
        hints: Seq::from_vec(hints),
    })
}

/// The step that ends a refutation under assumptions, as the line of the empty clause: each literal of it is denied by the
/// clause that states its assumption, whose number stands at the place of its boolean.
fn last_line(
    alloc: Global,
    numbers: &[u128],
    units: &[u128],
    placed: &[u128],
    step: &Step,
) -> Result<Derivation, AllocError>
    ensures { IfOk result (λ line. line ≡ Lines.last_line numbers.now units.now placed.now step.now) }
{
    let mut hints = Vec::new(alloc);
    for lit in step.clause.as_slice() {
        hints.push(number_at(units, lit.var.0 as usize))?;
    }
    for hint in step.hints.as_slice() {
        hints.push(hint_of(numbers, placed, *hint))?;
    }
    Ok(Derivation {
        literals: Seq::new(alloc),
        hints: Seq::from_vec(hints),
    })
}

/// The steps that are needed as lines behind so many clauses, among which those of the set have these numbers, and those
/// that state assumptions these, by their booleans. The lines are numbered without the steps that are left out.
pub fn lines_of(
    alloc: Global,
    numbers: &[u128],
    units: &[u128],
    before: u128,
    log: &Log,
    needed: &[bool],
) -> Result<Seq<Derivation>, AllocError>
    requires few { before < 2 ^ 127 }
    requires some { 0 < length log.now }
    requires marks { length needed.now ≡ length log.now }
    ensures { (set : ClauseMap) (clauses : List (List Lit)) → length clauses ≡ before → IsRefuting set clauses numbers.now units.now log.now needed.now →
        IfOk result (λ lines. refutes set.bools clauses (map derived_of lines) ≡ true) }
{
    let last = log.len() - 1;
    let mut lines = Seq::new(alloc);
    let mut placed = Vec::with_capacity(alloc, last)?;
    for place in 0..last {
        if needed[place] {
            let line = line_of(alloc, numbers, placed.as_slice(), log.step(place))?;
            lines.push(line)?;
            placed.push(before + lines.len() as u128)?;
        } else {
            placed.push(0)?;
        }
    }
    let end = last_line(alloc, numbers, units, placed.as_slice(), log.step(last))?;
    lines.push(end)?;
    Ok(lines)
}
