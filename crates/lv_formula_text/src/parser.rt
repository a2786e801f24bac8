//! Reading by recursive descent: one function for the operands that a connective joins, one for what such an operand
//! is, one for what binds tightest. Each reads the longest text of its kind.
//!
//! The recursion goes as deep as parentheses nest, which is judged before; a long list of operands and a long row of
//! negation signs are read in loops. What stands in parentheses is handed on in its box, and values are made in
//! functions of their own, so that a level takes little of the stack.
#![tactic(auto)]

ghost use Rattle.std.specs.Prelude.{◌≡◌, ◌≢◌, ℕ, ◌+◌, List, IfOk, Some, option_map, ◌≤◌, length};
ghost use Rattle.lv_text.specs.declared.lexer.TokenKind.TheVariants.{Not};
ghost use Rattle.lv_text.specs.Lexemes.{Lexeme};
ghost use Rattle.lv_formula_text.specs.PhraseTree.{tree_in};
ghost use Rattle.lv_formula_text.specs.Connectives.{level, first_kind, negations};
ghost use Rattle.lv_formula_text.specs.Grammar.{IsUnary, IsOperand, IsJoined};
ghost use Rattle.lv_formula_text.specs.Reading.{Reads, Finds};

use crate::atom::atom;
use crate::connective::Connective;
use crate::cursor::Cursor;
use crate::phrase::PhraseNode;
use lv_base::boxed::{boxed, push_unboxed};
use lv_text::TokenKind;
use std::alloc::{AllocError, Global};

/// Reads operands with the connective's sign between them, and joins them.
#[cycle(read)]
#[inline(always)]
pub(crate) fn joined(
    alloc: Global,
    cursor: &mut Cursor<'_>,
    connective: Connective,
) -> Result<Option<Box<PhraseNode>>, AllocError>
    ensures found { IfOk result (λ found. Finds (IsJoined connective) (level connective) cursor.old (option_map tree_in found) cursor.new) }
    ensures left { length cursor.new ≤ length cursor.old }
{
    match unary(alloc, cursor)? {
        Some(first) => joined_behind(alloc, cursor, connective, first),
        None => Ok(None),
    }
}

/// The same where the first formula that binds tightest is read. Where nothing goes on with it, it is all.
#[cycle(read)]
#[inline(never)]
fn joined_behind(
    alloc: Global,
    cursor: &mut Cursor<'_>,
    connective: Connective,
    first: Box<PhraseNode>,
) -> Result<Option<Box<PhraseNode>>, AllocError>
    ensures found { (ts : List Lexeme) → Reads IsUnary 5 ts (tree_in first) cursor.old → IfOk result (λ found. Finds (IsJoined connective) (level connective) ts (option_map tree_in found) cursor.new) }
    ensures left { length cursor.new ≤ length cursor.old }
{
    if cursor.binding() < connective.level() {
        return Ok(Some(first));
    }
    let Some(next) = operand_behind(alloc, cursor, connective, first)? else {
        return Ok(None);
    };
    if !cursor.takes(connective.sign()) {
        return Ok(Some(next));
    }
    let mut operands = Vec::new(alloc);
    push_unboxed(&mut operands, next)?;
    'operands: loop {
        let Some(next) = operand(alloc, cursor, connective)? else {
            return Ok(None);
        };
        if !cursor.takes(connective.sign()) {
            return Ok(Some(connective.join(alloc, operands, next)?));
        }
        push_unboxed(&mut operands, next)?;
    }
}

/// Reads the first operand of a connective where the first formula of it that binds tightest is read.
#[cycle(read)]
#[inline(always)]
fn operand_behind(
    alloc: Global,
    cursor: &mut Cursor<'_>,
    connective: Connective,
    first: Box<PhraseNode>,
) -> Result<Option<Box<PhraseNode>>, AllocError>
    ensures found { (ts : List Lexeme) → Reads IsUnary 5 ts (tree_in first) cursor.old → IfOk result (λ found. Finds (IsOperand connective) (level connective + 1) ts (option_map tree_in found) cursor.new) }
    ensures left { length cursor.new ≤ length cursor.old }
{
    match connective {
        Connective::Equivalence => joined_behind(alloc, cursor, Connective::Implication, first),
        Connective::Implication => joined_behind(alloc, cursor, Connective::Disjunction, first),
        Connective::Disjunction => joined_behind(alloc, cursor, Connective::Conjunction, first),
        Connective::Conjunction => Ok(Some(first)),
    }
}

/// Reads what stands between two signs of a connective.
#[cycle(read)]
#[inline(never)]
fn operand(
    alloc: Global,
    cursor: &mut Cursor<'_>,
    connective: Connective,
) -> Result<Option<Box<PhraseNode>>, AllocError>
    ensures found { IfOk result (λ found. Finds (IsOperand connective) (level connective + 1) cursor.old (option_map tree_in found) cursor.new) }
    ensures left { length cursor.new ≤ length cursor.old }
{
    match connective {
        Connective::Equivalence => joined(alloc, cursor, Connective::Implication),
        Connective::Implication => joined(alloc, cursor, Connective::Disjunction),
        Connective::Disjunction => joined(alloc, cursor, Connective::Conjunction),
        Connective::Conjunction => unary(alloc, cursor),
    }
}

/// Reads a formula behind any number of negation signs, which take no more of the stack than one does.
#[cycle(read)]
#[inline(never)]
fn unary(alloc: Global, cursor: &mut Cursor<'_>) -> Result<Option<Box<PhraseNode>>, AllocError>
    ensures found { IfOk result (λ found. Finds IsUnary 5 cursor.old (option_map tree_in found) cursor.new) }
    ensures left { length cursor.new ≤ length cursor.old }
{
    let before = cursor.len();
    'signs: while cursor.takes(TokenKind::Not) {}
    let signs = before - cursor.len();
    match primary(alloc, cursor)? {
        Some(operand) => Ok(Some(negated(alloc, operand, signs)?)),
        None => Ok(None),
    }
}

/// Reads a formula in parentheses, a truth or an equation, where no negation stands.
#[cycle(read)]
#[inline(always)]
fn primary(alloc: Global, cursor: &mut Cursor<'_>) -> Result<Option<Box<PhraseNode>>, AllocError>
    requires other { first_kind cursor.old ≢ Some Not }
    ensures found { IfOk result (λ found. Finds IsUnary 5 cursor.old (option_map tree_in found) cursor.new) }
    ensures left { length cursor.new ≤ length cursor.old }
{
    if cursor.takes(TokenKind::Open) {
        let Some(enclosed) = joined(alloc, cursor, Connective::Equivalence)? else {
            return Ok(None);
        };
        if !cursor.takes(TokenKind::Close) {
            return Ok(None);
        }
        return Ok(Some(enclosed));
    }
    atom(alloc, cursor)
}

/// So many negations of a formula.
#[inline(never)]
fn negated(
    alloc: Global,
    node: Box<PhraseNode>,
    signs: usize,
) -> Result<Box<PhraseNode>, AllocError>
    ensures { IfOk result (λ whole. tree_in whole ≡ negations signs (tree_in node)) }
{
    let mut whole = node;
    let mut left = signs;
    'signs: while left > 0 {
        whole = boxed(alloc, PhraseNode::Not(whole))?;
        left -= 1;
    }
    Ok(whole)
}
