//! Reading what has no formulas inside: a truth, or an equation of two paths.
#![tactic(auto)]

ghost use Rattle.std.specs.Prelude.{◌≡◌, IfOk, option_map, ◌≤◌, length};
ghost use Rattle.lv_formula_text.specs.PhraseTree.{tree_in};
ghost use Rattle.lv_formula_text.specs.Grammar.{IsPath, IsEquation, IsAtom};
ghost use Rattle.lv_formula_text.specs.Reading.{Finds};

use crate::cursor::Cursor;
use crate::path::{Path, Word};
use crate::phrase::{Equation, PhraseNode};
use lv_text::TokenKind;
use std::alloc::{AllocError, Global};

/// Reads a truth or an equation.
#[inline(never)]
pub(crate) fn atom(
    alloc: Global,
    cursor: &mut Cursor<'_>,
) -> Result<Option<Box<PhraseNode>>, AllocError>
    ensures found { IfOk result (λ found. Finds IsAtom 5 cursor.old (option_map tree_in found) cursor.new) }
    ensures left { length cursor.new ≤ length cursor.old }
{
    if cursor.takes_word(b"true") {
        return Ok(Some(Box::new(alloc, PhraseNode::True)?));
    }
    if cursor.takes_word(b"false") {
        return Ok(Some(Box::new(alloc, PhraseNode::False)?));
    }
    equation(alloc, cursor)
}

/// Reads an equation, where no truth stands.
fn equation(alloc: Global, cursor: &mut Cursor<'_>) -> Result<Option<Box<PhraseNode>>, AllocError>
    ensures found { IfOk result (λ found. Finds IsEquation 5 cursor.old (option_map tree_in found) cursor.new) }
    ensures left { length cursor.new ≤ length cursor.old }
{
    let Some(left) = path(alloc, cursor)? else {
        return Ok(None);
    };
    if !cursor.takes(TokenKind::Equals) {
        return Ok(None);
    }
    let Some(right) = path(alloc, cursor)? else {
        return Ok(None);
    };
    let equation = PhraseNode::Equals(Equation { left, right });
    Ok(Some(Box::new(alloc, equation)?))
}

/// Reads a word, or two with a dot between them.
fn path(alloc: Global, cursor: &mut Cursor<'_>) -> Result<Option<Path>, AllocError>
    ensures found { IfOk result (λ found. Finds IsPath 5 cursor.old found cursor.new) }
    ensures left { length cursor.new ≤ length cursor.old }
{
    let Some(first) = cursor.word() else {
        return Ok(None);
    };
    let first = Word::from_slice(alloc, first)?;
    if !cursor.takes(TokenKind::Dot) {
        return Ok(Some(Path::Own(first)));
    }
    let Some(second) = cursor.word() else {
        return Ok(None);
    };
    let second = Word::from_slice(alloc, second)?;
    Ok(Some(Path::OfPart(first, second)))
}
