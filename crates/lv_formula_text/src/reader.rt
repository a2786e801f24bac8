//! Reading a formula from the tokens of a line. How deep it nests is judged before it is read, over the whole line.
#![tactic(auto)]

ghost use Rattle.std.specs.Prelude.{◌≡◌, false, IfOk, IfErr};
ghost use Rattle.std.specs.Option.{option_map_or};
ghost use Rattle.lv_formula_text.specs.Nesting.{one_if, opens, closes, nests, is_too_deep};
ghost use Rattle.lv_formula_text.specs.ReadPhrase.{IsReadAs, Explains};

use crate::connective::Connective;
use crate::cursor::Cursor;
use crate::fault::PhraseFault;
use crate::parser::joined;
use crate::phrase::Phrase;
use lv_base::limits;
use lv_text::{TokenKind, TokenLine};
use std::alloc::Global;

/// Reads the formula that the tokens of a line are, from this place to the end.
pub fn read_phrase(alloc: Global, line: &TokenLine<'_>, from: usize) -> Result<Phrase, PhraseFault>
    ensures ok { IfOk result (λ phrase. IsReadAs line.now from phrase) }

    // That the line nests too deep is told before anything else.
    ensures fault { IfErr result (λ fault. Explains line.now from fault) }
{
    if is_too_deep(line) {
        return Err(PhraseFault::TooDeep);
    }
    read_shallow_phrase(alloc, line, from)
}

/// Reads the formula that the tokens of a line are, from this place to the end, where it is known that the line doesn't
/// nest too deep.
pub fn read_shallow_phrase(
    alloc: Global,
    line: &TokenLine<'_>,
    from: usize,
) -> Result<Phrase, PhraseFault>
    requires { is_too_deep line.now ≡ false }
    ensures ok { IfOk result (λ phrase. IsReadAs line.now from phrase) }
    ensures fault { IfErr result (λ fault. Explains line.now from fault) }
{
    let mut cursor = Cursor::new(line, from);
    let Some(root) = joined(alloc, &mut cursor, Connective::Equivalence)? else {
        return Err(PhraseFault::Form);
    };
    if !cursor.is_at_end() {
        return Err(PhraseFault::Form);
    }
    Ok(Phrase::new(root))
}

/// Whether parentheses or operators of a line nest deeper than is allowed, whatever else the line holds. Takes no memory. A
/// line of few tokens isn't gone along.
#[tactic(auto, using(crate::proofs::NestingLemmas::short_is_shallow))]
pub fn is_too_deep(line: &TokenLine<'_>) -> bool
    ensures { result ≡ is_too_deep line.now }
{
    if line.len() <= limits::OPEN_PARENTHESES as usize {
        return false;
    }
    nests_too_deep(line)
}

/// Whether too many parentheses are open at some place, or there are too many operators that nest.
fn nests_too_deep(line: &TokenLine<'_>) -> bool
    ensures { result ≡ is_too_deep line.now }
{
    let mut opened: usize = 0;
    let mut closed: usize = 0;
    let mut nested: usize = 0;
    'tokens: for place in 0..line.len() {
        let kind = line.kind(place);
        opened += one_if(opens(kind));
        closed += one_if(closes(kind));
        nested += one_if(nests(kind));
        if opened.saturating_sub(closed) > limits::OPEN_PARENTHESES as usize {
            return true;
        }
    }
    nested > limits::NESTING_OPERATORS as usize
}

fn opens(kind: Option<TokenKind>) -> bool
    ensures { result ≡ option_map_or opens kind false }
{
    matches!(kind, Some(TokenKind::Open))
}

fn closes(kind: Option<TokenKind>) -> bool
    ensures { result ≡ option_map_or closes kind false }
{
    matches!(kind, Some(TokenKind::Close))
}

fn nests(kind: Option<TokenKind>) -> bool
    ensures { result ≡ option_map_or nests kind false }
{
    matches!(
        kind,
        Some(TokenKind::Not | TokenKind::Implies | TokenKind::Iff)
    )
}

fn one_if(test: bool) -> usize
    ensures { result ≡ one_if test }
{
    if test { 1 } else { 0 }
}
