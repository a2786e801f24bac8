//! Printing a formula: its canonical text, with parentheses where the tree can't be read without them.
#![tactic(auto)]

ghost use Rattle.std.specs.Prelude.{◌≡◌, ℕ, ◌+◌, length, map, IfOk, OnOk};
ghost use Rattle.lv_formula_text.specs.PhraseTree.{tree_of, trees_of, equals};
ghost use Rattle.lv_formula_text.specs.Connectives.{level};
ghost use Rattle.lv_formula_text.specs.Spacing.{written};
ghost use Rattle.lv_formula_text.specs.Canonical.{path_tokens, level_of, enclosed, tokens_of, operand_tokens, sign_before, canonical_text};

use crate::connective::Connective;
use crate::path::Path;
use crate::phrase::{Phrase, PhraseNode};
use crate::writer::LineWriter;
use lv_text::TokenKind;
use std::alloc::{AllocError, Global};

/// What has no connective outside binds more tightly than any connective.
const TIGHTEST: u32 = 5;

/// The canonical text of a formula.
pub fn print_phrase(alloc: Global, phrase: &Phrase) -> Result<Vec<u8>, AllocError>
    ensures { IfOk result (λ text. text.items ≡ canonical_text phrase.now) }
{
    let mut writer = LineWriter::new(alloc);
    write_phrase(&mut writer, phrase)?;
    Ok(writer.into_bytes())
}

/// Writes the canonical tokens of a formula behind what a line has so far.
pub fn write_phrase(writer: &mut LineWriter, phrase: &Phrase) -> Result<(), AllocError>
    ensures { OnOk result (writer.new ≡ written (tokens_of phrase.now) writer.old) }
{
    write(writer, phrase.root())
}

#[cycle(write)]
fn write(writer: &mut LineWriter, node: &PhraseNode) -> Result<(), AllocError>
    ensures { OnOk result (writer.new ≡ written (tokens_of (tree_of node.now)) writer.old) }
{
    match node {
        PhraseNode::True => writer.word(b"true"),
        PhraseNode::False => writer.word(b"false"),
        PhraseNode::Equals(sides) => write_equation(writer, &sides.left, &sides.right),
        PhraseNode::Not(f) => {
            writer.symbol(TokenKind::Not)?;
            write_operand(writer, TIGHTEST, f)
        }
        PhraseNode::And(fs) => write_operands(writer, Connective::Conjunction, fs),
        PhraseNode::Or(fs) => write_operands(writer, Connective::Disjunction, fs),
        PhraseNode::Implies(f, g) => {
            write_operand(writer, Connective::Implication.level() + 1, f)?;
            writer.symbol(TokenKind::Implies)?;
            write_operand(writer, Connective::Implication.level(), g)
        }
        PhraseNode::Iff(f, g) => {
            write_operand(writer, Connective::Equivalence.level() + 1, f)?;
            writer.symbol(TokenKind::Iff)?;
            write_operand(writer, Connective::Equivalence.level(), g)
        }
    }
}

/// Writes a formula, in parentheses if it binds less tightly than its place asks for.
#[cycle(write)]
fn write_operand(writer: &mut LineWriter, bound: u32, node: &PhraseNode) -> Result<(), AllocError>
    ensures { OnOk result (writer.new ≡ written (enclosed bound (tree_of node.now) (tokens_of (tree_of node.now))) writer.old) }
{
    if level_of(node) >= bound {
        return write(writer, node);
    }
    writer.symbol(TokenKind::Open)?;
    write(writer, node)?;
    writer.symbol(TokenKind::Close)
}

/// Writes the operands of a connective that takes any number of them.
#[cycle(write)]
fn write_operands(
    writer: &mut LineWriter,
    connective: Connective,
    operands: &[PhraseNode],
) -> Result<(), AllocError>
    ensures { OnOk result (writer.new ≡ written (operand_tokens connective (trees_of (map tree_of operands.now))) writer.old) }
{
    let mut is_first = true;
    'operands: for operand in operands {
        write_sign(writer, connective, is_first)?;
        is_first = false;
        write_operand(writer, connective.level() + 1, operand)?;
    }
    Ok(())
}

/// Writes the sign of a connective before each operand but the first.
fn write_sign(
    writer: &mut LineWriter,
    connective: Connective,
    is_first: bool,
) -> Result<(), AllocError>
    ensures { OnOk result (writer.new ≡ written (sign_before connective is_first) writer.old) }
{
    if is_first {
        return Ok(());
    }
    writer.symbol(connective.sign())
}

fn write_equation(writer: &mut LineWriter, left: &Path, right: &Path) -> Result<(), AllocError>
    ensures { OnOk result (writer.new ≡ written (tokens_of (equals left.now right.now)) writer.old) }
{
    write_path(writer, left)?;
    writer.symbol(TokenKind::Equals)?;
    write_path(writer, right)
}

fn write_path(writer: &mut LineWriter, path: &Path) -> Result<(), AllocError>
    ensures { OnOk result (writer.new ≡ written (path_tokens path.now) writer.old) }
{
    match path {
        Path::Own(name) => writer.word(name.as_slice()),
        Path::OfPart(part, name) => {
            writer.word(part.as_slice())?;
            writer.symbol(TokenKind::Dot)?;
            writer.word(name.as_slice())
        }
    }
}

/// The level of a formula's outermost connective.
fn level_of(node: &PhraseNode) -> u32
    ensures { result ≡ level_of (tree_of node.now) }
{
    match node {
        PhraseNode::Iff(_, _) => Connective::Equivalence.level(),
        PhraseNode::Implies(_, _) => Connective::Implication.level(),
        PhraseNode::Or(_) => Connective::Disjunction.level(),
        PhraseNode::And(_) => Connective::Conjunction.level(),
        _ => TIGHTEST,
    }
}
