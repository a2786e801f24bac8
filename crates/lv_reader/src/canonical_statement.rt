//! The canonical tokens of a statement, written behind what a line has so far.
#![tactic(auto, using(crate::proofs::Writing::written_more))]

ghost use Rattle.std.specs.Prelude.{◌≡◌, OnOk, [], ◌∷◌, map, Some, codes};
ghost use Rattle.std.specs.List.{flat_map};
ghost use Rattle.lv_text.specs.declared.lexer.TokenKind.TheVariants.{Arrow};
ghost use Rattle.lv_formula_text.specs.Spacing.{written, word, symbol};
ghost use Rattle.lv_reader.specs.CanonicalTokens.{number, class_word, cost_tokens, named_tokens, alternative_tokens, mode_tokens, move_tokens, guard_tokens, repair_tokens, price_tokens, statement_tokens};

use crate::{Repair, Statement};
use itoa::Buffer;
use lv_base::{Class, Name};
use lv_formula_text::{LineWriter, Phrase, write_phrase};
use lv_text::TokenKind;
use std::alloc::AllocError;

/// Writes a statement.
pub fn write_statement(writer: &mut LineWriter, statement: &Statement) -> Result<(), AllocError>
    ensures { OnOk result (writer.new ≡ written (statement_tokens statement.now) writer.old) }
{
    match statement {
        Statement::ModelLine(name) => write_named(writer, b"model", name),
        Statement::DomainLine(name, values) => {
            write_named(writer, b"domain", name)?;
            write_names(writer, values.as_slice())
        }
        Statement::TypeLine(name) => write_named(writer, b"type", name),
        Statement::VariableLine(class, name, domain) => {
            write_named(writer, class_word(*class), name)?;
            writer.word(domain.as_slice())
        }
        Statement::ModeLine(name) => write_named(writer, b"mode", name),
        Statement::LawLine(formula) => {
            writer.word(b"law")?;
            write_phrase(writer, formula)
        }
        Statement::InLine(modes, formula) => {
            write_in(writer, modes.as_slice())?;
            write_phrase(writer, formula)
        }
        Statement::StepLine(source, target, guard) => {
            write_move(writer, b"step", source, target)?;
            write_guard(writer, guard)
        }
        Statement::FaultLine(source, target, cost, guard) => {
            write_move(writer, b"fault", source, target)?;
            write_cost_and_guard(writer, *cost, guard)
        }
        Statement::FaultsLine(target, cost, guard) => {
            write_target(writer, target)?;
            write_cost_and_guard(writer, *cost, guard)
        }
        Statement::RepairLine(source, target, cost, repair, guard) => {
            write_move(writer, b"fault", source, target)?;
            write_cost(writer, *cost)?;
            write_repair(writer, repair)?;
            write_any_guard(writer, guard)
        }
        Statement::EndLine => writer.word(b"end"),
        Statement::PartLine(name, kind, start) => {
            write_named(writer, b"part", name)?;
            writer.word(kind.as_slice())?;
            writer.word(start.as_slice())
        }
        Statement::PriceLine(part, control, value, cost) => {
            write_named(writer, b"price", part)?;
            write_price(writer, control, value, *cost)
        }
        Statement::VersionLine(n) => {
            writer.word(b"version")?;
            write_number(writer, *n)
        }
    }
}

fn write_named(writer: &mut LineWriter, keyword: &[u8], name: &Name) -> Result<(), AllocError>
    ensures { OnOk result (writer.new ≡ written (named_tokens keyword.now name.now) writer.old) }
{
    writer.word(keyword)?;
    writer.word(name.as_slice())
}

fn write_names(writer: &mut LineWriter, names: &[Name]) -> Result<(), AllocError>
    ensures { OnOk result (writer.new ≡ written (map word names.now) writer.old) }
{
    'names: for name in names {
        writer.word(name.as_slice())?;
    }
    Ok(())
}

/// The modes in which a formula holds, behind their word.
fn write_in(writer: &mut LineWriter, modes: &[Name]) -> Result<(), AllocError>
    ensures { OnOk result (writer.new ≡ written (word (codes "in") ∷ mode_tokens modes.now) writer.old) }
{
    writer.word(b"in")?;
    write_modes(writer, modes)
}

/// A name, and others that may stand in its place.
fn write_modes(writer: &mut LineWriter, modes: &[Name]) -> Result<(), AllocError>
    ensures { OnOk result (writer.new ≡ written (mode_tokens modes.now) writer.old) }
{
    match modes.split_first() {
        Some((mode, others)) => {
            writer.word(mode.as_slice())?;
            write_alternatives(writer, others)
        }
        None => Ok(()),
    }
}

fn write_alternatives(writer: &mut LineWriter, modes: &[Name]) -> Result<(), AllocError>
    ensures { OnOk result (writer.new ≡ written (flat_map alternative_tokens modes.now) writer.old) }
{
    'modes: for mode in modes {
        write_alternative(writer, mode)?;
    }
    Ok(())
}

fn write_alternative(writer: &mut LineWriter, mode: &Name) -> Result<(), AllocError>
    ensures { OnOk result (writer.new ≡ written (alternative_tokens mode.now) writer.old) }
{
    writer.symbol(TokenKind::Or)?;
    writer.word(mode.as_slice())
}

/// A fault from each other mode, up to its cost.
fn write_target(writer: &mut LineWriter, target: &Name) -> Result<(), AllocError>
    ensures { OnOk result (writer.new ≡ written (word (codes "fault") ∷ symbol Arrow ∷ word target.now ∷ []) writer.old) }
{
    writer.word(b"fault")?;
    writer.symbol(TokenKind::Arrow)?;
    writer.word(target.as_slice())
}

fn write_repair(writer: &mut LineWriter, repair: &Repair) -> Result<(), AllocError>
    ensures { OnOk result (writer.new ≡ written (repair_tokens repair.now) writer.old) }
{
    writer.word(b"repair")?;
    writer.word(repair.control.as_slice())?;
    writer.symbol(TokenKind::Equals)?;
    writer.word(repair.value.as_slice())
}

fn write_move(
    writer: &mut LineWriter,
    keyword: &[u8],
    source: &Name,
    target: &Name,
) -> Result<(), AllocError>
    ensures { OnOk result (writer.new ≡ written (move_tokens keyword.now source.now target.now) writer.old) }
{
    write_named(writer, keyword, source)?;
    writer.symbol(TokenKind::Arrow)?;
    writer.word(target.as_slice())
}

fn write_number(writer: &mut LineWriter, n: u64) -> Result<(), AllocError>
    ensures { OnOk result (writer.new ≡ written (number n ∷ []) writer.old) }
{
    let mut digits = Buffer::new();
    writer.token(TokenKind::Number, digits.format(n).as_bytes())
}

fn write_guard(writer: &mut LineWriter, guard: &Phrase) -> Result<(), AllocError>
    ensures { OnOk result (writer.new ≡ written (guard_tokens (Some guard.now)) writer.old) }
{
    writer.word(b"when")?;
    write_phrase(writer, guard)
}

fn write_cost(writer: &mut LineWriter, cost: u64) -> Result<(), AllocError>
    ensures { OnOk result (writer.new ≡ written (word (codes "cost") ∷ number cost ∷ []) writer.old) }
{
    writer.word(b"cost")?;
    write_number(writer, cost)
}

fn write_cost_and_guard(
    writer: &mut LineWriter,
    cost: u64,
    guard: &Option<Phrase>,
) -> Result<(), AllocError>
    ensures { OnOk result (writer.new ≡ written (cost_tokens cost guard.now) writer.old) }
{
    write_cost(writer, cost)?;
    write_any_guard(writer, guard)
}

fn write_any_guard(writer: &mut LineWriter, guard: &Option<Phrase>) -> Result<(), AllocError>
    ensures { OnOk result (writer.new ≡ written (guard_tokens guard.now) writer.old) }
{
    match guard {
        Some(guard) => write_guard(writer, guard),
        None => Ok(()),
    }
}

fn write_price(
    writer: &mut LineWriter,
    control: &Name,
    value: &Name,
    cost: u64,
) -> Result<(), AllocError>
    ensures { OnOk result (writer.new ≡ written (price_tokens control.now value.now cost) writer.old) }
{
    writer.symbol(TokenKind::Dot)?;
    writer.word(control.as_slice())?;
    writer.symbol(TokenKind::Equals)?;
    writer.word(value.as_slice())?;
    write_number(writer, cost)
}

/// The word by which a variable of that class is declared.
fn class_word(class: Class) -> &'static [u8]
    ensures { result.now ≡ class_word class }
{
    match class {
        Class::Control => b"control",
        Class::Dependent => b"variable",
        Class::Observable => b"observable",
    }
}
