//! The forms of statements: the statement that the tokens of a line are, by the word that it begins with.
#![tactic(auto)]

ghost use Rattle.std.specs.Prelude.{◌≡◌, IfOk, IfErr, Some, false, true, codes};
ghost use Rattle.lv_formula_text.specs.Nesting.{is_too_deep};
ghost use Rattle.lv_reader.specs.declared.fault.FormFault.TheVariants.{Form};
ghost use Rattle.lv_reader.specs.Keywords.{keyword_of};
ghost use Rattle.lv_text.specs.Lexemes.{says};
ghost use Rattle.lv_reader.specs.Words.{is_arrow, has_kind_at};
ghost use Rattle.lv_reader.specs.Statements.{HasForm, HasNoForm, IsStatement, has_form_of};
ghost use Rattle.lv_reader.specs.Lines.{TellsBy};
ghost use Rattle.lv_reader.specs.declared.keyword.Keyword.TheVariants.{DomainWord, ClassWord, InWord, StepWord, FaultWord, EndWord, PartWord, PriceWord};

use crate::code::ModelCode;
use crate::fault::{FormFault, LineFault};
use crate::keyword::{Keyword, keyword_of};
use crate::statement::Statement;
use crate::version::Version;
use crate::words::{
    bare_target, both_ends, formula_from, guard_from, is_arrow_at, name_and_names, numeral_at,
    one_or_more, only_name, only_numeral, priced_names, repair_of, three_names, two_names,
};
use lv_base::Class;
use lv_formula_text::is_too_deep;
use lv_text::TokenLine;
use std::alloc::Global;

fn domain_line(alloc: Global, line: &TokenLine<'_>) -> Result<Statement, FormFault>
    requires { keyword_of line.now ≡ Some DomainWord }
    ensures ok { IfOk result (HasForm line.now) }
    ensures refused { result ≡ Err Form → HasNoForm line.now }
{
    let names = name_and_names(alloc, line)?;
    Ok(Statement::DomainLine(names.name, names.others))
}

fn variable_line(alloc: Global, line: &TokenLine<'_>, class: Class) -> Result<Statement, FormFault>
    requires { keyword_of line.now ≡ Some (ClassWord class) }
    ensures ok { IfOk result (HasForm line.now) }
    ensures refused { result ≡ Err Form → HasNoForm line.now }
{
    let names = two_names(alloc, line)?;
    Ok(Statement::VariableLine(class, names.first, names.second))
}

fn part_line(alloc: Global, line: &TokenLine<'_>) -> Result<Statement, FormFault>
    requires { keyword_of line.now ≡ Some PartWord }
    ensures ok { IfOk result (HasForm line.now) }
    ensures refused { result ≡ Err Form → HasNoForm line.now }
{
    let names = three_names(alloc, line)?;
    Ok(Statement::PartLine(names.first, names.second, names.third))
}

fn price_line(alloc: Global, line: &TokenLine<'_>) -> Result<Statement, FormFault>
    requires { keyword_of line.now ≡ Some PriceWord }
    ensures ok { IfOk result (HasForm line.now) }
    ensures refused { result ≡ Err Form → HasNoForm line.now }
{
    let names = priced_names(alloc, line)?;
    let cost = numeral_at(line, 6)?;
    Ok(Statement::PriceLine(names.first, names.second, names.third, cost))
}

fn end_line(line: &TokenLine<'_>) -> Result<Statement, FormFault>
    requires { keyword_of line.now ≡ Some EndWord }
    ensures ok { IfOk result (HasForm line.now) }
    ensures refused { result ≡ Err Form → HasNoForm line.now }
{
    if line.len() != 1 {
        return Err(FormFault::Form);
    }
    Ok(Statement::EndLine)
}

fn in_line(alloc: Global, line: &TokenLine<'_>) -> Result<Statement, FormFault>
    requires word { keyword_of line.now ≡ Some InWord }
    requires shallow { is_too_deep line.now ≡ false }
    ensures ok { IfOk result (HasForm line.now) }
    ensures refused { result ≡ Err Form → HasNoForm line.now }
{
    let modes = one_or_more(alloc, line)?;
    let formula = formula_from(alloc, line, modes.len().saturating_mul(2))?;
    Ok(Statement::InLine(modes, formula))
}

fn step_line(alloc: Global, line: &TokenLine<'_>) -> Result<Statement, FormFault>
    requires word { keyword_of line.now ≡ Some StepWord }
    requires shallow { is_too_deep line.now ≡ false }
    ensures ok { IfOk result (HasForm line.now) }
    ensures refused { result ≡ Err Form → HasNoForm line.now }
{
    let ends = both_ends(alloc, line)?;
    match guard_from(alloc, line, 4)? {
        Some(guard) => Ok(Statement::StepLine(ends.first, ends.second, guard)),
        None => Err(FormFault::Form),
    }
}

/// A fault from each other mode.
fn faults_line(alloc: Global, line: &TokenLine<'_>) -> Result<Statement, FormFault>
    requires word { keyword_of line.now ≡ Some FaultWord }
    requires shallow { is_too_deep line.now ≡ false }
    requires bare { has_kind_at is_arrow line.now 1 ≡ true }
    ensures ok { IfOk result (HasForm line.now) }
    ensures refused { result ≡ Err Form → HasNoForm line.now }
{
    let target = bare_target(alloc, line)?;
    if !line.says(3, b"cost") {
        return Err(FormFault::Form);
    }
    let cost = numeral_at(line, 4)?;
    let guard = guard_from(alloc, line, 5)?;
    Ok(Statement::FaultsLine(target, cost, guard))
}

/// A fault with a repair.
fn repair_line(alloc: Global, line: &TokenLine<'_>) -> Result<Statement, FormFault>
    requires word { keyword_of line.now ≡ Some FaultWord }
    requires shallow { is_too_deep line.now ≡ false }
    requires bare { has_kind_at is_arrow line.now 1 ≡ false }
    requires repair { says (codes "repair") line.now 6 ≡ true }
    ensures ok { IfOk result (HasForm line.now) }
    ensures refused { result ≡ Err Form → HasNoForm line.now }
{
    let ends = both_ends(alloc, line)?;
    if !line.says(4, b"cost") {
        return Err(FormFault::Form);
    }
    let cost = numeral_at(line, 5)?;
    let repair = repair_of(alloc, line)?;
    let guard = guard_from(alloc, line, 10)?;
    Ok(Statement::RepairLine(ends.first, ends.second, cost, repair, guard))
}

/// A fault from one mode.
fn plain_fault_line(alloc: Global, line: &TokenLine<'_>) -> Result<Statement, FormFault>
    requires word { keyword_of line.now ≡ Some FaultWord }
    requires shallow { is_too_deep line.now ≡ false }
    requires bare { has_kind_at is_arrow line.now 1 ≡ false }
    requires repair { says (codes "repair") line.now 6 ≡ false }
    ensures ok { IfOk result (HasForm line.now) }
    ensures refused { result ≡ Err Form → HasNoForm line.now }
{
    let ends = both_ends(alloc, line)?;
    if !line.says(4, b"cost") {
        return Err(FormFault::Form);
    }
    let cost = numeral_at(line, 5)?;
    let guard = guard_from(alloc, line, 6)?;
    Ok(Statement::FaultLine(ends.first, ends.second, cost, guard))
}

fn fault_line(alloc: Global, line: &TokenLine<'_>) -> Result<Statement, FormFault>
    requires word { keyword_of line.now ≡ Some FaultWord }
    requires shallow { is_too_deep line.now ≡ false }
    ensures ok { IfOk result (HasForm line.now) }
    ensures refused { result ≡ Err Form → HasNoForm line.now }
{
    if is_arrow_at(line, 1) {
        faults_line(alloc, line)
    } else if line.says(6, b"repair") {
        repair_line(alloc, line)
    } else {
        plain_fault_line(alloc, line)
    }
}

/// The statement whose form the line has, by the word that it begins with.
fn form_of(alloc: Global, line: &TokenLine<'_>, keyword: Keyword) -> Result<Statement, FormFault>
    requires word { keyword_of line.now ≡ Some keyword }
    requires shallow { is_too_deep line.now ≡ false }
    ensures ok { IfOk result (HasForm line.now) }
    ensures refused { result ≡ Err Form → HasNoForm line.now }
{
    match keyword {
        Keyword::ModelWord => Ok(Statement::ModelLine(only_name(alloc, line)?)),
        Keyword::DomainWord => domain_line(alloc, line),
        Keyword::TypeWord => Ok(Statement::TypeLine(only_name(alloc, line)?)),
        Keyword::ClassWord(class) => variable_line(alloc, line, class),
        Keyword::ModeWord => Ok(Statement::ModeLine(only_name(alloc, line)?)),
        Keyword::LawWord => Ok(Statement::LawLine(formula_from(alloc, line, 1)?)),
        Keyword::InWord => in_line(alloc, line),
        Keyword::StepWord => step_line(alloc, line),
        Keyword::FaultWord => fault_line(alloc, line),
        Keyword::EndWord => end_line(line),
        Keyword::PartWord => part_line(alloc, line),
        Keyword::PriceWord => price_line(alloc, line),
        Keyword::VersionWord => Ok(Statement::VersionLine(only_numeral(line)?)),
    }
}

/// The statement that the tokens of a line are in a text of the version, of which there are some.
#[tactic(auto, using(crate::proofs::FormLemmas::none_in_version, crate::proofs::FormLemmas::not_of_version))]
pub fn statement_of(
    alloc: Global,
    line: &TokenLine<'_>,
    version: Version,
) -> Result<Statement, LineFault>
    ensures ok { IfOk result (IsStatement version line.now) }
    ensures fault { IfErr result (λ fault. TellsBy fault version line.now) }
{
    let Some(keyword) = keyword_of(line) else {
        return Err(LineFault::Refused(ModelCode::UnknownStatement));
    };
    if is_too_deep(line) {
        return Err(LineFault::Refused(ModelCode::TooDeep));
    }
    let statement = match form_of(alloc, line, keyword) {
        Ok(statement) => statement,
        Err(FormFault::Form) => return Err(LineFault::Refused(ModelCode::Form)),
        Err(FormFault::Memory) => return Err(LineFault::Memory),
    };
    if !version.has_form_of(&statement) {
        drop(statement);
        return Err(LineFault::Refused(ModelCode::Form));
    }
    if !statement.number_fits() {
        drop(statement);
        return Err(LineFault::Refused(ModelCode::NumberOutOfRange));
    }
    Ok(statement)
}
