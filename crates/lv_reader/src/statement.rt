//! The statements of a model's text, with the names that they are written with.
#![tactic(auto)]

ghost use Rattle.lv_base.specs.declared.limits.TheConstants.{LEAST_FAULT_COST as LEAST, FAULT_COST as MOST};
ghost use Rattle.std.specs.Prelude.{◌≡◌, ◌&&◌, nat_le};
ghost use Rattle.lv_reader.specs.Statements.{number_fits};

use crate::version::NEWEST;
use lv_base::limits::{FAULT_COST, LEAST_FAULT_COST, PRICE};
use lv_base::{Class, Name, Seq};
use lv_formula_text::Phrase;

/// How a mode is repaired: the control and its value, by which a step leads back from it.
#[derive(Debug, Drop)]
pub struct Repair {
    pub control: Name,
    pub value: Name,
}

/// A statement: one line of a model's text.
#[derive(Debug, Drop)]
pub enum Statement {
    /// The model's name.
    ModelLine(Name),
    /// A domain and its values.
    DomainLine(Name, Seq<Name>),
    /// Begins a type of that name.
    TypeLine(Name),
    /// A variable's class and name, and its domain's name.
    VariableLine(Class, Name, Name),
    /// A mode of the type.
    ModeLine(Name),
    /// What always holds: of each part of the type that it stands in, or of the system.
    LawLine(Phrase),
    /// What holds in each of the modes of these names.
    InLine(Seq<Name>, Phrase),
    /// A step from the first mode to the second, with its guard.
    StepLine(Name, Name, Phrase),
    /// A fault from the first mode to the second, with its cost and the guard that it may have.
    FaultLine(Name, Name, u64, Option<Phrase>),
    /// A fault to the mode from each other one so far, with its cost and the guard that it may have.
    FaultsLine(Name, u64, Option<Phrase>),
    /// A fault as from one mode, and a step back from where it leads to.
    RepairLine(Name, Name, u64, Repair, Option<Phrase>),
    /// Ends the type.
    EndLine,
    /// A part's name, its type's, and its starting mode's.
    PartLine(Name, Name, Name),
    /// What it costs to command a part's control to a value.
    PriceLine(Name, Name, Name, u64),
    /// The version of the text.
    VersionLine(u64),
}

impl Statement {
    /// Whether the number that it has, if any, is within its limits.
    pub fn number_fits(&self) -> bool
        ensures { result ≡ number_fits self.now }
    {
        match self {
            Statement::FaultLine(_, _, cost, _)
            | Statement::FaultsLine(_, cost, _)
            | Statement::RepairLine(_, _, cost, _, _) => is_fault_cost(*cost),
            Statement::PriceLine(_, _, _, cost) => *cost <= PRICE,
            Statement::VersionLine(n) => 1 <= *n && *n <= NEWEST,
            _ => true,
        }
    }
}

fn is_fault_cost(cost: u64) -> bool
    ensures { result ≡ (nat_le LEAST cost && nat_le cost MOST) }
{
    LEAST_FAULT_COST <= cost && cost <= FAULT_COST
}

/// A statement and the number of its line, counted from 1.
#[derive(Debug, Drop)]
pub struct NumberedStatement {
    pub line: usize,
    pub statement: Statement,
}

/// The statements of a text in written order, but for the version that it may begin with, and how many lines it has, those without a token included.
#[derive(Debug, Drop)]
pub struct ModelText {
    pub statements: Seq<NumberedStatement>,
    pub lines: usize,
}
