//! A model as far as its statements go, and what one more statement adds to it.
#![tactic(auto)]

ghost use Rattle.std.specs.Prelude.{◌≡◌};

use lv_base::{Condition, Name, Range, Seq};
use lv_model::{Domain, ModeFormula, Move, Part, Price, Variable};
use lv_model_draft::{NamedPlant, NamedType};
use lv_reader::ModelCode;
use std::alloc::{AllocError, AllocFailed};

/// A model as far as its statements go. What its lists say of the parts' variables and of clauses is kept beside them,
/// so that no statement goes over the lists again.
#[derive(Drop)]
pub struct Draft {
    /// The lists so far, with what is found in them by name.
    pub plant: NamedPlant,
    /// What the variables of the parts range over.
    pub ranges: Seq<Range>,
    /// How many values they have, where clauses are counted.
    pub sizes: Seq<u32>,
    /// How many clauses a part of each type adds.
    pub shares: Seq<u32>,
    /// How many clauses the parts and the laws of the system come to.
    pub clauses: u32,
    /// The type that has begun and not ended.
    pub current: Option<TypeDraft>,
    /// Whether a statement stands already.
    pub has_begun: bool,
}

/// A type as far as its lines go. Its moves stand in their order, the stay of each mode among them.
#[derive(Drop)]
pub struct TypeDraft {
    pub lists: NamedType,
    /// How many values the variables of its formulas have, where clauses are counted: the mode first.
    pub sizes: Seq<u32>,
    /// How many of its lines are steps or faults.
    pub lines: u32,
}

/// What a statement adds, its names given what they stand for.
#[derive(Drop)]
pub enum Entry {
    /// The model's name.
    Named(Name),
    NewDomain(Domain),
    /// A type of that name begins.
    TypeBegins(Name),
    NewVariable(Variable),
    /// A mode's name and its number.
    NewMode(Name, u32),
    TypeLaw(Condition),
    /// A formula once for each of the modes that its line names.
    ModeLaws(Seq<ModeFormula>),
    /// The number of a step or fault line that gives one move, and that move.
    NewMove(u32, Move),
    /// The number of a fault line that gives any number of moves, and these, in their order.
    NewMoves(u32, Seq<Move>),
    TypeEnds,
    NewPart(Part),
    SystemLaw(Condition),
    NewPrice(Price),
}

/// Why a statement adds nothing.
#[derive(Clone, Copy, Debug, PartialEq, Eq)]
pub enum CheckFault {
    Refused(ModelCode),
    /// Memory ran out. No clause says when.
    Memory,
}

impl From<AllocError> for CheckFault {
    ghost use Rattle.lv_model_entries.specs.declared.draft.CheckFault.TheVariants.{Memory};

    ghost from_gives = { λ _ fault. fault ≡ Memory };

    fn from(_failed: AllocError) -> CheckFault {
        CheckFault::Memory
    }
}

impl<T: Drop> From<AllocFailed<T>> for CheckFault {
    ghost use Rattle.lv_model_entries.specs.declared.draft.CheckFault.TheVariants.{Memory};

    ghost from_gives = { λ _ fault. fault ≡ Memory };

    fn from(_failed: AllocFailed<T>) -> CheckFault {
        CheckFault::Memory
    }
}
