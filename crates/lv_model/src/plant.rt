//! The plain lists of a plant, in written order.
#![tactic(auto)]

use lv_base::{Class, Condition, Cost, Name, Seq, ValId, VarId};

/// A finite domain: its values in written order.
#[derive(Debug, Drop)]
pub struct Domain {
    pub name: Name,
    pub values: Seq<Name>,
}

/// A variable of a type, over the domain of this place in the plant's list.
#[derive(Debug, Drop)]
pub struct Variable {
    pub name: Name,
    pub class: Class,
    pub domain: u32,
}

/// What holds of a part while it is in the mode.
#[derive(Debug, Drop)]
pub struct ModeFormula {
    pub mode: ValId,
    pub condition: Condition,
}

/// What a move is: a step is taken where its guard is true, a stay where no step is, a fault where it happens.
#[derive(Clone, Copy, Debug, PartialEq, Eq)]
pub enum MoveKind {
    Step,
    Stay,
    Fault,
}

/// A move of a type from one mode to another. A step has a guard, a stay has none, a fault may have one. `line` is the
/// number, from 1, of the move's line among the step and fault lines of its type; a stay has 0. Only faults cost.
#[derive(Debug, Drop)]
pub struct Move {
    pub kind: MoveKind,
    pub source: ValId,
    pub target: ValId,
    pub guard: Option<Condition>,
    pub cost: Cost,
    pub line: u32,
}

/// A component type. In its formulas variable 0 is the mode, and variable `v + 1` is `variables[v]`. Mode formulas stand
/// as they are written, whatever their modes. The moves are those of the modes in written order: of each mode its steps,
/// its stay, its faults.
#[derive(Debug, Drop)]
pub struct ComponentType {
    pub name: Name,
    pub variables: Seq<Variable>,
    pub modes: Seq<Name>,
    pub laws: Seq<Condition>,
    pub formulas: Seq<ModeFormula>,
    pub moves: Seq<Move>,
}

/// An instance of the type at place `kind`, that starts in mode `start`. Its variables begin at `first` with its mode.
#[derive(Debug, Drop)]
pub struct Part {
    pub name: Name,
    pub kind: u32,
    pub start: ValId,
    pub first: VarId,
}

/// What it costs to command a control to a value that isn't its resting one.
#[derive(Clone, Copy, Debug)]
pub struct Price {
    pub control: VarId,
    pub value: ValId,
    pub cost: Cost,
}

/// All lists of a plant. `laws` are those of the system; their variables are counted over all parts.
#[derive(Debug, Drop)]
pub struct Plant {
    pub name: Name,
    pub domains: Seq<Domain>,
    pub types: Seq<ComponentType>,
    pub parts: Seq<Part>,
    pub laws: Seq<Condition>,
    pub prices: Seq<Price>,
}
