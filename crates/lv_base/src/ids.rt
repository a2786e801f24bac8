//! Numbers that name a thing of the model or of its clauses. Each is a type of its own, so that one can't be taken
//! for another.
#![tactic(auto)]

/// A variable of the model, counted from 0 over all parts in written order: of each part its mode, then its own
/// variables.
#[derive(Clone, Copy, Debug, PartialEq, Eq)]
pub struct VarId(pub u32);

/// A value, counted from 0 in the written order of its domain. A value of a mode variable is the number of a mode.
#[derive(Clone, Copy, Debug, PartialEq, Eq)]
pub struct ValId(pub u32);

/// A part of the model, counted from 0 in written order.
#[derive(Clone, Copy, Debug, PartialEq, Eq)]
pub struct PartId(pub u32);

/// A move of a component type, counted from 0 over its modes: of each mode its steps, its stay, its faults.
#[derive(Clone, Copy, Debug, PartialEq, Eq)]
pub struct MoveId(pub u32);

/// A boolean of a set of clauses, counted from 0.
#[derive(Clone, Copy, Debug, Default, PartialEq, Eq)]
pub struct BoolId(pub u32);

/// A clause of a clause arena: the place that holds it.
#[derive(Clone, Copy, Debug, PartialEq, Eq)]
pub struct ClauseId(pub usize);

/// A literal: a boolean that is to be true (`sign`) or false.
#[derive(Clone, Copy, Debug, Default, PartialEq, Eq)]
pub struct Lit {
    pub var: BoolId,
    pub sign: bool,
}

/// What a move, a candidate or a command set costs: a whole number in place of a likelihood, so that costs add.
#[derive(Clone, Copy, Debug, PartialEq, Eq, PartialOrd, Ord)]
pub struct Cost(pub u64);
