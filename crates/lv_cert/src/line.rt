//! The lines of a certificate. Each begins with a word of its kind; behind it stand further words, mostly numbers.
#![tactic(auto)]

use lv_base::Seq;

/// What a certificate answers.
#[derive(Clone, Copy, Debug, PartialEq, Eq)]
pub enum Question {
    /// Which transitions are likeliest.
    Diagnosis,
    /// Which command set reaches the goals.
    Recovery,
}

/// The side of a transition on which a fact holds.
#[derive(Clone, Copy, Debug, PartialEq, Eq)]
pub enum Moment {
    Now,
    Next,
}

/// A literal of a clause: a boolean by its number, or its negation. The number is not 0.
#[derive(Clone, Copy, Debug, PartialEq, Eq)]
pub struct Literal {
    pub negated: bool,
    pub number: u128,
}

/// By what a zone is split: the conflict, the listed candidate, or the target of the listed candidate, of a number, or
/// the recovery.
#[derive(Clone, Copy, Debug, PartialEq, Eq)]
pub enum Evidence {
    Conflict(u128),
    Listed(u128),
    Target(u128),
    Recovery,
}

/// The first word of a line that has only numbers behind it.
#[derive(Clone, Copy, Debug, PartialEq, Eq)]
pub enum Head {
    /// How many candidates are listed at most.
    Limit,
    /// A tracked state: its cost and its modes.
    State,
    /// The values of the controls.
    Control,
    /// A listed candidate: its tracked state and its moves.
    Listed,
    /// The values of the variables before the transition.
    Now,
    /// The values of the variables after the transition.
    Next,
    /// Choices that can't be made together, which clauses behind it refute.
    Conflict,
    /// The values to which the recovery commands the controls.
    Recovery,
    /// A state from which the recovery has a nominal step.
    Good,
    /// A state and a goal that the recovery can't miss from there, which clauses behind it show.
    Proof,
    /// A state, and values of the controls under which a goal may be missed from there.
    Counter,
}

/// A line.
#[derive(Debug, Drop)]
pub enum Line {
    /// The first: what is answered.
    Certificate(Question),
    /// The model, by its name.
    Model(Seq<u8>),
    /// A goal, by its text.
    Goal(Seq<u8>),
    /// How many candidates are listed at most, of which no two lead to the same modes.
    Distinct(u128),
    /// An observable, by its number, and its value.
    Fact(Moment, u128, u128),
    /// A derived clause, and the clauses by which it follows.
    Clause(Seq<Literal>, Seq<u128>),
    /// The split of a zone, by its number.
    Split(u128, Evidence),
    /// A line of numbers.
    Numbers(Head, Seq<u128>),
    /// The last.
    End,
}
