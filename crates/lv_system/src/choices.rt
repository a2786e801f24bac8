//! The booleans of the choices: for each part, one for each move that it may make.
#![tactic(auto)]

ghost use Rattle.std.specs.Prelude.{◌≡◌, ◌+◌, ◌<◌, ◌^◌, IfOk, length};
ghost use Rattle.std.specs.List.{sum};
ghost use Rattle.lv_system.specs.Choices.{move_count, choice_literal};

use lv_base::{Lit, MoveId, PartId};
use lv_compile::value_bools::ValueBools;
use std::alloc::{AllocError, Global};
use std::marker::Model;

/// So many booleans of each part, one for each of its moves, from a first one on. Kept as the booleans of variables are:
/// what a part chooses is a value like any other.
#[derive(Drop)]
pub struct ChoiceBools {
    bools: ValueBools,
}

impl Model for ChoiceBools {
    ghost use Rattle.lv_system.specs.Choices.{Choices};

    ghost Value = { Choices };

    ghost view = { λ c. record { first = c.bools.first; counts = c.bools.sizes } };
}

impl ChoiceBools {
    /// The booleans of parts that have so many moves each, the first of which has the number `first`.
    pub fn new(alloc: Global, first: u32, counts: Vec<usize>) -> Result<ChoiceBools, AllocError>
        requires { first + sum counts.items < 2 ^ 32 }
        ensures { IfOk result (λ c. c ≡ record { first = first; counts = counts.items }) }
    {
        Ok(ChoiceBools {
            bools: ValueBools::new(alloc, first, counts)?,
        })
    }

    /// The same booleans once more.
    pub fn copied(&self, alloc: Global) -> Result<ChoiceBools, AllocError>
        ensures { IfOk result (λ c. c ≡ self.now) }
    {
        Ok(ChoiceBools {
            bools: self.bools.copied(alloc)?,
        })
    }

    /// The same booleans, where a part counts as a variable and its moves as values.
    pub fn as_values(&self) -> &ValueBools
        ensures { result.now ≡ record { sizes = self.now.counts; first = self.now.first } }
    {
        &self.bools
    }

    /// How many moves each part has.
    pub fn counts(&self) -> &[usize]
        ensures { result.now ≡ self.now.counts }
    {
        self.bools.sizes()
    }

    /// How many moves a part has.
    pub fn moves(&self, part: PartId) -> u32
        requires { part.0 < length self.now.counts }
        ensures { result ≡ move_count self.now part.0 }
    {
        self.bools.size(part.0 as usize)
    }

    /// The literal that a part makes a move, or that it doesn't. Takes no memory.
    pub fn literal(&self, part: PartId, mv: MoveId, sign: bool) -> Lit
        requires { mv.0 < move_count self.now part.0 }
        ensures { result ≡ choice_literal self.now part.0 mv.0 sign }
    {
        self.bools.literal(part.0 as usize, mv.0, sign)
    }
}
