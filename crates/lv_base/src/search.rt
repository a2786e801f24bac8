//! The values of a search for the first candidates: a candidate picks one choice at each slot, a conflict is a list of
//! choices that can't stand together. In a diagnosis a slot is a part and a choice is a move of its type; in a
//! recovery a slot is a control and a choice is a value.
#![tactic(auto)]

ghost use Rattle.std.specs.Prelude.{◌≡◌, ◌<◌, ◌^◌, IfOk, IsTrue, length};
ghost use Rattle.lv_base.specs.Choices.{contains_all, picks, slots_rise, pairs_of};

use super::seq::Seq;
use std::alloc::{AllocError, Global};
use std::marker::Model;

/// One choice at one slot, both counted from 0.
#[derive(Clone, Copy, Debug, PartialEq, Eq)]
pub struct Pair {
    pub slot: u32,
    pub choice: u32,
}

/// Choices that can't stand together, at slots that rise. An empty conflict is one that every candidate contains.
#[derive(Debug, Drop)]
pub struct Conflict {
    pairs: Seq<Pair>,
}

impl Model for Conflict {
    ghost use Rattle.std.specs.Prelude.{List, IsTrue};
    ghost use Rattle.lv_base.specs.declared.search.Pair.{Pair};
    ghost use Rattle.lv_base.specs.Choices.{slots_rise};

    ghost Value = { List Pair };

    ghost view = { λ c. c.pairs };

    ghost invariant = { λ c. IsTrue (slots_rise c.pairs) };
}

impl Conflict {
    /// The conflict of these pairs, which stand in the order of their slots.
    pub fn from_pairs(alloc: Global, pairs: &[Pair]) -> Result<Conflict, AllocError>
        requires { IsTrue (slots_rise pairs.now) }
        ensures { IfOk result (λ c. c ≡ pairs.now) }
    {
        Ok(Conflict {
            pairs: Seq::from_slice(alloc, pairs)?,
        })
    }

    /// Its pairs, in the order of their slots.
    pub fn pairs(&self) -> &[Pair]
        ensures pairs { result.now ≡ self.now }
        ensures rising { IsTrue (slots_rise result.now) }
    {
        self.pairs.as_slice()
    }
}

/// A tracked state's place in the list of tracked states (in a recovery 0), and one choice for each slot.
#[derive(Debug, Drop)]
pub struct Candidate {
    pub source: u32,
    pub choices: Seq<u32>,
}

impl Candidate {
    pub fn new(alloc: Global, source: u32, choices: &[u32]) -> Result<Candidate, AllocError>
        ensures { IfOk result (λ c. c ≡ record { source = source; choices = choices.now }) }
    {
        Ok(Candidate {
            source,
            choices: Seq::from_slice(alloc, choices)?,
        })
    }
}

/// Whether the choices have each of the pairs. Takes no memory.
pub fn contains(choices: &[u32], pairs: &[Pair]) -> bool
    ensures { result ≡ contains_all choices.now pairs.now }
{
    pairs.iter().all(|pair| has_pair(choices, *pair))
}

/// Whether the choices have this choice at its slot. Takes no memory.
pub fn has_pair(choices: &[u32], pair: Pair) -> bool
    ensures { result ≡ picks choices.now pair }
{
    (pair.slot as usize) < choices.len() && choices[pair.slot as usize] == pair.choice
}

/// All choices as pairs, in the order of their slots.
pub fn pairs_of(alloc: Global, choices: &[u32]) -> Result<Vec<Pair>, AllocError>
    requires { length choices.now < 2 ^ 32 }
    ensures { IfOk result (λ out. out.items ≡ pairs_of choices.now) }
{
    let mut out = Vec::with_capacity(alloc, choices.len())?;
    for (slot, choice) in choices.iter().enumerate() {
        out.push(Pair {
            slot: slot as u32,
            choice: *choice,
        })?;
    }
    Ok(out)
}
