//! The system of a model: its clauses in a set, and the literals of its values and moves.
#![tactic(auto)]

ghost use Rattle.std.specs.Prelude.{◌≡◌, ◌<◌, ◌≤◌, ◌-◌, true, IfOk, IsTrue, IsSome, Some, length, slice_get};
ghost use Rattle.lv_clauses.specs.ClauseMap.{clause_at, satisfies};
ghost use Rattle.lv_compile.specs.Booleans.{value_literal};
ghost use Rattle.lv_compile.specs.FormulaClauses.{size_of};
ghost use Rattle.lv_base.specs.Tree.{tree_of};
ghost use Rattle.lv_system.specs.Decoding.{IsDecoded};
ghost use Rattle.lv_system.specs.Goals.{goal_speaks, goal_clauses};
ghost use Rattle.lv_system.specs.Choices.{move_count, choice_literal};
ghost use Rattle.lv_system.specs.System.{IsSystemOf, choices_of, booleans_at};

use crate::choices::ChoiceBools;
use crate::decoding::{moves_numbered, numbers_of, values_numbered};
use crate::moment::Moment;
use crate::numbered::number_all;
use crate::step_pair::StepPair;
use lv_base::{ClauseId, Formula, Lit, MoveId, PartId, Seq, ValId, VarId};
use lv_clauses::ClauseSet;
use lv_compile::cleaning::cleaned;
use lv_compile::formula::formula_clauses;
use lv_compile::plant_clauses::{copies_of, model_clauses, sum_of};
use lv_compile::value_bools::ValueBools;
use lv_model::Model;
use std::alloc::{AllocError, Global};
use std::marker;

/// The clauses of a model, each under its number, and the numbering of the booleans.
#[derive(Drop)]
pub struct StepSystem {
    set: ClauseSet,
    ids: Vec<ClauseId>,
    before: ValueBools,
    after: ValueBools,
    choices: ChoiceBools,
}

impl marker::Model for StepSystem {
    ghost use Rattle.lv_system.specs.System.{SystemValue, IsKept};

    ghost Value = { SystemValue };

    ghost view = { λ s. record { set = s.set; ids = s.ids.items; before = s.before; after = s.after; first_choice = s.choices.first; counts = s.choices.counts } };

    ghost invariant = { λ s. IsKept s.set.slots s.ids.items };
}

/// The system of the model.
pub fn compile(alloc: Global, model: &Model) -> Result<StepSystem, AllocError>
    ensures { IfOk result (λ s. IsSystemOf model.now s) }
{
    let copies = copies_of(alloc, model.plant())?;
    let counts = model.move_counts(alloc)?;
    let bools = copies.first_choice + sum_of(counts.as_slice());
    let choices = ChoiceBools::new(alloc, copies.first_choice, counts)?;
    let clauses = model_clauses(alloc, model)?;
    let numbered = number_all(alloc, bools, clauses.as_slice())?;
    Ok(StepSystem {
        set: numbered.set,
        ids: numbered.ids,
        before: copies.before,
        after: copies.after,
        choices,
    })
}

impl StepSystem {
    /// The set of the clauses.
    pub fn clauses(&self) -> &ClauseSet
        ensures { result.now ≡ self.now.set }
    {
        &self.set
    }

    /// How many clauses there are.
    pub fn clause_total(&self) -> u32
        ensures { result ≡ length self.now.ids }
    {
        self.ids.len() as u32
    }

    /// The set's number for the `n`-th clause, counted from 1.
    pub fn clause_id(&self, n: u32) -> ClauseId
        requires positive { 0 < n }
        requires within { n ≤ length self.now.ids }
        ensures is { slice_get self.now.ids (n - 1) ≡ Some result }
        ensures present { IsSome (clause_at self.now.set.slots result.0) }
    {
        self.ids[n as usize - 1]
    }

    /// The booleans of the variables before a step or after it.
    pub fn bools_at(&self, moment: Moment) -> &ValueBools
        ensures { result.now ≡ booleans_at self.now moment }
    {
        match moment {
            Moment::Now => &self.before,
            Moment::Next => &self.after,
        }
    }

    /// The booleans of the choices.
    pub fn choices(&self) -> &ChoiceBools
        ensures { result.now ≡ choices_of self.now }
    {
        &self.choices
    }

    /// The literal that a variable has a value before a step or after it. Takes no memory.
    pub fn lit_of(&self, moment: Moment, var: VarId, val: ValId) -> Lit
        requires { val.0 < size_of (booleans_at self.now moment) var.0 }
        ensures { result ≡ value_literal (booleans_at self.now moment) var.0 val.0 true }
    {
        self.bools_at(moment).literal(var.0 as usize, val.0, true)
    }

    /// The literal that a part makes a move. Takes no memory.
    pub fn choice_lit(&self, part: PartId, mv: MoveId) -> Lit
        requires { mv.0 < move_count (choices_of self.now) part.0 }
        ensures { result ≡ choice_literal (choices_of self.now) part.0 mv.0 true }
    {
        self.choices.literal(part, mv, true)
    }

    /// The step that truth values encode, one for each boolean, which make every clause true.
    pub fn decode(&self, alloc: Global, values: &[bool]) -> Result<StepPair, AllocError>
        requires whole { length values.now ≡ self.now.set.bools }
        requires satisfied { IsTrue (satisfies values.now self.now.set.slots) }
        ensures { IfOk result (λ p. IsDecoded self.now values.now p.now p.next p.moves) }
    {
        let now = numbers_of(alloc, &self.before, values)?;
        let next = numbers_of(alloc, &self.after, values)?;
        let moves = numbers_of(alloc, self.choices.as_values(), values)?;
        Ok(StepPair {
            now: Seq::from_vec(values_numbered(alloc, now.as_slice())?),
            next: Seq::from_vec(values_numbered(alloc, next.as_slice())?),
            moves: Seq::from_vec(moves_numbered(alloc, moves.as_slice())?),
        })
    }

    /// Clauses that say of what is after a step that a formula is true, or, in the other sign, that it is false.
    pub fn goal_clauses(
        &self,
        alloc: Global,
        goal: &Formula,
        sign: bool,
    ) -> Result<Vec<Seq<Lit>>, AllocError>
        requires { IsTrue (goal_speaks self.now (tree_of goal.now)) }
        ensures { IfOk result (λ out. out.items ≡ goal_clauses self.now sign (tree_of goal.now)) }
    {
        let raw = formula_clauses(alloc, &self.after, 0, goal, sign)?;
        cleaned(alloc, raw)
    }
}
