//! One solver for all blocks of a certificate. It keeps the clauses of a system; what a block states beside them is assumed,
//! or where it is no literal alone added, and taken away for the next block.
#![tactic(auto)]

ghost use Rattle.std.specs.Prelude.{◌≡◌, ◌+◌, ◌++◌, ◌∷◌, [], ℕ, List, All, IfOk, OnOk, length};
ghost use Rattle.lv_base.specs.declared.ids.Lit.{Lit};
ghost use Rattle.lv_clauses.specs.ClauseMap.{ClauseMap};
ghost use Rattle.lv_system.specs.Numbering.{IsOver};
ghost use Rattle.lv_system.specs.System.{SystemValue};
ghost use Rattle.lv_cert_writing.specs.BlockNumbers.{AreSystemNumbers};
ghost use Rattle.lv_cert_writing.specs.StatedClauses.{IsShared, AddsOne, AreStated};

use crate::assumed::Assumed;
use crate::block_numbers::{keep, numbers_of};
use lv_base::{ClauseId, Lit, Seq};
use lv_sat::Solver;
use lv_system::StepSystem;
use std::alloc::{AllocError, Global};

/// A solver of a system's clauses and of those added for a block, the places of the latter, and at the place of each clause
/// the number that it has in the block.
#[derive(Drop)]
pub struct BlockSolver {
    pub solver: Solver,
    pub added: Vec<ClauseId>,
    pub numbers: Vec<u128>,
}

impl BlockSolver {
    /// A solver of the system's clauses alone.
    pub fn new(alloc: Global, system: &StepSystem) -> Result<BlockSolver, AllocError>
        ensures { IfOk result (λ b. IsShared system.now b.solver.set b.added.items b.numbers.items) }
    {
        Ok(BlockSolver {
            added: Vec::new(alloc),
            numbers: numbers_of(alloc, system)?,
            solver: Solver::new(alloc, system.clauses())?,
        })
    }

    /// Takes the clauses away that were added.
    pub fn clear(&mut self)
        ensures empty { self.new.added.items ≡ [] }
        ensures shared { (s : SystemValue) → IsShared s self.old.solver.set self.old.added.items self.old.numbers.items
            → IsShared s self.new.solver.set self.new.added.items self.new.numbers.items }
    {
        while let Some(id) = self.added.pop() {
            if self.solver.clauses().contains(id) {
                self.solver.remove(id);
            }
        }
    }

    /// Adds a clause that has this number in the block.
    fn add(&mut self, lits: &[Lit], number: u128) -> Result<(), AllocError>
        requires { IsOver self.old.solver.set.bools lits.now }
        ensures added { OnOk result (AddsOne self.old.solver.set self.new.solver.set self.old.numbers.items self.new.numbers.items lits.now number) }
        ensures shared { (s : SystemValue) → IsShared s self.old.solver.set self.old.added.items self.old.numbers.items
            → IsShared s self.new.solver.set self.new.added.items self.new.numbers.items }
    {
        let id = self.solver.add(lits)?;
        match self.added.push(id) {
            Ok(()) => keep(&mut self.numbers, id.0, number),
            Err(error) => {
                self.solver.remove(id);
                Err(error.into())
            }
        }
    }

    /// Assumes what the clause of this number states, where it is of one literal of which nothing is assumed, or adds it.
    fn state(
        &mut self,
        assumed: &mut Assumed,
        clause: &[Lit],
        number: u128,
    ) -> Result<(), AllocError>
        requires over { IsOver self.old.solver.set.bools clause.now }
        requires whole { length assumed.old.numbers.items ≡ self.old.solver.set.bools }
        ensures stated { OnOk result ((first : ClauseMap) (kept : List ℕ) (models : ℕ) (own : List (List Lit)) → number ≡ models + length own + 1
            → AreStated first kept models own self.old.solver.set self.old.numbers.items assumed.old.lits.items assumed.old.numbers.items
            → AreStated first kept models (own ++ clause.now ∷ []) self.new.solver.set self.new.numbers.items assumed.new.lits.items assumed.new.numbers.items) }
        ensures shared { (s : SystemValue) → IsShared s self.old.solver.set self.old.added.items self.old.numbers.items
            → IsShared s self.new.solver.set self.new.added.items self.new.numbers.items }
    {
        if clause.len() == 1 && assumed.is_free(clause[0]) {
            return assumed.assume(clause[0], number);
        }
        self.add(clause, number)
    }

    /// States these clauses, whose numbers come behind those of so many of the system.
    pub fn state_all(
        &mut self,
        alloc: Global,
        models: u32,
        own: &[Seq<Lit>],
    ) -> Result<Assumed, AllocError>
        requires { All (IsOver self.old.solver.set.bools) own.now }
        ensures stated { IfOk result (λ assumed. AreStated self.old.solver.set self.old.numbers.items models own.now self.new.solver.set self.new.numbers.items assumed.lits.items assumed.numbers.items) }
        ensures shared { (s : SystemValue) → IsShared s self.old.solver.set self.old.added.items self.old.numbers.items
            → IsShared s self.new.solver.set self.new.added.items self.new.numbers.items }
    {
        let mut assumed = Assumed::new(alloc, self.solver.clauses().bools())?;
        for (at, clause) in own.iter().enumerate() {
            let number = u128::from(models) + at as u128 + 1;
            self.state(&mut assumed, clause.as_slice(), number)?;
        }
        Ok(assumed)
    }
}
