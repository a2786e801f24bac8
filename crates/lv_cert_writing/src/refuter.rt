//! The question whether what a block states can be true, asked of one solver for all blocks.
#![tactic(auto)]

ghost use Rattle.std.specs.Prelude.{◌≡◌, ◌<◌, ◌^◌, ℕ, List, All, IfOk, IsTrue, length};
ghost use Rattle.lv_base.specs.declared.ids.Lit.{Lit};
ghost use Rattle.lv_model.specs.declared.plant.Plant.{Plant};
ghost use Rattle.lv_clauses.specs.Literals.{is_clause};
ghost use Rattle.lv_system.specs.Numbering.{IsOver};
ghost use Rattle.lv_system.specs.System.{IsSystemOf, SystemValue};
ghost use Rattle.lv_cert_writing.specs.BlockNumbers.{HaveNumbers, HaveUnits};
ghost use Rattle.lv_cert_writing.specs.StatedClauses.{IsShared};
ghost use Rattle.lv_cert_writing.specs.Refuting.{Answers, Tells};

use crate::assumed::Assumed;
use crate::block_lines::lines_of;
use crate::block_solver::BlockSolver;
use crate::derivation::Derivation;
use crate::needed::needed_steps;
use lv_base::{Lit, Seq};
use lv_sat::{Answer, Solver};
use lv_system::StepSystem;
use std::alloc::{AllocError, Global};
use std::marker::Model;

/// Whether what a block states can be true.
#[derive(Debug, Drop)]
pub enum Refuted {
    /// It can: a value for each boolean.
    Values(Seq<bool>),
    /// It can't: the lines of the block, of which the last is the empty clause.
    Lines(Seq<Derivation>),
}

/// What the solver answers under assumptions, in the numbers of a block that has so many clauses before its lines, few
/// enough for the lines to have numbers too.
fn answer(
    alloc: Global,
    solver: &mut Solver,
    numbers: &[u128],
    assumed: &Assumed,
    before: u128,
) -> Result<Refuted, AllocError>
    requires few { before < 2 ^ 127 }
    requires clause { IsTrue (is_clause solver.old.set.bools assumed.now.lits.items) }
    ensures told { (clauses : List (List Lit)) → length clauses ≡ before → HaveNumbers solver.old.set.slots clauses numbers.now → HaveUnits clauses assumed.now.lits.items assumed.now.numbers.items →
        IfOk result (Answers solver.old.set clauses assumed.now.lits.items) }
    ensures kept { solver.new.set ≡ solver.old.set }
{
    match solver.solve(assumed.lits.as_slice())? {
        Answer::Sat { values, log: _ } => Ok(Refuted::Values(values)),
        Answer::Unsat { core: _, log } => {
            let needed = needed_steps(alloc, &log)?;
            let units = assumed.numbers.as_slice();
            let lines = lines_of(alloc, numbers, units, before, &log, needed.as_slice())?;
            Ok(Refuted::Lines(lines))
        }
    }
}

/// The answer for a block that states these clauses.
fn ask(
    alloc: Global,
    system: &StepSystem,
    block: &mut BlockSolver,
    own: &[Seq<Lit>],
) -> Result<Refuted, AllocError>
    requires own { All (IsOver system.now.set.bools) own.now }
    requires shared { IsShared system.now block.old.solver.set block.old.added.items block.old.numbers.items }
    ensures told { (plant : Plant) → IsSystemOf plant system.now → IfOk result (Tells system.now own.now) }
    ensures shared { IsShared system.now block.new.solver.set block.new.added.items block.new.numbers.items }
{
    let models = system.clause_total();
    block.clear();
    let assumed = block.state_all(alloc, models, own)?;
    let before = u128::from(models) + own.len() as u128;
    answer(
        alloc,
        &mut block.solver,
        block.numbers.as_slice(),
        &assumed,
        before,
    )
}

/// A model's system with a solver for all blocks, seen by contracts as the system.
#[derive(Drop)]
pub struct Refuter<'a> {
    alloc: Global,
    system: &'a StepSystem,
    block: BlockSolver,
}

impl<'a> Model for Refuter<'a> {
    ghost use Rattle.lv_system.specs.System.{SystemValue};
    ghost use Rattle.lv_cert_writing.specs.StatedClauses.{IsShared};

    ghost Value = { SystemValue };

    ghost view = { λ r. r.system.now };

    ghost invariant = { λ r. IsShared r.system.now r.block.solver.set r.block.added.items r.block.numbers.items };
}

impl<'a> Refuter<'a> {
    /// Copies the system's clauses into the solver, and keeps their numbers.
    pub fn new(alloc: Global, system: &'a StepSystem) -> Result<Refuter<'a>, AllocError>
        ensures { IfOk result (λ r. r ≡ system.now) }
    {
        Ok(Refuter {
            alloc,
            system,
            block: BlockSolver::new(alloc, system)?,
        })
    }

    /// Whether the clauses that a block states, over the system's booleans, can be true together with those of the system of
    /// a plant: values, or else the lines of the block. Those of one literal are assumed; what the solver found out of the
    /// first of them it need not find out anew where the next block states the same first.
    pub fn refute(&mut self, own: &[Seq<Lit>]) -> Result<Refuted, AllocError>
        requires { All (IsOver self.old.set.bools) own.now }
        ensures told { (plant : Plant) → IsSystemOf plant self.old → IfOk result (Tells self.old own.now) }
        ensures kept { self.new ≡ self.old }
    {
        ask(self.alloc, self.system, &mut self.block, own)
    }
}
