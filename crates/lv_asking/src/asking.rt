//! Which choices can be made together, as a solver tells, and of those that can't the reason, where it is asked only about
//! choices that its last refutation needed.
#![tactic(auto)]

ghost use Rattle.std.specs.Prelude.{◌≡◌, ◌+◌, ◌<◌, ◌≤◌, ◌++◌, Bool, true, List, All, IfOk};
ghost use Rattle.std.specs.List.{sum};
ghost use Rattle.lv_base.specs.declared.search.Pair.{Pair};
ghost use Rattle.lv_clauses.specs.Literals.{distinct, is_clause};
ghost use Rattle.lv_asking.specs.Literals.{pair_literals};
ghost use Rattle.lv_asking.specs.Refutation.{Refutes};
ghost use Rattle.lv_asking.specs.Asking.{IsPartial, AskTheSame, Decides, beside, IsFresh, IsReason};

use crate::lemma_solver::LemmaSolver;
use crate::literals::{first_of, push_pairs};
use crate::reducing::{Refuter, reduced};
use crate::refutation::{Solutions, refute};
use lv_base::{Conflict, Lit, MoveId, Pair, PartId};
use lv_clauses::{ClauseSet, Marks, is_marked};
use lv_sat::Effort;
use lv_system::ChoiceBools;
use std::alloc::{AllocError, Global};
use std::marker::Model;

/// A solver, the numbering of the choices, what is assumed each time, and the last values that the solver found. Contracts
/// see its clauses, the numbering and what is assumed; what it says is said of any meaning that these decide.
#[derive(Drop)]
pub struct Asking {
    alloc: Global,
    choices: ChoiceBools,
    assumed: Vec<Lit>,
    solutions: Solutions,
    solver: LemmaSolver,
}

impl Model for Asking {
    ghost use Rattle.lv_asking.specs.Asking.{AskingValue, IsAsking};

    ghost Value = { AskingValue };

    ghost view = { λ a. record { set = a.solver; choices = a.choices; assumed = a.assumed.items } };

    ghost invariant = { λ a. IsAsking a.solver a.choices a.assumed.items a.solutions };
}

impl Asking {
    /// What is asked by these clauses and literals, which are of distinct booleans before those of the choices.
    pub fn new(
        alloc: Global,
        set: &ClauseSet,
        choices: ChoiceBools,
        assumed: Vec<Lit>,
    ) -> Result<Asking, AllocError>
        requires clause { is_clause choices.first assumed.items ≡ true }
        requires fit { choices.first + sum choices.counts ≤ set.now.bools }
        ensures { IfOk result (λ a. AskTheSame (record { set = set.now; choices = choices; assumed = assumed.items }) a) }
    {
        Ok(Asking::of(alloc, LemmaSolver::new(alloc, set)?, choices, assumed))
    }

    /// What is asked of this solver, with these literals assumed, which are of distinct booleans before those of the choices.
    pub fn of(alloc: Global, solver: LemmaSolver, choices: ChoiceBools, assumed: Vec<Lit>) -> Asking
        requires clause { is_clause choices.first assumed.items ≡ true }
        requires fit { choices.first + sum choices.counts ≤ solver.bools }
        ensures { result ≡ record { set = solver; choices = choices; assumed = assumed.items } }
    {
        Asking {
            alloc,
            choices,
            assumed,
            solutions: Solutions::new(alloc),
            solver,
        }
    }

    /// The solver alone, for another question.
    pub fn into_solver(self) -> LemmaSolver
        ensures { result ≡ self.set }
    {
        self.solver
    }

    /// Asks for the pairs, of which so many are kept whatever is left out, and more literals, beside what is assumed: nothing
    /// where they can be true together, else marks of those of them that already can't.
    fn ask(
        &mut self,
        pairs: &[Pair],
        kept: usize,
        more: &[Lit],
    ) -> Result<Option<Marks>, AllocError>
        requires partial { IsPartial self.old.choices.counts pairs.now }
        requires more { All (IsFresh self.old) more.now }
        requires distinct { distinct more.now ≡ true }
        ensures answer { IfOk result (λ core. Refutes self.old.set (pair_literals self.old.choices pairs.now ++ more.now) self.old.assumed core) }
        ensures same { self.new ≡ self.old }
    {
        let mut chosen = Vec::with_capacity(self.alloc, pairs.len())?;
        push_pairs(&mut chosen, &self.choices, pairs)?;
        chosen.extend_from_slice(more)?;
        refute(
            self.alloc,
            &mut self.solver,
            &mut self.solutions,
            chosen.as_slice(),
            kept,
            self.assumed.as_slice(),
        )
    }

    /// Whether the pairs are possible together.
    pub fn possible(&mut self, pairs: &[Pair]) -> Result<bool, AllocError>
        requires { IsPartial self.old.choices.counts pairs.now }
        ensures answer { (possible : List Pair → Bool) → Decides self.old possible → IfOk result (λ answer. answer ≡ possible pairs.now) }
        ensures same { self.new ≡ self.old }
    {
        Ok(self.refuted(pairs, 0)?.is_none())
    }

    /// Whether the pairs are possible together where this literal is true too, of a boolean before those of the choices.
    /// What is assumed may say it already, or contradict it.
    pub fn possible_beside(&mut self, pairs: &[Pair], lit: Lit) -> Result<bool, AllocError>
        requires partial { IsPartial self.old.choices.counts pairs.now }
        requires below { lit.var.0 < self.old.choices.first }
        ensures answer { (possible : List Pair → Bool) → Decides (beside lit self.old) possible → IfOk result (λ answer. answer ≡ possible pairs.now) }
        ensures same { self.new ≡ self.old }
    {
        match first_of(self.assumed.as_slice(), lit.var).copied() {
            None => Ok(self.ask(pairs, 0, &[lit])?.is_none()),
            Some(assumed) => {
                if assumed.sign == lit.sign {
                    self.possible(pairs)
                } else {
                    Ok(false)
                }
            }
        }
    }

    /// What its solver did so far. Takes no memory.
    pub fn effort(&self) -> Effort {
        self.solver.effort()
    }

    /// Nothing where the pairs are possible together, else their reason: what is left of them when each that isn't needed is
    /// left out, from the first on.
    pub fn reason(&mut self, pairs: &[Pair]) -> Result<Option<Conflict>, AllocError>
        requires { IsPartial self.old.choices.counts pairs.now }
        ensures reason { (possible : List Pair → Bool) → Decides self.old possible → IfOk result (IsReason possible pairs.now) }
        ensures same { self.new ≡ self.old }
    {
        match self.refuted(pairs, 0)? {
            None => Ok(None),
            Some(core) => {
                let left = reduced(self.alloc, self, pairs, Some(core))?;
                Ok(Some(Conflict::from_pairs(self.alloc, left.as_slice())?))
            }
        }
    }
}

impl Refuter for Asking {
    ghost use Rattle.lv_clauses.specs.Marks.{is_marked};
    ghost use Rattle.lv_asking.specs.Literals.{pair_literal};
    ghost use Rattle.lv_asking.specs.Lawful.{partial_without, decided_is_monotone};

    ghost fits = { λ a pairs. IsPartial a.choices.counts pairs };

    ghost tells = { λ a possible. Decides a possible };

    ghost needs = { λ a marks p. is_marked marks (pair_literal a.choices p) };

    ghost fits_without = { λ a front p back partial. partial_without a.choices.counts front p back partial };

    ghost is_monotone = { λ a possible decides. decided_is_monotone a possible decides };

    fn refuted(&mut self, pairs: &[Pair], kept: usize) -> Result<Option<Marks>, AllocError> {
        self.ask(pairs, kept, &[])
    }

    fn is_needed(&self, core: &Marks, pair: Pair) -> bool {
        let literal = self
            .choices
            .literal(PartId(pair.slot), MoveId(pair.choice), true);
        is_marked(core.as_slice(), literal)
    }
}
