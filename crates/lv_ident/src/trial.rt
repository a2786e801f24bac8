//! A trial of candidates under facts: the solver tells whether a candidate is possible, and of one that isn't the reason,
//! where it is asked only about choices that its last refutation needed.
#![tactic(auto)]

ghost use Rattle.std.specs.Prelude.{◌≡◌, [], IfOk, IfSome, IsTrue};
ghost use Rattle.lv_base.specs.Choices.{pairs_of};
ghost use Rattle.lv_model.specs.Lists.{sizes};
ghost use Rattle.lv_system.specs.System.{IsSystemOf};
ghost use Rattle.lv_asking.specs.Asking.{IsReason};
ghost use Rattle.lv_meaning.specs.Facts.{FactsFit, FactsInRange, HasValue};
ghost use Rattle.lv_meaning.specs.Possible.{is_possible};
ghost use Rattle.lv_meaning.specs.Candidates.{is_possible_candidate};
ghost use Rattle.lv_meaning.specs.Diagnosis.{reason_of};
ghost use Rattle.lv_ident.specs.Literals.{IsPartial};
ghost use Rattle.lv_ident.specs.Probing.{is_allowed};
ghost use Rattle.lv_ident.specs.Trial.{TellsFacts, IsSolverOf};
ghost use Rattle.lv_search_zones.specs.Moves.{is_full_choice};

use crate::literals::fact_literals;
use lv_asking::literals::each_once;
use lv_asking::{Asking, LemmaSolver};
use lv_base::{Candidate, Conflict, Pair, ValId, VarId, pairs_of};
use lv_compile::value_bools::ValueBools;
use lv_meaning::Facts;
use lv_model::Model;
use lv_sat::Effort;
use lv_search::{Trial, Tried};
use lv_system::{Moment, StepSystem};
use std::alloc::{AllocError, Global};
use std::marker;

/// A trial of the candidates of a model under facts, and the booleans of the values after the step. Contracts see the plant
/// and the facts.
#[derive(Drop)]
pub struct IdentTrial<'a> {
    alloc: Global,
    model: &'a Model,
    facts: Facts,
    after: ValueBools,
    asking: Asking,
}

impl<'a> marker::Model for IdentTrial<'a> {
    ghost use Rattle.lv_ident.specs.Trial.{TrialValue, IsTrial};
    ghost use Rattle.std.specs.Coded.{codes};
    ghost use Rattle.lv_model.specs.lv_base.contracts.formula.Condition as condition;

    ghost Value = { TrialValue };

    ghost coded = { Prim.hlevel (codes, condition.the_row.coded) };

    ghost view = { λ t. record { plant = t.model.now; facts = t.facts } };

    ghost invariant = { λ t. IsTrial t.model.now t.facts t.after t.asking };
}

/// A solver of the plant: the one at hand, or else one of its clauses.
fn solver_of(
    alloc: Global,
    model: &Model,
    system: &StepSystem,
    spare: Option<LemmaSolver>,
) -> Result<LemmaSolver, AllocError>
    requires system { IsSystemOf model.now system.now }
    requires spare { IfSome spare (IsSolverOf model.now) }
    ensures { IfOk result (λ solver. IsSolverOf model.now solver) }
{
    match spare {
        Some(solver) => Ok(solver),
        None => LemmaSolver::new(alloc, system.clauses()),
    }
}

/// What is asked about the moves of candidates under facts, of the solver at hand where there is one.
fn asking_of(
    alloc: Global,
    model: &Model,
    system: &StepSystem,
    spare: Option<LemmaSolver>,
    facts: &Facts,
) -> Result<Asking, AllocError>
    requires system { IsSystemOf model.now system.now }
    requires fit { FactsFit model.now facts.now }
    requires in_range { FactsInRange model.now facts.now }
    requires spare { IfSome spare (IsSolverOf model.now) }
    ensures tells { IfOk result (λ asking. TellsFacts model.now facts.now asking) }
    ensures solver { IfOk result (λ asking. IsSolverOf model.now asking.set) }
{
    let _plant = model.plant();
    let literals = fact_literals(alloc, model, system, facts)?;
    let choices = system.choices().copied(alloc)?;
    let assumed = each_once(alloc, choices.as_values().first(), literals.as_slice())?;
    let solver = solver_of(alloc, model, system, spare)?;
    Ok(Asking::of(alloc, solver, choices, assumed))
}

impl<'a> IdentTrial<'a> {
    /// A trial under facts, which may contradict each other. The solver of an earlier trial of the same plant saves the making
    /// of one.
    pub fn new(
        alloc: Global,
        model: &'a Model,
        system: &StepSystem,
        spare: Option<LemmaSolver>,
        facts: Facts,
    ) -> Result<IdentTrial<'a>, AllocError>
        requires system { IsSystemOf model.now system.now }
        requires fit { FactsFit model.now facts }
        requires in_range { FactsInRange model.now facts }
        requires spare { IfSome spare (IsSolverOf model.now) }
        ensures { IfOk result (λ trial. trial ≡ record { plant = model.now; facts = facts }) }
    {
        let after = system.bools_at(Moment::Next).copied(alloc)?;
        // What is large comes last, so that no exit lets go of it.
        let asking = asking_of(alloc, model, system, spare, &facts)?;
        Ok(IdentTrial {
            alloc,
            model,
            facts,
            after,
            asking,
        })
    }

    /// Whether the pairs are possible together under the facts.
    pub fn possible(&mut self, pairs: &[Pair]) -> Result<bool, AllocError>
        requires { IsPartial self.old.plant pairs.now }
        ensures answer { IfOk result (λ answer. answer ≡ is_possible self.old.plant self.old.facts pairs.now) }
        ensures same { self.new ≡ self.old }
    {
        self.asking.possible(pairs)
    }

    /// Whether the candidate's moves are possible together where this variable is seen to have this value after the step
    /// too.
    pub fn allows(
        &mut self,
        candidate: &Candidate,
        var: VarId,
        val: ValId,
    ) -> Result<bool, AllocError>
        requires full { IsTrue (is_full_choice self.old.plant candidate.now) }
        requires value { HasValue (sizes self.old.plant) (record { var = var; val = val }) }
        ensures answer { IfOk result (λ answer. answer ≡ is_allowed self.old.plant self.old.facts (record { var = var; val = val }) candidate.now) }
        ensures same { self.new ≡ self.old }
    {
        let pairs = self.moves_of(candidate)?;
        let seen = self.after.literal(var.0 as usize, val.0, true);
        self.asking.possible_beside(pairs.as_slice(), seen)
    }

    /// The solver alone, for another trial of the same plant.
    pub fn into_solver(self) -> LemmaSolver
        ensures { IsSolverOf self.entry.plant result }
    {
        self.asking.into_solver()
    }

    /// What its solver did so far. Takes no memory.
    pub fn effort(&self) -> Effort {
        self.asking.effort()
    }

    /// Nothing where the pairs are possible together under the facts, else their reason.
    fn refusal(&mut self, pairs: &[Pair]) -> Result<Option<Conflict>, AllocError>
        requires { IsPartial self.old.plant pairs.now }
        ensures reason { IfOk result (IsReason (is_possible self.old.plant self.old.facts) pairs.now) }
        ensures same { self.new ≡ self.old }
    {
        self.asking.reason(pairs)
    }

    /// The candidate's moves, part by part.
    fn moves_of(&self, candidate: &Candidate) -> Result<Vec<Pair>, AllocError>
        requires { IsTrue (is_full_choice self.now.plant candidate.now) }
        ensures pairs { IfOk result (λ out. out.items ≡ pairs_of candidate.now.choices) }
        ensures partial { IfOk result (λ out. IsPartial self.now.plant out.items) }
    {
        let _plant = self.model.plant();
        pairs_of(self.alloc, candidate.choices.as_slice())
    }
}

impl Trial for IdentTrial<'_> {
    ghost use Rattle.std.proofs.Common.{refl};
    ghost use Rattle.lv_base.specs.Choices.{picks};
    ghost use Rattle.lv_boxes.proofs.ReasonLemmas.{part_of_all};
    ghost use Rattle.lv_meaning.proofs.Reasons.{own_pairs, reason_apart};

    ghost suits = { λ t c. is_full_choice t.plant c };

    ghost fits = { λ t c. is_possible_candidate t.plant t.facts c };

    ghost reason = { λ t c. reason_of t.plant t.facts c };

    ghost is_inside = { λ t c suits unfit. part_of_all (is_possible t.plant t.facts) (picks c.choices) [] (pairs_of c.choices) refl (own_pairs [] c.choices) };

    ghost is_apart = { λ t c d one other cannot can. reason_apart t.plant t.facts c d cannot can };

    fn attempt(&mut self, candidate: &Candidate) -> Result<Tried, AllocError> {
        let pairs = self.moves_of(candidate)?;
        match self.refusal(pairs.as_slice())? {
            None => Ok(Tried::Fits),
            Some(conflict) => Ok(Tried::Refused(conflict)),
        }
    }
}
