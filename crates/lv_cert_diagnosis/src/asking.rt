//! What a refuter is asked about the choices of a candidate or a conflict under the facts.
#![tactic(auto)]

ghost use Rattle.std.specs.Prelude.{◌≡◌, ◌<◌, ◌^◌, ◌++◌, true, false, All, IfOk, length, map};
ghost use Rattle.lv_base.specs.Choices.{pairs_of};
ghost use Rattle.lv_model.specs.Lists.{move_counts};
ghost use Rattle.lv_meaning.specs.Facts.{FactsFit, FactsInRange};
ghost use Rattle.lv_meaning.specs.Possible.{is_possible};
ghost use Rattle.lv_meaning.specs.Candidates.{is_possible_rank};
ghost use Rattle.lv_meaning.specs.PossibleLaws.{are_below};
ghost use Rattle.lv_search_zones.specs.lv_compile.Booleans.{bool_count};
ghost use Rattle.lv_search_zones.specs.lv_compile.ModelClauses.{model_clauses};
ghost use Rattle.lv_system.specs.System.{IsSystemOf};
ghost use Rattle.lv_cert_laws.specs.lv_cert_meaning.Deriving.{refutes};
ghost use Rattle.lv_ident.specs.Literals.{HasMove, fact_literals};
ghost use Rattle.lv_cert_writing.specs.BlockLines.{derived_of};
ghost use Rattle.lv_cert_diagnosis.specs.Showing.{own_clauses, ShowsStep, TellsOf};

use lv_base::{Lit, Pair, Rank, Seq, pairs_of};
use lv_cert_writing::asking::{lines_told, push_units, values_told};
use lv_cert_writing::{Derivation, Refuted, Refuter};
use lv_ident::literals::{fact_literals, push_pairs};
use lv_meaning::Facts;
use lv_model::Model;
use lv_system::{StepPair, StepSystem};
use std::alloc::{AllocError, Global};
use std::marker;

/// A model with its system, and with what the facts say.
#[derive(Drop)]
pub struct Asking<'a> {
    alloc: Global,
    model: &'a Model,
    system: &'a StepSystem,
    facts: &'a Facts,
    stated: Vec<Lit>,
}

impl<'a> marker::Model for Asking<'a> {
    ghost use Rattle.lv_cert_diagnosis.specs.Showing.{Asked};
    ghost use Rattle.lv_cert_diagnosis.specs.Keeping.{IsAsking};
    ghost use Rattle.std.specs.Coded.{codes};
    ghost use Rattle.lv_model.specs.lv_base.contracts.formula.Condition as condition;

    ghost Value = { Asked };

    ghost coded = { Prim.hlevel (codes, condition.the_row.coded) };

    ghost view = { λ a. record { plant = a.model.now; facts = a.facts.now; system = a.system.now } };

    ghost invariant = { λ a. IsAsking a.model.now a.facts.now a.system.now a.stated.items };
}

impl<'a> Asking<'a> {
    /// What can be asked under these facts.
    pub fn new(
        alloc: Global,
        model: &'a Model,
        system: &'a StepSystem,
        facts: &'a Facts,
    ) -> Result<Asking<'a>, AllocError>
        requires system { IsSystemOf model.now system.now }
        requires fit { FactsFit model.now facts.now }
        requires in_range { FactsInRange model.now facts.now }
        ensures { IfOk result (λ a. a ≡ record { plant = model.now; facts = facts.now; system = system.now }) }
    {
        let _plant = model.plant();
        Ok(Asking {
            alloc,
            model,
            system,
            facts,
            stated: fact_literals(alloc, model, system, facts)?,
        })
    }

    /// The clauses that state the facts and these choices.
    fn own(&self, pairs: &[Pair]) -> Result<Vec<Seq<Lit>>, AllocError>
        requires { All (HasMove (move_counts self.now.plant)) pairs.now }
        ensures { IfOk result (λ own. own.items ≡ own_clauses self.now.plant self.now.facts pairs.now) }
    {
        let mut lits = Vec::from_slice(self.alloc, self.stated.as_slice())?;
        push_pairs(&mut lits, self.system.choices(), pairs)?;
        let mut own = Vec::new(self.alloc);
        push_units(self.alloc, &mut own, lits.as_slice())?;
        Ok(own)
    }

    /// What the refuter, which is over the system, tells of these choices under the facts.
    fn ask(&self, refuter: &mut Refuter<'_>, pairs: &[Pair]) -> Result<Refuted, AllocError>
        requires refuter { refuter.old ≡ self.now.system }
        requires moves { All (HasMove (move_counts self.now.plant)) pairs.now }
        ensures told { IfOk result (TellsOf self.now pairs.now) }
        ensures few { IfOk result (λ _. length (own_clauses self.now.plant self.now.facts pairs.now) < 2 ^ 64) }
        ensures kept { refuter.new ≡ refuter.old }
    {
        let _system = self.system;
        let own = self.own(pairs)?;
        refuter.refute(own.as_slice())
    }

    /// Values before and after a step by the candidate's moves that meets the facts; its choices are possible.
    pub fn step_of(&self, refuter: &mut Refuter<'_>, rank: &Rank) -> Result<StepPair, AllocError>
        requires refuter { refuter.old ≡ self.now.system }
        requires full { are_below (move_counts self.now.plant) rank.now.choices ≡ true }
        requires possible { is_possible_rank self.now.plant self.now.facts rank.now ≡ true }
        ensures shown { IfOk result (λ pair. ShowsStep self.now.plant self.now.facts rank.now pair.now pair.next) }
        ensures kept { refuter.new ≡ refuter.old }
    {
        let pairs = pairs_of(self.alloc, rank.choices.as_slice())?;
        let values = values_told(self.ask(refuter, pairs.as_slice())?);
        self.system.decode(self.alloc, values.as_slice())
    }

    /// Lines that refute that the choices stand together under the facts; they aren't possible.
    pub fn refutation_of(
        &self,
        refuter: &mut Refuter<'_>,
        pairs: &[Pair],
    ) -> Result<Seq<Derivation>, AllocError>
        requires refuter { refuter.old ≡ self.now.system }
        requires moves { All (HasMove (move_counts self.now.plant)) pairs.now }
        requires impossible { is_possible self.now.plant self.now.facts pairs.now ≡ false }
        ensures refute { IfOk result (λ lines. refutes (bool_count self.now.plant) (model_clauses self.now.plant ++ own_clauses self.now.plant self.now.facts pairs.now) (map derived_of lines) ≡ true) }
        ensures few { IfOk result (λ _. length (own_clauses self.now.plant self.now.facts pairs.now) < 2 ^ 64) }
        ensures kept { refuter.new ≡ refuter.old }
    {
        Ok(lines_told(self.ask(refuter, pairs)?))
    }
}
