//! What propagation finds under facts that are given anew with each question. The clauses stay, and of the facts only
//! those that the last question didn't have, or had alone, change an assumption.
#![tactic(auto)]

ghost use Rattle.std.specs.Prelude.{◌≡◌, ◌+◌, ◌-◌, ◌≤◌, ◌<◌, ◌^◌, ◌∷◌, ◌++◌, List, All, IfOk, length, map};
ghost use Rattle.std.specs.Option.{option_copied};
ghost use Rattle.lv_base.specs.declared.ids.Lit.{Lit};
ghost use Rattle.lv_model.specs.declared.plant.Plant.{Plant};
ghost use Rattle.lv_meaning.specs.Facts.{FactsFit};
ghost use Rattle.lv_system.specs.System.{IsSystemOf};
ghost use Rattle.lv_labels.specs.Literals.{fact_literals, state_literals};
ghost use Rattle.lv_labels.specs.Labels.{label_literal};
ghost use Rattle.lv_labels.specs.Finding.{labelling};
ghost use Rattle.lv_labels.specs.Claims.{IsClaiming};
ghost use Rattle.lv_labels.specs.Holding.{claim_at, fact_claims, claim_literals, IsClaimIn, AreTurned, AreFactsIn, HasOwnModes};

use crate::fact_labels::FactLabels;
use crate::labelling::Labelling;
use lv_meaning::facts::before_the_step;
use lv_meaning::{Facts, Observation};
use lv_model::{Model, State};
use lv_reply::{Label, Moment};
use lv_system::StepSystem;
use std::alloc::{AllocError, Global};
use std::marker;

/// The clauses of a model, and the facts that the last question was asked under. Contracts see the plant.
#[derive(Drop)]
pub struct Labeller<'a> {
    alloc: Global,
    model: &'a Model,
    labels: FactLabels,
    claimed: Vec<Label>,
}

impl<'a> marker::Model for Labeller<'a> {
    ghost use Rattle.std.specs.Coded.{codes};
    ghost use Rattle.lv_model.specs.lv_base.contracts.formula.Condition as condition;
    ghost use Rattle.lv_model.specs.declared.plant.Plant.{Plant};
    ghost use Rattle.lv_labels.specs.Holding.{IsHolding};

    ghost Value = { Plant };

    ghost coded = { Prim.hlevel (codes, condition.the_row.coded) };

    ghost view = { λ l. l.model.now };

    ghost invariant = { λ l. IsHolding l.model.now l.claimed.items l.labels };
}

/// Adds the claims that observations at a moment are.
fn push_claims(
    out: &mut Vec<Label>,
    moment: Moment,
    observations: &[Observation],
) -> Result<(), AllocError>
    ensures { IfOk result (λ _. out.new.items ≡ out.old.items ++ map (claim_at moment) observations.now) }
{
    for o in observations {
        out.push(Label {
            moment,
            var: o.var,
            val: o.val,
        })?;
    }
    Ok(())
}

/// The facts as claims.
fn claims_of(alloc: Global, model: &Model, facts: &Facts) -> Result<Vec<Label>, AllocError>
    requires { FactsFit model.now facts.now }
    ensures { IfOk result (λ out. out.items ≡ fact_claims model.now facts.now) }
{
    let before = before_the_step(alloc, model, facts)?;
    let mut out = Vec::new(alloc);
    push_claims(&mut out, Moment::Now, before.as_slice())?;
    push_claims(&mut out, Moment::Next, facts.next.as_slice())?;
    Ok(out)
}

/// Claims all of these.
fn claim_all(labels: &mut FactLabels, claims: &[Label])
    requires { All (IsClaimIn labels.old.values) claims.now }
    ensures claiming { (plant : Plant) (literals : List Lit) → length claims.now + length literals < 2 ^ 32 → IsClaiming plant literals labels.old → IsClaiming plant (claim_literals plant claims.now ++ literals) labels.new }
    ensures values { labels.new.values ≡ labels.old.values }
    ensures modes { labels.new.modes ≡ labels.old.modes }
{
    for claim in claims {
        labels.claim(claim.moment, claim.var, claim.val);
    }
}

/// Takes all of these back.
fn release_all(labels: &mut FactLabels, claims: &[Label])
    requires { All (IsClaimIn labels.old.values) claims.now }
    ensures claiming { (plant : Plant) (literals : List Lit) → IsClaiming plant (claim_literals plant claims.now ++ literals) labels.old → IsClaiming plant literals labels.new }
    ensures values { labels.new.values ≡ labels.old.values }
    ensures modes { labels.new.modes ≡ labels.old.modes }
{
    for claim in claims {
        labels.release(claim.moment, claim.var, claim.val);
    }
}

/// Claims a value in place of another one, which is taken back first.
fn turn(labels: &mut FactLabels, before: Label, now: Label)
    requires before { IsClaimIn labels.old.values before }
    requires now { IsClaimIn labels.old.values now }
    ensures claiming { (plant : Plant) (literals : List Lit) → length literals < 2 ^ 32 - 1 → IsClaiming plant (label_literal plant before ∷ literals) labels.old → IsClaiming plant (label_literal plant now ∷ literals) labels.new }
    ensures values { labels.new.values ≡ labels.old.values }
    ensures modes { labels.new.modes ≡ labels.old.modes }
{
    if before == now {
        return;
    }
    labels.release(before.moment, before.var, before.val);
    labels.claim(now.moment, now.var, now.val);
}

/// Claims these in place of those before, one by one, as long as both are of the same variables. Answers how many are.
fn turn_first(labels: &mut FactLabels, before: &[Label], now: &[Label]) -> usize
    requires before { All (IsClaimIn labels.old.values) before.now }
    requires now { All (IsClaimIn labels.old.values) now.now }
    ensures turned { AreTurned result before.now now.now labels.old labels.new }
    ensures before { result ≤ length before.now }
    ensures now { result ≤ length now.now }
{
    let mut at = 0;
    while at < before.len() && at < now.len() && before[at].var == now[at].var {
        turn(labels, before[at], now[at]);
        at += 1;
    }
    at
}

/// Claims all of these in place of all those before. Where one is of the same variable as the one in its place, as with
/// controls, the value before goes first: both at once would contradict each other.
fn turn_all(labels: &mut FactLabels, before: &[Label], now: &[Label])
    requires before { All (IsClaimIn labels.old.values) before.now }
    requires now { All (IsClaimIn labels.old.values) now.now }
    ensures claiming { (plant : Plant) (literals : List Lit) → length before.now + length now.now + length literals < 2 ^ 32 - 1 → IsClaiming plant (claim_literals plant before.now ++ literals) labels.old → IsClaiming plant (claim_literals plant now.now ++ literals) labels.new }
    ensures values { labels.new.values ≡ labels.old.values }
    ensures modes { labels.new.modes ≡ labels.old.modes }
{
    let at = turn_first(labels, before, now);
    claim_all(labels, &now[at..]);
    release_all(labels, &before[at..]);
}

impl<'a> Labeller<'a> {
    /// With no facts so far. The system is the model's.
    pub fn new(
        alloc: Global,
        model: &'a Model,
        system: &StepSystem,
    ) -> Result<Labeller<'a>, AllocError>
        requires { IsSystemOf model.now system.now }
        ensures { IfOk result (λ labeller. labeller ≡ model.now) }
    {
        Ok(Labeller {
            alloc,
            model,
            labels: FactLabels::new(alloc, model, system)?,
            claimed: Vec::new(alloc),
        })
    }

    /// What propagation finds under the facts and, if a state is given, its modes.
    pub fn tell(&mut self, facts: &Facts, of: Option<&State>) -> Result<Labelling, AllocError>
        requires facts { AreFactsIn self.old facts.now }
        requires modes { HasOwnModes self.old (option_copied of) }
        ensures found { IfOk result (λ told. told ≡ labelling self.old (fact_literals self.old facts.now ++ state_literals self.old (option_copied of.entry))) }
        ensures plant { self.new ≡ self.old }
    {
        let claims = claims_of(self.alloc, self.model, facts)?;
        turn_all(&mut self.labels, self.claimed.as_slice(), claims.as_slice());
        self.claimed = claims;
        self.labels.tell(self.alloc, of)
    }
}
