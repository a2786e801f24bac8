//! The numbers of all observables, asked of one trial of the candidates.
#![tactic(auto)]

ghost use Rattle.std.specs.Prelude.{◌≡◌, ◌+◌, ◌<◌, ◌^◌, ◌++◌, [], ◌∷◌, IfOk, All, length, map, take, if◌then◌else◌};
ghost use Rattle.lv_model.specs.Lists.{sizes, IsFew, IsVariable};
ghost use Rattle.lv_model_names.specs.Names.{classes};
ghost use Rattle.lv_meaning.specs.Facts.{FactsFit, FactsInRange, HasValue};
ghost use Rattle.lv_meaning.specs.lv_boxes.Walk.{candidate_of};
ghost use Rattle.lv_system.specs.System.{IsSystemOf};
ghost use Rattle.lv_ident.specs.Probing.{is_allowed};
ghost use Rattle.lv_reply.specs.declared.probes.Probed.{Probed as ProbedOf};
ghost use Rattle.lv_probe.specs.Probing.{IsFull, IsProbed, none_left, probed, all_probed, is_seen, observables_among};

use lv_base::{Candidate, Class, Rank, Seq, ValId, VarId};
use lv_ident::IdentTrial;
use lv_meaning::Facts;
use lv_model::Model;
use lv_model_names::names::is_observable;
use lv_reply::Probed;
use lv_system::StepSystem;
use std::alloc::{AllocError, Global};

/// The candidates of these ranks.
fn candidates_of(alloc: Global, ranks: &[Rank]) -> Result<Vec<Candidate>, AllocError>
    ensures { IfOk result (λ out. out.items ≡ map candidate_of ranks.now) }
{
    let mut out = Vec::new(alloc);
    for rank in ranks {
        out.push(Candidate::new(alloc, rank.source, rank.choices.as_slice())?)?;
    }
    Ok(out)
}

/// The number, and one more where the candidate goes with this value.
fn one_more(
    trial: &mut IdentTrial<'_>,
    candidate: &Candidate,
    var: VarId,
    val: ValId,
    number: u64,
) -> Result<u64, AllocError>
    requires full { IsFull trial.old.plant candidate.now }
    requires value { HasValue (sizes trial.old.plant) (record { var = var; val = val }) }
    requires few { number + 1 < 2 ^ 64 }
    ensures number { IfOk result (λ n. n ≡ number + (if is_allowed trial.old.plant trial.old.facts (record { var = var; val = val }) candidate.now then 1 else 0)) }
    ensures same { trial.new ≡ trial.old }
{
    if trial.allows(candidate, var, val)? {
        Ok(number + 1)
    } else {
        Ok(number)
    }
}

/// What an observation would leave of the candidates up to this one too, where it is known what it would leave of those before.
/// All values are asked of one candidate after the other, so that an assignment that the solver found for a candidate and one
/// value answers at once for the values that it has elsewhere.
fn with_next_candidate(
    alloc: Global,
    trial: &mut IdentTrial<'_>,
    candidates: &[Candidate],
    at: usize,
    so_far: &Probed,
) -> Result<Probed, AllocError>
    requires full { All (IsFull trial.old.plant) candidates.now }
    requires at { at < length candidates.now }
    requires small { length candidates.now < 2 ^ 64 }
    requires few { IsFew (length so_far.now.numbers) }
    requires so_far { so_far.now ≡ probed trial.old.plant trial.old.facts (take at candidates.now) so_far.now.var }
    ensures probed { IfOk result (λ out. out ≡ probed trial.old.plant trial.old.facts (take (at + 1) candidates.now) so_far.now.var) }
    ensures same { trial.new ≡ trial.old }
{
    let var = so_far.var;
    let before = so_far.numbers.as_slice();
    let mut numbers = Vec::new(alloc);
    for v in 0..before.len() as u32 {
        let number = one_more(trial, &candidates[at], var, ValId(v), before[v as usize])?;
        numbers.push(number)?;
    }
    Ok(Probed {
        var,
        numbers: Seq::from_vec(numbers),
    })
}

/// The same of each of these observations.
fn all_with_next_candidate(
    alloc: Global,
    trial: &mut IdentTrial<'_>,
    candidates: &[Candidate],
    at: usize,
    so_far: &[Probed],
) -> Result<Vec<Probed>, AllocError>
    requires full { All (IsFull trial.old.plant) candidates.now }
    requires at { at < length candidates.now }
    requires small { length candidates.now < 2 ^ 64 }
    requires so_far { All (IsProbed trial.old.plant trial.old.facts (take at candidates.now)) so_far.now }
    ensures probed { IfOk result (λ out. out.items ≡ map (λ (p : ProbedOf). probed trial.old.plant trial.old.facts (take (at + 1) candidates.now) p.var) so_far.now) }
    ensures same { trial.new ≡ trial.old }
{
    let mut out = Vec::new(alloc);
    for one in so_far {
        out.push(with_next_candidate(alloc, trial, candidates, at, one)?)?;
    }
    Ok(out)
}

/// Variables that might be observed, and how many values each variable of the model has.
#[derive(Clone, Copy)]
struct Observed<'a> {
    values: &'a [usize],
    variables: &'a [VarId],
}

impl<'a> Observed<'a> {
    /// What each of these observations leaves of no candidate: none, whatever is seen.
    fn nothing_left(&self, alloc: Global) -> Result<Vec<Probed>, AllocError>
        requires few { All IsFew self.now.values.now }
        requires there { All (IsVariable (length self.now.values.now)) self.now.variables.now }
        ensures { IfOk result (λ out. out.items ≡ map (none_left self.now.values.now) self.now.variables.now) }
    {
        let mut out = Vec::new(alloc);
        for var in self.variables {
            let mut numbers = Vec::new(alloc);
            numbers.resize(self.values[var.0 as usize], 0)?;
            out.push(Probed {
                var: *var,
                numbers: Seq::from_vec(numbers),
            })?;
        }
        Ok(out)
    }

    /// What an observation of each of these variables would leave of the candidates.
    fn all_probed(
        &self,
        alloc: Global,
        trial: &mut IdentTrial<'_>,
        candidates: &[Candidate],
    ) -> Result<Vec<Probed>, AllocError>
        requires full { All (IsFull trial.old.plant) candidates.now }
        requires values { self.now.values.now ≡ sizes trial.old.plant }
        requires few { All IsFew self.now.values.now }
        requires there { All (IsVariable (length self.now.values.now)) self.now.variables.now }
        ensures probed { IfOk result (λ out. out.items ≡ map (probed trial.old.plant trial.old.facts candidates.now) self.now.variables.now) }
        ensures same { trial.new ≡ trial.old }
    {
        let mut out = self.nothing_left(alloc)?;
        for at in 0..candidates.len() {
            out = all_with_next_candidate(alloc, trial, candidates, at, out.as_slice())?;
        }
        Ok(out)
    }
}

/// Adds the variable where it is an observable.
fn push_observable(
    out: &mut Vec<VarId>,
    kinds: &[Option<Class>],
    var: VarId,
) -> Result<(), AllocError>
    ensures { IfOk result (λ _. out.new.items ≡ out.old.items ++ (if is_seen kinds.now var then var ∷ [] else [])) }
{
    if is_observable(kinds, var) {
        out.push(var)?;
    }
    Ok(())
}

/// The observables among the first variables, so many.
fn observables_among(
    alloc: Global,
    kinds: &[Option<Class>],
    count: u32,
) -> Result<Vec<VarId>, AllocError>
    ensures observables { IfOk result (λ out. out.items ≡ observables_among kinds.now count) }
    ensures there { IfOk result (λ out. All (IsVariable count) out.items) }
{
    let mut out = Vec::new(alloc);
    for n in 0..count {
        push_observable(&mut out, kinds, VarId(n))?;
    }
    Ok(out)
}

/// What is probed: a model with its clauses, and the classes of its variables.
#[derive(Clone, Copy)]
pub struct Probing<'a> {
    pub model: &'a Model,
    pub system: &'a StepSystem,
    pub kinds: &'a [Option<Class>],
}

impl<'a> Probing<'a> {
    /// What an observation of each of these variables would leave of the candidates, by a trial of its own.
    fn probed_in(
        &self,
        alloc: Global,
        facts: Facts,
        candidates: &[Candidate],
        observed: &Observed<'_>,
    ) -> Result<Vec<Probed>, AllocError>
        requires system { IsSystemOf self.now.model.now self.now.system.now }
        requires fit { FactsFit self.now.model.now facts }
        requires in_range { FactsInRange self.now.model.now facts }
        requires full { All (IsFull self.now.model.now) candidates.now }
        requires values { observed.now.values.now ≡ sizes self.now.model.now }
        requires few { All IsFew observed.now.values.now }
        requires there { All (IsVariable (length observed.now.values.now)) observed.now.variables.now }
        ensures { IfOk result (λ out. out.items ≡ map (probed self.now.model.now facts candidates.now) observed.now.variables.now) }
    {
        let mut trial = IdentTrial::new(alloc, self.model, self.system, None, facts)?;
        observed.all_probed(alloc, &mut trial, candidates)
    }

    /// Of each observable of the model how many of the listed candidates are possible where it is seen to have each of its
    /// values too.
    pub fn probe(
        &self,
        alloc: Global,
        facts: Facts,
        listed: &[Rank],
    ) -> Result<Vec<Probed>, AllocError>
        requires system { IsSystemOf self.now.model.now self.now.system.now }
        requires kinds { self.now.kinds.now ≡ classes self.now.model.now }
        requires fit { FactsFit self.now.model.now facts }
        requires in_range { FactsInRange self.now.model.now facts }
        requires full { All (IsFull self.now.model.now) (map candidate_of listed.now) }
        ensures { IfOk result (λ out. out.items ≡ all_probed self.now.model.now facts listed.now) }
    {
        let _plant = self.model.plant();
        let values = self.model.sizes(alloc)?;
        let variables = observables_among(alloc, self.kinds, values.as_slice().len() as u32)?;
        let candidates = candidates_of(alloc, listed)?;
        let observed = Observed {
            values: values.as_slice(),
            variables: variables.as_slice(),
        };
        self.probed_in(alloc, facts, candidates.as_slice(), &observed)
    }
}
