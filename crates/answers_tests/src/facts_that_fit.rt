//! Whether facts are of the model.
#![tactic(auto)]

ghost use Rattle.std.specs.Prelude.{◌≡◌, true, nat_lt, slice_index_or, IfOk};
ghost use Rattle.std.specs.List.{list_all};
ghost use Rattle.lv_meaning.specs.Facts.{FactsFit, FactsInRange};

use lv_meaning::facts::before_the_step;
use lv_meaning::{Facts, Observation};
use lv_model::Model;
use std::alloc::{AllocError, Global};

/// Whether the variable has the observed value, where these say how many values each has.
fn is_value(sizes: &[usize], seen: Observation) -> bool
    ensures { result ≡ nat_lt seen.val.0 (slice_index_or sizes.now seen.var.0 0) }
{
    let var = seen.var.0 as usize;
    var < sizes.len() && (seen.val.0 as usize) < sizes[var]
}

fn are_values(sizes: &[usize], seen: &[Observation]) -> bool
    ensures { result ≡ list_all (λ o. nat_lt o.val.0 (slice_index_or sizes.now o.var.0 0)) seen.now }
{
    seen.iter().all(|o| is_value(sizes, *o))
}

/// Whether each is of one of so many variables.
fn are_variables(count: usize, seen: &[Observation]) -> bool
    ensures { result ≡ list_all (λ o. nat_lt o.var.0 count) seen.now }
{
    seen.iter().all(|o| (o.var.0 as usize) < count)
}

/// Whether there is a value for each control, and the observations are of variables of the model.
pub fn fit(alloc: Global, model: &Model, facts: &Facts) -> Result<bool, AllocError>
    ensures { IfOk result (λ fit. fit ≡ true → FactsFit model.now facts.now) }
{
    let controls = model.controls(alloc)?;
    let sizes = model.sizes(alloc)?;
    Ok(
        facts.controls.len() == controls.len()
            && are_variables(sizes.len(), facts.present.as_slice())
            && are_variables(sizes.len(), facts.next.as_slice()),
    )
}

/// Whether facts that fit speak of values that their variables have.
pub fn are_in_range(alloc: Global, model: &Model, facts: &Facts) -> Result<bool, AllocError>
    requires { FactsFit model.now facts.now }
    ensures { IfOk result (λ are. are ≡ true → FactsInRange model.now facts.now) }
{
    let sizes = model.sizes(alloc)?;
    let before = before_the_step(alloc, model, facts)?;
    Ok(
        are_values(sizes.as_slice(), before.as_slice())
            && are_values(sizes.as_slice(), facts.next.as_slice()),
    )
}
