//! What facts say as literals. What choices say, and what one observation says, is of the crate below.
#![tactic(auto)]

ghost use Rattle.std.specs.Prelude.{◌≡◌, ◌++◌, IfOk};
ghost use Rattle.lv_system.specs.System.{IsSystemOf};
ghost use Rattle.lv_meaning.specs.Facts.{FactsFit, FactsInRange};
ghost use Rattle.lv_ident.specs.Literals.{fact_literals};

pub use lv_asking::literals::{push_observed, push_pairs};
use lv_base::Lit;
use lv_meaning::Facts;
use lv_meaning::facts::before_the_step;
use lv_model::Model;
use lv_system::{Moment, StepSystem};
use std::alloc::{AllocError, Global};

/// What the facts say: the controls' values and the present observations before the step, the next observations after it.
pub fn fact_literals(
    alloc: Global,
    model: &Model,
    system: &StepSystem,
    facts: &Facts,
) -> Result<Vec<Lit>, AllocError>
    requires system { IsSystemOf model.now system.now }
    requires facts { FactsFit model.now facts.now }
    requires in_range { FactsInRange model.now facts.now }
    ensures { IfOk result (λ out. out.items ≡ fact_literals model.now facts.now) }
{
    let before = before_the_step(alloc, model, facts)?;
    let mut out = Vec::new(alloc);
    push_observed(&mut out, system.bools_at(Moment::Now), before.as_slice())?;
    push_observed(
        &mut out,
        system.bools_at(Moment::Next),
        facts.next.as_slice(),
    )?;
    Ok(out)
}
