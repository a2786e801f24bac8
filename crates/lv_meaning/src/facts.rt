//! The facts of a question: what the controls are commanded to, and what was observed before and after the step.
#![tactic(auto)]

ghost use Rattle.std.specs.Prelude.{◌≡◌, ◌<◌, ◌++◌, All, IfOk, length};
ghost use Rattle.lv_model.specs.Lists.{variable_count};
ghost use Rattle.lv_meaning.specs.Facts.{IsInRange, FactsFit, agrees, meets, commanded, now_facts};

use lv_base::{Seq, ValId, VarId};
use lv_model::Model;
use std::alloc::{AllocError, Global};

/// A variable with the value that it was seen to have, or is commanded to.
#[derive(Clone, Copy, Debug, PartialEq, Eq)]
pub struct Observation {
    pub var: VarId,
    pub val: ValId,
}

/// One value for each control in written order, and the observations of the assignment before and after the step.
#[derive(Debug, Drop)]
pub struct Facts {
    pub controls: Seq<ValId>,
    pub present: Seq<Observation>,
    pub next: Seq<Observation>,
}

/// Whether the assignment has the observed value.
fn has_observed(a: &[ValId], o: Observation) -> bool
    requires { IsInRange (length a.now) o }
    ensures { result ≡ agrees a.now o }
{
    a[o.var.0 as usize].0 == o.val.0
}

/// Whether the assignment has each observed value.
pub fn meets_all(a: &[ValId], observations: &[Observation]) -> bool
    requires { All (IsInRange (length a.now)) observations.now }
    ensures { result ≡ meets a.now observations.now }
{
    observations.iter().all(|o| has_observed(a, *o))
}

/// The observations that the assignment before the step has to meet: each control with its value, and the present ones.
pub fn before_the_step(
    alloc: Global,
    model: &Model,
    facts: &Facts,
) -> Result<Vec<Observation>, AllocError>
    requires { FactsFit model.now facts.now }
    ensures observations { IfOk result (λ out. out.items ≡ now_facts model.now facts.now) }
    ensures in_range { IfOk result (λ out. All (IsInRange (variable_count model.now)) out.items) }
{
    let controls = model.controls(alloc)?;
    let mut out = Vec::new(alloc);
    push_commanded(&mut out, controls.as_slice(), facts.controls.as_slice())?;
    out.extend_from_slice(facts.present.as_slice())?;
    Ok(out)
}

/// Adds each control with its value.
fn push_commanded(
    out: &mut Vec<Observation>,
    controls: &[VarId],
    values: &[ValId],
) -> Result<(), AllocError>
    requires { length values.now ≡ length controls.now }
    ensures { IfOk result (λ _. out.new.items ≡ out.old.items ++ commanded controls.now values.now) }
{
    for (i, control) in controls.iter().enumerate() {
        out.push(Observation {
            var: *control,
            val: values[i],
        })?;
    }
    Ok(())
}
