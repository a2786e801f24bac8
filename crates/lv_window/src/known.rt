//! What is known of a window as literals: of each step what was commanded and seen before it, and what was seen after it.
#![tactic(auto)]

ghost use Rattle.std.specs.Prelude.{◌≡◌, ◌+◌, ◌<◌, ◌^◌, ◌++◌, All, IfOk, length};
ghost use Rattle.lv_system.specs.Windows.{IsWindowOf};
ghost use Rattle.lv_compile.specs.Booleans.{booleans_from};
ghost use Rattle.lv_compile.specs.Windows.{past_copies};
ghost use Rattle.lv_window.specs.Known.{StepFits, HasCopiesOf, step_literals, window_literals};

use lv_asking::literals::push_observed;
use lv_base::Lit;
use lv_compile::value_bools::ValueBools;
use lv_meaning::Facts;
use lv_meaning::facts::before_the_step;
use lv_model::Model;
use lv_system::WindowSystem;
use std::alloc::{AllocError, Global};

/// The booleans of the variables behind so many steps.
fn bools_behind<'s>(model: &Model, system: &'s WindowSystem, steps: usize) -> &'s ValueBools
    requires copies { HasCopiesOf model.now system.now.copies }
    requires there { steps < length system.now.copies }
    ensures { result.now ≡ booleans_from model.now (past_copies model.now 0 steps) }
{
    system.bools_at(steps)
}

/// Adds what is known of the step behind so many.
fn push_step(
    out: &mut Vec<Lit>,
    alloc: Global,
    model: &Model,
    system: &WindowSystem,
    steps: usize,
    facts: &Facts,
) -> Result<(), AllocError>
    requires copies { HasCopiesOf model.now system.now.copies }
    requires room { steps + 1 < 2 ^ 64 }
    requires there { steps + 1 < length system.now.copies }
    requires fits { StepFits model.now facts.now }
    ensures { IfOk result (λ _. out.new.items ≡ out.old.items ++ step_literals model.now (past_copies model.now 0 steps) facts.now) }
{
    let before = before_the_step(alloc, model, facts)?;
    push_observed(out, bools_behind(model, system, steps), before.as_slice())?;
    push_observed(
        out,
        bools_behind(model, system, steps + 1),
        facts.next.as_slice(),
    )
}

/// What is known of the steps.
pub fn window_literals(
    alloc: Global,
    model: &Model,
    system: &WindowSystem,
    steps: &[Facts],
) -> Result<Vec<Lit>, AllocError>
    requires system { IsWindowOf model.now (length steps.now) system.now }
    requires fits { All (StepFits model.now) steps.now }
    ensures { IfOk result (λ out. out.items ≡ window_literals model.now 0 steps.now) }
{
    let mut out = Vec::new(alloc);
    for (number, facts) in steps.iter().enumerate() {
        push_step(&mut out, alloc, model, system, number, facts)?;
    }
    Ok(out)
}
