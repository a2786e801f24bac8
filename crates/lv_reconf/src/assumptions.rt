//! What a question assumes: the modes of a state and the values of some controls, as literals.
#![tactic(auto)]

ghost use Rattle.std.specs.Prelude.{◌≡◌, ◌<◌, ℕ, true, nat_eq, length, IfOk};
ghost use Rattle.std.specs.List.{list_any};
ghost use Rattle.lv_clauses.specs.Literals.{in_range, same_var};
ghost use Rattle.lv_compile.specs.Booleans.{booleans_now, bool_count};
ghost use Rattle.lv_compile.specs.FormulaClauses.{size_of};
ghost use Rattle.lv_base.specs.Tree.{number_of};
ghost use Rattle.lv_model.specs.Lists.{controls};
ghost use Rattle.lv_model.specs.Ranges.{plant_ranges};
ghost use Rattle.lv_meaning.specs.Ranges.{modes_fit};
ghost use Rattle.lv_meaning.specs.Recovers.{has_modes, has_control, has_controls};
ghost use Rattle.lv_reconf.specs.Assuming.{AddsControls, AddsOne, AreAssumed, Assumes, HasMore, control_literal, pair_fits, pairs_fit};

use super::compiled::Compiled;
use lv_base::{Lit, Pair, ValId, VarId};
use std::alloc::AllocError;

/// Whether a literal of the same boolean is among these.
fn has_boolean(lits: &[Lit], lit: Lit) -> bool
    ensures { result ≡ list_any (same_var lit) lits.now }
{
    lits.iter().any(|other| lit.var.0 == other.var.0)
}

/// Assumes a positive literal, if it isn't assumed yet.
pub fn assume(lits: &mut Vec<Lit>, lit: Lit) -> Result<(), AllocError>
    requires { lit.sign ≡ true }
    ensures adds { IfOk result (λ _. AddsOne lits.old.items lits.new.items lit) }
    ensures says { (bools : ℕ) → AreAssumed bools lits.old.items → in_range bools lit ≡ true → IfOk result (λ _. HasMore bools lits.old.items lits.new.items lit) }
{
    if has_boolean(lits.as_slice(), lit) {
        return Ok(());
    }
    lits.push(lit)?;
    Ok(())
}

/// Assumes that a variable has a value before the step.
fn assume_value(
    compiled: &Compiled,
    lits: &mut Vec<Lit>,
    var: VarId,
    val: ValId,
) -> Result<(), AllocError>
    requires assumed { AreAssumed (bool_count compiled.now) lits.old.items }
    requires there { val.0 < size_of (booleans_now compiled.now) var.0 }
    ensures { IfOk result (λ _. Assumes compiled.now lits.old.items lits.new.items (λ a. nat_eq (number_of a var.0) val.0)) }
{
    assume(lits, compiled.has_value(var, val))
}

/// Assumes that each part is in its mode.
pub fn assume_modes(
    compiled: &Compiled,
    lits: &mut Vec<Lit>,
    modes: &[ValId],
) -> Result<(), AllocError>
    requires assumed { AreAssumed (bool_count compiled.now) lits.old.items }
    requires fit { modes_fit (plant_ranges compiled.now) compiled.now.parts modes.now ≡ true }
    requires whole { length modes.now ≡ length compiled.now.parts }
    ensures { IfOk result (λ _. Assumes compiled.now lits.old.items lits.new.items (has_modes compiled.now.parts modes.now)) }
{
    let plant = compiled.model().plant();
    for (k, part) in plant.parts.as_slice().iter().enumerate() {
        assume_value(compiled, lits, part.first, modes[k])?;
    }
    Ok(())
}

/// Assumes that the control at the pair's slot has its value.
fn assume_control(compiled: &Compiled, lits: &mut Vec<Lit>, pair: Pair) -> Result<(), AllocError>
    requires assumed { AreAssumed (bool_count compiled.now) lits.old.items }
    requires fits { pair_fits compiled.now pair ≡ true }
    ensures adds { IfOk result (λ _. AddsOne lits.old.items lits.new.items (control_literal compiled.now pair)) }
    ensures says { IfOk result (λ _. Assumes compiled.now lits.old.items lits.new.items (λ a. has_control (controls compiled.now) a pair)) }
{
    assume(lits, compiled.commands(pair))
}

/// Assumes these values of controls.
pub fn assume_controls(
    compiled: &Compiled,
    lits: &mut Vec<Lit>,
    pairs: &[Pair],
) -> Result<(), AllocError>
    requires assumed { AreAssumed (bool_count compiled.now) lits.old.items }
    requires fit { pairs_fit compiled.now pairs.now ≡ true }
    ensures adds { IfOk result (λ _. AddsControls compiled.now lits.old.items lits.new.items pairs.now) }
    ensures says { IfOk result (λ _. Assumes compiled.now lits.old.items lits.new.items (λ a. has_controls (controls compiled.now) a pairs.now)) }
{
    for pair in pairs {
        assume_control(compiled, lits, *pair)?;
    }
    Ok(())
}
