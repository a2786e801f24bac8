//! What observations and choices say as literals, and literals with repeats left out.
#![tactic(auto)]

ghost use Rattle.std.specs.Prelude.{◌≡◌, ◌++◌, [], ◌∷◌, true, All, IfOk, if◌then◌else◌, option_copied};
ghost use Rattle.std.specs.List.{find};
ghost use Rattle.lv_clauses.specs.Marks.{marked};
ghost use Rattle.lv_clauses.specs.Noted.{is_of, is_open};
ghost use Rattle.lv_meaning.specs.Facts.{HasValue};
ghost use Rattle.lv_asking.specs.Literals.{observed_literals, pair_literals, HasMove, IsPositive, IsOnce};

use lv_base::{BoolId, Lit, MoveId, Pair, PartId};
use lv_clauses::Marks;
use lv_compile::value_bools::ValueBools;
use lv_meaning::Observation;
use lv_system::ChoiceBools;
use std::alloc::{AllocError, Global};

/// Adds what the observations say of the variables that have these booleans.
pub fn push_observed(
    out: &mut Vec<Lit>,
    bools: &ValueBools,
    observations: &[Observation],
) -> Result<(), AllocError>
    requires { All (HasValue bools.now.sizes) observations.now }
    ensures { IfOk result (λ _. out.new.items ≡ out.old.items ++ observed_literals bools.now observations.now) }
{
    for o in observations {
        out.push(bools.literal(o.var.0 as usize, o.val.0, true))?;
    }
    Ok(())
}

/// Adds what the pairs say.
pub fn push_pairs(
    out: &mut Vec<Lit>,
    choices: &ChoiceBools,
    pairs: &[Pair],
) -> Result<(), AllocError>
    requires { All (HasMove choices.now.counts) pairs.now }
    ensures { IfOk result (λ _. out.new.items ≡ out.old.items ++ pair_literals choices.now pairs.now) }
{
    for pair in pairs {
        out.push(choices.literal(PartId(pair.slot), MoveId(pair.choice), true))?;
    }
    Ok(())
}

/// Adds the literal where its boolean wasn't seen yet.
fn push_new(out: &mut Vec<Lit>, seen: &mut Marks, lit: Lit) -> Result<(), AllocError>
    ensures out { IfOk result (λ _. out.new.items ≡ (if is_open seen.old lit then out.old.items ++ lit ∷ [] else out.old.items)) }
    ensures seen { IfOk result (λ _. seen.new ≡ (if is_open seen.old lit then marked seen.old lit else seen.old)) }
{
    if seen.is_open(lit) {
        out.push(lit)?;
        seen.take(lit)?;
    }
    Ok(())
}

/// The literals, none of which says that a boolean is false, each once.
pub fn each_once(alloc: Global, bools: u32, lits: &[Lit]) -> Result<Vec<Lit>, AllocError>
    requires { All (IsPositive bools) lits.now }
    ensures { IfOk result (λ out. IsOnce bools lits.now out.items) }
{
    let mut seen = Marks::new(alloc, bools)?;
    let mut out = Vec::new(alloc);
    for lit in lits {
        push_new(&mut out, &mut seen, *lit)?;
    }
    Ok(out)
}

/// The first of the literals that is of this boolean.
pub fn first_of(lits: &[Lit], boolean: BoolId) -> Option<&Lit>
    ensures { option_copied result ≡ find (is_of boolean.0) lits.now }
{
    lits.iter().find(|lit| lit.var.0 == boolean.0)
}
