//! What holds before a step, and after it: each variable has one value, the laws and the formulas of the present modes
//! are true.
#![tactic(auto)]

ghost use Rattle.std.specs.Prelude.{◌≡◌, ◌+◌, ◌<◌, ◌++◌, ◌∷◌, [], true, false, IfOk, All, IsTrue, map, length, slice_get};
ghost use Rattle.std.specs.List.{flat_map};
ghost use Rattle.std.specs.Option.{option_map_or};
ghost use Rattle.lv_compile.specs.Speaking.{Speaks, ModeFormulaSpeaks, TypeSpeaks, PartHolds};
ghost use Rattle.lv_compile.specs.ModelClauses.{mode_formula_clauses, type_clauses, part_clauses, copy_clauses};
ghost use Rattle.lv_compile.specs.FormulaClauses.{formula_clauses};

use crate::clause_lists::{push_all, push_unless};
use crate::formula::formula_clauses;
use crate::one_of::push_values;
use crate::value_bools::ValueBools;
use lv_base::{Condition, Lit, Seq};
use lv_model::lookup::type_of;
use lv_model::{ComponentType, ModeFormula, Part, Plant};
use std::alloc::{AllocError, Global};

/// That the conditions are true.
fn push_laws(
    out: &mut Vec<Seq<Lit>>,
    alloc: Global,
    bools: &ValueBools,
    base: u32,
    laws: &[Condition],
) -> Result<(), AllocError>
    requires { All (Speaks bools.now base) laws.now }
    ensures { IfOk result (λ _. out.new.items ≡ out.old.items ++ flat_map (formula_clauses bools.now base true) laws.now) }
{
    for law in laws {
        let clauses = formula_clauses(alloc, bools, base, law.formula(), true)?;
        push_all(out, clauses)?;
    }
    Ok(())
}

/// That each condition is true where the part is in its mode.
fn push_mode_formulas(
    out: &mut Vec<Seq<Lit>>,
    alloc: Global,
    bools: &ValueBools,
    base: u32,
    formulas: &[ModeFormula],
) -> Result<(), AllocError>
    requires { All (ModeFormulaSpeaks bools.now base) formulas.now }
    ensures { IfOk result (λ _. out.new.items ≡ out.old.items ++ flat_map (mode_formula_clauses bools.now base) formulas.now) }
{
    for f in formulas {
        let clauses = formula_clauses(alloc, bools, base, f.condition.formula(), true)?;
        let other_mode = bools.literal(base as usize, f.mode.0, false);
        push_unless(out, alloc, other_mode, clauses.as_slice())?;
    }
    Ok(())
}

/// What holds of a part of the type.
fn push_type(
    out: &mut Vec<Seq<Lit>>,
    alloc: Global,
    bools: &ValueBools,
    base: u32,
    t: &ComponentType,
) -> Result<(), AllocError>
    requires { TypeSpeaks bools.now base t.now }
    ensures { IfOk result (λ _. out.new.items ≡ out.old.items ++ type_clauses bools.now base t.now) }
{
    push_laws(out, alloc, bools, base, t.laws.as_slice())?;
    push_mode_formulas(out, alloc, bools, base, t.formulas.as_slice())
}

fn push_part(
    out: &mut Vec<Seq<Lit>>,
    alloc: Global,
    bools: &ValueBools,
    types: &[ComponentType],
    part: &Part,
) -> Result<(), AllocError>
    requires { PartHolds bools.now types.now part.now }
    ensures { IfOk result (λ _. out.new.items ≡ out.old.items ++ part_clauses bools.now types.now part.now) }
{
    match type_of(types, part) {
        Some(t) => push_type(out, alloc, bools, part.first.0, t),
        None => Ok(()),
    }
}

fn push_parts(
    out: &mut Vec<Seq<Lit>>,
    alloc: Global,
    bools: &ValueBools,
    types: &[ComponentType],
    parts: &[Part],
) -> Result<(), AllocError>
    requires { All (PartHolds bools.now types.now) parts.now }
    ensures { IfOk result (λ _. out.new.items ≡ out.old.items ++ flat_map (part_clauses bools.now types.now) parts.now) }
{
    for part in parts {
        push_part(out, alloc, bools, types, part)?;
    }
    Ok(())
}

/// What holds of the plant at one time.
pub fn push_copy(
    out: &mut Vec<Seq<Lit>>,
    alloc: Global,
    bools: &ValueBools,
    plant: &Plant,
) -> Result<(), AllocError>
    requires laws { All (Speaks bools.now 0) plant.now.laws }
    requires parts { All (PartHolds bools.now plant.now.types) plant.now.parts }
    ensures { IfOk result (λ _. out.new.items ≡ out.old.items ++ copy_clauses bools.now plant.now) }
{
    push_values(out, alloc, bools.first(), bools.sizes())?;
    let types = plant.types.as_slice();
    push_parts(out, alloc, bools, types, plant.parts.as_slice())?;
    push_laws(out, alloc, bools, 0, plant.laws.as_slice())
}
