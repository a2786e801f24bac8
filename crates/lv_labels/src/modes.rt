//! The modes of parts as variables, and those of a state as literals.
#![tactic(auto)]

ghost use Rattle.std.specs.Prelude.{◌≡◌, ◌<◌, [], IfOk, IsTrue, map, drop};
ghost use Rattle.std.specs.Option.{option_copied};
ghost use Rattle.lv_compile.specs.FormulaClauses.{size_of};
ghost use Rattle.lv_labels.specs.Literals.{literals_of, mode_variables};
ghost use Rattle.lv_labels.specs.Modes.{are_values, modes_in};

use crate::values::has_value;
use lv_base::{Lit, ValId, VarId};
use lv_compile::value_bools::ValueBools;
use lv_model::{Plant, State};
use std::alloc::{AllocError, Global};

/// The mode of each part.
pub fn mode_variables(alloc: Global, plant: &Plant) -> Result<Vec<VarId>, AllocError>
    ensures { IfOk result (λ out. out.items ≡ mode_variables plant.now) }
{
    let mut out = Vec::new(alloc);
    for part in plant.parts.as_slice() {
        out.push(part.first)?;
    }
    Ok(out)
}

/// The literals that these variables have these values.
pub fn literals_of(
    alloc: Global,
    bools: &ValueBools,
    variables: &[VarId],
    values: &[ValId],
) -> Result<Vec<Lit>, AllocError>
    requires { IsTrue (are_values bools.now variables.now values.now) }
    ensures { IfOk result (λ out. out.items ≡ literals_of bools.now variables.now values.now) }
{
    let mut out = Vec::new(alloc);
    for (i, val) in values.iter().enumerate() {
        if i >= variables.len() {
            return Ok(out);
        }
        out.push(bools.literal(variables[i].0 as usize, val.0, true))?;
    }
    Ok(out)
}

/// Whether each of these variables that gets a value has it. Takes no memory.
pub fn are_values(bools: &ValueBools, variables: &[VarId], values: &[ValId]) -> bool
    ensures { result ≡ are_values bools.now variables.now values.now }
{
    for (i, val) in values.iter().enumerate() {
        if i >= variables.len() {
            return true;
        }
        if !has_value(bools, variables[i], *val) {
            return false;
        }
    }
    true
}

/// The modes of a state, none where there is no state.
pub fn modes_in(state: Option<&State>) -> &[ValId]
    ensures { result.now ≡ modes_in (option_copied state.entry) }
{
    match state {
        Some(state) => state.modes.as_slice(),
        None => &[],
    }
}
