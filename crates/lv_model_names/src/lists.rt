//! What is kept with a model: its controls, and of each variable what it ranges over, what it is for, and with how many
//! values it counts in formulas.
#![tactic(auto)]

ghost use Rattle.std.specs.Prelude.{◌≡◌, ◌++◌, map, IfOk, Some};
ghost use Rattle.std.specs.List.{flat_map};
ghost use Rattle.lv_model.specs.declared.plant.Variable.{Variable as VariableOf};
ghost use Rattle.lv_model_names.specs.Names.{type_classes, part_classes, classes};
ghost use Rattle.lv_model_names.specs.Lists.{lists_of};

use lv_base::{Class, Range, Seq, VarId};
use lv_model::counts::law_sizes;
use lv_model::lookup::type_of;
use lv_model::ranges::plant_ranges;
use lv_model::{ComponentType, Model, Part, Plant, Variable};
use std::alloc::{AllocError, Global};

/// What is kept with a model. The controls stand in written order; the other lists have an item for each variable, part
/// by part, the mode of a part first.
#[derive(Debug, Drop)]
pub struct Lists {
    pub controls: Seq<VarId>,
    pub ranges: Seq<Range>,
    pub classes: Seq<Option<Class>>,
    pub sizes: Seq<u32>,
}

fn classes_of(alloc: Global, variables: &[Variable]) -> Result<Vec<Option<Class>>, AllocError>
    ensures { IfOk result (λ out. out.items ≡ map (λ (v : VariableOf). Some v.class) variables.now) }
{
    variables.iter().map(|v| Some(v.class)).collect(alloc)
}

/// What the mode and the variables of a type are for.
fn classes_of_type(alloc: Global, of: &ComponentType) -> Result<Vec<Option<Class>>, AllocError>
    ensures { IfOk result (λ out. out.items ≡ type_classes of.now) }
{
    let classes = classes_of(alloc, of.variables.as_slice())?;
    let mut out = Vec::new(alloc);
    out.push(None)?;
    out.extend_from_slice(classes.as_slice())?;
    Ok(out)
}

/// Adds what the variables of a part are for.
fn push_part(
    out: &mut Vec<Option<Class>>,
    alloc: Global,
    types: &[ComponentType],
    part: &Part,
) -> Result<(), AllocError>
    ensures { IfOk result (λ _. out.new.items ≡ out.old.items ++ part_classes types.now part.now) }
{
    match type_of(types, part) {
        Some(of) => out.extend_from_slice(classes_of_type(alloc, of)?.as_slice()),
        None => Ok(()),
    }
}

/// What each variable of the plant is for.
fn classes(alloc: Global, plant: &Plant) -> Result<Vec<Option<Class>>, AllocError>
    ensures { IfOk result (λ out. out.items ≡ classes plant.now) }
{
    let types = plant.types.as_slice();
    let mut out = Vec::new(alloc);
    for part in plant.parts.as_slice() {
        push_part(&mut out, alloc, types, part)?;
    }
    Ok(out)
}

impl Lists {
    /// What is kept with this model.
    pub fn of(alloc: Global, model: &Model) -> Result<Lists, AllocError>
        ensures { IfOk result (λ lists. lists ≡ lists_of model.now) }
    {
        let plant = model.plant();
        Ok(Lists {
            controls: Seq::from_vec(model.controls(alloc)?),
            ranges: Seq::from_vec(plant_ranges(alloc, plant)?),
            classes: Seq::from_vec(classes(alloc, plant)?),
            sizes: Seq::from_vec(law_sizes(alloc, plant)?),
        })
    }
}
