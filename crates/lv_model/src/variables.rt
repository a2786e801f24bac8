//! What the lists of a plant say of its variables and moves.
#![tactic(auto)]

ghost use Rattle.std.specs.Prelude.{◌≡◌, ◌+◌, ◌<◌, ◌≤◌, ◌++◌, ◌^◌, IfOk, OnErr, IsTrue, All, length, map, option_map, slice_get, count_by, nat_lt, nat_eq};
ghost use Rattle.std.specs.Option.{option_map_or, option_copied};
ghost use Rattle.lv_model.specs.Lists.{sizes, part_width, is_control, controls_from, part_controls, controls, part_moves, move_counts, variable_count, IsVariable, IsFew};
ghost use Rattle.lv_model.specs.WellFormed.{PartEnds};

use crate::lookup::type_of;
use crate::model::Model;
use crate::plant::{ComponentType, Part, Plant, Variable};
use crate::ranges::plant_ranges;
use lv_base::{Class, VarId};
use std::alloc::{AllocError, Global};

fn is_commanded(class: Class) -> bool
    ensures { result ≡ is_control class }
{
    match class {
        Class::Control => true,
        Class::Dependent => false,
        Class::Observable => false,
    }
}

/// Adds the controls among these variables, of which the first has the number `first`.
fn push_controls(out: &mut Vec<VarId>, variables: &[Variable], first: u32) -> Result<(), AllocError>
    requires { first + length variables.now < 2 ^ 32 }
    ensures { IfOk result (λ _. out.new.items ≡ out.old.items ++ controls_from first variables.now) }
{
    for (i, v) in variables.iter().enumerate() {
        if is_commanded(v.class) {
            out.push(VarId(first + i as u32))?;
        }
    }
    Ok(())
}

/// Adds the controls of the part.
fn push_part_controls(
    out: &mut Vec<VarId>,
    types: &[ComponentType],
    part: &Part,
) -> Result<(), AllocError>
    requires { PartEnds 4096 types.now part.now }
    ensures { IfOk result (λ _. out.new.items ≡ out.old.items ++ part_controls types.now part.now) }
{
    if let Some(t) = type_of(types, part) {
        push_controls(out, t.variables.as_slice(), part.first.0 + 1)?;
    }
    Ok(())
}

/// How many moves the part's type has; none where there is no such type.
fn count_of_moves(types: &[ComponentType], part: &Part) -> usize
    ensures { result ≡ part_moves types.now part.now }
{
    match type_of(types, part) {
        Some(t) => t.moves.len(),
        None => 0,
    }
}

/// How many values each variable has, part by part, the mode of each part first.
pub fn all_sizes(alloc: Global, plant: &Plant) -> Result<Vec<usize>, AllocError>
    ensures { IfOk result (λ out. out.items ≡ sizes plant.now) }
{
    let ranges = plant_ranges(alloc, plant)?;
    ranges.iter().map(|range| range.size).collect(alloc)
}

/// The control variables in written order, part by part.
pub fn all_controls(alloc: Global, plant: &Plant) -> Result<Vec<VarId>, AllocError>
    requires { All (PartEnds 4096 plant.now.types) plant.now.parts }
    ensures { IfOk result (λ out. out.items ≡ controls plant.now) }
{
    let mut out = Vec::new(alloc);
    for part in plant.parts.as_slice() {
        push_part_controls(&mut out, plant.types.as_slice(), part)?;
    }
    Ok(out)
}

/// How many moves each part has to choose from.
fn all_move_counts(alloc: Global, plant: &Plant) -> Result<Vec<usize>, AllocError>
    ensures { IfOk result (λ out. out.items ≡ move_counts plant.now) }
{
    let mut out = Vec::new(alloc);
    for part in plant.parts.as_slice() {
        out.push(count_of_moves(plant.types.as_slice(), part))?;
    }
    Ok(out)
}

impl Model {
    /// How many values each variable has, part by part, the mode of each part first.
    pub fn sizes(&self, alloc: Global) -> Result<Vec<usize>, AllocError>
        ensures sizes { IfOk result (λ out. out.items ≡ sizes self.now) }
        ensures whole { IfOk result (λ out. length out.items ≡ variable_count self.now) }
        ensures few { IfOk result (λ out. All IsFew out.items) }
    {
        let plant = self.plant();
        let out = all_sizes(alloc, plant)?;
        Ok(out)
    }

    /// The control variables in written order, part by part.
    pub fn controls(&self, alloc: Global) -> Result<Vec<VarId>, AllocError>
        ensures controls { IfOk result (λ out. out.items ≡ controls self.now) }
        ensures in_range { IfOk result (λ out. All (IsVariable (variable_count self.now)) out.items) }
    {
        let plant = self.plant();
        let out = all_controls(alloc, plant)?;
        Ok(out)
    }

    /// How many moves each part has to choose from, its type's.
    pub fn move_counts(&self, alloc: Global) -> Result<Vec<usize>, AllocError>
        ensures counts { IfOk result (λ out. out.items ≡ move_counts self.now) }
        ensures few { IfOk result (λ out. All IsFew out.items) }
    {
        let plant = self.plant();
        let out = all_move_counts(alloc, plant)?;
        Ok(out)
    }
}
