//! What is observed of a step: the values of the first observables, under names that no present observation has; and the
//! modes that it leads to.
#![tactic(auto)]

ghost use Rattle.std.specs.Prelude.{◌≡◌, ◌+◌, ◌++◌, ◌∷◌, [], ◌<◌, ◌^◌, IfOk, All, length, take, decimal};
ghost use Rattle.lv_base.specs.Tree.{value_of};
ghost use Rattle.lv_model.specs.Lists.{sizes};
ghost use Rattle.lv_model.specs.WellFormed.{PartEnds};
ghost use Rattle.lv_session.specs.lv_model_names.Names.{is_observable_class};
ghost use Rattle.lv_session.specs.lv_session_request.Requests.{IsSightingIn};
ghost use Rattle.lv_plant_step.specs.lv_system.Laws.{IsAssignment};
ghost use Rattle.lv_plant.specs.Seeing.{observables_from, part_observables, observables, letter, seen_from, seen, modes_in, start_modes};

use itoa::Buffer;
use lv_base::{Class, Name, Seq, ValId, VarId};
use lv_model::lookup::type_of;
use lv_model::{ComponentType, Model, Part, Plant, Variable};
use lv_session::Sighting;
use std::alloc::{AllocError, Global};

/// How many observables are observed of a step at most.
pub const SEEN: usize = 512;

fn is_observed(class: Class) -> bool
    ensures { result ≡ is_observable_class class }
{
    match class {
        Class::Control => false,
        Class::Dependent => false,
        Class::Observable => true,
    }
}

/// Adds the observables among these variables, of which the first has the number `first`.
fn push_observables(
    out: &mut Vec<VarId>,
    variables: &[Variable],
    first: u32,
) -> Result<(), AllocError>
    requires { first + length variables.now < 2 ^ 32 }
    ensures { IfOk result (λ _. out.new.items ≡ out.old.items ++ observables_from first variables.now) }
{
    for (i, v) in variables.iter().enumerate() {
        if is_observed(v.class) {
            out.push(VarId(first + i as u32))?;
        }
    }
    Ok(())
}

/// Adds the observables of the part.
fn push_part_observables(
    out: &mut Vec<VarId>,
    types: &[ComponentType],
    part: &Part,
) -> Result<(), AllocError>
    requires { PartEnds 4096 types.now part.now }
    ensures { IfOk result (λ _. out.new.items ≡ out.old.items ++ part_observables types.now part.now) }
{
    if let Some(t) = type_of(types, part) {
        push_observables(out, t.variables.as_slice(), part.first.0 + 1)?;
    }
    Ok(())
}

/// The observables in written order, part by part.
fn all_observables(alloc: Global, plant: &Plant) -> Result<Vec<VarId>, AllocError>
    requires { All (PartEnds 4096 plant.now.types) plant.now.parts }
    ensures { IfOk result (λ out. out.items ≡ observables plant.now) }
{
    let mut out = Vec::new(alloc);
    for part in plant.parts.as_slice() {
        push_part_observables(&mut out, plant.types.as_slice(), part)?;
    }
    Ok(out)
}

/// So many of them, or all if they are fewer.
fn first_of(vars: &[VarId], most: usize) -> &[VarId]
    ensures { result.now ≡ take most vars.now }
{
    if vars.len() > most {
        &vars[..most]
    } else {
        vars
    }
}

fn letter(odd: bool) -> u8
    ensures { letter odd ≡ result ∷ [] }
{
    if odd { b'o' } else { b'e' }
}

/// The name of the `n`-th observation of an odd or an even step.
fn name_of(alloc: Global, odd: bool, n: u64) -> Result<Name, AllocError>
    ensures { IfOk result (λ name. name ≡ letter odd ++ decimal n) }
{
    let mut digits = Buffer::new();
    let mut name = Vec::new(alloc);
    name.push(letter(odd))?;
    name.extend_from_slice(digits.format(n).as_bytes())?;
    Ok(Seq::from_vec(name))
}

/// The value of a variable; of one that isn't there the first.
fn value_at(b: &[ValId], var: VarId) -> ValId
    ensures { result ≡ value_of b.now var.0 }
{
    let index = var.0 as usize;
    if index < b.len() { b[index] } else { ValId(0) }
}

/// What is observed of these variables, with their values in `b`.
fn sightings_of(
    alloc: Global,
    odd: bool,
    b: &[ValId],
    vars: &[VarId],
) -> Result<Vec<Sighting>, AllocError>
    ensures { IfOk result (λ out. out.items ≡ seen_from (letter odd) 1 b.now vars.now) }
{
    let mut out = Vec::new(alloc);
    for (i, var) in vars.iter().enumerate() {
        out.push(Sighting {
            name: name_of(alloc, odd, i as u64 + 1)?,
            var: *var,
            val: value_at(b, *var),
        })?;
    }
    Ok(out)
}

/// What is observed of a step that ends so.
fn sightings(
    alloc: Global,
    model: &Model,
    odd: bool,
    b: &[ValId],
) -> Result<Vec<Sighting>, AllocError>
    ensures { IfOk result (λ out. out.items ≡ seen model.now odd b.now) }
{
    let vars = all_observables(alloc, model.plant())?;
    sightings_of(alloc, odd, b, first_of(vars.as_slice(), SEEN))
}

/// The same, where it ends in values of the model's variables.
pub fn seen(
    alloc: Global,
    model: &Model,
    odd: bool,
    b: &[ValId],
) -> Result<Vec<Sighting>, AllocError>
    requires { IsAssignment (sizes model.now) b.now }
    ensures seen { IfOk result (λ out. out.items ≡ seen model.now odd b.now) }
    ensures fit { IfOk result (λ out. All (IsSightingIn model.now) out.items) }
{
    let _plant = model.plant();
    sightings(alloc, model, odd, b)
}

/// The mode of each part.
pub fn modes_in(alloc: Global, parts: &[Part], b: &[ValId]) -> Result<Vec<ValId>, AllocError>
    ensures { IfOk result (λ out. out.items ≡ modes_in parts.now b.now) }
{
    parts
        .iter()
        .map(|part| value_at(b, part.first))
        .collect(alloc)
}

/// The mode that each part starts in.
pub fn start_modes(alloc: Global, parts: &[Part]) -> Result<Vec<ValId>, AllocError>
    ensures { IfOk result (λ out. out.items ≡ start_modes parts.now) }
{
    parts.iter().map(|part| part.start).collect(alloc)
}
