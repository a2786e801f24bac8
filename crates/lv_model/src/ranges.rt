//! What the variables of a type and of a plant range over, as lists.
#![tactic(auto)]

ghost use Rattle.std.specs.Prelude.{◌≡◌, ◌++◌, IfOk, length, map, slice_get};
ghost use Rattle.std.specs.Option.{option_map_or};
ghost use Rattle.lv_model.specs.Ranges.{domain_size, variable_range, type_ranges, part_ranges, plant_ranges};

use crate::lookup::type_of;
use crate::plant::{ComponentType, Domain, Part, Plant, Variable};
use lv_base::{Range, Sort};
use std::alloc::{AllocError, Global};

/// How many values the domain of this place has; none where there is no such domain.
pub fn size_of_domain(domains: &[Domain], domain: u32) -> usize
    ensures { result ≡ domain_size domains.now domain }
{
    match domains.get(domain as usize) {
        Some(d) => d.values.len(),
        None => 0,
    }
}

/// Adds what each of these variables ranges over.
fn push_variables(
    out: &mut Vec<Range>,
    domains: &[Domain],
    variables: &[Variable],
) -> Result<(), AllocError>
    ensures { IfOk result (λ _. out.new.items ≡ out.old.items ++ map (variable_range domains.now) variables.now) }
{
    for v in variables {
        out.push(Range {
            sort: Sort::Values(v.domain as usize),
            size: size_of_domain(domains, v.domain),
        })?;
    }
    Ok(())
}

/// Adds what the variables of the type at this place range over, its mode first.
fn push_type(
    out: &mut Vec<Range>,
    domains: &[Domain],
    kind: usize,
    t: &ComponentType,
) -> Result<(), AllocError>
    ensures { IfOk result (λ _. out.new.items ≡ out.old.items ++ type_ranges domains.now kind t.now) }
{
    out.push(Range {
        sort: Sort::Modes(kind),
        size: t.modes.len(),
    })?;
    push_variables(out, domains, t.variables.as_slice())
}

/// Adds what the part's variables range over; nothing where it has no type.
pub fn push_part(
    out: &mut Vec<Range>,
    domains: &[Domain],
    types: &[ComponentType],
    part: &Part,
) -> Result<(), AllocError>
    ensures { IfOk result (λ _. out.new.items ≡ out.old.items ++ part_ranges domains.now types.now part.now) }
{
    match type_of(types, part) {
        Some(t) => push_type(out, domains, part.kind as usize, t),
        None => Ok(()),
    }
}

/// What the variables of the type at this place range over, its mode first.
pub fn type_ranges(
    alloc: Global,
    domains: &[Domain],
    kind: usize,
    t: &ComponentType,
) -> Result<Vec<Range>, AllocError>
    ensures { IfOk result (λ out. out.items ≡ type_ranges domains.now kind t.now) }
{
    let mut out = Vec::new(alloc);
    push_type(&mut out, domains, kind, t)?;
    Ok(out)
}

/// What all variables of the plant range over, part by part.
pub fn plant_ranges(alloc: Global, plant: &Plant) -> Result<Vec<Range>, AllocError>
    ensures { IfOk result (λ out. out.items ≡ plant_ranges plant.now) }
{
    let mut out = Vec::new(alloc);
    for part in plant.parts.as_slice() {
        push_part(
            &mut out,
            plant.domains.as_slice(),
            plant.types.as_slice(),
            part,
        )?;
    }
    Ok(out)
}
