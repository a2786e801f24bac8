//! Variables and their values by the names of the plant.
#![tactic(auto)]

ghost use Rattle.std.specs.Prelude.{◌≡◌, ◌-◌, ◌++◌, ◌≤◌, [], length, IfOk, nat_lt, slice_get, codes};
ghost use Rattle.std.specs.List.{find};
ghost use Rattle.std.specs.Option.{option_copied, option_map_or};
ghost use Rattle.lv_model.specs.Lists.{part_width};
ghost use Rattle.lv_reply.specs.Pieces.{name_at};
ghost use Rattle.lv_reply.specs.Variables.{own_name, names_of_values, own_values, own_equation, begins_at, ends_there, AreBegun, has_variable, part_equation, equation};

use crate::pieces::push_name;
use lv_base::{ValId, VarId};
use lv_model::lookup::type_of;
use lv_model::{ComponentType, Domain, Model, Name, Part, Plant, Variable};
use std::alloc::AllocError;

/// The names of the values of a domain; none where there is no such domain.
fn names_of_values(domains: &[Domain], domain: u32) -> &[Name]
    ensures { result.now ≡ names_of_values domains.now domain }
{
    match domains.get(domain as usize) {
        Some(d) => d.values.as_slice(),
        None => &[],
    }
}

/// The variable of this number of a type, if there is one.
fn variable_of(variables: &[Variable], n: u32) -> Option<&Variable>
    ensures { option_copied result ≡ slice_get variables.now n }
{
    variables.get(n as usize)
}

/// The names of the values of a type's n-th variable, of which the mode is the first.
pub fn own_values<'a>(domains: &'a [Domain], t: &'a ComponentType, n: u32) -> &'a [Name]
    ensures { result.now ≡ own_values domains.now t.now n }
{
    if n == 0 {
        return t.modes.as_slice();
    }
    match variable_of(t.variables.as_slice(), n - 1) {
        Some(v) => names_of_values(domains, v.domain),
        None => &[],
    }
}

/// Adds the name of a type's n-th variable, of which the mode is the first.
pub fn push_own_name(out: &mut Vec<u8>, t: &ComponentType, n: u32) -> Result<(), AllocError>
    ensures { IfOk result (λ _. out.new.items ≡ out.old.items ++ own_name t.now n) }
{
    if n == 0 {
        out.extend_from_slice(b"mode")?;
        return Ok(());
    }
    match variable_of(t.variables.as_slice(), n - 1) {
        Some(v) => {
            out.extend_from_slice(v.name.as_slice())?;
            Ok(())
        }
        None => Ok(()),
    }
}

/// Adds a value of a type's n-th variable, with the sign between.
fn push_own_equation(
    out: &mut Vec<u8>,
    domains: &[Domain],
    sign: &[u8],
    t: &ComponentType,
    n: u32,
    value: ValId,
) -> Result<(), AllocError>
    ensures { IfOk result (λ _. out.new.items ≡ out.old.items ++ own_equation domains.now sign.now t.now n value.0) }
{
    push_own_name(out, t, n)?;
    out.extend_from_slice(sign)?;
    push_name(out, own_values(domains, t, n), value.0)
}

/// Whether the part has more than n variables.
fn is_wider(types: &[ComponentType], part: &Part, n: u32) -> bool
    ensures { result ≡ nat_lt n (part_width types.now part.now) }
{
    match type_of(types, part) {
        Some(t) => n as usize <= t.variables.len(),
        None => false,
    }
}

/// Whether the part at a place begins at or before this variable; not where there is none.
fn begins_by(parts: &[Part], x: u32, place: usize) -> bool
    ensures { result ≡ begins_at parts.now x place }
{
    match parts.get(place) {
        Some(part) => part.first.0 <= x,
        None => false,
    }
}

/// Whether the last of so many parts begins at or before this variable, and the one behind them doesn't.
fn ends_there(parts: &[Part], x: u32, n: usize) -> bool
    ensures { result ≡ ends_there parts.now x n }
{
    (n == 0 || begins_by(parts, x, n - 1)) && !begins_by(parts, x, n)
}

/// How many parts begin at or before this variable. They stand in the order of their variables.
fn begun_by(model: &Model, x: u32) -> usize
    ensures { AreBegun x model.now.parts result }
{
    let plant = model.plant();
    plant
        .parts
        .as_slice()
        .partition_point(|part| part.first.0 <= x)
}

/// The same, where it is likely to be this number or one more.
pub fn begun_near(model: &Model, x: u32, near: usize) -> usize
    ensures { AreBegun x model.now.parts result }
{
    let parts = model.plant().parts.as_slice();
    if ends_there(parts, x, near) {
        return near;
    }
    let next = near.saturating_add(1);
    if ends_there(parts, x, next) {
        return next;
    }
    begun_by(model, x)
}

/// The part whose variable this is: if any, the last that begins at or before it.
pub fn owner_of(model: &Model, x: u32) -> Option<&Part>
    ensures { option_copied result ≡ find (has_variable model.now.types x) model.now.parts }
{
    owner_behind(model, x, begun_by(model, x))
}

/// The same, where so many parts begin at or before it.
fn owner_behind(model: &Model, x: u32, begun: usize) -> Option<&Part>
    requires { AreBegun x model.now.parts begun }
    ensures { option_copied result ≡ find (has_variable model.now.types x) model.now.parts }
{
    let plant = model.plant();
    if begun == 0 {
        return None;
    }
    let part = &plant.parts.as_slice()[begun - 1];
    if is_wider(plant.types.as_slice(), part, x - part.first.0) {
        Some(part)
    } else {
        None
    }
}

/// Adds a value of a variable of the part, with the sign between.
fn push_part_equation(
    out: &mut Vec<u8>,
    plant: &Plant,
    sign: &[u8],
    x: u32,
    value: ValId,
    part: &Part,
) -> Result<(), AllocError>
    ensures { IfOk result (λ _. out.new.items ≡ out.old.items ++ part_equation plant.now sign.now x value.0 part.now) }
{
    out.extend_from_slice(part.name.as_slice())?;
    out.push(b'.')?;
    match type_of(plant.types.as_slice(), part) {
        Some(t) => push_own_equation(
            out,
            plant.domains.as_slice(),
            sign,
            t,
            x.saturating_sub(part.first.0),
            value,
        ),
        None => Ok(()),
    }
}

/// Adds a value of a variable, with the sign between; nothing where there is no such variable.
pub fn push_equation(
    out: &mut Vec<u8>,
    model: &Model,
    sign: &[u8],
    variable: VarId,
    value: ValId,
) -> Result<(), AllocError>
    ensures { IfOk result (λ _. out.new.items ≡ out.old.items ++ equation model.now sign.now variable.0 value.0) }
{
    let begun = begun_by(model, variable.0);
    push_equation_behind(out, model, sign, variable, value, begun)
}

/// The same, where so many parts begin at or before the variable.
pub fn push_equation_behind(
    out: &mut Vec<u8>,
    model: &Model,
    sign: &[u8],
    variable: VarId,
    value: ValId,
    begun: usize,
) -> Result<(), AllocError>
    requires { AreBegun variable.0 model.now.parts begun }
    ensures { IfOk result (λ _. out.new.items ≡ out.old.items ++ equation model.now sign.now variable.0 value.0) }
{
    match owner_behind(model, variable.0, begun) {
        Some(part) => push_part_equation(out, model.plant(), sign, variable.0, value, part),
        None => Ok(()),
    }
}
