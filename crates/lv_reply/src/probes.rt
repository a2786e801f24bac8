//! What one observation more would leave of the candidates that a diagnosis lists, and its text.
#![tactic(auto)]

ghost use Rattle.std.specs.Prelude.{◌≡◌, ◌+◌, ◌-◌, ◌++◌, IfOk, length, drop, decimal, codes};
ghost use Rattle.std.specs.List.{flat_map};
ghost use Rattle.lv_reply.specs.Pieces.{name_at};
ghost use Rattle.lv_reply.specs.Probes.{part_variable, variable_text, part_values, value_names, counted, counted_from, probed_line, best_text, probe_text};

use crate::pieces::{push_joined, push_number};
use crate::variables::{own_values, owner_of, push_own_name};
use lv_base::{Seq, VarId};
use lv_model::lookup::type_of;
use lv_model::{Model, Name, Part, Plant};
use std::alloc::{AllocError, Global};

/// An observable, and for each of its values the number of the listed candidates that go with it.
#[derive(Debug, Drop)]
pub struct Probed {
    pub var: VarId,
    pub numbers: Seq<u64>,
}

/// Adds a variable of the part by its names.
fn push_part_variable(
    out: &mut Vec<u8>,
    plant: &Plant,
    x: u32,
    part: &Part,
) -> Result<(), AllocError>
    ensures { IfOk result (λ _. out.new.items ≡ out.old.items ++ part_variable plant.now x part.now) }
{
    out.extend_from_slice(part.name.as_slice())?;
    out.extend_from_slice(b".")?;
    match type_of(plant.types.as_slice(), part) {
        Some(t) => push_own_name(out, t, x.saturating_sub(part.first.0)),
        None => Ok(()),
    }
}

/// Adds a variable by its names; nothing where there is no such variable.
fn push_variable(out: &mut Vec<u8>, model: &Model, x: u32) -> Result<(), AllocError>
    ensures { IfOk result (λ _. out.new.items ≡ out.old.items ++ variable_text model.now x) }
{
    match owner_of(model, x) {
        Some(part) => push_part_variable(out, model.plant(), x, part),
        None => Ok(()),
    }
}

/// The names of the values of a variable of the part.
fn part_values<'a>(plant: &'a Plant, x: u32, part: &Part) -> &'a [Name]
    ensures { result.now ≡ part_values plant.now x part.now }
{
    match type_of(plant.types.as_slice(), part) {
        Some(t) => own_values(plant.domains.as_slice(), t, x.saturating_sub(part.first.0)),
        None => &[],
    }
}

/// The names of the values of a variable; none where there is no such variable.
fn value_names(model: &Model, x: u32) -> &[Name]
    ensures { result.now ≡ value_names model.now x }
{
    match owner_of(model, x) {
        Some(part) => part_values(model.plant(), x, part),
        None => &[],
    }
}

/// Adds the name of a value; nothing where there is none.
fn push_value(out: &mut Vec<u8>, names: &[Name], value: usize) -> Result<(), AllocError>
    ensures { IfOk result (λ _. out.new.items ≡ out.old.items ++ name_at names.now value) }
{
    match names.get(value) {
        Some(name) => {
            out.extend_from_slice(name.as_slice())?;
            Ok(())
        }
        None => Ok(()),
    }
}

/// A value and its number.
fn counted(alloc: Global, names: &[Name], value: usize, number: u64) -> Result<Vec<u8>, AllocError>
    ensures { IfOk result (λ out. out.items ≡ counted names.now value number) }
{
    let mut out = Vec::new(alloc);
    push_value(&mut out, names, value)?;
    out.extend_from_slice(b" ")?;
    push_number(&mut out, number)?;
    Ok(out)
}

/// Each value and its number.
fn all_counted(alloc: Global, names: &[Name], numbers: &[u64]) -> Result<Vec<Name>, AllocError>
    ensures { IfOk result (λ out. out.items ≡ counted_from names.now 0 numbers.now) }
{
    let mut out = Vec::new(alloc);
    for (value, number) in numbers.iter().enumerate() {
        out.push(Seq::from_vec(counted(alloc, names, value, *number)?))?;
    }
    Ok(out)
}

/// Adds the line of an observable.
fn push_probed(
    alloc: Global,
    out: &mut Vec<u8>,
    model: &Model,
    probed: &Probed,
) -> Result<(), AllocError>
    ensures { IfOk result (λ _. out.new.items ≡ out.old.items ++ probed_line model.now probed.now) }
{
    push_variable(out, model, probed.var.0)?;
    out.extend_from_slice(b": ")?;
    let values = all_counted(
        alloc,
        value_names(model, probed.var.0),
        probed.numbers.as_slice(),
    )?;
    push_joined(out, values.as_slice())?;
    out.extend_from_slice(b"\n")?;
    Ok(())
}

/// Adds the lines of the observables.
fn push_lines(
    alloc: Global,
    out: &mut Vec<u8>,
    model: &Model,
    observables: &[Probed],
) -> Result<(), AllocError>
    ensures { IfOk result (λ _. out.new.items ≡ out.old.items ++ flat_map (probed_line model.now) observables.now) }
{
    for probed in observables {
        push_probed(alloc, out, model, probed)?;
    }
    Ok(())
}

/// Adds the observable that is best looked at, or `-` where none tells anything.
fn push_best(out: &mut Vec<u8>, model: &Model, best: Option<VarId>) -> Result<(), AllocError>
    ensures { IfOk result (λ _. out.new.items ≡ out.old.items ++ best_text model.now best) }
{
    match best {
        Some(x) => push_variable(out, model, x.0),
        None => {
            out.extend_from_slice(b"-")?;
            Ok(())
        }
    }
}

/// The text of what observations would leave of so many listed candidates.
#[tactic(auto, unfolding(crate::specs::Probes::probe_text))]
pub fn probe_text(
    alloc: Global,
    model: &Model,
    listed: u64,
    observables: &[Probed],
    best: Option<VarId>,
) -> Result<Vec<u8>, AllocError>
    ensures { IfOk result (λ out. out.items ≡ probe_text model.now listed observables.now best) }
{
    let mut out = Vec::from_slice(alloc, b"probe ")?;
    push_number(&mut out, listed)?;
    out.extend_from_slice(b"\n")?;
    push_lines(alloc, &mut out, model, observables)?;
    out.extend_from_slice(b"best ")?;
    push_best(&mut out, model, best)?;
    out.extend_from_slice(b"\n")?;
    Ok(out)
}
