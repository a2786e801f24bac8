//! The variable that the names of a part and of its variable stand for, and the value that a name stands for among those
//! of a variable.
#![tactic(auto)]

ghost use Rattle.std.specs.Prelude.{◌≡◌};
ghost use Rattle.std.specs.Option.{option_copied};
ghost use Rattle.lv_model_names.specs.Names.{numbered, place_in_type, variable_at, variable_of_part, variable_of as variable_named_by, value_among, value_of_sort, sort_of, value_of, are_one_sort, share_domain, is_observable_class, is_observable as is_observable_in};

use lv_base::range::is_same_sort;
use lv_base::{Class, Name, Range, Sort, ValId, VarId, find_name};
use lv_model::names::{find_part, find_variable};
use lv_model::{ComponentType, Part, Plant, Variable};

fn numbered(place: usize) -> Option<u32>
    ensures { result ≡ numbered place }
{
    u32::try_from(place).ok()
}

fn variable_at(number: usize) -> Option<VarId>
    ensures { result ≡ variable_at number }
{
    Some(VarId(numbered(number)?))
}

/// The variable of a type that a word names, counted from its mode.
fn place_in_type(variables: &[Variable], word: &[u8]) -> Option<usize>
    ensures { result ≡ place_in_type variables.now word.now }
{
    if word == b"mode".as_slice() {
        return Some(0);
    }
    Some(find_variable(variables, word)? + 1)
}

/// The variable of the part that a word names.
fn variable_of_part(types: &[ComponentType], word: &[u8], part: &Part) -> Option<VarId>
    ensures { result ≡ variable_of_part types.now word.now part.now }
{
    let of = types.get(part.kind as usize)?;
    let place = place_in_type(of.variables.as_slice(), word)?;
    variable_at((part.first.0 as usize).saturating_add(place))
}

/// The variable that the names of a part and of its variable stand for.
pub fn variable_of(plant: &Plant, part: &[u8], word: &[u8]) -> Option<VarId>
    ensures { result ≡ variable_named_by plant.now part.now word.now }
{
    let parts = plant.parts.as_slice();
    let part = parts.get(find_part(parts, part)?)?;
    variable_of_part(plant.types.as_slice(), word, part)
}

fn value_among(names: &[Name], word: &[u8]) -> Option<ValId>
    ensures { result ≡ value_among names.now word.now }
{
    Some(ValId(numbered(find_name(names, word)?)?))
}

fn value_of_sort(plant: &Plant, word: &[u8], sort: Sort) -> Option<ValId>
    ensures { result ≡ value_of_sort plant.now word.now sort }
{
    match sort {
        Sort::Modes(kind) => {
            let of = plant.types.as_slice().get(kind)?;
            value_among(of.modes.as_slice(), word)
        }
        Sort::Values(domain) => {
            let domain = plant.domains.as_slice().get(domain)?;
            value_among(domain.values.as_slice(), word)
        }
    }
}

fn sort_of(ranges: &[Range], var: VarId) -> Option<Sort>
    ensures { result ≡ sort_of ranges.now var.0 }
{
    Some(ranges.get(var.0 as usize)?.sort)
}

/// The value of this name that the variable has, where these are the ranges of all variables.
pub fn value_of(plant: &Plant, ranges: &[Range], var: VarId, word: &[u8]) -> Option<ValId>
    ensures { result ≡ value_of plant.now ranges.now var word.now }
{
    value_of_sort(plant, word, sort_of(ranges, var)?)
}

fn are_one_sort(left: Option<Sort>, right: Option<Sort>) -> bool
    ensures { result ≡ are_one_sort left right }
{
    match (left, right) {
        (Some(left), Some(right)) => is_same_sort(left, right),
        _ => false,
    }
}

/// Whether two variables range over one domain.
pub fn share_domain(ranges: &[Range], left: VarId, right: VarId) -> bool
    ensures { result ≡ share_domain ranges.now left right }
{
    are_one_sort(sort_of(ranges, left), sort_of(ranges, right))
}

fn is_observable_class(class: Class) -> bool
    ensures { result ≡ is_observable_class class }
{
    match class {
        Class::Control => false,
        Class::Dependent => false,
        Class::Observable => true,
    }
}

/// Whether a variable is an observable, where these are the classes of all variables.
pub fn is_observable(classes: &[Option<Class>], var: VarId) -> bool
    ensures { result ≡ is_observable_in classes.now var.0 }
{
    match classes.get(var.0 as usize) {
        Some(Some(class)) => is_observable_class(*class),
        _ => false,
    }
}
