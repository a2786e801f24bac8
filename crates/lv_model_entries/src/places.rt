//! What names stand for, by their places in lists.
#![tactic(auto)]

ghost use Rattle.std.specs.Prelude.{◌≡◌, slice_get};
ghost use Rattle.std.specs.Option.{option_and_then, option_copied};
ghost use Rattle.lv_model.specs.declared.plant.ComponentType.{ComponentType};
ghost use Rattle.lv_model_entries.specs.Places.{placed, domain_place, type_place, value_place, mode_place, variable_numbered, variable_place, part_of_name, value_of_domain, mode_of_type, value_of_sort};

use lv_base::{Name, Sort, ValId, VarId, find_name};
use lv_model::{ComponentType, Domain, Part};
use lv_model_draft::{NamedPlant, NamedType};

/// A place in a list, or a number counted from one, as a number of 32 bits.
pub fn placed(place: usize) -> Option<u32>
    ensures { result ≡ placed place }
{
    u32::try_from(place).ok()
}

pub fn domain_place(plant: &NamedPlant, word: &[u8]) -> Option<u32>
    ensures { result ≡ domain_place plant.now.domains word.now }
{
    placed(plant.find_domain(word)?)
}

pub fn type_place(plant: &NamedPlant, word: &[u8]) -> Option<u32>
    ensures { result ≡ type_place plant.now.types word.now }
{
    placed(plant.find_type(word)?)
}

/// The value of this name among the names of a domain's values, or of a type's modes.
fn value_place(names: &[Name], word: &[u8]) -> Option<ValId>
    ensures { result ≡ value_place names.now word.now }
{
    Some(ValId(placed(find_name(names, word)?)?))
}

pub fn mode_place(of: &ComponentType, word: &[u8]) -> Option<ValId>
    ensures { result ≡ mode_place of.now word.now }
{
    value_place(of.modes.as_slice(), word)
}

/// A variable by its number.
pub fn variable_numbered(number: usize) -> Option<VarId>
    ensures { result ≡ variable_numbered number }
{
    Some(VarId(placed(number)?))
}

/// The variable of a type that a word names, counted from its mode.
pub fn variable_place(of: &NamedType, word: &[u8]) -> Option<usize>
    ensures { result ≡ variable_place of.now.variables word.now }
{
    if word == b"mode".as_slice() {
        return Some(0);
    }
    Some(of.find_variable(word)? + 1)
}

/// The same of the type at this place.
pub fn variable_of_kind(plant: &NamedPlant, kind: usize, word: &[u8]) -> Option<usize>
    ensures { result ≡ option_and_then (λ (t : ComponentType). variable_place t.variables word.now) (slice_get plant.now.types kind) }
{
    if word == b"mode".as_slice() {
        let _of = plant.as_plant().types.as_slice().get(kind)?;
        return Some(0);
    }
    Some(plant.find_variable(kind, word)? + 1)
}

/// The part of this name.
pub fn part_of_name<'a>(plant: &'a NamedPlant, word: &[u8]) -> Option<&'a Part>
    ensures { option_copied result ≡ part_of_name plant.now.parts word.now }
{
    let place = plant.find_part(word)?;
    plant.as_plant().parts.as_slice().get(place)
}

/// The value of this name of the domain at this place.
pub fn value_of_domain(domains: &[Domain], domain: usize, word: &[u8]) -> Option<ValId>
    ensures { result ≡ value_of_domain domains.now domain word.now }
{
    let domain = domains.get(domain)?;
    value_place(domain.values.as_slice(), word)
}

/// The mode of this name of the type at this place.
pub fn mode_of_type(types: &[ComponentType], kind: usize, word: &[u8]) -> Option<ValId>
    ensures { result ≡ mode_of_type types.now kind word.now }
{
    let of = types.get(kind)?;
    mode_place(of, word)
}

/// The value of this name, of a variable that ranges over such values.
pub fn value_of_sort(
    domains: &[Domain],
    types: &[ComponentType],
    sort: Sort,
    word: &[u8],
) -> Option<ValId>
    ensures { result ≡ value_of_sort domains.now types.now sort word.now }
{
    match sort {
        Sort::Modes(kind) => mode_of_type(types, kind, word),
        Sort::Values(domain) => value_of_domain(domains, domain, word),
    }
}
