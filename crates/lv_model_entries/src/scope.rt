//! Which variables and values a formula may name: in a type its own, by a word alone; in a law of the system those of
//! the parts so far, by the part's name and the variable's.
#![tactic(auto)]

ghost use Rattle.std.specs.Prelude.{◌≡◌, IfOk, IfErr, Ok};
ghost use Rattle.lv_model_entries.specs.Scopes.{are_one_sort, variable_of_type, sort_in_type, value_by_sort, value_of_type, share_in_type, variable_of_part, variable_of_system, sort_in_system, value_of_system, share_in_system, TellsFormula};
ghost use Rattle.lv_model_entries.specs.Entries.{type_formula, system_formula};
ghost use Rattle.lv_formula_text.specs.declared.path.Path.TheVariants.{Own};

use crate::draft::{CheckFault, Draft};
use crate::places::{
    mode_place, part_of_name, value_of_domain, value_of_sort, variable_numbered, variable_of_kind,
    variable_place,
};
use lv_base::range::is_same_sort;
use lv_base::{Condition, Sort, ValId, VarId};
use lv_formula_text::{Path, Phrase, ResolveFault, Scope, resolve};
use lv_model::{ComponentType, Domain, Part};
use lv_model_draft::{NamedPlant, NamedType};
use lv_reader::ModelCode;
use std::alloc::Global;

/// Whether both are there, and are of one sort.
fn are_one_sort(left: Option<Sort>, right: Option<Sort>) -> bool
    ensures { result ≡ are_one_sort left right }
{
    match (left, right) {
        (Some(left), Some(right)) => is_same_sort(left, right),
        _ => false,
    }
}

/// The scope of a type's formulas: what it has so far, over the model's domains.
#[derive(Clone, Copy)]
struct TypeScope<'a> {
    domains: &'a [Domain],
    lists: &'a NamedType,
}

/// What the values of a type's variable are, counted from its mode.
fn sort_in_type(of: &ComponentType, number: u32) -> Option<Sort>
    ensures { result ≡ sort_in_type of.now number }
{
    if number == 0 {
        return Some(Sort::Modes(0));
    }
    let variable = of.variables.as_slice().get(number as usize - 1)?;
    Some(Sort::Values(variable.domain as usize))
}

fn value_by_sort(domains: &[Domain], of: &ComponentType, sort: Sort, word: &[u8]) -> Option<ValId>
    ensures { result ≡ value_by_sort domains.now of.now sort word.now }
{
    match sort {
        Sort::Modes(_) => mode_place(of, word),
        Sort::Values(domain) => value_of_domain(domains, domain, word),
    }
}

/// The variable of a type that a word alone names.
pub fn own_variable_named(of: &NamedType, word: &[u8]) -> Option<VarId>
    ensures { result ≡ variable_of_type of.now (Own word.now) }
{
    variable_numbered(variable_place(of, word)?)
}

/// The value of this name of a type's variable.
pub fn own_value(domains: &[Domain], of: &NamedType, variable: VarId, name: &[u8]) -> Option<ValId>
    ensures { result ≡ value_of_type domains.now of.now variable name.now }
{
    let of = of.as_type();
    let sort = sort_in_type(of, variable.0)?;
    value_by_sort(domains, of, sort, name)
}

impl<'a> Scope for TypeScope<'a> {
    ghost use Rattle.lv_model_entries.specs.Scopes.{variable_of_type, value_of_type, share_in_type};

    ghost named_variable = { λ s path. variable_of_type s.lists.now path };

    ghost named_value = { λ s x word. value_of_type s.domains.now s.lists.now x word };

    ghost share_domain = { λ s x y. share_in_type s.lists.now x y };

    fn variable(&self, path: &Path) -> Option<VarId> {
        match path {
            Path::Own(word) => own_variable_named(self.lists, word.as_slice()),
            Path::OfPart(_, _) => None,
        }
    }

    fn value(&self, variable: VarId, name: &[u8]) -> Option<ValId> {
        own_value(self.domains, self.lists, variable, name)
    }

    fn same_domain(&self, left: VarId, right: VarId) -> bool {
        let of = self.lists.as_type();
        are_one_sort(sort_in_type(of, left.0), sort_in_type(of, right.0))
    }
}

/// The scope of the system's laws: what the model has so far.
#[derive(Clone, Copy)]
struct SystemScope<'a> {
    draft: &'a Draft,
}

/// The variable of the part that a word names.
pub fn variable_of_part(plant: &NamedPlant, word: &[u8], part: &Part) -> Option<VarId>
    ensures { result ≡ variable_of_part plant.now.types word.now part.now }
{
    let place = variable_of_kind(plant, part.kind as usize, word)?;
    variable_numbered((part.first.0 as usize).saturating_add(place))
}

fn variable_of_system(draft: &Draft, path: &Path) -> Option<VarId>
    ensures { result ≡ variable_of_system draft.now path.now }
{
    match path {
        Path::Own(_) => None,
        Path::OfPart(part, word) => {
            let part = part_of_name(&draft.plant, part.as_slice())?;
            variable_of_part(&draft.plant, word.as_slice(), part)
        }
    }
}

fn sort_in_system(draft: &Draft, number: u32) -> Option<Sort>
    ensures { result ≡ sort_in_system draft.now number }
{
    Some(draft.ranges.as_slice().get(number as usize)?.sort)
}

/// The value of this name of the variable of a part.
pub fn value_of_system(draft: &Draft, variable: VarId, word: &[u8]) -> Option<ValId>
    ensures { result ≡ value_of_system draft.now variable word.now }
{
    let sort = sort_in_system(draft, variable.0)?;
    let plant = draft.plant.as_plant();
    value_of_sort(plant.domains.as_slice(), plant.types.as_slice(), sort, word)
}

impl<'a> Scope for SystemScope<'a> {
    ghost use Rattle.lv_model_entries.specs.Scopes.{variable_of_system, value_of_system, share_in_system};

    ghost named_variable = { λ s path. variable_of_system s.draft.now path };

    ghost named_value = { λ s x word. value_of_system s.draft.now x word };

    ghost share_domain = { λ s x y. share_in_system s.draft.now x y };

    fn variable(&self, path: &Path) -> Option<VarId> {
        variable_of_system(self.draft, path)
    }

    fn value(&self, variable: VarId, name: &[u8]) -> Option<ValId> {
        value_of_system(self.draft, variable, name)
    }

    fn same_domain(&self, left: VarId, right: VarId) -> bool {
        are_one_sort(
            sort_in_system(self.draft, left.0),
            sort_in_system(self.draft, right.0),
        )
    }
}

/// The formula that a phrase is in a type.
pub fn type_formula(
    alloc: Global,
    domains: &[Domain],
    lists: &NamedType,
    phrase: &Phrase,
) -> Result<Condition, CheckFault>
    ensures ok { IfOk result (λ f. type_formula domains.now lists.now phrase.now ≡ Ok f) }
    ensures fault { IfErr result (λ fault. TellsFormula fault (type_formula domains.now lists.now phrase.now)) }
{
    match resolve(alloc, phrase, &TypeScope { domains, lists }) {
        Ok(formula) => Ok(Condition::new(formula)),
        Err(ResolveFault::UnknownName) => Err(CheckFault::Refused(ModelCode::UnknownName)),
        Err(ResolveFault::NoFit) => Err(CheckFault::Refused(ModelCode::NoFit)),
        Err(ResolveFault::Memory) => Err(CheckFault::Memory),
    }
}

/// The formula that a phrase is in a law of the system.
pub fn system_formula(
    alloc: Global,
    draft: &Draft,
    phrase: &Phrase,
) -> Result<Condition, CheckFault>
    ensures ok { IfOk result (λ f. system_formula draft.now phrase.now ≡ Ok f) }
    ensures fault { IfErr result (λ fault. TellsFormula fault (system_formula draft.now phrase.now)) }
{
    match resolve(alloc, phrase, &SystemScope { draft }) {
        Ok(formula) => Ok(Condition::new(formula)),
        Err(ResolveFault::UnknownName) => Err(CheckFault::Refused(ModelCode::UnknownName)),
        Err(ResolveFault::NoFit) => Err(CheckFault::Refused(ModelCode::NoFit)),
        Err(ResolveFault::Memory) => Err(CheckFault::Memory),
    }
}
