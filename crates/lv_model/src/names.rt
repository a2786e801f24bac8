//! Which of a list's items has a name, by its place.
#![tactic(auto)]

ghost use Rattle.std.specs.Prelude.{◌≡◌, position};
ghost use Rattle.lv_model.specs.Names.{domain_named, type_named, variable_named, part_named};

use crate::plant::{ComponentType, Domain, Part, Variable};
use lv_base::has_name;

/// The first domain of this name.
pub fn find_domain(domains: &[Domain], text: &[u8]) -> Option<usize>
    ensures { result ≡ position (domain_named text.now) domains.now }
{
    domains.iter().position(|d| has_name(&d.name, text))
}

/// The first type of this name.
pub fn find_type(types: &[ComponentType], text: &[u8]) -> Option<usize>
    ensures { result ≡ position (type_named text.now) types.now }
{
    types.iter().position(|t| has_name(&t.name, text))
}

/// The first variable of this name.
pub fn find_variable(variables: &[Variable], text: &[u8]) -> Option<usize>
    ensures { result ≡ position (variable_named text.now) variables.now }
{
    variables.iter().position(|v| has_name(&v.name, text))
}

/// The first part of this name.
pub fn find_part(parts: &[Part], text: &[u8]) -> Option<usize>
    ensures { result ≡ position (part_named text.now) parts.now }
{
    parts.iter().position(|p| has_name(&p.name, text))
}
