//! What the variables of a formula range over. A formula fits a list of ranges where each of its equations compares a
//! variable of the list with one of its values, or two variables of one domain.
#![tactic(auto)]

ghost use Rattle.std.specs.Prelude.{◌≡◌, nat_lt, slice_get};
ghost use Rattle.std.specs.Option.{option_copied};
ghost use Rattle.lv_base.specs.Fits.{is_same_sort, has_value, are_alike};

use super::ids::{ValId, VarId};

/// Where the values of a variable stand: the modes of the type at a place, or the values of the domain at a place.
#[derive(Clone, Copy, Debug, PartialEq, Eq)]
pub enum Sort {
    Modes(usize),
    Values(usize),
}

/// What a variable ranges over: values of this sort, which are so many.
#[derive(Clone, Copy, Debug, PartialEq, Eq)]
pub struct Range {
    pub sort: Sort,
    pub size: usize,
}

pub fn is_same_sort(left: Sort, right: Sort) -> bool
    ensures { result ≡ is_same_sort left right }
{
    match (left, right) {
        (Sort::Modes(left), Sort::Modes(right)) => left == right,
        (Sort::Values(left), Sort::Values(right)) => left == right,
        (Sort::Modes(_), Sort::Values(_)) => false,
        (Sort::Values(_), Sort::Modes(_)) => false,
    }
}

fn range_of(ranges: &[Range], var: VarId) -> Option<&Range>
    ensures { option_copied result ≡ slice_get ranges.now var.0 }
{
    ranges.get(var.0 as usize)
}

/// Whether the variable is one of these and has this value.
pub fn has_value(ranges: &[Range], var: VarId, val: ValId) -> bool
    ensures { result ≡ has_value ranges.now var.0 val.0 }
{
    match range_of(ranges, var) {
        Some(range) => (val.0 as usize) < range.size,
        None => false,
    }
}

/// Whether both variables are among these and range over one domain.
pub fn are_alike(ranges: &[Range], left: VarId, right: VarId) -> bool
    ensures { result ≡ are_alike ranges.now left.0 right.0 }
{
    match range_of(ranges, left) {
        Some(one) => match range_of(ranges, right) {
            Some(other) => is_same_sort(one.sort, other.sort),
            None => false,
        },
        None => false,
    }
}
