//! Copies of formulas. What stands inside a formula is copied into its box, so that each level of a deep one keeps no
//! more than that on the stack.
#![tactic(auto)]

ghost use Rattle.std.specs.Prelude.{◌≡◌, IfOk, map};
ghost use Rattle.lv_base.specs.Tree.{tree_of, trees_of, all, any};

use super::boxed::{boxed, push_unboxed};
use super::formula::{Condition, Formula};
use std::alloc::{AllocError, Global};

impl Condition {
    /// The same formula once more.
    pub fn copied(&self, alloc: Global) -> Result<Condition, AllocError>
        ensures { IfOk result (λ copy. copy ≡ self.now) }
    {
        Ok(Condition::new(Box::into_inner(copy_of(alloc, self.formula())?)))
    }
}

#[cycle(copy)]
#[inline(never)]
fn copy_of(alloc: Global, formula: &Formula) -> Result<Box<Formula>, AllocError>
    ensures { IfOk result (λ copy. tree_of copy.value ≡ tree_of formula.now) }
{
    match formula {
        Formula::True => boxed(alloc, Formula::True),
        Formula::False => boxed(alloc, Formula::False),
        Formula::Is(x, v) => boxed(alloc, Formula::Is(*x, *v)),
        Formula::Same(x, y) => boxed(alloc, Formula::Same(*x, *y)),
        Formula::Not(f) => boxed(alloc, Formula::Not(copy_of(alloc, f)?)),
        Formula::And(fs) => conjunction_of(alloc, fs),
        Formula::Or(fs) => disjunction_of(alloc, fs),
        Formula::Implies(f, g) => {
            let left = copy_of(alloc, f)?;
            boxed(alloc, Formula::Implies(left, copy_of(alloc, g)?))
        }
        Formula::Iff(f, g) => {
            let left = copy_of(alloc, f)?;
            boxed(alloc, Formula::Iff(left, copy_of(alloc, g)?))
        }
    }
}

#[cycle(copy)]
#[inline(never)]
fn conjunction_of(alloc: Global, operands: &[Formula]) -> Result<Box<Formula>, AllocError>
    ensures { IfOk result (λ copy. tree_of copy.value ≡ all (trees_of (map tree_of operands.now))) }
{
    boxed(alloc, Formula::And(copies_of(alloc, operands)?))
}

#[cycle(copy)]
#[inline(never)]
fn disjunction_of(alloc: Global, operands: &[Formula]) -> Result<Box<Formula>, AllocError>
    ensures { IfOk result (λ copy. tree_of copy.value ≡ any (trees_of (map tree_of operands.now))) }
{
    boxed(alloc, Formula::Or(copies_of(alloc, operands)?))
}

#[cycle(copy)]
#[inline(always)]
fn copies_of(alloc: Global, formulas: &[Formula]) -> Result<Vec<Formula>, AllocError>
    ensures { IfOk result (λ copies. map tree_of copies.items ≡ map tree_of formulas.now) }
{
    let mut copies = Vec::new(alloc);
    'formulas: for formula in formulas {
        push_unboxed(&mut copies, copy_of(alloc, formula)?)?;
    }
    Ok(copies)
}
