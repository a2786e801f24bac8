//! Formulas over variables with finite domains, and their truth.
//!
//! A formula holds itself through `Box` and `Vec`, so it can't be compared whole; every clause sees it as its tree, a
//! value of `specs/Tree.antt` without room or allocators, made by the fold `tree_of`. A `Condition` is a formula kept in
//! a value that clauses do compare whole, and is seen there as its tree.
#![tactic(auto)]

ghost use Rattle.std.specs.Prelude.{◌≡◌, ◌+◌, ◌<◌, ◌≤◌, IsTrue, IfSome, length};
ghost use Rattle.lv_base.specs.declared.limits.TheConstants.{FORMULA_CLAUSES};
ghost use Rattle.lv_base.specs.Tree.{tree_of, truth_of, reads_below, value_of};
ghost use Rattle.lv_base.specs.Fits.{fits};
ghost use Rattle.lv_base.specs.Counts.{clause_count};
ghost use Rattle.lv_base.specs.Fold.{is_true_in, reads_in, fits_in};

use super::ids::{ValId, VarId};
use super::range::{Range, are_alike, has_value};
use std::marker::Model;

/// A formula. `Is` compares a variable with a value of its domain, `Same` two variables of one domain. `And` and `Or`
/// have their operands in written order.
#[derive(Debug, Drop)]
pub enum Formula {
    True,
    False,
    Is(VarId, ValId),
    Same(VarId, VarId),
    Not(Box<Formula>),
    And(Vec<Formula>),
    Or(Vec<Formula>),
    Implies(Box<Formula>, Box<Formula>),
    Iff(Box<Formula>, Box<Formula>),
}

impl Formula {
    /// The formula's truth where variable `v` has the value `values[base + v]`: `base` is 0 for a law of the system, and
    /// the part's first variable for a formula of its type. Takes no memory.
    pub fn holds(&self, values: &[ValId], base: u32) -> bool
        requires { IsTrue (reads_below (length values.now) base (tree_of self.now)) }
        ensures { result ≡ truth_of values.now base (tree_of self.now) }
    {
        self.holds_from(values, base)
    }

    /// Whether each equation of the formula keeps to what its variables range over. Takes no memory.
    pub fn fits(&self, ranges: &[Range]) -> bool
        ensures { result ≡ fits ranges.now (tree_of self.now) }
    {
        self.fits_from(ranges)
    }

    /// The same, in the terms of a fold over the formula.
    fn fits_from(&self, ranges: &[Range]) -> bool
        ensures { result ≡ fits_in ranges.now self.now }
    {
        match self {
            Formula::True => true,
            Formula::False => true,
            Formula::Is(var, val) => has_value(ranges, *var, *val),
            Formula::Same(left, right) => are_alike(ranges, *left, *right),
            Formula::Not(f) => f.fits_from(ranges),
            Formula::And(fs) => {
                'all: for f in fs {
                    if !f.fits_from(ranges) {
                        return false;
                    }
                }
                true
            }
            Formula::Or(fs) => {
                'any: for f in fs {
                    if !f.fits_from(ranges) {
                        return false;
                    }
                }
                true
            }
            Formula::Implies(f, g) => f.fits_from(ranges) && g.fits_from(ranges),
            Formula::Iff(f, g) => f.fits_from(ranges) && g.fits_from(ranges),
        }
    }

    /// The truth, in the terms of a fold over the formula.
    fn holds_from(&self, values: &[ValId], base: u32) -> bool
        requires { IsTrue (reads_in (length values.now) base self.now) }
        ensures { result ≡ is_true_in values.now base self.now }
    {
        match self {
            Formula::True => true,
            Formula::False => false,
            Formula::Is(var, val) => value_at(values, base, *var).0 == val.0,
            Formula::Same(left, right) => {
                value_at(values, base, *left).0 == value_at(values, base, *right).0
            }
            Formula::Not(f) => !f.holds_from(values, base),
            Formula::And(fs) => {
                'all: for f in fs {
                    if !f.holds_from(values, base) {
                        return false;
                    }
                }
                true
            }
            Formula::Or(fs) => {
                'any: for f in fs {
                    if f.holds_from(values, base) {
                        return true;
                    }
                }
                false
            }
            Formula::Implies(f, g) => !f.holds_from(values, base) || g.holds_from(values, base),
            Formula::Iff(f, g) => f.holds_from(values, base) == g.holds_from(values, base),
        }
    }
}

/// The value of a variable that is counted from `base`.
fn value_at(values: &[ValId], base: u32, var: VarId) -> ValId
    requires { base + var.0 < length values.now }
    ensures { result ≡ value_of values.now (base + var.0) }
{
    values[base as usize + var.0 as usize]
}

/// A formula inside a larger value, seen by clauses as its tree.
#[derive(Debug, Drop)]
pub struct Condition {
    formula: Formula,
}

impl Model for Condition {
    ghost use Rattle.lv_base.specs.TreeCode.{tree_code};
    ghost use Rattle.lv_base.specs.Tree.{Tree, tree_of};

    ghost Value = { Tree };

    ghost coded = { tree_code };

    ghost view = { λ c. tree_of c.formula };
}

impl Condition {
    pub fn new(formula: Formula) -> Condition
        ensures { result ≡ tree_of formula }
    {
        Condition { formula }
    }

    /// The formula.
    pub fn formula(&self) -> &Formula
        ensures { tree_of result.now ≡ self.now }
    {
        &self.formula
    }

    /// Whether each of its equations keeps to what its variables range over. Takes no memory.
    pub fn fits(&self, ranges: &[Range]) -> bool
        ensures { result ≡ fits ranges.now self.now }
    {
        self.formula.fits(ranges)
    }

    /// How many clauses the formula comes to in a sign, as `Formula::clause_count` tells it. Takes no memory.
    pub fn clause_count(&self, sign: bool, sizes: &[u32]) -> Option<u32>
        ensures is { result ≡ clause_count sizes.now sign self.now }
        ensures few { IfSome result (λ n. n ≤ FORMULA_CLAUSES) }
    {
        self.formula.clause_count(sign, sizes)
    }

    /// The formula's truth, as `Formula::holds` tells it. Takes no memory.
    pub fn holds(&self, values: &[ValId], base: u32) -> bool
        requires { IsTrue (reads_below (length values.now) base self.now) }
        ensures { result ≡ truth_of values.now base self.now }
    {
        self.formula.holds(values, base)
    }
}
