//! How many clauses say that a formula is true, or false. They are counted without making them, so no memory is taken.
#![tactic(auto)]

ghost use Rattle.std.specs.Prelude.{◌≡◌, ◌≤◌, ◌+◌, ◌*◌, true, false, not, map, IfSome};
ghost use Rattle.lv_base.specs.declared.limits.TheConstants.{FORMULA_CLAUSES};
ghost use Rattle.lv_base.specs.Tree.{tree_of, trees_of};
ghost use Rattle.lv_base.specs.Counts.{within, joined, whole, gathered, truth_count, size_at, taken, clause_count, gathered_count};

use super::formula::Formula;
use super::ids::VarId;
use super::limits;

/// So many clauses, if a list may have as many.
fn within(n: u32) -> Option<u32>
    ensures is { result ≡ within n }
    ensures few { IfSome result (λ n. n ≤ FORMULA_CLAUSES) }
{
    if n <= limits::FORMULA_CLAUSES {
        Some(n)
    } else {
        None
    }
}

/// How many clauses say that both of two lists of so many hold, or that one of them does.
fn joined(of_all: bool, m: u32, n: u32) -> u32
    requires left { m ≤ FORMULA_CLAUSES + 1 }
    requires right { n ≤ FORMULA_CLAUSES }
    ensures { result ≡ joined of_all m n }
{
    if of_all { m + n } else { m * n }
}

/// Clauses that are true of everything, or of nothing.
fn truth_count(is_true: bool) -> u32
    ensures { result ≡ truth_count is_true }
{
    if is_true { 0 } else { 1 }
}

/// How many values the variable has; none where it isn't there.
fn size_at(sizes: &[u32], var: VarId) -> u32
    ensures { result ≡ size_at sizes.now var.0 }
{
    match sizes.get(var.0 as usize) {
        Some(size) => *size,
        None => 0,
    }
}

/// How many clauses say that a formula is true, and how many that it is false; none where a rule on the way gives a list
/// that is too long.
#[derive(Clone, Copy, Debug, PartialEq, Eq)]
pub struct Counts {
    pub when_true: Option<u32>,
    pub when_false: Option<u32>,
}

/// Both of two lists of so many clauses, or one of them; none where one of them is too long.
fn gathered(of_all: bool, one: Option<u32>, other: Option<u32>) -> Option<u32>
    requires one { IfSome one (λ n. n ≤ FORMULA_CLAUSES) }
    requires other { IfSome other (λ n. n ≤ FORMULA_CLAUSES) }
    ensures is { result ≡ gathered of_all one other }
    ensures few { IfSome result (λ n. n ≤ FORMULA_CLAUSES * FORMULA_CLAUSES) }
{
    match (one, other) {
        (Some(one), Some(other)) => Some(joined(of_all, one, other)),
        _ => None,
    }
}

/// The list that a rule gives, if it isn't too long.
fn whole(count: Option<u32>) -> Option<u32>
    ensures is { result ≡ whole count }
    ensures few { IfSome result (λ n. n ≤ FORMULA_CLAUSES) }
{
    within(count?)
}

/// Behind a list of so many clauses one more, or their product. Beyond the limit the number itself no longer counts, but
/// 0 still makes it 0.
fn taken(of_all: bool, count: Option<u32>, more: Option<u32>) -> Option<u32>
    requires count { IfSome count (λ n. n ≤ FORMULA_CLAUSES + 1) }
    requires more { IfSome more (λ n. n ≤ FORMULA_CLAUSES) }
    ensures is { result ≡ taken of_all count more }
    ensures few { IfSome result (λ n. n ≤ FORMULA_CLAUSES + 1) }
{
    match (count, more) {
        (Some(count), Some(more)) => {
            Some(joined(of_all, count, more).min(limits::FORMULA_CLAUSES + 1))
        }
        _ => None,
    }
}

/// The list of one rule that is two products behind each other.
fn both_products(
    one: Option<u32>,
    other: Option<u32>,
    third: Option<u32>,
    fourth: Option<u32>,
) -> Option<u32>
    requires one { IfSome one (λ n. n ≤ FORMULA_CLAUSES) }
    requires other { IfSome other (λ n. n ≤ FORMULA_CLAUSES) }
    requires third { IfSome third (λ n. n ≤ FORMULA_CLAUSES) }
    requires fourth { IfSome fourth (λ n. n ≤ FORMULA_CLAUSES) }
    ensures is { result ≡ whole (gathered true (gathered false one other) (gathered false third fourth)) }
    ensures few { IfSome result (λ n. n ≤ FORMULA_CLAUSES) }
{
    match (gathered(false, one, other), gathered(false, third, fourth)) {
        (Some(front), Some(back)) => within(front + back),
        _ => None,
    }
}

impl Formula {
    /// How many clauses say that the formula is true (`sign`), or that it is false, where the variables in scope have so
    /// many values; none where a rule on the way gives a list that is too long. Takes no memory.
    pub fn clause_count(&self, sign: bool, sizes: &[u32]) -> Option<u32>
        ensures is { result ≡ clause_count sizes.now sign (tree_of self.now) }
        ensures few { IfSome result (λ n. n ≤ FORMULA_CLAUSES) }
    {
        let counts = self.clause_counts(sizes);
        if sign {
            counts.when_true
        } else {
            counts.when_false
        }
    }

    /// The counts in both signs, found together, so that each part of the formula is looked at once.
    #[cycle(clause_counts)]
    fn clause_counts(&self, sizes: &[u32]) -> Counts
        ensures when_true { result.when_true ≡ clause_count sizes.now true (tree_of self.now) }
        ensures when_false { result.when_false ≡ clause_count sizes.now false (tree_of self.now) }
        ensures few_true { IfSome result.when_true (λ n. n ≤ FORMULA_CLAUSES) }
        ensures few_false { IfSome result.when_false (λ n. n ≤ FORMULA_CLAUSES) }
    {
        match self {
            Formula::True => Counts {
                when_true: Some(0),
                when_false: Some(1),
            },
            Formula::False => Counts {
                when_true: Some(1),
                when_false: Some(0),
            },
            Formula::Is(_, _) => Counts {
                when_true: Some(1),
                when_false: Some(1),
            },
            Formula::Same(left, _) => {
                let count = within(size_at(sizes, *left));
                Counts {
                    when_true: count,
                    when_false: count,
                }
            }
            Formula::Not(f) => {
                let f = f.clause_counts(sizes);
                Counts {
                    when_true: f.when_false,
                    when_false: f.when_true,
                }
            }
            Formula::And(fs) => gathered_counts(fs, sizes, true),
            Formula::Or(fs) => gathered_counts(fs, sizes, false),
            Formula::Implies(f, g) => {
                let f = f.clause_counts(sizes);
                let g = g.clause_counts(sizes);
                Counts {
                    when_true: whole(gathered(false, f.when_false, g.when_true)),
                    when_false: whole(gathered(true, f.when_true, g.when_false)),
                }
            }
            Formula::Iff(f, g) => {
                let f = f.clause_counts(sizes);
                let g = g.clause_counts(sizes);
                Counts {
                    when_true: both_products(f.when_false, g.when_true, f.when_true, g.when_false),
                    when_false: both_products(f.when_true, g.when_true, f.when_false, g.when_false),
                }
            }
        }
    }
}

/// That all the operands are true, and that not all are, where they are joined by `&`; that one is, and that none is,
/// where they aren't.
#[cycle(clause_counts)]
fn gathered_counts(operands: &[Formula], sizes: &[u32], of_all: bool) -> Counts
    ensures when_true { result.when_true ≡ whole (gathered_count sizes.now of_all true (trees_of (map tree_of operands.now))) }
    ensures when_false { result.when_false ≡ whole (gathered_count sizes.now (not of_all) false (trees_of (map tree_of operands.now))) }
    ensures few_true { IfSome result.when_true (λ n. n ≤ FORMULA_CLAUSES) }
    ensures few_false { IfSome result.when_false (λ n. n ≤ FORMULA_CLAUSES) }
{
    let mut positive = Some(truth_count(of_all));
    let mut negative = Some(truth_count(!of_all));
    'operands: for operand in operands {
        let counts = operand.clause_counts(sizes);
        positive = taken(of_all, positive, counts.when_true);
        negative = taken(!of_all, negative, counts.when_false);
    }
    Counts {
        when_true: whole(positive),
        when_false: whole(negative),
    }
}
