//! The clauses of a formula in a sign. What `<=>` joins is wanted in both signs, so one walk makes the lists of all signs that
//! are asked for: each part of the formula is looked at once, and no list is made that isn't used. The walk goes as deep as
//! the formula, so what makes lists is kept out of its frames, and the lists are handed back in a box.
#![tactic(auto)]

ghost use Rattle.std.specs.Prelude.{◌≡◌, true, false, not, ◌++◌, IfOk, OnOk, IsTrue, [], ◌∷◌, ◌<◌, ◌≤◌, ◌+◌, map, length};
ghost use Rattle.lv_base.specs.Tree.{tree_of, trees_of};
ghost use Rattle.lv_clauses.specs.Literals.{neg};
ghost use Rattle.lv_compile.specs.Booleans.{value_literal};
ghost use Rattle.lv_compile.specs.FormulaClauses.{asked, when_true, product, gather, formula_clauses, gathered_clauses, equality_clause, equality_clauses, speaks_of, each_speaks_of, size_of};

use crate::clause_lists::{both_lists, gather, gather_literal, product, when_true};
use crate::value_bools::ValueBools;
use lv_base::{Formula, Lit, Seq};
use lv_clauses::negation;
use std::alloc::{AllocError, Global};

/// In which signs clauses are asked for.
#[derive(Clone, Copy)]
struct Signs {
    when_true: bool,
    when_false: bool,
}

/// The clauses that say that a formula is true, and those that say that it is false; none in a sign that isn't asked for.
#[derive(Drop)]
struct Lists {
    when_true: Vec<Seq<Lit>>,
    when_false: Vec<Seq<Lit>>,
}

/// Where clauses are made: variable `v` of the formula is variable `base + v` of the copy.
#[derive(Clone, Copy)]
struct Target<'a> {
    alloc: Global,
    bools: &'a ValueBools,
    base: u32,
}

/// That two variables of a copy have one value, or, in the other sign, that they haven't.
#[derive(Clone, Copy)]
struct Equation {
    left: usize,
    right: usize,
    sign: bool,
}

/// The list of one clause of one literal.
fn single(alloc: Global, lit: Lit) -> Result<Vec<Seq<Lit>>, AllocError>
    ensures { IfOk result (λ out. out.items ≡ (lit ∷ []) ∷ []) }
{
    let mut out = Vec::new(alloc);
    out.push(Seq::from_slice(alloc, &[lit])?)?;
    Ok(out)
}

/// If the left one has the value, then the right one has it, or, in the other sign, hasn't.
fn equality_clause(
    alloc: Global,
    bools: &ValueBools,
    equation: Equation,
    value: u32,
) -> Result<Seq<Lit>, AllocError>
    requires left { value < size_of bools.now equation.left }
    requires right { value < size_of bools.now equation.right }
    ensures { IfOk result (λ c. c ≡ equality_clause bools.now equation.left equation.right equation.sign value) }
{
    let has = bools.literal(equation.left, value, false);
    let other = bools.literal(equation.right, value, equation.sign);
    Seq::from_slice(alloc, &[has, other])
}

/// What the equation says of each value.
fn equality(
    alloc: Global,
    bools: &ValueBools,
    equation: Equation,
) -> Result<Vec<Seq<Lit>>, AllocError>
    requires left { equation.left < length bools.now.sizes }
    requires right { size_of bools.now equation.left ≤ size_of bools.now equation.right }
    ensures { IfOk result (λ out. out.items ≡ equality_clauses bools.now equation.left equation.right equation.sign) }
{
    let mut out = Vec::new(alloc);
    for value in 0..bools.size(equation.left) {
        out.push(equality_clause(alloc, bools, equation, value)?)?;
    }
    Ok(out)
}

/// What is true of everything or of nothing, where it is asked for.
fn truth_if(alloc: Global, is_asked: bool, is_true: bool) -> Result<Vec<Seq<Lit>>, AllocError>
    ensures { IfOk result (λ out. out.items ≡ asked is_asked (when_true is_true)) }
{
    if is_asked {
        when_true(alloc, is_true)
    } else {
        Ok(Vec::new(alloc))
    }
}

/// The list of one clause of one literal, where it is asked for.
fn single_if(alloc: Global, is_asked: bool, lit: Lit) -> Result<Vec<Seq<Lit>>, AllocError>
    ensures { IfOk result (λ out. out.items ≡ asked is_asked ((lit ∷ []) ∷ [])) }
{
    if is_asked {
        single(alloc, lit)
    } else {
        Ok(Vec::new(alloc))
    }
}

/// What the equation says of each value, where it is asked for.
fn equality_if(
    alloc: Global,
    is_asked: bool,
    bools: &ValueBools,
    equation: Equation,
) -> Result<Vec<Seq<Lit>>, AllocError>
    requires left { equation.left < length bools.now.sizes }
    requires right { size_of bools.now equation.left ≤ size_of bools.now equation.right }
    ensures { IfOk result (λ out. out.items ≡ asked is_asked (equality_clauses bools.now equation.left equation.right equation.sign)) }
{
    if is_asked {
        equality(alloc, bools, equation)
    } else {
        Ok(Vec::new(alloc))
    }
}

/// The products of one list with another and of a third with a fourth, one behind the other, where they are asked for.
fn products_if(
    alloc: Global,
    is_asked: bool,
    one: &[Seq<Lit>],
    other: &[Seq<Lit>],
    third: &[Seq<Lit>],
    fourth: &[Seq<Lit>],
) -> Result<Vec<Seq<Lit>>, AllocError>
    ensures { IfOk result (λ out. out.items ≡ asked is_asked (product one.now other.now ++ product third.now fourth.now)) }
{
    if is_asked {
        let front = product(alloc, one, other)?;
        let back = product(alloc, third, fourth)?;
        both_lists(front, back)
    } else {
        Ok(Vec::new(alloc))
    }
}

/// The lists of both signs, in a box of their own.
fn boxed(
    alloc: Global,
    when_true: Vec<Seq<Lit>>,
    when_false: Vec<Seq<Lit>>,
) -> Result<Box<Lists>, AllocError>
    ensures when_true { IfOk result (λ out. out.value.when_true.items ≡ when_true.items) }
    ensures when_false { IfOk result (λ out. out.value.when_false.items ≡ when_false.items) }
{
    let lists = Lists {
        when_true,
        when_false,
    };
    Ok(Box::new(alloc, lists)?)
}

/// What is true of everything or of nothing, in each sign that is asked for.
#[inline(never)]
fn truth_lists(alloc: Global, signs: Signs, is_true: bool) -> Result<Box<Lists>, AllocError>
    ensures when_true { IfOk result (λ out. out.value.when_true.items ≡ asked signs.when_true (when_true is_true)) }
    ensures when_false { IfOk result (λ out. out.value.when_false.items ≡ asked signs.when_false (when_true (not is_true))) }
{
    let when_true = truth_if(alloc, signs.when_true, is_true)?;
    let when_false = truth_if(alloc, signs.when_false, !is_true)?;
    boxed(alloc, when_true, when_false)
}

/// That a variable has the value, and that it lacks it, in each sign that is asked for.
#[inline(never)]
fn literal_lists(
    alloc: Global,
    bools: &ValueBools,
    variable: usize,
    value: u32,
    signs: Signs,
) -> Result<Box<Lists>, AllocError>
    requires { value < size_of bools.now variable }
    ensures when_true { IfOk result (λ out. out.value.when_true.items ≡ asked signs.when_true ((value_literal bools.now variable value true ∷ []) ∷ [])) }
    ensures when_false { IfOk result (λ out. out.value.when_false.items ≡ asked signs.when_false ((value_literal bools.now variable value false ∷ []) ∷ [])) }
{
    let has = bools.literal(variable, value, true);
    let lacks = bools.literal(variable, value, false);
    let when_true = single_if(alloc, signs.when_true, has)?;
    let when_false = single_if(alloc, signs.when_false, lacks)?;
    boxed(alloc, when_true, when_false)
}

/// That two variables have one value, and that they haven't, in each sign that is asked for.
#[inline(never)]
fn equality_lists(
    alloc: Global,
    bools: &ValueBools,
    left: usize,
    right: usize,
    signs: Signs,
) -> Result<Box<Lists>, AllocError>
    requires left { left < length bools.now.sizes }
    requires right { size_of bools.now left ≤ size_of bools.now right }
    ensures when_true { IfOk result (λ out. out.value.when_true.items ≡ asked signs.when_true (equality_clauses bools.now left right true)) }
    ensures when_false { IfOk result (λ out. out.value.when_false.items ≡ asked signs.when_false (equality_clauses bools.now left right false)) }
{
    let same = Equation {
        left,
        right,
        sign: true,
    };
    let other = Equation {
        left,
        right,
        sign: false,
    };
    let when_true = equality_if(alloc, signs.when_true, bools, same)?;
    let when_false = equality_if(alloc, signs.when_false, bools, other)?;
    boxed(alloc, when_true, when_false)
}

/// Each sign for the other.
fn turned(signs: Signs) -> Signs
    ensures when_true { result.when_true ≡ signs.when_false }
    ensures when_false { result.when_false ≡ signs.when_true }
{
    Signs {
        when_true: signs.when_false,
        when_false: signs.when_true,
    }
}

fn both_signs() -> Signs
    ensures when_true { result.when_true ≡ true }
    ensures when_false { result.when_false ≡ true }
{
    Signs {
        when_true: true,
        when_false: true,
    }
}

/// The lists of each sign for those of the other.
#[inline(never)]
fn turned_lists(alloc: Global, lists: Box<Lists>) -> Result<Box<Lists>, AllocError>
    ensures when_true { IfOk result (λ out. out.value.when_true.items ≡ lists.value.when_false.items) }
    ensures when_false { IfOk result (λ out. out.value.when_false.items ≡ lists.value.when_true.items) }
{
    let lists = Box::into_inner(lists);
    boxed(alloc, lists.when_false, lists.when_true)
}

/// That all that was gathered and one more hold, and that not all do, or that one of them does, and that none does.
#[inline(never)]
fn gathered_lists(
    alloc: Global,
    of_all: bool,
    front: Box<Lists>,
    back: Box<Lists>,
) -> Result<Box<Lists>, AllocError>
    ensures when_true { IfOk result (λ out. out.value.when_true.items ≡ gather of_all front.value.when_true.items back.value.when_true.items) }
    ensures when_false { IfOk result (λ out. out.value.when_false.items ≡ gather (not of_all) front.value.when_false.items back.value.when_false.items) }
{
    let front = Box::into_inner(front);
    let back = Box::into_inner(back);
    let when_true = gather(alloc, of_all, front.when_true, back.when_true)?;
    let when_false = gather(alloc, !of_all, front.when_false, back.when_false)?;
    boxed(alloc, when_true, when_false)
}

/// That what was gathered and the literal are true, or one of the two, where it is asked for.
fn gather_if(
    alloc: Global,
    is_asked: bool,
    of_all: bool,
    out: &mut Vec<Seq<Lit>>,
    literal: Lit,
) -> Result<(), AllocError>
    requires { out.old.items ≡ asked is_asked out.old.items }
    ensures { OnOk result (out.new.items ≡ gather of_all out.old.items (asked is_asked ((literal ∷ []) ∷ []))) }
{
    if is_asked {
        gather_literal(alloc, of_all, out, literal)
    } else {
        Ok(())
    }
}

/// That what was gathered and the literal are true, or one of the two; and that they aren't.
#[inline(never)]
fn gather_literals(
    alloc: Global,
    lists: &mut Lists,
    literal: Lit,
    signs: Signs,
    of_all: bool,
) -> Result<(), AllocError>
    requires when_true { lists.old.when_true.items ≡ asked signs.when_true lists.old.when_true.items }
    requires when_false { lists.old.when_false.items ≡ asked signs.when_false lists.old.when_false.items }
    ensures when_true { OnOk result (lists.new.when_true.items ≡ gather of_all lists.old.when_true.items (asked signs.when_true ((literal ∷ []) ∷ []))) }
    ensures when_false { OnOk result (lists.new.when_false.items ≡ gather (not of_all) lists.old.when_false.items (asked signs.when_false ((neg literal ∷ []) ∷ []))) }
{
    gather_if(
        alloc,
        signs.when_true,
        of_all,
        &mut lists.when_true,
        literal,
    )?;
    gather_if(
        alloc,
        signs.when_false,
        !of_all,
        &mut lists.when_false,
        negation(literal),
    )
}

/// That the one implies the other, and that it doesn't.
#[inline(never)]
fn implication_lists(alloc: Global, f: Box<Lists>, g: Box<Lists>) -> Result<Box<Lists>, AllocError>
    ensures when_true { IfOk result (λ out. out.value.when_true.items ≡ product f.value.when_false.items g.value.when_true.items) }
    ensures when_false { IfOk result (λ out. out.value.when_false.items ≡ f.value.when_true.items ++ g.value.when_false.items) }
{
    let f = Box::into_inner(f);
    let g = Box::into_inner(g);
    let when_true = product(alloc, f.when_false.as_slice(), g.when_true.as_slice())?;
    let when_false = both_lists(f.when_true, g.when_false)?;
    boxed(alloc, when_true, when_false)
}

/// That both are true or neither is, and that one of them alone is, in each sign that is asked for.
#[inline(never)]
fn equivalence_lists(
    alloc: Global,
    signs: Signs,
    f: &Lists,
    g: &Lists,
) -> Result<Box<Lists>, AllocError>
    ensures when_true { IfOk result (λ out. out.value.when_true.items ≡ asked signs.when_true (product f.now.when_false.items g.now.when_true.items ++ product f.now.when_true.items g.now.when_false.items)) }
    ensures when_false { IfOk result (λ out. out.value.when_false.items ≡ asked signs.when_false (product f.now.when_true.items g.now.when_true.items ++ product f.now.when_false.items g.now.when_false.items)) }
{
    let f_true = f.when_true.as_slice();
    let f_false = f.when_false.as_slice();
    let g_true = g.when_true.as_slice();
    let g_false = g.when_false.as_slice();
    let when_true = products_if(alloc, signs.when_true, f_false, g_true, f_true, g_false)?;
    let when_false = products_if(alloc, signs.when_false, f_true, g_true, f_false, g_false)?;
    boxed(alloc, when_true, when_false)
}

/// The clauses of a formula in a sign: where truth values encode an assignment, they make all of them true exactly where
/// the formula has that truth. Variable `v` of the formula is variable `base + v` of the copy.
pub fn formula_clauses(
    alloc: Global,
    bools: &ValueBools,
    base: u32,
    formula: &Formula,
    sign: bool,
) -> Result<Vec<Seq<Lit>>, AllocError>
    requires { IsTrue (speaks_of bools.now base (tree_of formula.now)) }
    ensures { IfOk result (λ out. out.items ≡ formula_clauses bools.now base sign (tree_of formula.now)) }
{
    let signs = Signs {
        when_true: sign,
        when_false: !sign,
    };
    let target = Target { alloc, bools, base };
    let lists = Box::into_inner(signed_clauses(&target, formula, signs)?);
    if sign {
        Ok(lists.when_true)
    } else {
        Ok(lists.when_false)
    }
}

/// The clauses of a formula in each sign that is asked for.
#[inline(never)]
#[cycle(signed_clauses)]
fn signed_clauses(
    target: &Target<'_>,
    formula: &Formula,
    signs: Signs,
) -> Result<Box<Lists>, AllocError>
    requires { IsTrue (speaks_of target.now.bools.now target.now.base (tree_of formula.now)) }
    ensures when_true { IfOk result (λ out. out.value.when_true.items ≡ asked signs.when_true (formula_clauses target.now.bools.now target.now.base true (tree_of formula.now))) }
    ensures when_false { IfOk result (λ out. out.value.when_false.items ≡ asked signs.when_false (formula_clauses target.now.bools.now target.now.base false (tree_of formula.now))) }
{
    match formula {
        Formula::True => truth_lists(target.alloc, signs, true),
        Formula::False => truth_lists(target.alloc, signs, false),
        Formula::Is(var, val) => {
            let var = target.base as usize + var.0 as usize;
            literal_lists(target.alloc, target.bools, var, val.0, signs)
        }
        Formula::Same(left, right) => {
            let left = target.base as usize + left.0 as usize;
            let right = target.base as usize + right.0 as usize;
            equality_lists(target.alloc, target.bools, left, right, signs)
        }
        Formula::Not(f) => {
            let f = signed_clauses(target, f, turned(signs))?;
            turned_lists(target.alloc, f)
        }
        Formula::And(fs) => gathered_clauses(target, fs, signs, true),
        Formula::Or(fs) => gathered_clauses(target, fs, signs, false),
        Formula::Implies(f, g) => {
            let f = signed_clauses(target, f, turned(signs))?;
            implication_clauses(target, f, g, signs)
        }
        Formula::Iff(f, g) => {
            let f = signed_clauses(target, f, both_signs())?;
            equivalence_clauses(target, f, g, signs)
        }
    }
}

/// That what has these lists implies the formula, and that it doesn't.
#[inline(never)]
#[cycle(signed_clauses)]
fn implication_clauses(
    target: &Target<'_>,
    f: Box<Lists>,
    g: &Formula,
    signs: Signs,
) -> Result<Box<Lists>, AllocError>
    requires { IsTrue (speaks_of target.now.bools.now target.now.base (tree_of g.now)) }
    ensures when_true { IfOk result (λ out. out.value.when_true.items ≡ product f.value.when_false.items (asked signs.when_true (formula_clauses target.now.bools.now target.now.base true (tree_of g.now)))) }
    ensures when_false { IfOk result (λ out. out.value.when_false.items ≡ f.value.when_true.items ++ asked signs.when_false (formula_clauses target.now.bools.now target.now.base false (tree_of g.now))) }
{
    let g = signed_clauses(target, g, signs)?;
    implication_lists(target.alloc, f, g)
}

/// That what has these lists and the formula are both true or neither is, and that one of them alone is, in each sign that
/// is asked for.
#[inline(never)]
#[cycle(signed_clauses)]
fn equivalence_clauses(
    target: &Target<'_>,
    f: Box<Lists>,
    g: &Formula,
    signs: Signs,
) -> Result<Box<Lists>, AllocError>
    requires { IsTrue (speaks_of target.now.bools.now target.now.base (tree_of g.now)) }
    ensures when_true { IfOk result (λ out. out.value.when_true.items ≡ asked signs.when_true (product f.value.when_false.items (formula_clauses target.now.bools.now target.now.base true (tree_of g.now)) ++ product f.value.when_true.items (formula_clauses target.now.bools.now target.now.base false (tree_of g.now)))) }
    ensures when_false { IfOk result (λ out. out.value.when_false.items ≡ asked signs.when_false (product f.value.when_true.items (formula_clauses target.now.bools.now target.now.base true (tree_of g.now)) ++ product f.value.when_false.items (formula_clauses target.now.bools.now target.now.base false (tree_of g.now)))) }
{
    let g = signed_clauses(target, g, both_signs())?;
    equivalence_lists(target.alloc, signs, &f, &g)
}

/// That all the operands are true, and that not all are, where they are joined by `&`; that one is, and that none is,
/// where they aren't.
#[inline(never)]
#[cycle(signed_clauses)]
fn gathered_clauses(
    target: &Target<'_>,
    operands: &[Formula],
    signs: Signs,
    of_all: bool,
) -> Result<Box<Lists>, AllocError>
    requires { IsTrue (each_speaks_of target.now.bools.now target.now.base (trees_of (map tree_of operands.now))) }
    ensures when_true { IfOk result (λ out. out.value.when_true.items ≡ asked signs.when_true (gathered_clauses target.now.bools.now target.now.base of_all true (trees_of (map tree_of operands.now)))) }
    ensures when_false { IfOk result (λ out. out.value.when_false.items ≡ asked signs.when_false (gathered_clauses target.now.bools.now target.now.base (not of_all) false (trees_of (map tree_of operands.now)))) }
{
    let mut whole = truth_lists(target.alloc, signs, of_all)?;
    'operands: for operand in operands {
        whole = with_operand(target, whole, operand, signs, of_all)?;
    }
    Ok(whole)
}

/// What was gathered and one operand more. That a variable has a value is put into the lists where they lie.
#[inline(always)]
#[cycle(signed_clauses)]
fn with_operand(
    target: &Target<'_>,
    whole: Box<Lists>,
    operand: &Formula,
    signs: Signs,
    of_all: bool,
) -> Result<Box<Lists>, AllocError>
    requires speaks { IsTrue (speaks_of target.now.bools.now target.now.base (tree_of operand.now)) }
    requires when_true { whole.value.when_true.items ≡ asked signs.when_true whole.value.when_true.items }
    requires when_false { whole.value.when_false.items ≡ asked signs.when_false whole.value.when_false.items }
    ensures when_true { IfOk result (λ out. out.value.when_true.items ≡ gather of_all whole.value.when_true.items (asked signs.when_true (formula_clauses target.now.bools.now target.now.base true (tree_of operand.now)))) }
    ensures when_false { IfOk result (λ out. out.value.when_false.items ≡ gather (not of_all) whole.value.when_false.items (asked signs.when_false (formula_clauses target.now.bools.now target.now.base false (tree_of operand.now)))) }
{
    let Formula::Is(var, val) = operand else {
        let more = signed_clauses(target, operand, signs)?;
        return gathered_lists(target.alloc, of_all, whole, more);
    };
    let var = target.base as usize + var.0 as usize;
    let literal = target.bools.literal(var, val.0, true);
    let mut whole = whole;
    gather_literals(target.alloc, &mut whole, literal, signs, of_all)?;
    Ok(whole)
}
