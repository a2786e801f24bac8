//! Giving the names of a formula what they stand for. From left to right, the first side of an equation that stands for
//! nothing fitting is the fault.
#![tactic(auto)]

ghost use Rattle.std.specs.Prelude.{◌≡◌, IfOk, IfErr, map, if◌then◌else◌};
ghost use Rattle.lv_formula_text.specs.PhraseTree.{tree_of, trees_of, all, any};
ghost use Rattle.lv_base.specs.Tree.{tree_of as formula_of, always, never, implies, iff};
ghost use Rattle.lv_formula_text.specs.Resolving.{names_of, equation_of, value_named, on_ok, resolved, resolved_all, tree_result, boxed_result, trees_result};
ghost use Rattle.lv_formula_text.specs.ResolveFaults.{Tells};

use crate::path::Path;
use crate::phrase::{Phrase, PhraseNode};
use crate::scope::Scope;
use lv_base::boxed::{boxed, push_unboxed};
use lv_base::{Formula, ValId, VarId};
use std::alloc::{AllocError, Global};
use thiserror::Error;

/// Why a name can't be given what it stands for.
#[derive(Clone, Copy, Debug, PartialEq, Eq)]
pub enum NameFault {
    /// The left side of an equation names no variable.
    UnknownName,
    /// The right side names neither a value of the left side's domain nor a variable of that domain.
    NoFit,
}

/// Why a formula can't be resolved.
#[derive(Clone, Copy, Debug, PartialEq, Eq, Error)]
pub enum ResolveFault {
    /// The left side of an equation names no variable.
    #[error("a name isn't known")]
    UnknownName,
    /// The right side names neither a value of the left side's domain nor a variable of that domain.
    #[error("the right side doesn't fit the left side")]
    NoFit,
    /// Memory ran out. No clause says when.
    #[error("out of memory")]
    Memory,
}

impl From<AllocError> for ResolveFault {
    ghost use Rattle.std.specs.Prelude.{◌≡◌};
    ghost use Rattle.lv_formula_text.specs.declared.resolver.ResolveFault.TheVariants.{Memory};

    ghost from_gives = { λ _ fault. fault ≡ Memory };

    fn from(_failed: AllocError) -> ResolveFault {
        ResolveFault::Memory
    }
}

/// The formula with what its names stand for in the scope.
pub fn resolve<S: Scope>(alloc: Global, phrase: &Phrase, scope: &S) -> Result<Formula, ResolveFault>
    ensures ok { IfOk result (λ f. resolved (names_of S.named_variable S.named_value S.share_domain scope.now) phrase.now ≡ Ok (formula_of f)) }
    ensures fault { IfErr result (λ fault. Tells fault (resolved (names_of S.named_variable S.named_value S.share_domain scope.now) phrase.now)) }
{
    match resolve_node(alloc, phrase.root(), scope)? {
        Ok(formula) => Ok(Box::into_inner(formula)),
        Err(NameFault::UnknownName) => Err(ResolveFault::UnknownName),
        Err(NameFault::NoFit) => Err(ResolveFault::NoFit),
    }
}

/// The formula in a box, or the first fault: each level of a deep formula keeps no more than this on the stack.
#[cycle(resolve)]
#[inline(never)]
fn resolve_node<S: Scope>(
    alloc: Global,
    node: &PhraseNode,
    scope: &S,
) -> Result<Result<Box<Formula>, NameFault>, AllocError>
    ensures { IfOk result (λ found. boxed_result found ≡ resolved (names_of S.named_variable S.named_value S.share_domain scope.now) (tree_of node.now)) }
{
    match node {
        PhraseNode::True => Ok(Ok(constant(alloc, true)?)),
        PhraseNode::False => Ok(Ok(constant(alloc, false)?)),
        PhraseNode::Equals(sides) => resolve_equation(alloc, &sides.left, &sides.right, scope),
        PhraseNode::Not(f) => match resolve_node(alloc, f, scope)? {
            Ok(f) => Ok(Ok(boxed(alloc, Formula::Not(f))?)),
            Err(fault) => Ok(Err(fault)),
        },
        PhraseNode::And(fs) => resolve_conjunction(alloc, fs, scope),
        PhraseNode::Or(fs) => resolve_disjunction(alloc, fs, scope),
        PhraseNode::Implies(f, g) => match resolve_node(alloc, f, scope)? {
            Ok(f) => resolve_implication(alloc, f, g, scope),
            Err(fault) => Ok(Err(fault)),
        },
        PhraseNode::Iff(f, g) => match resolve_node(alloc, f, scope)? {
            Ok(f) => resolve_equivalence(alloc, f, g, scope),
            Err(fault) => Ok(Err(fault)),
        },
    }
}

#[cycle(resolve)]
#[inline(never)]
fn resolve_conjunction<S: Scope>(
    alloc: Global,
    operands: &[PhraseNode],
    scope: &S,
) -> Result<Result<Box<Formula>, NameFault>, AllocError>
    ensures { IfOk result (λ found. boxed_result found ≡ resolved (names_of S.named_variable S.named_value S.share_domain scope.now) (all (trees_of (map tree_of operands.now)))) }
{
    match resolve_all(alloc, operands, scope)? {
        Ok(fs) => Ok(Ok(boxed(alloc, Formula::And(fs))?)),
        Err(fault) => Ok(Err(fault)),
    }
}

#[cycle(resolve)]
#[inline(never)]
fn resolve_disjunction<S: Scope>(
    alloc: Global,
    operands: &[PhraseNode],
    scope: &S,
) -> Result<Result<Box<Formula>, NameFault>, AllocError>
    ensures { IfOk result (λ found. boxed_result found ≡ resolved (names_of S.named_variable S.named_value S.share_domain scope.now) (any (trees_of (map tree_of operands.now)))) }
{
    match resolve_all(alloc, operands, scope)? {
        Ok(fs) => Ok(Ok(boxed(alloc, Formula::Or(fs))?)),
        Err(fault) => Ok(Err(fault)),
    }
}

/// The implication of a formula found before.
#[cycle(resolve)]
#[inline(never)]
fn resolve_implication<S: Scope>(
    alloc: Global,
    left: Box<Formula>,
    right: &PhraseNode,
    scope: &S,
) -> Result<Result<Box<Formula>, NameFault>, AllocError>
    ensures { IfOk result (λ found. boxed_result found ≡ on_ok (resolved (names_of S.named_variable S.named_value S.share_domain scope.now) (tree_of right.now)) (λ u. Ok (implies (formula_of left.value) u))) }
{
    match resolve_node(alloc, right, scope)? {
        Ok(right) => Ok(Ok(boxed(alloc, Formula::Implies(left, right))?)),
        Err(fault) => Ok(Err(fault)),
    }
}

/// The equivalence of a formula found before.
#[cycle(resolve)]
#[inline(never)]
fn resolve_equivalence<S: Scope>(
    alloc: Global,
    left: Box<Formula>,
    right: &PhraseNode,
    scope: &S,
) -> Result<Result<Box<Formula>, NameFault>, AllocError>
    ensures { IfOk result (λ found. boxed_result found ≡ on_ok (resolved (names_of S.named_variable S.named_value S.share_domain scope.now) (tree_of right.now)) (λ u. Ok (iff (formula_of left.value) u))) }
{
    match resolve_node(alloc, right, scope)? {
        Ok(right) => Ok(Ok(boxed(alloc, Formula::Iff(left, right))?)),
        Err(fault) => Ok(Err(fault)),
    }
}

/// The formulas in written order, or the first fault. An equation, as most operands are, is put where it belongs at once.
#[cycle(resolve)]
#[inline(always)]
fn resolve_all<S: Scope>(
    alloc: Global,
    operands: &[PhraseNode],
    scope: &S,
) -> Result<Result<Vec<Formula>, NameFault>, AllocError>
    ensures { IfOk result (λ found. trees_result found ≡ resolved_all (names_of S.named_variable S.named_value S.share_domain scope.now) (trees_of (map tree_of operands.now))) }
{
    let mut found = Vec::new(alloc);
    'operands: for operand in operands {
        if let PhraseNode::Equals(sides) = operand {
            match equation(scope, &sides.left, &sides.right) {
                Ok(formula) => found.push(formula)?,
                Err(fault) => return Ok(Err(fault)),
            }
            continue;
        }
        match resolve_node(alloc, operand, scope)? {
            Ok(formula) => push_unboxed(&mut found, formula)?,
            Err(fault) => return Ok(Err(fault)),
        }
    }
    Ok(Ok(found))
}

/// The formula that is always true, or the one that never is.
#[inline(never)]
fn constant(alloc: Global, truth: bool) -> Result<Box<Formula>, AllocError>
    ensures { IfOk result (λ f. formula_of f.value ≡ (if truth then always else never)) }
{
    if truth {
        Ok(Box::new(alloc, Formula::True)?)
    } else {
        Ok(Box::new(alloc, Formula::False)?)
    }
}

#[inline(never)]
fn resolve_equation<S: Scope>(
    alloc: Global,
    left: &Path,
    right: &Path,
    scope: &S,
) -> Result<Result<Box<Formula>, NameFault>, AllocError>
    ensures { IfOk result (λ found. boxed_result found ≡ equation_of (names_of S.named_variable S.named_value S.share_domain scope.now) left.now right.now) }
{
    match equation(scope, left, right) {
        Ok(formula) => Ok(Ok(Box::new(alloc, formula)?)),
        Err(fault) => Ok(Err(fault)),
    }
}

/// The equation of a variable with a value, or with a variable of the same domain; a value comes first.
fn equation<S: Scope>(scope: &S, left: &Path, right: &Path) -> Result<Formula, NameFault>
    ensures { tree_result result ≡ equation_of (names_of S.named_variable S.named_value S.share_domain scope.now) left.now right.now }
{
    let Some(variable) = scope.variable(left) else {
        return Err(NameFault::UnknownName);
    };
    if let Some(value) = value_named(scope, variable, right) {
        return Ok(Formula::Is(variable, value));
    }
    let Some(other) = scope.variable(right) else {
        return Err(NameFault::NoFit);
    };
    if scope.same_domain(variable, other) {
        Ok(Formula::Same(variable, other))
    } else {
        Err(NameFault::NoFit)
    }
}

/// The value of a variable's domain that a path names: only a word alone may.
fn value_named<S: Scope>(scope: &S, variable: VarId, path: &Path) -> Option<ValId>
    ensures { result ≡ value_named (names_of S.named_variable S.named_value S.share_domain scope.now) variable path.now }
{
    match path {
        Path::Own(name) => scope.value(variable, name.as_slice()),
        Path::OfPart(_, _) => None,
    }
}
