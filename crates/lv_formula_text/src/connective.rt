//! The connectives that stand between operands. From the loosest to the tightest: `<=>`, `=>`, `|`, `&`.
#![tactic(auto)]

ghost use Rattle.std.specs.Prelude.{◌≡◌, ◌<◌, ◌++◌, ◌∷◌, [], length, map, IfOk};
ghost use Rattle.lv_formula_text.specs.PhraseTree.{tree_of, tree_in};
ghost use Rattle.lv_formula_text.specs.Connectives.{sign_of, level, joined};
ghost use Rattle.lv_formula_text.specs.declared.connective.Connective.TheVariants.{Equivalence, Implication};

use crate::phrase::PhraseNode;
use lv_base::boxed::{boxed, push_unboxed};
use lv_text::TokenKind;
use std::alloc::{AllocError, Global};

/// A connective between operands.
#[derive(Clone, Copy, Debug, PartialEq, Eq)]
pub enum Connective {
    /// `<=>`: of three operands the last two belong together.
    Equivalence,
    /// `=>`: of three operands the last two belong together.
    Implication,
    /// `|`: all operands make one list.
    Disjunction,
    /// `&`: all operands make one list.
    Conjunction,
}

impl Connective {
    /// The token that stands between the operands.
    pub fn sign(self) -> TokenKind
        ensures { result ≡ sign_of self }
    {
        match self {
            Connective::Equivalence => TokenKind::Iff,
            Connective::Implication => TokenKind::Implies,
            Connective::Disjunction => TokenKind::Or,
            Connective::Conjunction => TokenKind::And,
        }
    }

    /// How tightly it binds: 1 for the loosest, 4 for the tightest.
    pub fn level(self) -> u32
        ensures { result ≡ level self }
    {
        match self {
            Connective::Equivalence => 1,
            Connective::Implication => 2,
            Connective::Disjunction => 3,
            Connective::Conjunction => 4,
        }
    }

    /// The formula that operands make, in written order, the last apart; one alone is itself.
    #[inline(never)]
    pub fn join(
        self,
        alloc: Global,
        mut operands: Vec<PhraseNode>,
        last: Box<PhraseNode>,
    ) -> Result<Box<PhraseNode>, AllocError>
        ensures { IfOk result (λ node. tree_in node ≡ joined self (map tree_of operands.items ++ tree_in last ∷ [])) }
    {
        if operands.is_empty() {
            return Ok(last);
        }
        push_unboxed(&mut operands, last)?;
        let whole = self.join_all(alloc, operands)?;
        boxed(alloc, whole)
    }

    /// The formula that two operands or more make, in written order.
    fn join_all(self, alloc: Global, operands: Vec<PhraseNode>) -> Result<PhraseNode, AllocError>
        requires { 1 < length operands.items }
        ensures { IfOk result (λ node. tree_of node ≡ joined self (map tree_of operands.items)) }
    {
        match self {
            Connective::Equivalence => nest_equivalences(alloc, operands),
            Connective::Implication => nest_implications(alloc, operands),
            Connective::Disjunction => Ok(PhraseNode::Or(operands)),
            Connective::Conjunction => Ok(PhraseNode::And(operands)),
        }
    }
}

/// The last two belong together, and these with the one before, and so on.
fn nest_equivalences(alloc: Global, mut operands: Vec<PhraseNode>) -> Result<PhraseNode, AllocError>
    requires { 0 < length operands.items }
    ensures { IfOk result (λ node. tree_of node ≡ joined Equivalence (map tree_of operands.items)) }
{
    let mut whole = operands.pop().unwrap();
    'operands: while let Some(left) = operands.pop() {
        whole = PhraseNode::Iff(Box::new(alloc, left)?, Box::new(alloc, whole)?);
    }
    Ok(whole)
}

/// The last two belong together, and these with the one before, and so on.
fn nest_implications(alloc: Global, mut operands: Vec<PhraseNode>) -> Result<PhraseNode, AllocError>
    requires { 0 < length operands.items }
    ensures { IfOk result (λ node. tree_of node ≡ joined Implication (map tree_of operands.items)) }
{
    let mut whole = operands.pop().unwrap();
    'operands: while let Some(left) = operands.pop() {
        whole = PhraseNode::Implies(Box::new(alloc, left)?, Box::new(alloc, whole)?);
    }
    Ok(whole)
}
