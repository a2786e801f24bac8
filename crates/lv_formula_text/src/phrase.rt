//! A formula with names as written.
//!
//! It holds itself through `Box` and `Vec`, so it can't be compared whole; clauses see it as its tree, a value of
//! `specs/PhraseTree.antt` without room or allocators. A `Phrase` is one kept in a value that clauses do compare whole.
#![tactic(auto)]

ghost use Rattle.std.specs.Prelude.{◌≡◌};
ghost use Rattle.lv_formula_text.specs.PhraseTree.{tree_in, tree_of};

use crate::path::Path;
use std::marker::Model;

/// An equation with names as written.
#[derive(Debug, Drop)]
pub struct Equation {
    pub left: Path,
    pub right: Path,
}

/// A formula with names as written. `And` and `Or` have their operands in written order.
#[derive(Debug, Drop)]
pub enum PhraseNode {
    True,
    False,
    Equals(Equation),
    Not(Box<PhraseNode>),
    And(Vec<PhraseNode>),
    Or(Vec<PhraseNode>),
    Implies(Box<PhraseNode>, Box<PhraseNode>),
    Iff(Box<PhraseNode>, Box<PhraseNode>),
}

/// A formula with names as written, inside a larger value, seen by clauses as its tree.
#[derive(Debug, Drop)]
pub struct Phrase {
    root: Box<PhraseNode>,
}

impl Model for Phrase {
    ghost use Rattle.lv_formula_text.specs.PhraseCode.{tree_code};
    ghost use Rattle.lv_formula_text.specs.PhraseTree.{PhraseTree, tree_in};

    ghost Value = { PhraseTree };

    ghost coded = { tree_code };

    ghost view = { λ p. tree_in p.root };
}

impl Phrase {
    pub fn new(root: Box<PhraseNode>) -> Phrase
        ensures { result ≡ tree_in root }
    {
        Phrase { root }
    }

    /// The formula itself.
    pub fn root(&self) -> &PhraseNode
        ensures { tree_of result.now ≡ self.now }
    {
        &self.root
    }
}
