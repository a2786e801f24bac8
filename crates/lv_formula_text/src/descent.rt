//! The tree that the tokens of a formula have, as a function that computes, and its law to the grammar.
//!
//! The grammar of formulas stays the definition: it says which trees tokens have. The function answers the one tree
//! that they have, or that they have none, for definitions that take a step from what a line says.
//!
//! Each Rust function does nothing: its contract is the law, which callers above cite by calling it.
#![tactic(auto)]

ghost use Rattle.lv_formula_text.specs.DescentLaws.{PhraseOfIsFormula};
ghost use Rattle.lv_formula_text.specs.DescentExample.{Examples};

/// The function answers a tree exactly where the grammar derives it. So it answers none exactly where the tokens are no
/// formula.
pub fn phrase_of_is_formula()
    ensures { PhraseOfIsFormula }
{}

/// Worked examples: a formula with each connective in it, and tokens that are no formula.
pub fn examples()
    ensures { Examples }
{}
