//! What holds of formulas whatever their text.
//!
//! Each function does nothing: its contract is the law.
#![tactic(auto)]

ghost use Rattle.lv_formula_text.specs.Laws.{FormulaIsOne, CanonicalReadsBack, CanonicalOmits, CanonicalIsText, CanonicalIsShallow, CanonicalIsNoLonger, SpacedIsNoLonger, SpacedIsReadAgain};
ghost use Rattle.lv_formula_text.specs.Fitting.{ResolvedFits};

/// Tokens have at most one tree.
pub fn formula_is_one()
    ensures { FormulaIsOne }
{}

/// What is printed canonically is read back as the formula that was printed.
pub fn canonical_reads_back()
    ensures { CanonicalReadsBack }
{}

/// The canonical tokens of a formula are those that derive it, some pairs of parentheses left out. So they are tokens
/// too, nest no deeper, and have no longer a text.
pub fn canonical_omits_parentheses()
    ensures tokens { CanonicalOmits }
    ensures texts { CanonicalIsText }
    ensures depth { CanonicalIsShallow }
    ensures length { CanonicalIsNoLonger }
{}

/// The text of tokens, with no more spaces than they need, is no longer than a line that reads as them.
pub fn spaced_is_no_longer()
    ensures { SpacedIsNoLonger }
{}

/// The text of tokens, with no more spaces than they need, is read again as these tokens.
pub fn spaced_is_read_again()
    ensures { SpacedIsReadAgain }
{}

/// A formula that is resolved in a scope whose answers keep to ranges fits them.
pub fn resolved_fits()
    ensures { ResolvedFits }
{}
