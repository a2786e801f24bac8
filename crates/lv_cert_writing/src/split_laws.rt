//! The laws of settled searches and of splits as lines. The functions do nothing; their clauses are the laws, and a caller
//! that needs one calls it.
#![tactic(auto)]

ghost use Rattle.lv_cert_writing.specs.SplitLaws.{SettledWalkExplains};
ghost use Rattle.lv_cert_writing.specs.SplitLines.{SplitsEndWell};

/// A settled search explains each of its candidates: it ranks behind the last of as many as are wanted, contains a kept
/// conflict, or is listed.
pub fn settled_walk_explains()
    ensures { SettledWalkExplains }
{}

/// Splits that close the zones, as lines, end a certificate well.
pub fn splits_end_well()
    ensures { SplitsEndWell }
{}
