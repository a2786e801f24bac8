//! The laws of lines that follow. The functions do nothing; their clauses are the laws, and a caller that needs one
//! calls it.
#![tactic(auto)]

ghost use Rattle.lv_cert_meaning.specs.FollowingLaws.{FollowingIsSound, ClausesAreTheModels, GoodLinesRefute, FollowingIsTheLogs};

/// Values that make the clauses true make the clause of a line that follows from them true.
pub fn following_is_sound()
    ensures { FollowingIsSound }
{}

/// The numbered clauses of a plant's system are the plant's clauses, in their order.
pub fn clauses_are_the_models()
    ensures { ClausesAreTheModels }
{}

/// Where each line follows from the clauses and the lines before it, values that make the clauses true make every line's
/// clause true; and where the last line is empty there are no such values.
pub fn good_lines_refute()
    ensures { GoodLinesRefute }
{}

/// A line follows just where, as a step of a log, it follows by its hints: certificates and logs are checked by one rule.
pub fn following_is_the_logs()
    ensures { FollowingIsTheLogs }
{}
