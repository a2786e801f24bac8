//! Laws of searches. The functions do nothing; their clauses are the laws, and a caller that needs one calls it.
#![tactic(auto)]

ghost use Rattle.lv_search.specs.Laws.{RankedMembersAreMembers, StartIsUnderWay};

/// The entries of a search: in rising order exactly the members of its zones.
pub fn ranked_members_are_members()
    ensures { RankedMembersAreMembers }
{}

/// A search that has tried nothing is on the walk along what is left, whatever its trial.
pub fn start_is_under_way()
    ensures { StartIsUnderWay }
{}
