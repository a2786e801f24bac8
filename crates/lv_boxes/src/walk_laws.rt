//! The laws of ranked lists, reasons and walks. The functions do nothing; their clauses are the laws, and a caller that
//! needs one calls it.
#![tactic(auto)]

ghost use Rattle.lv_boxes.specs.WalkLaws.{RankedIsInOrder, RankedListIsOne, ReducedIsImpossiblePart, ReducedIsMinimal, WalkListsFitting, WalkIsPlain, SettledWalkIsExact, WalkIsTakenUp, KeptAreApart};

/// Ranks put in order rise, and are the same ranks.
pub fn ranked_is_in_order()
    ensures { RankedIsInOrder }
{}

/// A list of rising ranks is determined by which ranks stand in it.
pub fn ranked_list_is_one()
    ensures { RankedListIsOne }
{}

/// What is left of impossible pairs is not possible, and is a part of them.
pub fn reduced_is_impossible_part()
    ensures { ReducedIsImpossiblePart }
{}

/// Where leaving a pair out makes nothing impossible, no pair can be left out of what is left: the others are possible.
pub fn reduced_is_minimal()
    ensures { ReducedIsMinimal }
{}

/// The walk in which no entry is alike another is the plain one.
pub fn walk_is_plain()
    ensures { WalkIsPlain }
{}

/// A walk lists at most `k` and no two that are alike, what it lists fits, and its trials are within the budget.
pub fn walk_lists_fitting()
    ensures { WalkListsFitting }
{}

/// Where no reason is in a candidate that fits, a settled walk lists the first `k` that fit, or all if fewer do; one that
/// lists no two which are alike lists the first `k` of those that fit and are alike none before them that fits. A walk
/// with a trial for each candidate is settled.
pub fn settled_walk_is_exact()
    ensures { SettledWalkIsExact }
{}

/// A walk that is taken up with a larger budget goes on where it stopped: a settled one stays as it is, and what was
/// listed and kept stays in front.
pub fn walk_is_taken_up()
    ensures { WalkIsTakenUp }
{}

/// Where a candidate's reason is a part of it, and no reason is another's proper part, no kept conflict of a walk is in
/// another.
pub fn kept_are_apart()
    ensures { KeptAreApart }
{}
