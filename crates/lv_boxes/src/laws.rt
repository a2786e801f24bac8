//! Laws of zones: they hold of every grid and zone, and a caller that needs one calls it.
#![tactic(auto)]

ghost use Rattle.lv_boxes.specs.Laws.{MembersNeedChoices, SplitByMemberLosesOne};

/// A zone in which some slot has no choice left has no members, and every other zone has one that ranks first.
pub fn members_need_choices()
    ensures { MembersNeedChoices }
{}

/// Splitting a zone by all choices of one of its members takes out that member alone.
pub fn split_by_member_loses_one()
    ensures { SplitByMemberLosesOne }
{}
