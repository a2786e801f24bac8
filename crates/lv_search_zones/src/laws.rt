//! Laws of the zones. The functions do nothing; their clauses are the laws, and a caller that needs one calls it.
#![tactic(auto)]

ghost use Rattle.lv_search_zones.specs.Laws.{ZonesHoldTheCandidates, ZoneHoldsTheCommandSets};

/// The members of the zones of tracked states, in the order of their ranks, are exactly the candidates of these states.
pub fn zones_hold_the_candidates()
    ensures { ZonesHoldTheCandidates }
{}

/// The members of the zone of a model, in the order of their ranks, are exactly its command sets.
pub fn zone_holds_the_command_sets()
    ensures { ZoneHoldsTheCommandSets }
{}
